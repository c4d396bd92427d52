// User data to send, and the end that the transport tells of.
ghost use Rattle.std.specs.Prelude.{◌≡◌, true, ◌+◌, ◌≤◌, length};
ghost use Rattle.octets.specs.Bytes.{between, splice};
ghost use Rattle.authentication.specs.Unit.{unit_of};
ghost use Rattle.units.specs.Units.{etcs_id, release_code};
ghost use Rattle.table.specs.Table.{state_code};
ghost use Rattle.table.specs.Steps.{idle, acts, with_state};

use table::ends::{acting, ended};
use table::{Connection, State, Step, Timer, ToTransport, ToUser};
use units::etcs_id;

// A DT goes out, in DATA.
pub fn send_dt(c: Connection, user: &[u8], out: &mut [u8]) -> Step
    requires { (1032 ≤ length out.old) × (between 1 1023 (length user.now) ≡ true) }
    ensures { (result.answer ≡ Ok (acts ToUser.Nothing ToTransport.SendDt Timer.Keep (length user.now + 9))) × (result.connection ≡ with_state c (state_code State.DATA)) × (out.new ≡ splice out.old 0 (unit_of c.key (etcs_id c.peer) c.responder user.now)) }
{
    let written = authentication::build(&c.key, etcs_id(c.peer), c.responder, user, out).unwrap();
    acting(
        c.entering(Connection::DATA),
        ToUser::Nothing,
        ToTransport::SendDt,
        Timer::Keep,
        written,
    )
}

// The transport connection is lost or released.
pub fn lost(reason: u8, unit: &[u8]) -> Step
    ensures { (result.answer ≡ Ok (acts (ToUser.DisconnectIndication (release_code reason unit.now)) ToTransport.Quiet Timer.StopAll 0)) × (result.connection ≡ idle) }
{
    let why = units::release_code(reason, unit);
    ended(ToUser::DisconnectIndication(why), ToTransport::Quiet)
}
