// What a step hands back: the outgoing events and the connection, or a refusal.
ghost use Rattle.std.specs.Prelude.{◌≡◌, ◌≤◌, length};
ghost use Rattle.octets.specs.Bytes.{splice};
ghost use Rattle.units.specs.Units.{di_unit};
ghost use Rattle.table.specs.Steps.{idle, acts};

use crate::{Actions, Connection, Step, Timer, ToTransport, ToUser};
use refusal::Refusal;
use units::{Code, DI_LENGTH};

// A refusal leaves the connection.
pub fn refuse(c: Connection, h: Refusal) -> Step
    ensures { (result.answer ≡ Err h) × (result.connection ≡ c) }
{
    Step {
        answer: Err(h),
        connection: c,
    }
}

// The outgoing events, and the connection afterwards.
pub fn acting(
    c: Connection,
    user: ToUser,
    transport: ToTransport,
    timer: Timer,
    written: usize,
) -> Step
    ensures { (result.answer ≡ Ok (acts user transport timer written)) × (result.connection ≡ c) }
{
    let actions = Actions {
        user,
        transport,
        timer,
        written,
    };
    Step {
        answer: Ok(actions),
        connection: c,
    }
}

// Nothing is done.
pub fn unmoved(c: Connection) -> Step
    ensures { (result.answer ≡ Ok (acts ToUser.Nothing ToTransport.Quiet Timer.Keep 0)) × (result.connection ≡ c) }
{
    acting(c, ToUser::Nothing, ToTransport::Quiet, Timer::Keep, 0)
}

// The end of a connection, without a unit.
pub fn ended(user: ToUser, transport: ToTransport) -> Step
    ensures { (result.answer ≡ Ok (acts user transport Timer.StopAll 0)) × (result.connection ≡ idle) }
{
    acting(Connection::none(), user, transport, Timer::StopAll, 0)
}

// The end of a connection, with a DI of this role; the timer is as the square has it.
// Each function here and in `squares` asks for the least output: a struct of an output that is long enough would hold the `&mut`, and each contract would say once more that it is the same buffer.
pub fn rejected(responder: bool, user: ToUser, timer: Timer, why: Code, out: &mut [u8]) -> Step
    requires { 1032 ≤ length out.old }
    ensures { (result.answer ≡ Ok (acts user ToTransport.TDiscReqDi timer 3)) × (result.connection ≡ idle) × (out.new ≡ splice out.old 0 (di_unit responder why.reason why.sub)) }
{
    units::put_di(out, responder, why);
    acting(
        Connection::none(),
        user,
        ToTransport::TDiscReqDi,
        timer,
        DI_LENGTH,
    )
}

// The same with a19.
pub fn ended_by_di(c: Connection, user: ToUser, why: Code, out: &mut [u8]) -> Step
    requires { 1032 ≤ length out.old }
    ensures { (result.answer ≡ Ok (acts user ToTransport.TDiscReqDi Timer.StopAll 3)) × (result.connection ≡ idle) × (out.new ≡ splice out.old 0 (di_unit c.responder why.reason why.sub)) }
{
    rejected(c.responder, user, Timer::StopAll, why, out)
}

// And with Sa-DISC.ind of the same reason.
pub fn broken(c: Connection, why: Code, out: &mut [u8]) -> Step
    requires { 1032 ≤ length out.old }
    ensures { (result.answer ≡ Ok (acts (ToUser.DisconnectIndication why) ToTransport.TDiscReqDi Timer.StopAll 3)) × (result.connection ≡ idle) × (out.new ≡ splice out.old 0 (di_unit c.responder why.reason why.sub)) }
{
    ended_by_di(c, ToUser::DisconnectIndication(why), why, out)
}
