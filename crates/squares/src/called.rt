// The called side: T-CONN.ind in IDLE, and Sa-CONN.resp in WFRESP.
ghost use Rattle.std.specs.Prelude.{◌≡◌, true, ◌≤◌, length};
ghost use Rattle.octets.specs.Bytes.{splice};
ghost use Rattle.units.specs.Units.{type_of, au2_unit, ar_unit, au1_fault};
ghost use Rattle.table.specs.Table.{state_code, state_of};
ghost use Rattle.table.specs.Steps.{called, typed, acts, with_state, Does, step, connect_indication};

use table::ends::{acting, refuse, rejected};
use table::search::{kmac, search};
use table::{Connection, State, Step, Timer, ToTransport, ToUser};
use units::reason::{PARAMETER, UNKNOWN};
use units::{AU2_LENGTH, Code, SEALED_LENGTH};

// ---- T-CONN.ind

// The application type, and then the AU1.
fn typed_fault(acceptable: bool, unit: &[u8]) -> Result<(), Code>
    ensures { result ≡ typed acceptable (au1_fault unit.now) }
{
    if !acceptable {
        return Err(Code {
            reason: PARAMETER,
            sub: UNKNOWN,
        });
    }
    units::au1_fault(unit)
}

// The connection that waits for AU3.
#[tactic(auto, using(table::proofs::SideLaws::keys_made))]
fn waiting(own: u32, peer: u32, ra: [u8; 8], rb: [u8; 8], kmac: [u8; 24]) -> Connection
    ensures { result ≡ called own peer ra rb kmac }
{
    let key = authentication::session_keys(&kmac, ra, rb).unwrap();
    Connection {
        state: Connection::WFAU3,
        responder: true,
        own,
        peer,
        ra,
        rb,
        key,
    }
}

// AU2 goes out.
fn send_au2(c: Connection, out: &mut [u8]) -> Step
    requires { (type_of c.own ≤ 7) × (1032 ≤ length out.old) }
    ensures { (result.answer ≡ Ok (acts ToUser.Nothing ToTransport.TConnResp Timer.Keep 21)) × (result.connection ≡ c) × (out.new ≡ splice out.old 0 (au2_unit c.key c.own c.peer c.ra c.rb)) }
{
    units::put_au2(out, c.key, c.own, c.peer, c.ra, c.rb);
    acting(
        c,
        ToUser::Nothing,
        ToTransport::TConnResp,
        Timer::Keep,
        AU2_LENGTH,
    )
}

// An AU1 that is right.
fn joined(
    c: Connection,
    own: u32,
    t: u32,
    ra: [u8; 8],
    unit: &[u8],
    store: &[u8],
    out: &mut [u8],
) -> Step
    requires { (state_of c.state ≡ State.IDLE) × ((1032 ≤ length out.old) × (au1_fault unit.now ≡ Ok tt)) }
    ensures { Does (step (connect_indication true own t ra unit.now store.now) c out.old) result.answer result.connection out.new }
{
    let peer = units::sender_of(unit);
    match search(store, own, peer, t) {
        Ok(place) => {
            let rb = units::random_of(unit);
            send_au2(waiting(own, peer, ra, rb, kmac(store, place)), out)
        }
        Err(h) => refuse(c, h),
    }
}

pub fn invited(
    c: Connection,
    acceptable: bool,
    own: u32,
    t: u32,
    ra: [u8; 8],
    unit: &[u8],
    store: &[u8],
    out: &mut [u8],
) -> Step
    requires { (state_of c.state ≡ State.IDLE) × (1032 ≤ length out.old) }
    ensures { Does (step (connect_indication acceptable own t ra unit.now store.now) c out.old) result.answer result.connection out.new }
{
    match typed_fault(acceptable, unit) {
        Ok(()) => joined(c, own, t, ra, unit, store, out),
        Err(why) => rejected(true, ToUser::Nothing, Timer::Keep, why, out),
    }
}

// ---- Sa-CONN.resp

// AR goes out.
pub fn send_ar(c: Connection, out: &mut [u8]) -> Step
    requires { 1032 ≤ length out.old }
    ensures { (result.answer ≡ Ok (acts ToUser.Nothing ToTransport.SendAr Timer.Keep 9)) × (result.connection ≡ with_state c (state_code State.DATA)) × (out.new ≡ splice out.old 0 (ar_unit c.key c.peer)) }
{
    units::put_ar(out, c.key, c.peer);
    acting(
        c.entering(Connection::DATA),
        ToUser::Nothing,
        ToTransport::SendAr,
        Timer::Keep,
        SEALED_LENGTH,
    )
}
