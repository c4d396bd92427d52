// The caller: Sa-CONN.req in IDLE, and T-CONN.conf in WFTC.
ghost use Rattle.std.specs.Prelude.{◌≡◌, ◌≤◌, length};
ghost use Rattle.octets.specs.Bytes.{splice};
ghost use Rattle.units.specs.Units.{type_of, au1_unit, au3_unit, au2_fields};
ghost use Rattle.table.specs.Table.{state_code, state_of};
ghost use Rattle.table.specs.Steps.{calling, confirmed, acts, with_state, Does, step, connect_request, connect_confirmation};

use table::ends::{acting, ended, refuse};
use table::search::{kmac, search};
use table::{Connection, State, Step, Timer, ToTransport, ToUser};
use units::reason::{PARAMETER, UNKNOWN};
use units::{AU1_LENGTH, Code, SEALED_LENGTH};

// ---- Sa-CONN.req

// The connection that waits for the transport connection.
fn waiting(own: u32, peer: u32, rb: [u8; 8], kmac: [u8; 24]) -> Connection
    ensures { result ≡ calling own peer rb kmac }
{
    Connection {
        state: Connection::WFTC,
        responder: false,
        own,
        peer,
        ra: [0u8; 8],
        rb,
        key: kmac,
    }
}

// AU1 goes out.
fn send_au1(c: Connection, out: &mut [u8]) -> Step
    requires { (type_of c.own ≤ 7) × (1032 ≤ length out.old) }
    ensures { (result.answer ≡ Ok (acts ToUser.Nothing ToTransport.TConnReq Timer.Set 13)) × (result.connection ≡ c) × (out.new ≡ splice out.old 0 (au1_unit c.own c.rb)) }
{
    units::put_au1(out, c.own, c.rb);
    acting(
        c,
        ToUser::Nothing,
        ToTransport::TConnReq,
        Timer::Set,
        AU1_LENGTH,
    )
}

pub fn requested(
    c: Connection,
    acceptable: bool,
    own: u32,
    peer: u32,
    t: u32,
    rb: [u8; 8],
    store: &[u8],
    out: &mut [u8],
) -> Step
    requires { (state_of c.state ≡ State.IDLE) × (1032 ≤ length out.old) }
    ensures { Does (step (connect_request acceptable own peer t rb store.now) c out.old) result.answer result.connection out.new }
{
    if !acceptable {
        let why = Code {
            reason: PARAMETER,
            sub: UNKNOWN,
        };
        return acting(
            Connection::none(),
            ToUser::DisconnectIndication(why),
            ToTransport::Quiet,
            Timer::Keep,
            0,
        );
    }
    match search(store, own, peer, t) {
        Ok(place) => send_au1(waiting(own, peer, rb, kmac(store, place)), out),
        Err(h) => refuse(c, h),
    }
}

// ---- T-CONN.conf

// The session key takes the place of the KMAC.
#[tactic(auto, using(table::proofs::SideLaws::keys_made))]
fn learning(c: Connection, ra: [u8; 8]) -> Connection
    ensures { result ≡ confirmed c ra }
{
    let key = authentication::session_keys(&c.key, ra, c.rb).unwrap();
    Connection { ra, key, ..c }
}

// AU3 goes out.
fn send_au3(c: Connection, out: &mut [u8]) -> Step
    requires { 1032 ≤ length out.old }
    ensures { (result.answer ≡ Ok (acts ToUser.Nothing ToTransport.SendAu3 Timer.Keep 9)) × (result.connection ≡ with_state c (state_code State.WFAR)) × (out.new ≡ splice out.old 0 (au3_unit c.key c.peer c.ra c.rb)) }
{
    units::put_au3(out, c.key, c.peer, c.ra, c.rb);
    acting(
        c.entering(Connection::WFAR),
        ToUser::Nothing,
        ToTransport::SendAu3,
        Timer::Keep,
        SEALED_LENGTH,
    )
}

// An AU2 whose fields are right.
fn sealed(c: Connection, unit: &[u8], out: &mut [u8]) -> Step
    requires { (state_of c.state ≡ State.WFTC) × ((1032 ≤ length out.old) × (au2_fields c.peer unit.now ≡ Ok tt)) }
    ensures { Does (step (connect_confirmation unit.now) c out.old) result.answer result.connection out.new }
{
    let about = learning(c, units::random_of(unit));
    match units::au2_seal(about.key, about.own, about.rb, unit) {
        Ok(()) => send_au3(about, out),
        Err(why) => ended(ToUser::DisconnectIndication(why), ToTransport::TDiscReq),
    }
}

pub fn answered(c: Connection, unit: &[u8], out: &mut [u8]) -> Step
    requires { (state_of c.state ≡ State.WFTC) × (1032 ≤ length out.old) }
    ensures { Does (step (connect_confirmation unit.now) c out.old) result.answer result.connection out.new }
{
    match units::au2_fields(c.peer, unit) {
        Ok(()) => sealed(c, unit, out),
        Err(why) => ended(ToUser::DisconnectIndication(why), ToTransport::TDiscReq),
    }
}
