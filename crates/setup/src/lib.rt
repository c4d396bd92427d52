// Connection set-up (SUBSET-037-2, 6.2.6): one connection, as caller or called, on a KMAC of the store. Each call that hands back a step is an event of Table 20, with a match on the state of which each arm is a square; `unit` matches on the kind, and its squares ask for the state.
#![tactic(auto)]

ghost use Rattle.std.specs.Prelude.{◌≡◌};
ghost use Rattle.table.specs.Steps.{Does, step, connect_request, connect_response, data_request, disconnect_request, connect_indication, connect_confirmation, disconnect_indication, unit_indication, time_out, handed_up, kind_of, kind_numbered};

use authentication::DATA_MOST;
use octets::between;
use refusal::Refusal;
use squares::called::{invited, send_ar};
use squares::calling::{answered, requested};
use squares::received::{data_of, take_ar, take_au3, take_dt};
use squares::user::{lost, send_dt};
use table::ends::{broken, ended, ended_by_di, refuse, unmoved};
use table::{Connection, Kind, State, Step, ToTransport, ToUser};
use units::Code;
use units::header::{AR, AU3, mti};
use units::reason::{NO_AR, TIME_OUT};

// Each event tests H2 for itself: one function for it would take the square as a closure, whose contract says the event's own once more.

// ---- events from the user

// Sa-CONNECT.request, at the moment t: searches the key of the peer, and sends AU1. Refuses H2, H1, H12, H11.
// The parameters of a request or an indication are those that C lends, one by one: a struct of them would be made in one call and taken apart in the next.
pub fn request(
    c: Connection,
    acceptable: bool,
    own: u32,
    peer: u32,
    t: u32,
    rb: [u8; 8],
    store: &[u8],
    out: &mut [u8],
) -> Step
    ensures { Does (step (connect_request acceptable own peer t rb store.now) c out.old) result.answer result.connection out.new }
{
    if out.len() < Connection::OUTPUT_LEAST {
        return refuse(c, Refusal::OutputLength);
    }
    match State::from(c.state) {
        State::IDLE => requested(c, acceptable, own, peer, t, rb, store, out),
        State::WFTC => unmoved(c),
        State::WFAR => unmoved(c),
        State::DATA => unmoved(c),
        State::WFAU3 => unmoved(c),
        State::WFRESP => unmoved(c),
    }
}

// Sa-CONNECT.response: sends AR. Refuses H2.
pub fn respond(c: Connection, out: &mut [u8]) -> Step
    ensures { Does (step connect_response c out.old) result.answer result.connection out.new }
{
    if out.len() < Connection::OUTPUT_LEAST {
        return refuse(c, Refusal::OutputLength);
    }
    match State::from(c.state) {
        State::IDLE => unmoved(c),
        State::WFTC => unmoved(c),
        State::WFAR => unmoved(c),
        State::DATA => unmoved(c),
        State::WFAU3 => unmoved(c),
        State::WFRESP => send_ar(c, out),
    }
}

// Sa-DATA.request: sends DT. Refuses H2, H10.
pub fn send(c: Connection, user: &[u8], out: &mut [u8]) -> Step
    ensures { Does (step (data_request user.now) c out.old) result.answer result.connection out.new }
{
    if out.len() < Connection::OUTPUT_LEAST {
        return refuse(c, Refusal::OutputLength);
    }
    if !between(1, DATA_MOST, user.len()) {
        return refuse(c, Refusal::DataLength);
    }
    match State::from(c.state) {
        State::IDLE => unmoved(c),
        State::WFTC => unmoved(c),
        State::WFAR => unmoved(c),
        State::DATA => send_dt(c, user, out),
        State::WFAU3 => unmoved(c),
        State::WFRESP => unmoved(c),
    }
}

// Sa-DISCONNECT.request, with a reason and a sub-reason for the peer. Refuses H2.
pub fn release(c: Connection, reason: u8, sub: u8, out: &mut [u8]) -> Step
    ensures { Does (step (disconnect_request reason sub) c out.old) result.answer result.connection out.new }
{
    if out.len() < Connection::OUTPUT_LEAST {
        return refuse(c, Refusal::OutputLength);
    }
    let why = Code { reason, sub };
    match State::from(c.state) {
        State::IDLE => unmoved(c),
        State::WFTC => ended(ToUser::Nothing, ToTransport::TDiscReq),
        State::WFAR => ended_by_di(c, ToUser::Nothing, why, out),
        State::DATA => ended_by_di(c, ToUser::Nothing, why, out),
        State::WFAU3 => unmoved(c),
        State::WFRESP => ended_by_di(c, ToUser::Nothing, why, out),
    }
}

// ---- events from the transport

// T-CONNECT.indication with an AU1, at the moment t: searches the key of the caller, and sends AU2. Refuses H2, H1, H12, H11.
pub fn indicated(
    c: Connection,
    acceptable: bool,
    own: u32,
    t: u32,
    ra: [u8; 8],
    unit: &[u8],
    store: &[u8],
    out: &mut [u8],
) -> Step
    ensures { Does (step (connect_indication acceptable own t ra unit.now store.now) c out.old) result.answer result.connection out.new }
{
    if out.len() < Connection::OUTPUT_LEAST {
        return refuse(c, Refusal::OutputLength);
    }
    match State::from(c.state) {
        State::IDLE => invited(c, acceptable, own, t, ra, unit, store, out),
        State::WFTC => unmoved(c),
        State::WFAR => unmoved(c),
        State::DATA => unmoved(c),
        State::WFAU3 => unmoved(c),
        State::WFRESP => unmoved(c),
    }
}

// T-CONNECT.confirmation with an AU2: sends AU3. Refuses H2.
pub fn confirmed(c: Connection, unit: &[u8], out: &mut [u8]) -> Step
    ensures { Does (step (connect_confirmation unit.now) c out.old) result.answer result.connection out.new }
{
    if out.len() < Connection::OUTPUT_LEAST {
        return refuse(c, Refusal::OutputLength);
    }
    match State::from(c.state) {
        State::IDLE => unmoved(c),
        State::WFTC => answered(c, unit, out),
        State::WFAR => unmoved(c),
        State::DATA => unmoved(c),
        State::WFAU3 => unmoved(c),
        State::WFRESP => unmoved(c),
    }
}

// T-DISCONNECT.indication, with a DI where the unit is not empty. Refuses H2.
pub fn disconnected(c: Connection, reason: u8, unit: &[u8], out: &mut [u8]) -> Step
    ensures { Does (step (disconnect_indication reason unit.now) c out.old) result.answer result.connection out.new }
{
    if out.len() < Connection::OUTPUT_LEAST {
        return refuse(c, Refusal::OutputLength);
    }
    match State::from(c.state) {
        State::IDLE => unmoved(c),
        State::WFTC => lost(reason, unit),
        State::WFAR => lost(reason, unit),
        State::DATA => lost(reason, unit),
        State::WFAU3 => ended(ToUser::Nothing, ToTransport::Quiet),
        State::WFRESP => lost(reason, unit),
    }
}

// An AU3, AR or DT, by T-DATA.indication. Refuses H2.
pub fn unit(c: Connection, kind: Kind, unit: &[u8], out: &mut [u8]) -> Step
    ensures { Does (step (unit_indication kind unit.now) c out.old) result.answer result.connection out.new }
{
    if out.len() < Connection::OUTPUT_LEAST {
        return refuse(c, Refusal::OutputLength);
    }
    match kind {
        Kind::Au3 => take_au3(c, unit, out),
        Kind::Ar => take_ar(c, unit, out),
        Kind::Dt => take_dt(c, unit, out),
    }
}

// With what `unit` takes: the user data that go up, as a part of the unit; empty where none do.
pub fn user_data<'u, 'o>(c: Connection, kind: Kind, unit: &'u [u8], out: &'o [u8]) -> &'u [u8]
    ensures { result.now ≡ handed_up (step (unit_indication kind unit.now) c out.now).answer unit.now }
{
    if out.len() < Connection::OUTPUT_LEAST {
        return &[];
    }
    match kind {
        Kind::Au3 | Kind::Ar => &[],
        Kind::Dt => data_of(c, unit, out),
    }
}

// ---- the timer

// The time-out of T estab. Refuses H2.
pub fn time_out(c: Connection, out: &mut [u8]) -> Step
    ensures { Does (step time_out c out.old) result.answer result.connection out.new }
{
    if out.len() < Connection::OUTPUT_LEAST {
        return refuse(c, Refusal::OutputLength);
    }
    let why = Code {
        reason: TIME_OUT,
        sub: NO_AR,
    };
    match State::from(c.state) {
        State::IDLE => unmoved(c),
        State::WFTC => ended(ToUser::DisconnectIndication(why), ToTransport::TDiscReq),
        State::WFAR => broken(c, why, out),
        State::DATA => unmoved(c),
        State::WFAU3 => unmoved(c),
        State::WFRESP => unmoved(c),
    }
}

// ---- which unit

// Which unit a T-DATA.indication brought, by its MTI, for a host that has no other way to know; anything else, and nothing at all, is taken as a DT.
pub fn kind_of(unit: &[u8]) -> Kind
    ensures { result ≡ kind_of unit.now }
{
    match *unit {
        [first, ..] if mti(first) == AU3 => Kind::Au3,
        [first, ..] if mti(first) == AR => Kind::Ar,
        _ => Kind::Dt,
    }
}

// The same by the number that a host gives; any other is taken as a DT. A function of this crate, in which must-fail/kind_2_is_au3.edit tries it.
pub fn kind_numbered(n: u8) -> Kind
    ensures { result ≡ kind_numbered n }
{
    if n == Kind::Au3 as u8 {
        Kind::Au3
    } else if n == Kind::Ar as u8 {
        Kind::Ar
    } else {
        Kind::Dt
    }
}
