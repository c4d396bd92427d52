// Units that T-DATA.ind brings, and user data.
ghost use Rattle.std.specs.Prelude.{◌≡◌, not, cond, eqb, ◌≤◌, length};
ghost use Rattle.refusal.specs.House.{house, house_number};
ghost use Rattle.authentication.specs.Unit.{checked};
ghost use Rattle.units.specs.Units.{etcs_id, code, contents_code};
ghost use Rattle.table.specs.Table.{state_of};
ghost use Rattle.table.specs.Steps.{replayed, handed_up, Does, step, unit_indication};
ghost use Rattle.table.specs.Parts.{unawaited};

use refusal::Refusal;
use table::ends::{acting, broken, ended, ended_by_di, unmoved};
use table::{Connection, Kind, State, Step, Timer, ToTransport, ToUser};
use units::reason::{
    AUTHENTICATION, LENGTH, LENGTH_OF_DT, MAC, MAC_OF_DT, NOT_AR, NOT_AU2, NOT_AU3, REPLAY,
    SEQUENCE, UNKNOWN,
};
use units::{Code, etcs_id};

// ---- in a state that does not wait for the unit

fn replayed(kind: Kind) -> Code
    ensures { result ≡ replayed kind }
{
    match kind {
        Kind::Au3 | Kind::Ar => Code {
            reason: REPLAY,
            sub: AUTHENTICATION,
        },
        Kind::Dt => Code {
            reason: UNKNOWN,
            sub: UNKNOWN,
        },
    }
}

// Another unit than the AU2, AU3 or AR that is due.
fn not_due(sub: u8) -> Code
    ensures { result ≡ code 9 sub }
{
    Code {
        reason: SEQUENCE,
        sub,
    }
}

// The treatment of protocol errors.
fn out_of_sequence(c: Connection, kind: Kind, out: &mut [u8]) -> Step
    requires { 1032 ≤ length out.old }
    ensures { Does (unawaited kind (state_of c.state) c out.old) result.answer result.connection out.new }
{
    match State::from(c.state) {
        State::IDLE => unmoved(c),
        State::WFTC => ended(
            ToUser::DisconnectIndication(not_due(NOT_AU2)),
            ToTransport::TDiscReq,
        ),
        State::WFAR => broken(c, not_due(NOT_AR), out),
        State::WFAU3 => ended_by_di(c, ToUser::Nothing, not_due(NOT_AU3), out),
        State::DATA | State::WFRESP => broken(c, replayed(kind), out),
    }
}

// ---- AU3, AR

// AU3 in WFAU3.
fn judge_au3(c: Connection, unit: &[u8], out: &mut [u8]) -> Step
    requires { (state_of c.state ≡ State.WFAU3) × (1032 ≤ length out.old) }
    ensures { Does (step (unit_indication Kind.Au3 unit.now) c out.old) result.answer result.connection out.new }
{
    match units::au3_fault(c.key, c.own, c.ra, c.rb, unit) {
        Ok(()) => acting(
            c.entering(Connection::WFRESP),
            ToUser::ConnectIndication,
            ToTransport::Quiet,
            Timer::Keep,
            0,
        ),
        Err(why) => ended_by_di(c, ToUser::Nothing, why, out),
    }
}

// Each square asks for its state in a function of its own: one for the three would take the square as a closure, whose contract says the event's own once more.
pub fn take_au3(c: Connection, unit: &[u8], out: &mut [u8]) -> Step
    requires { 1032 ≤ length out.old }
    ensures { Does (step (unit_indication Kind.Au3 unit.now) c out.old) result.answer result.connection out.new }
{
    if c.state == Connection::WFAU3 {
        judge_au3(c, unit, out)
    } else {
        out_of_sequence(c, Kind::Au3, out)
    }
}

// AR in WFAR.
fn judge_ar(c: Connection, unit: &[u8], out: &mut [u8]) -> Step
    requires { (state_of c.state ≡ State.WFAR) × (1032 ≤ length out.old) }
    ensures { Does (step (unit_indication Kind.Ar unit.now) c out.old) result.answer result.connection out.new }
{
    match units::ar_fault(c.key, c.own, unit) {
        Ok(()) => acting(
            c.entering(Connection::DATA),
            ToUser::ConnectConfirmation,
            ToTransport::Quiet,
            Timer::Stop,
            0,
        ),
        Err(why) => broken(c, why, out),
    }
}

pub fn take_ar(c: Connection, unit: &[u8], out: &mut [u8]) -> Step
    requires { 1032 ≤ length out.old }
    ensures { Does (step (unit_indication Kind.Ar unit.now) c out.old) result.answer result.connection out.new }
{
    if c.state == Connection::WFAR {
        judge_ar(c, unit, out)
    } else {
        out_of_sequence(c, Kind::Ar, out)
    }
}

// ---- DT

// A DT that check refuses, in DATA. H8 is Pre5; of Pre6, H9 has reasons of its own, and H7 has one.
fn refuse_dt(c: Connection, h: Refusal, unit: &[u8], out: &mut [u8]) -> Step
    requires { (state_of c.state ≡ State.DATA) × ((1032 ≤ length out.old) × (checked unit.now c.key (etcs_id c.own) (not c.responder) ≡ house (house_number h))) }
    ensures { Does (step (unit_indication Kind.Dt unit.now) c out.old) result.answer result.connection out.new }
{
    match h {
        Refusal::MacDiffers => {
            let why = Code {
                reason: MAC,
                sub: MAC_OF_DT,
            };
            acting(
                c.entering(Connection::DATA),
                ToUser::ReportIndication(why),
                ToTransport::Quiet,
                Timer::Keep,
                0,
            )
        }
        Refusal::UnitContents => broken(c, units::contents_code(c.responder, unit), out),
        _ => {
            let why = Code {
                reason: LENGTH,
                sub: LENGTH_OF_DT,
            };
            broken(c, why, out)
        }
    }
}

// DT in DATA.
fn judge_dt(c: Connection, unit: &[u8], out: &mut [u8]) -> Step
    requires { (state_of c.state ≡ State.DATA) × (1032 ≤ length out.old) }
    ensures { Does (step (unit_indication Kind.Dt unit.now) c out.old) result.answer result.connection out.new }
{
    match authentication::check(unit, &c.key, etcs_id(c.own), !c.responder) {
        Ok(n) => acting(
            c.entering(Connection::DATA),
            ToUser::DataIndication(n),
            ToTransport::Quiet,
            Timer::Keep,
            0,
        ),
        Err(h) => refuse_dt(c, h, unit, out),
    }
}

pub fn take_dt(c: Connection, unit: &[u8], out: &mut [u8]) -> Step
    requires { 1032 ≤ length out.old }
    ensures { Does (step (unit_indication Kind.Dt unit.now) c out.old) result.answer result.connection out.new }
{
    if c.state == Connection::DATA {
        judge_dt(c, unit, out)
    } else {
        out_of_sequence(c, Kind::Dt, out)
    }
}

// The user data of a DT that go up.
pub fn data_of<'u, 'o>(c: Connection, unit: &'u [u8], out: &'o [u8]) -> &'u [u8]
    requires { 1032 ≤ length out.now }
    ensures { result.now ≡ handed_up (step (unit_indication Kind.Dt unit.now) c out.now).answer unit.now }
{
    if c.state != Connection::DATA {
        return &unit[..0];
    }
    authentication::user_data(unit, &c.key, etcs_id(c.own), !c.responder)
}
