// What the console answers, a line each.
ghost use Rattle.std.specs.Prelude.{◌≡◌, take};

use crate::text::{Word, line, named, text};
use message::written::HEAD;
use refusal::Refusal;
use session::Session;

// Where RESPONSE stands in a reply (000, 5.3.15).
const RESPONSE_AT: usize = 20;

// ---- refusals

// With the blank before it, as one piece.
fn reason(h: Refusal) -> &'static str {
    match h {
        Refusal::StoreLength => " store has the length of no edition",
        Refusal::OutputLength => " output under 1032 bytes",
        Refusal::SessionClosed => " session is closed",
        Refusal::MessageShort => " message shorter than a header",
        Refusal::NoSessionInit => " no valid session init",
        Refusal::SameIdentity => " own identity is the peer's",
        Refusal::UnitLength => " unit is not 9 to 1032 bytes",
        Refusal::MacDiffers => " MAC differs",
        Refusal::UnitContents => " no user data, or ETY, MTI or direction wrong",
        Refusal::DataLength => " user data not 1 to 1023 bytes",
        Refusal::NoKey => " no key fits",
        Refusal::StoreUnsound => " store is unsound",
        Refusal::KeyLength => " key is not 24 bytes",
        Refusal::NoRoom => " more than 64 keys or 256 peers held",
    }
}

pub fn refused(h: Refusal) {
    let number = u8::from(h);
    let reason = reason(h);
    line(format_args!("refused H{number}{reason}"));
}

// ---- replies and units

// The first n bytes of s, or all where there are fewer.
pub fn front(s: &[u8], n: usize) -> &[u8]
    ensures { result.now ≡ take n s.now }
{
    if n <= s.len() {
        return &s[..n];
    }
    s
}

// RESULT of each request.
fn results(s: &[u8]) {
    text(", RESULT");
    for result in s {
        text(format_args!(" {result}"));
    }
}

// What the module means by each RESPONSE but 0. The numbers are those of 000, 5.3.15.
fn meaning(code: u8) -> &'static str {
    match code {
        1 => " request not supported",
        2 => " message length error",
        3 => " sender is not the peer",
        4 => " receiver is not the own identity",
        5 => " unsupported interface version",
        6 => " store is unsound",
        9 => " sequence number is not the expected one",
        10 => " transaction number repeated",
        11 => " format error",
        _ => "",
    }
}

// A reply, and beside it RESPONSE and each RESULT.
pub fn reply(s: &[u8]) {
    named("reply ", s);
    if s.len() < HEAD {
        return;
    }
    let code = s[RESPONSE_AT];
    let meaning = meaning(code);
    text(format_args!("  RESPONSE {code}{meaning}"));
    if s.len() > HEAD {
        results(&s[HEAD..]);
    }
    line("");
}

pub fn place(n: usize, until: u32) {
    let until = Word(until);
    line(format_args!("place {n} until {until}"));
}

// ---- sessions

fn state(code: u8) -> &'static str {
    match code {
        Session::WAITING => "session waiting",
        Session::OPEN => "session open",
        _ => "session closed",
    }
}

pub fn shown(session: Session) {
    let Session {
        own,
        peer,
        next,
        expected,
        transaction,
        ..
    } = session;
    let state = state(session.state);
    text(format_args!("{state}, own {}, peer {}", Word(own), Word(peer)));
    text(format_args!(", next {next}, expected {expected}, last transaction "));
    if session.remembered {
        line(transaction);
    } else {
        line("none");
    }
}
