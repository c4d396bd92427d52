// The key centre: sends each command in a session of its own, and prints what the reply says.
use crate::print::answered;
use crate::wire::{CENTRE, DELETE_ALL_KEYS, Key, Message, OWN};
use session::Session;

pub const ISSUER: u32 = 0x01020304;

pub const PEER: u32 = 0x11223344;

pub const OTHER: u32 = 0x55667788;

// A word of a KMAC of odd parity.
const ODD: u32 = 0x01010101;

// The numbers of the two session inits, and of the first command.
const OWN_START: u16 = 9;

pub const CENTRE_START: u16 = 40;

pub const FIRST: u16 = CENTRE_START + 1;

// The length of a message with no body.
pub const LENGTH: u32 = 20;

// Makes the buffer the empty store of its length.
pub fn fresh(s: &mut [u8]) {
    let _ = store::empty(s);
}

// ---- sessions

// A waiting session; a closed one where begin refuses.
fn begun(out: &mut [u8]) -> Session {
    match Session::begin(OWN, CENTRE, OWN_START, out) {
        Ok((made, _)) => made,
        Err(_) => Session {
            state: Session::CLOSED,
            own: OWN,
            peer: CENTRE,
            next: OWN_START,
            expected: 0,
            remembered: false,
            transaction: 0,
        },
    }
}

// A session that the centre's session init with this number opens.
pub fn opened(number: u16, s: &mut [u8]) -> Session {
    let mut out = [0; Session::OUTPUT_LEAST];
    let init = Message::init(number);
    begun(&mut out)
        .receive(init.as_slice(), s, &mut out)
        .session
}

// Delivers a message, prints the answer, and gives the session for the next.
pub fn deliver(name: &[u8], session: Session, m: &Message, s: &mut [u8]) -> Session {
    let mut out = [0; Session::OUTPUT_LEAST];
    let turn = session.receive(m.as_slice(), s, &mut out);
    answered(name, turn.answer, &out);
    turn.session
}

// Sends a message in a session of its own.
fn send(name: &[u8], s: &mut [u8], m: &Message) {
    deliver(name, opened(CENTRE_START, s), &m.whole(), s);
}

// ---- commands

// The key of issuer ISSUER and this serial, valid from 5 to 9 for so many peers, each of them PEER.
pub fn key(serial: u32, count: u16) -> Key {
    Key {
        recipient: OWN,
        issuer: ISSUER,
        serial,
        kmac: ODD,
        peer: PEER,
        count,
        start: 5,
        end: 9,
    }
}

// One message for n keys: the first, and each next with a serial higher by step.
pub fn add_keys(name: &[u8], s: &mut [u8], first: Key, n: u16, step: u32) {
    send(name, s, &Message::add(FIRST, first, n, step));
}

pub fn add(name: &[u8], s: &mut [u8], serial: u32, count: u16) {
    add_keys(name, s, key(serial, count), 1, 0);
}

pub fn delete(name: &[u8], s: &mut [u8], issuer: u32, serial: u32) {
    send(name, s, &Message::delete(FIRST, issuer, serial));
}

pub fn validity(name: &[u8], s: &mut [u8], serial: u32, start: u32, end: u32) {
    send(
        name,
        s,
        &Message::validity(FIRST, ISSUER, serial, start, end),
    );
}

// Replaces the peers by so many of this one.
pub fn entities(name: &[u8], s: &mut [u8], serial: u32, peer: u32, count: u16) {
    send(
        name,
        s,
        &Message::entities(FIRST, ISSUER, serial, peer, count),
    );
}

// A message with no body: delete all keys.
pub fn delete_all(
    name: &[u8],
    session: Session,
    length: u32,
    receiver: u32,
    number: u16,
    s: &mut [u8],
) -> Session {
    let mut m = Message::header(receiver, number, DELETE_ALL_KEYS);
    m.set_length(length);
    deliver(name, session, &m, s)
}
