// The cases of repeated transaction numbers (document 02, change request 3).
use crate::centre::{CENTRE_START, FIRST, ISSUER, add_keys, deliver, fresh, key, opened};
use crate::print::{header as store_header, records, session};
use crate::wire::{CENTRE, DELETE_ALL_KEYS, END_OF_UPDATE, Message, OWN, RESERVED};
use session::Session;

// The number of the message after the first, and of that after it.
const SECOND: u16 = FIRST + 1;

const THIRD: u16 = FIRST + 2;

// What the session that is handed in remembers, and its own next number.
const REMEMBERED: u32 = 0x89abcdef;

const OWN_NEXT: u16 = 10;

// ---- messages

// Sends a message with this transaction number, and prints the answer.
fn send(name: &[u8], e: Session, transaction: u32, m: &Message, s: &mut [u8]) -> Session {
    let mut sent = m.whole();
    sent.set_transaction(transaction);
    deliver(name, e, &sent, s)
}

// Deletes one key.
fn delete(
    name: &[u8],
    e: Session,
    sequence: u16,
    transaction: u32,
    serial: u32,
    s: &mut [u8],
) -> Session {
    send(
        name,
        e,
        transaction,
        &Message::delete(sequence, ISSUER, serial),
        s,
    )
}

// Adds the first key.
fn add(name: &[u8], e: Session, sequence: u16, transaction: u32, s: &mut [u8]) -> Session {
    send(
        name,
        e,
        transaction,
        &Message::add(sequence, key(1, 1), 1, 0),
        s,
    )
}

// A message of a type with no body.
fn plain(
    name: &[u8],
    e: Session,
    sequence: u16,
    transaction: u32,
    kind: u8,
    s: &mut [u8],
) -> Session {
    send(
        name,
        e,
        transaction,
        &Message::header(OWN, sequence, kind),
        s,
    )
}

fn delete_all(name: &[u8], e: Session, sequence: u16, transaction: u32, s: &mut [u8]) -> Session {
    plain(name, e, sequence, transaction, DELETE_ALL_KEYS, s)
}

fn init(name: &[u8], e: Session, transaction: u32, s: &mut [u8]) -> Session {
    send(name, e, transaction, &Message::init(FIRST), s)
}

// ---- sessions

// A session before its first message.
fn first(s: &mut [u8]) -> Session {
    opened(CENTRE_START, s)
}

// A session that is handed in, beside the number REMEMBERED.
fn handed(state: u8, remembered: bool) -> Session {
    Session {
        state,
        own: OWN,
        peer: CENTRE,
        next: OWN_NEXT,
        expected: FIRST,
        remembered,
        transaction: REMEMBERED,
    }
}

// ---- two messages

fn two_keys(s: &mut [u8]) {
    fresh(s);
    add_keys(b"two keys:", s, key(1, 1), 2, 1);
}

fn same_number(s: &mut [u8]) {
    two_keys(s);
    let e = delete(b"one number:", first(s), FIRST, 7, 1, s);
    session(delete(b"the same number:", e, SECOND, 7, 2, s));
    records(s);
}

fn two_deleted(s: &mut [u8]) -> Session {
    two_keys(s);
    let e = delete(b"one number:", first(s), FIRST, 7, 1, s);
    delete(b"another number:", e, SECOND, 8, 2, s)
}

fn another_number(s: &mut [u8]) {
    let e = two_deleted(s);
    session(e);
    records(s);
    session(add(b"the first number again:", e, THIRD, 7, s));
}

fn zero_twice(e: Session, s: &mut [u8]) {
    let d = delete(b"number 0 first:", e, FIRST, 0, 1, s);
    session(d);
    session(delete(b"number 0 again:", d, SECOND, 0, 2, s));
}

fn number_0(s: &mut [u8]) {
    two_keys(s);
    let e = first(s);
    session(e);
    zero_twice(e, s);
    records(s);
}

// ---- a session that is handed in

fn remembered(s: &mut [u8]) {
    two_keys(s);
    let e = handed(Session::OPEN, true);
    session(e);
    session(delete(b"the remembered number:", e, FIRST, REMEMBERED, 1, s));
    session(delete(
        b"not the remembered number:",
        e,
        FIRST,
        REMEMBERED - 1,
        1,
        s,
    ));
}

fn none_remembered(s: &mut [u8]) {
    let e = handed(Session::OPEN, false);
    session(e);
    session(delete(
        b"the number, but none remembered:",
        e,
        FIRST,
        REMEMBERED,
        2,
        s,
    ));
}

fn order_of_tests(s: &mut [u8]) {
    let e = handed(Session::OPEN, true);
    session(delete_all(
        b"sequence and transaction number wrong:",
        e,
        SECOND,
        REMEMBERED,
        s,
    ));
    session(delete_all(b"sequence number wrong:", e, SECOND, 7, s));
    session(plain(
        b"transaction number and type wrong:",
        e,
        FIRST,
        REMEMBERED,
        RESERVED,
        s,
    ));
}

fn waiting(s: &mut [u8]) {
    let e = handed(Session::WAITING, true);
    session(e);
    let d = init(b"session init:", e, REMEMBERED, s);
    session(d);
    session(delete_all(b"its number again:", d, SECOND, REMEMBERED, s));
    session(delete_all(b"no session init:", e, FIRST, 7, s));
}

// ---- end of update, and after RESPONSE 1, 11 and 6

fn ends(name: &[u8], transaction: u32, s: &mut [u8]) {
    let e = delete_all(b"delete all:", first(s), FIRST, 7, s);
    session(plain(name, e, SECOND, transaction, END_OF_UPDATE, s));
}

fn ends_at_once(s: &mut [u8]) {
    session(plain(
        b"end of update first, number 0:",
        first(s),
        FIRST,
        0,
        END_OF_UPDATE,
        s,
    ));
}

fn after_type(name: &[u8], transaction: u32, s: &mut [u8]) {
    let e = plain(b"type 200:", first(s), FIRST, 7, RESERVED, s);
    session(e);
    session(delete_all(name, e, SECOND, transaction, s));
}

fn after_format(s: &mut [u8]) {
    let mut m = Message::header(OWN, FIRST, DELETE_ALL_KEYS);
    m.byte(0);
    session(send(b"format error:", first(s), 7, &m, s));
}

fn after_unsound(name: &[u8], transaction: u32, s: &mut [u8]) {
    let e = delete(b"unsound store, delete:", first(s), FIRST, 7, 1, s);
    session(e);
    session(delete_all(name, e, SECOND, transaction, s));
    store_header(s);
}

fn damage(s: &mut [u8]) {
    if 2 <= s.len() {
        s[1] = 3;
    }
}

fn unsound(s: &mut [u8]) {
    damage(s);
    after_unsound(b"unsound store, the same number:", 7, s);
    after_unsound(b"unsound store, another number:", 8, s);
}

// ---- all cases, in order

fn pairs(s: &mut [u8]) {
    same_number(s);
    another_number(s);
    number_0(s);
    remembered(s);
}

fn others(s: &mut [u8]) {
    none_remembered(s);
    order_of_tests(s);
    waiting(s);
    ends(b"end of update, the same number:", 7, s);
    ends(b"end of update, another number:", 8, s);
    ends_at_once(s);
}

fn responses(s: &mut [u8]) {
    after_type(b"type 200, the same number:", 7, s);
    after_type(b"type 200, another number:", 8, s);
    after_format(s);
    unsound(s);
}

pub fn transactions(s: &mut [u8]) {
    pairs(s);
    others(s);
    responses(s);
}
