// What the cases print: a line each.
use message::written::HEAD;
use octets::{get16_at, get32_at};
use refusal::Refusal;
use session::{Received, Session};
use store::field::number_at;
use store::{Found, KEYS_AT, RECORD};

// The descriptor of standard output.
const STANDARD_OUTPUT: i32 = 1;

// Where RESPONSE and REQ-NUM stand in a reply, and the RESPONSE of a command that was worked (000, 5.3.15).
const RESPONSE_AT: usize = 20;

const REQ_NUM_AT: usize = 21;

const DONE: u8 = 0;

fn text(b: &[u8]) {
    io::write_all(STANDARD_OUTPUT, b);
}

fn number(x: u64) {
    text(b" ");
    io::print_decimal(STANDARD_OUTPUT, x);
}

fn bytes(s: &[u8]) {
    for b in s {
        number(u64::from(*b));
    }
}

// The first n bytes of s, or all where there are fewer.
// As in the console: programs share no crate of their own, and the module has no use for it.
pub fn front(s: &[u8], n: usize) -> &[u8] {
    s.get(..n).unwrap_or(s)
}

// ---- replies

// The RESULTs; where there is none, or RESPONSE is not 0, RESPONSE and REQ-NUM.
fn replied(reply: &[u8]) {
    if reply.len() < HEAD {
        return;
    }
    if reply.len() > HEAD && reply[RESPONSE_AT] == DONE {
        bytes(&reply[HEAD..]);
    } else {
        text(b" RESPONSE");
        number(u64::from(reply[RESPONSE_AT]));
        text(b", REQ-NUM");
        number(u64::from(get16_at(reply, REQ_NUM_AT)));
    }
}

fn refused(h: Refusal) {
    text(b" H");
    io::print_decimal(STANDARD_OUTPUT, u64::from(u8::from(h)));
}

// The name, and what is answered.
pub fn answered(name: &[u8], answer: Result<Received, Refusal>, out: &[u8]) {
    text(name);
    match answer {
        Ok(Received::Reply(n)) => replied(front(out, n)),
        Ok(Received::Opened) => text(b" opened"),
        Ok(Received::Ended) => text(b" ended"),
        Err(h) => refused(h),
    }
    text(b"\n");
}

// ---- sessions

// The state, and what is remembered.
pub fn session(e: Session) {
    text(b"session:");
    match e.state {
        Session::WAITING => text(b" waiting"),
        Session::OPEN => text(b" open"),
        _ => text(b" closed"),
    }
    text(b", last transaction");
    if e.remembered {
        number(u64::from(e.transaction));
    } else {
        text(b" none");
    }
    text(b"\n");
}

// ---- the store

// The name, and the place that a search finds with its end, or H and the refusal's number.
pub fn found(name: &[u8], s: &[u8], peer: u32, t: u32) {
    text(name);
    match store::find(s, peer, t) {
        Ok(Found { place, end }) => {
            number(place as u64);
            text(b" until");
            number(u64::from(end));
        }
        Err(h) => refused(h),
    }
    text(b"\n");
}

// The name, and the KMAC that a search hands back.
pub fn kmac(name: &[u8], s: &[u8], peer: u32, t: u32) {
    text(name);
    bytes(store::key(s, peer, t));
    text(b"\n");
}

// Key count and peer count.
pub fn counts(s: &[u8]) {
    if s.len() < KEYS_AT {
        return;
    }
    text(b"counts:");
    number(number_at(s, 2) as u64);
    number(number_at(s, 6) as u64);
    text(b"\n");
}

// The serials in store order.
pub fn records(s: &[u8]) {
    if s.len() < KEYS_AT {
        return;
    }
    text(b"records:");
    for record in s[KEYS_AT..].chunks_exact(RECORD).take(number_at(s, 2)) {
        number(u64::from(get32_at(record, 4)));
    }
    text(b"\n");
}

// How many bytes are not zero.
pub fn nonzero(s: &[u8]) {
    text(b"bytes not zero:");
    number(s.iter().filter(|b| **b != 0).count() as u64);
    text(b"\n");
}

// The bytes of the header.
pub fn header(s: &[u8]) {
    text(b"header:");
    bytes(front(s, KEYS_AT));
    text(b"\n");
}
