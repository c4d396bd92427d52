// Sessions: begin, and messages.
ghost use Rattle.std.specs.Prelude.{◌≡◌};
ghost use Rattle.session.specs.Sessions.{begin as beginning};
ghost use Rattle.runs.specs.Calls.{session_of};
ghost use Rattle.console.specs.Bench.{store_of, received};
ghost use Rattle.console.specs.Lent.{output};

use crate::answers::{front, refused, reply};
use crate::stores::size;
use crate::text::{LINE_BYTES, line, named};
use lines::digits::decode;
use lines::words::word;
use refusal::Refusal;
use session::{Received, Session};
use store::editions::LENGTH_2;

pub fn begin(session: Session, own: u32, peer: u32, number: u16) -> Session
    ensures { result ≡ session_of (beginning own peer number output) session }
{
    let mut out = [0u8; 1032];
    match Session::begin(own, peer, number, &mut out) {
        Ok((made, n)) => {
            named("session init ", front(&out, n));
            made
        }
        Err(h) => {
            refused(h);
            session
        }
    }
}

fn answered(answer: Result<Received, Refusal>, out: &[u8]) {
    match answer {
        Ok(Received::Reply(n)) => reply(front(out, n)),
        Ok(Received::Opened) => line("opened"),
        Ok(Received::Ended) => line("ended"),
        Err(h) => refused(h),
    }
}

// The bytes of the message stand in hex in word 1.
pub fn receive(session: Session, text: &[u8], large: bool, store: &mut [u8; LENGTH_2]) -> Session
    ensures { (result ≡ (received session text.now large store.old).session) × (store_of large store.new ≡ (received session text.now large store.old).store) }
{
    let mut bytes = [0u8; LINE_BYTES];
    let k = decode(word(text, 1), &mut bytes);
    let mut out = [0u8; 1032];
    let n = size(large);
    let turn = session.receive(&bytes[..k], &mut store[..n], &mut out);
    answered(turn.answer, &out);
    turn.session
}
