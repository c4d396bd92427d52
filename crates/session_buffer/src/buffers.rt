// The session as C keeps it.
ghost use Rattle.std.specs.Prelude.{◌≡◌};
ghost use Rattle.session.specs.Rules.{received_as};
ghost use Rattle.session_buffer.specs.SessionBuffer.{session_bytes, session_of, writes_session};

use refusal::Refusal;
use session::{Received, Session};

// Where its fields stand; the state is byte 0, and the bytes behind the transaction number are zero.
const REMEMBERED_AT: usize = 1;

const NEXT_AT: usize = 2;

const EXPECTED_AT: usize = 4;

const OWN_AT: usize = 6;

const PEER_AT: usize = 10;

const TRANSACTION_AT: usize = 14;

pub fn load(buffer: &[u8; 32]) -> Session
    ensures { result ≡ session_of buffer.now }
{
    Session {
        state: buffer[0],
        own: octets::get32_at(buffer, OWN_AT),
        peer: octets::get32_at(buffer, PEER_AT),
        next: octets::get16_at(buffer, NEXT_AT),
        expected: octets::get16_at(buffer, EXPECTED_AT),
        remembered: buffer[REMEMBERED_AT] != 0,
        transaction: octets::get32_at(buffer, TRANSACTION_AT),
    }
}

#[tactic(auto, unfolding(octets::specs::Bytes::splice))]
pub fn bytes_of(session: Session) -> [u8; 32]
    ensures { result ≡ session_bytes session }
{
    let mut buffer = [0; 32];
    buffer[0] = session.state;
    buffer[REMEMBERED_AT] = u8::from(session.remembered);
    octets::put16(&mut buffer, NEXT_AT, session.next);
    octets::put16(&mut buffer, EXPECTED_AT, session.expected);
    octets::put32(&mut buffer, OWN_AT, session.own);
    octets::put32(&mut buffer, PEER_AT, session.peer);
    octets::put32(&mut buffer, TRANSACTION_AT, session.transaction);
    buffer
}

// Whether the session is written after an answer: of the refusals H5 alone changes it.
pub fn is_written(answer: Result<Received, Refusal>) -> bool
    ensures { result ≡ writes_session (received_as answer) }
{
    match answer {
        Ok(_) => true,
        Err(h) => h == Refusal::NoSessionInit,
    }
}
