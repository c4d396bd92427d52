// Sessions on a buffer as a host lends it: a session of 32 bytes. Each call is the one of `session`, on the session that the buffer holds.
#![tactic(auto)]

ghost use Rattle.std.specs.Prelude.{◌≡◌};
ghost use Rattle.refusal.specs.Code.{code};
ghost use Rattle.session.specs.Sessions.{begin, begin_output};
ghost use Rattle.session.specs.Rules.{receive, received_as};
ghost use Rattle.session_buffer.specs.SessionBuffer.{session_of, begun_length, begun_buffer, reply_length, Short, Tells};

use crate::buffers::{bytes_of, is_written, load};
use refusal::Refusal;
use session::{Received, Session};

mod buffers;

// Begins a session: writes the session init to the front of out, and the session.
pub fn begin(own: u32, peer: u32, number: u16, session: &mut [u8; 32], out: &mut [u8]) -> i32
    ensures value { result ≡ code (begun_length (begin own peer number out.old)) }
    ensures session_after { session.new ≡ begun_buffer (begin own peer number out.old) session.old }
    ensures out_after { out.new ≡ begin_output (begin own peer number out.old) own peer number out.old }
{
    match Session::begin(own, peer, number, out) {
        Ok((made, n)) => {
            *session = bytes_of(made);
            n as i32
        }
        Err(h) => i32::from(h),
    }
}

// What C is told of an answer to a message.
fn told(answer: Result<Received, Refusal>) -> i32
    requires { Short (received_as answer) }
    ensures { result ≡ code (reply_length (received_as answer)) }
{
    match answer {
        Ok(Received::Reply(n)) => n as i32,
        Ok(Received::Opened | Received::Ended) => 0,
        Err(h) => i32::from(h),
    }
}

// Takes a message: works it on the store, and writes the reply to the front of out, and the session.
pub fn receive(session: &mut [u8; 32], message: &[u8], store: &mut [u8], out: &mut [u8]) -> i32
    ensures { Tells (receive (session_of session.old) message.now store.old out.old) result session.old session.new store.new out.new }
{
    let turn = load(session).receive(message, store, out);
    if is_written(turn.answer) {
        *session = bytes_of(turn.session);
    }
    told(turn.answer)
}
