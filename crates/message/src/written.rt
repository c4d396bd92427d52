// The two messages that are written, and the session init that is read.
ghost use Rattle.std.specs.Prelude.{◌≡◌, ◌≤◌, length};
ghost use Rattle.octets.specs.Bytes.{splice};
ghost use Rattle.message.specs.Written.{header, init_bytes, reply_head, init_ok};

use crate::{
    HEADER, RECEIVER_AT, SENDER_AT, SEQUENCE_AT, TRANSACTION_AT, TYPE_AT, VERSION, VERSION_AT,
};
use octets::{put16, put32};

// Message types (5.3.3), and the time-out that means defined by the peer (5.3.13).
const SESSION_INIT: u8 = 9;

const RESPONSE: u8 = 11;

const TIME_OUT_BY_PEER: u8 = 255;

// The bytes of a session init, and of a reply before its RESULTs.
pub const HEAD: usize = 23;

// The fields of a header (5.3.3).
#[derive(Clone, Copy)]
struct Header {
    length: u32,
    receiver: u32,
    sender: u32,
    transaction: u32,
    sequence: u16,
    kind: u8,
}

impl Header {
    // Writes the header to the front of out.
    fn put(self, out: &mut [u8])
        requires { 20 ≤ length out.old }
        ensures { out.new ≡ splice out.old 0 (header self.length self.receiver self.sender self.transaction self.sequence self.kind) }
    {
        put32(out, 0, self.length);
        out[VERSION_AT] = VERSION;
        put32(out, RECEIVER_AT, self.receiver);
        put32(out, SENDER_AT, self.sender);
        put32(out, TRANSACTION_AT, self.transaction);
        put16(out, SEQUENCE_AT, self.sequence);
        out[TYPE_AT] = self.kind;
    }
}

// Writes a session init to the front of out.
pub fn put_init(out: &mut [u8], own: u32, peer: u32, start: u16)
    requires { 23 ≤ length out.old }
    ensures { out.new ≡ splice out.old 0 (init_bytes own peer start) }
{
    let header = Header {
        length: HEAD as u32,
        receiver: peer,
        sender: own,
        transaction: 0,
        sequence: start,
        kind: SESSION_INIT,
    };
    header.put(out);
    out[HEADER] = 1;
    out[HEADER + 1] = VERSION;
    out[HEADER + 2] = TIME_OUT_BY_PEER;
}

// Writes a reply before its n RESULTs to the front of out.
// RESPONSE comes as its number: its enum stands in `session`, above.
pub fn put_reply(out: &mut [u8], own: u32, peer: u32, number: u32, next: u16, response: u8, n: u16)
    requires { 23 ≤ length out.old }
    ensures { out.new ≡ splice out.old 0 (reply_head own peer number next response n) }
{
    let header = Header {
        length: HEAD as u32 + n as u32,
        receiver: peer,
        sender: own,
        transaction: number,
        sequence: next,
        kind: RESPONSE,
    };
    header.put(out);
    out[HEADER] = response;
    put16(out, HEADER + 1, n);
}

// Whether the body is that of a session init with the version in its list.
#[tactic(auto, unfolding(crate::specs::Written::init_ok))]
pub fn init_ok(m: &[u8]) -> bool
    ensures { result ≡ init_ok m.now }
{
    if m.len() <= HEADER {
        return false;
    }
    let n = m[HEADER] as usize;
    if m.len() != 22 + n {
        return false;
    }
    m[21..21 + n].contains(&VERSION)
}
