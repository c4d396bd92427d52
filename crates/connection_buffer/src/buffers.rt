// A connection as 64 bytes, and the events of a step as 8.
ghost use Rattle.std.specs.Prelude.{◌≡◌, ◌++◌, ◌+◌, ◌≤◌, replicate};
ghost use Rattle.octets.specs.Bytes.{part};
ghost use Rattle.connection_buffer.specs.ConnectionBuffer.{head, connection_bytes, connection_of, events_with, event_bytes};

use table::{Actions, Connection, ToUser};
use units::header::flag;

// ---- a connection

// The N bytes from this place on.
#[tactic(auto, unfolding(octets::specs::Bytes::part))]
fn array_at<const N: usize>(buffer: &[u8; 64], at: usize) -> [u8; N]
    requires { at + N ≤ 64 }
    ensures { result ≡ part buffer.now at N }
{
    let mut bytes = [0u8; N];
    bytes.copy_from_slice(&buffer[at..at + N]);
    bytes
}

pub fn load(buffer: &[u8; 64]) -> Connection
    ensures { result ≡ connection_of buffer.now }
{
    let state = buffer[0];
    let responder = buffer[1] != 0;
    let own = octets::get32_at(buffer, 4);
    let peer = octets::get32_at(buffer, 8);
    let ra = array_at(buffer, 12);
    let rb = array_at(buffer, 20);
    let key = array_at(buffer, 28);
    Connection {
        state,
        responder,
        own,
        peer,
        ra,
        rb,
        key,
    }
}

fn head(state: u8, role: u8, own: u32, peer: u32) -> [u8; 12]
    ensures { result ≡ head state role own peer }
{
    let mut front = [0u8; 12];
    front[0] = state;
    front[1] = role;
    octets::put32(&mut front, 4, own);
    octets::put32(&mut front, 8, peer);
    front
}

fn joined(front: &[u8; 12], ra: &[u8; 8], rb: &[u8; 8], key: &[u8; 24]) -> [u8; 64]
    ensures { result ≡ front.now ++ (ra.now ++ (rb.now ++ (key.now ++ replicate 12 0))) }
{
    let mut buffer = [0u8; 64];
    octets::copy(&mut buffer, 0, front, 0, 12);
    octets::copy(&mut buffer, 12, ra, 0, 8);
    octets::copy(&mut buffer, 20, rb, 0, 8);
    octets::copy(&mut buffer, 28, key, 0, 24);
    buffer
}

pub fn bytes_of(c: Connection) -> [u8; 64]
    ensures { result ≡ connection_bytes c }
{
    let front = head(c.state, flag(c.responder), c.own, c.peer);
    let ra = c.ra;
    let rb = c.rb;
    let key = c.key;
    joined(&front, &ra, &rb, &key)
}

// ---- events: the numbers are those of kmac.h, and of the definition events_with.

fn events_with(user: ToUser, transport: u8, timer: u8, state: u8) -> [u8; 8]
    ensures { result ≡ events_with user transport timer state }
{
    match user {
        ToUser::Nothing => [0, transport, timer, state, 0, 0, 0, 0],
        ToUser::ConnectIndication => [1, transport, timer, state, 0, 0, 0, 0],
        ToUser::ConnectConfirmation => [2, transport, timer, state, 0, 0, 0, 0],
        ToUser::DataIndication(n) => {
            let [.., high, low] = n.to_be_bytes();
            [3, transport, timer, state, 0, 0, high, low]
        }
        ToUser::DisconnectIndication(why) => {
            [4, transport, timer, state, why.reason, why.sub, 0, 0]
        }
        ToUser::ReportIndication(why) => [5, transport, timer, state, why.reason, why.sub, 0, 0],
    }
}

pub fn events_of(actions: Actions, state: u8) -> [u8; 8]
    ensures { result ≡ event_bytes actions state }
{
    events_with(
        actions.user,
        actions.transport as u8,
        actions.timer as u8,
        state,
    )
}
