// The work of a command: its requests in order, each on the store left by the one before (document 01, "What each request does").
#![tactic(auto)]

ghost use Rattle.std.specs.Prelude.{◌≡◌, true, ◌+◌, ◌*◌, ◌≤◌, length};
ghost use Rattle.octets.specs.Bytes.{get16, get32};
ghost use Rattle.octets.specs.Words.{numbers};
ghost use Rattle.store.specs.Layout.{Bounded};
ghost use Rattle.store.specs.Store.{sound};
ghost use Rattle.requests.specs.Worked.{Worked, result_number, peer_numbers};
ghost use Rattle.message.specs.Body.{size_at, fields_from, request_at};
ghost use Rattle.command.specs.Works.{Works, Reads};

use message::Command;
use message::body::{REQUESTS_AT, request_size};
use message::written::HEAD;
use octets::{get16_at, get32_at};
use requests::Failure;
use requests::entry::{Addition, KeyId, PeerList, Period};
use store::{KMAC, Limits, PEER};

// The K-IDENTIFIER at index i.
fn id_at(m: &[u8], i: usize) -> KeyId
    requires { i + 8 ≤ length m.now }
    ensures { result ≡ record { issuer = get32 m.now i; serial = get32 m.now (i + 4) } }
{
    KeyId {
        issuer: get32_at(m, i),
        serial: get32_at(m, i + 4),
    }
}

// The VALID-PERIOD at index i.
fn period_at(m: &[u8], i: usize) -> Period
    requires { i + 8 ≤ length m.now }
    ensures { result ≡ record { start = get32 m.now i; end = get32 m.now (i + 4) } }
{
    Period {
        start: get32_at(m, i),
        end: get32_at(m, i + 4),
    }
}

// The peers behind the PEER-NUM at index i.
fn peers_at(m: &[u8], i: usize) -> PeerList<'_>
    requires { i + 2 + 4 * get16 m.now i ≤ length m.now }
    ensures number { length result.bytes.now ≡ 4 * get16 m.now i }
    ensures peers { peer_numbers result ≡ numbers m.now (i + 2) (get16 m.now i) }
{
    let count = get16_at(m, i) as usize;
    PeerList {
        bytes: &m[i + 2..i + 2 + PEER * count],
    }
}

// The key that a K-STRUCT at index i brings.
#[tactic(auto, unfolding(message::specs::Body::size_at, message::specs::Body::request_at))]
fn addition_at(m: &[u8], i: usize) -> Addition<'_>
    requires { i + size_at Command.Adds m.now i ≤ length m.now }
    ensures { Reads m.now i result }
{
    let peers = peers_at(m, i + 37);
    Addition {
        id: id_at(m, i + 1),
        recipient: get32_at(m, i + 9),
        kmac: &m[i + 13..i + 13 + KMAC],
        peers,
        period: period_at(m, i + 39 + PEER * peers.count()),
    }
}

// One request, as its command has it at index i.
#[tactic(auto, unfolding(message::specs::Body::size_at, message::specs::Body::request_at))]
fn one(
    s: &mut [u8],
    lim: Limits,
    own: u32,
    command: Command,
    m: &[u8],
    i: usize,
) -> Result<(), Failure>
    requires s_value { sound lim s.old ≡ true }
    requires i_in_bounds { i + size_at command m.now i ≤ length m.now }
    ensures { Worked lim own (request_at command m.now i) s.old s.new (result_number result) }
{
    match command {
        Command::Adds => requests::add(s, lim, own, addition_at(m, i)),
        Command::Deletes => requests::delete(s, lim, id_at(m, i)),
        Command::Validities => requests::set_validity(s, lim, id_at(m, i), period_at(m, i + 8)),
        Command::Entities => requests::set_entities(s, lim, id_at(m, i), peers_at(m, i + 8)),
    }
}

// The n requests of a command whose body passed the test; RESULT k goes to byte 23 + k of the output.
pub fn work(
    s: &mut [u8],
    out: &mut [u8],
    lim: Limits,
    own: u32,
    command: Command,
    m: &[u8],
    n: usize,
)
    requires bounded { Bounded lim }
    requires s_value { sound lim s.old ≡ true }
    requires n_value { fields_from command m.now 22 n ≡ true }
    requires n_in_bounds { 23 + n ≤ length out.old }
    ensures { Works lim own command m.now n s.old s.new out.old out.new }
{
    let mut i = REQUESTS_AT;
    for k in 0..n {
        // A request stands there, since the body has passed its test.
        let size = request_size(command, m, i).unwrap();
        out[HEAD + k] = requests::result_number(one(s, lim, own, command, m, i));
        // The index moves on by the size of each request, and they differ: no iterator goes by such steps.
        i += size;
    }
}
