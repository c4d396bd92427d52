// The body test: one grammar over the four commands with a list of requests.
ghost use Rattle.std.specs.Prelude.{◌≡◌, true, ◌+◌, ◌*◌, ◌≤◌, ◌<◌, length};
ghost use Rattle.octets.specs.Bytes.{between, get16};
ghost use Rattle.message.specs.Body.{sized, size_if, most, list_ok, body_ok, fields_from};

use crate::{Command, HEADER, Task};
use octets::get16_at;

// K-LENGTH, the range of PEER-NUM, and where REQ-NUM and the requests stand.
const KEY_LENGTH: u8 = 24;

const PEERS_MOST: usize = 1000;

pub const REQ_NUM_AT: usize = 20;

pub const REQUESTS_AT: usize = 22;

// The size of a request of base bytes.
#[tactic(auto, unfolding(crate::specs::Body::size_if))]
fn fixed_size(m: &[u8], i: usize, base: usize) -> Option<usize>
    requires { i ≤ length m.now }
    ensures { result ≡ size_if true base m.now i }
{
    if m.len() - i < base { None } else { Some(base) }
}

// The size of a request of base bytes, among them a PEER-NUM at index field, and of that many identities.
#[tactic(auto, unfolding(crate::specs::Body::size_if))]
fn peers_size(m: &[u8], i: usize, field: usize, base: usize) -> Option<usize>
    requires { (i ≤ length m.now) × (field + 2 ≤ base) × (base < 100) }
    ensures { result ≡ size_if (between 1 1000 (get16 m.now (i + field))) (base + 4 * get16 m.now (i + field)) m.now i }
{
    fixed_size(m, i, base)?;
    let n = get16_at(m, i + field) as usize;
    if !(1..=PEERS_MOST).contains(&n) {
        return None;
    }
    fixed_size(m, i, base + 4 * n)
}

// The size of a K-STRUCT.
#[tactic(auto, unfolding(crate::specs::Body::size_if, crate::specs::Body::sized, crate::specs::Body::fields_ok, crate::specs::Body::size_at))]
fn add_size(m: &[u8], i: usize) -> Option<usize>
    requires { i ≤ length m.now }
    ensures { result ≡ sized Command.Adds m.now i }
{
    if *m.get(i)? != KEY_LENGTH {
        return None;
    }
    peers_size(m, i, 37, 47)
}

// The size of the request that stands at index i; none where no whole request with right fields does.
#[tactic(auto, unfolding(crate::specs::Body::sized, crate::specs::Body::fields_ok, crate::specs::Body::size_at))]
pub fn request_size(command: Command, m: &[u8], i: usize) -> Option<usize>
    requires { i ≤ length m.now }
    ensures { result ≡ sized command m.now i }
{
    match command {
        Command::Adds => add_size(m, i),
        Command::Deletes => fixed_size(m, i, 8),
        Command::Validities => fixed_size(m, i, 16),
        Command::Entities => peers_size(m, i, 8, 10),
    }
}

// The largest REQ-NUM (5.3.4, 5.3.5, 5.3.7, 5.3.8).
fn most_of(command: Command) -> usize
    ensures { result ≡ most command }
{
    match command {
        Command::Adds => 100,
        Command::Deletes => 500,
        Command::Validities => 250,
        Command::Entities => 250,
    }
}

// Whether n requests stand behind REQ-NUM, and then the message ends.
fn fields_ok(command: Command, m: &[u8], n: usize) -> bool
    requires { 22 ≤ length m.now }
    ensures { result ≡ fields_from command m.now 22 n }
{
    let mut i = REQUESTS_AT;
    for _ in 0..n {
        let Some(size) = request_size(command, m, i) else {
            return false;
        };
        // The index moves on by the size of each request, and they differ: no iterator goes by such steps.
        i += size;
    }
    i == m.len()
}

// The body test of a command with a list of requests.
fn list_ok(command: Command, m: &[u8]) -> bool
    ensures { result ≡ list_ok command m.now }
{
    if m.len() < REQUESTS_AT {
        return false;
    }
    let n = get16_at(m, REQ_NUM_AT) as usize;
    (1..=most_of(command)).contains(&n) && fields_ok(command, m, n)
}

// The body test.
#[tactic(auto, unfolding(crate::specs::Body::body_ok))]
pub fn body_ok(task: Task, m: &[u8]) -> bool
    ensures { result ≡ body_ok task m.now }
{
    match task {
        Task::Requests(command) => list_ok(command, m),
        Task::DeleteAll => m.len() == HEADER,
        Task::EndOfUpdate => m.len() == HEADER,
    }
}
