// The search for a key (document 01, "Key search").
ghost use Rattle.std.specs.Prelude.{◌≡◌, true, ◌+◌, ◌*◌, ◌≤◌, ◌<◌, leb, length};
ghost use Rattle.octets.specs.Words.{numbers, elem};
ghost use Rattle.store.specs.Store.{key_count, entries, entry_at, sound};
ghost use Rattle.store.specs.Search.{fits, serves, chosen, taken, end_of};

use super::field::number_at;
use super::{Found, KEYS_AT, Limits, PEER, RECORD};
use octets::get32_at;

// Whether a key with this start and end fits at the moment t.
pub fn fits(start: u32, end: u32, t: u32) -> bool
    ensures { result ≡ fits start «end» t }
{
    start <= t && t <= end
}

// Whether one of the n numbers of four bytes from index i is x.
fn has(s: &[u8], i: usize, n: usize, x: u32) -> bool
    requires { i + 4 * n ≤ length s.now }
    ensures { result ≡ elem x (numbers s.now i n) }
{
    (0..n).any(|k| get32_at(s, i + PEER * k) == x)
}

// The end of record i of a sound store.
// That the store is sound stands in each contract here and in `depot`: a struct that holds it would be taken apart at once, since each contract names sound, entries and entry_at of the same bytes and limits.
fn end_at(s: &[u8], lim: Limits, i: usize) -> u32
    requires s_value { sound lim s.now ≡ true }
    requires i_bound { i < key_count s.now }
    ensures { result ≡ (entry_at lim s.now i).end }
{
    get32_at(s, KEYS_AT + RECORD * i + 36)
}

// Whether record i of a sound store serves the peer at the moment t.
#[tactic(auto, using(crate::proofs::SearchLaws::room))]
fn serves_at(s: &[u8], lim: Limits, i: usize, peer: u32, t: u32) -> bool
    requires s_value { sound lim s.now ≡ true }
    requires i_bound { i < key_count s.now }
    ensures { result ≡ serves peer t (entry_at lim s.now i) }
{
    let peers_at = KEYS_AT + RECORD * lim.keys;
    let at = KEYS_AT + RECORD * i;
    let first = number_at(s, at + 40);
    let count = number_at(s, at + 42);
    has(s, peers_at + PEER * first, count, peer) && fits(get32_at(s, at + 32), end_at(s, lim, i), t)
}

// Whether what is taken ends no later than this, or nothing is.
fn is_no_later(taken: Option<Found>, end: u32) -> bool
    ensures { result ≡ leb (end_of taken) «end» }
{
    taken.is_none_or(|f| f.end <= end)
}

// The record that is taken: from the last to the first, each that ends no earlier than the one taken behind it, and serves.
pub fn chosen(s: &[u8], lim: Limits, peer: u32, t: u32) -> Option<Found>
    requires { sound lim s.now ≡ true }
    ensures { result ≡ taken (chosen peer t (entries lim s.now)) (length (entries lim s.now)) }
{
    let mut taken: Option<Found> = None;
    for i in (0..number_at(s, 2)).rev() {
        let end = end_at(s, lim, i);
        if is_no_later(taken, end) && serves_at(s, lim, i, peer, t) {
            taken = Some(Found { place: i + 1, end });
        }
    }
    taken
}
