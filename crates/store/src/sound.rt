// The test of soundness (document 01, "The key store"), condition by condition in the paper's order.
ghost use Rattle.std.specs.Prelude.{◌≡◌, ◌+◌, ◌*◌, ◌≤◌, ◌<◌, length};
ghost use Rattle.octets.specs.Bytes.{part};
ghost use Rattle.store.specs.Layout.{Bounded, record_at};
ghost use Rattle.store.specs.Store.{key_count, peer_count, header_ok, counts_ok, sums_ok, same_key, new_key, unique_ok, all_odd, parity_ok, unused_ok, sound};

use super::field::number_at;
use super::slots::{SLOTS, fingerprint_of, hash_at, is_suspect, marked, slot_of};
use super::{KEYS_AT, KMAC, Limits, PEER, RECORD};
use octets::{get32_at, is_clear};

// Whether the four fixed header numbers hold.
#[tactic(auto, unfolding(crate::specs::Store::header_ok, crate::specs::Store::all_hold))]
fn header_ok(s: &[u8], lim: Limits) -> bool
    requires bounded { Bounded lim }
    requires in_bounds { 12 ≤ length s.now }
    ensures { result ≡ header_ok lim s.now }
{
    let peers_at = KEYS_AT + RECORD * lim.keys;
    number_at(s, 0) == lim.edition
        && number_at(s, 4) == KEYS_AT
        && number_at(s, 8) == peers_at
        && number_at(s, 10) == peers_at + PEER * lim.peers
}

// Whether both counts are in their limits.
#[tactic(auto, unfolding(crate::specs::Store::counts_ok))]
pub fn counts_ok(s: &[u8], lim: Limits) -> bool
    requires { 12 ≤ length s.now }
    ensures { result ≡ counts_ok lim s.now }
{
    number_at(s, 2) <= lim.keys && number_at(s, 6) <= lim.peers
}

// Whether each first peer index is the sum of the counts before it, and the sum of all is the peer count.
fn sums_ok(s: &[u8]) -> bool
    requires { record_at (key_count s.now) ≤ length s.now }
    ensures { result ≡ sums_ok s.now }
{
    let n = number_at(s, 2);
    let mut sum = 0;
    for i in 0..n {
        let at = KEYS_AT + RECORD * i;
        if number_at(s, at + 40) != sum {
            return false;
        }
        sum += number_at(s, at + 42);
    }
    sum == number_at(s, 6)
}

// Whether records i and j share issuer and serial.
// That a record lies in the bytes stands in each contract: these stores are not found sound yet, so no type can hold it.
fn same_key(s: &[u8], i: usize, j: usize) -> bool
    requires i_bound { (i < 65536) × (record_at i + 44 ≤ length s.now) }
    requires j_bound { (j < 65536) × (record_at j + 44 ≤ length s.now) }
    ensures { result ≡ same_key s.now i j }
{
    let a = KEYS_AT + RECORD * i;
    let b = KEYS_AT + RECORD * j;
    get32_at(s, a) == get32_at(s, b) && get32_at(s, a + 4) == get32_at(s, b + 4)
}

// Whether no record before record i has its issuer and serial.
fn new_key(s: &[u8], i: usize) -> bool
    requires { (i < 65536) × (record_at i + 44 ≤ length s.now) }
    ensures { result ≡ new_key s.now i }
{
    !(0..i).any(|j| same_key(s, i, j))
}

// Whether no two records share issuer and serial. Only a record that its slot makes suspect is compared with those before it.
fn unique_ok(s: &[u8]) -> bool
    requires { record_at (key_count s.now) ≤ length s.now }
    ensures { result ≡ unique_ok s.now }
{
    let n = number_at(s, 2);
    let mut marks = [0u8; SLOTS];
    for i in 0..n {
        let hash = hash_at(s, i);
        let k = slot_of(hash);
        let fingerprint = fingerprint_of(hash);
        let mark = marks[k];
        if is_suspect(mark, fingerprint) && !new_key(s, i) {
            return false;
        }
        marks[k] = marked(mark, fingerprint);
    }
    true
}

// Whether each byte of the KMAC at index i has an odd number of ones.
pub fn all_odd(s: &[u8], i: usize) -> bool
    requires { i + 24 ≤ length s.now }
    ensures { result ≡ all_odd (part s.now i 24) }
{
    s[i..i + KMAC].iter().all(|b| b.count_ones() % 2 == 1)
}

// Whether every KMAC byte has an odd number of ones.
fn parity_ok(s: &[u8]) -> bool
    requires { record_at (key_count s.now) ≤ length s.now }
    ensures { result ≡ parity_ok s.now }
{
    let n = number_at(s, 2);
    (0..n).all(|i| all_odd(s, KEYS_AT + RECORD * i + 8))
}

// Whether all unused bytes are zero.
#[tactic(auto, unfolding(crate::specs::Store::unused_ok))]
fn unused_ok(s: &[u8], lim: Limits) -> bool
    requires bounded { Bounded lim }
    requires s_len { length s.now ≡ 12 + 44 * lim.keys + 4 * lim.peers }
    requires s_bound { (key_count s.now ≤ lim.keys) × (peer_count s.now ≤ lim.peers) }
    ensures { result ≡ unused_ok lim s.now }
{
    let n = number_at(s, 2);
    let m = number_at(s, 6);
    is_clear(s, KEYS_AT + RECORD * n, RECORD * (lim.keys - n))
        && is_clear(
            s,
            KEYS_AT + RECORD * lim.keys + PEER * m,
            PEER * (lim.peers - m),
        )
}

// Whether the store is sound, for an edition with these limits: any bytes, of any length.
#[tactic(auto, using(crate::proofs::SoundLaws::counts_ok_says), unfolding(crate::specs::Store::sound, crate::specs::Store::all_hold))]
pub fn is_sound(s: &[u8], lim: Limits) -> bool
    requires { Bounded lim }
    ensures { result ≡ sound lim s.now }
{
    s.len() == KEYS_AT + RECORD * lim.keys + PEER * lim.peers
        && header_ok(s, lim)
        && counts_ok(s, lim)
        && sums_ok(s)
        && unique_ok(s)
        && parity_ok(s)
        && unused_ok(s, lim)
}
