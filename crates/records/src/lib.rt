// The records of a store as numbers. No part of a KMAC is among them, and what is shown is made of them alone.
#![tactic(auto)]

ghost use Rattle.std.specs.Prelude.{◌≡◌, ◌+◌, ◌*◌, ◌≤◌, ◌<◌, length};
ghost use Rattle.octets.specs.Bytes.{get16};
ghost use Rattle.store.specs.Layout.{record_at};
ghost use Rattle.runs.specs.Alike.{is_sound};
ghost use Rattle.records.specs.Records.{record_of, peer_of};

use octets::get32_at;
use store::editions::edition_of;
use store::field::number_at;
use store::sound::is_sound;
use store::{KEYS_AT, PEER, RECORD};

// Where the header has the offset of peers.
const PEERS_OFFSET: usize = 8;

// A record without its KMAC.
#[derive(Clone, Copy)]
pub struct Record {
    pub issuer: u32,
    pub serial: u32,
    pub start: u32,
    pub end: u32,
    pub first: usize,
    pub count: usize,
}

// Whether the store has the length of an edition and is sound in it.
#[tactic(auto, using(store::proofs::SearchLaws::edition_says))]
pub fn is_held(s: &[u8]) -> bool
    ensures { result ≡ is_sound s.now }
{
    edition_of(s.len()).is_some_and(|lim| is_sound(s, lim))
}

// The record of index i.
pub fn record_at(s: &[u8], i: usize) -> Record
    requires { (i < 65536) × (record_at i + 44 ≤ length s.now) }
    ensures { result ≡ record_of s.now i }
{
    let at = KEYS_AT + RECORD * i;
    Record {
        issuer: get32_at(s, at),
        serial: get32_at(s, at + 4),
        start: get32_at(s, at + 32),
        end: get32_at(s, at + 36),
        first: number_at(s, at + 40),
        count: number_at(s, at + 42),
    }
}

// The peer of index j, behind the offset of peers that the header has.
pub fn peer_at(s: &[u8], j: usize) -> u32
    requires { (12 ≤ length s.now) × (j < 65536) × (get16 s.now 8 + 4 * j + 4 ≤ length s.now) }
    ensures { result ≡ peer_of s.now j }
{
    let at = number_at(s, PEERS_OFFSET);
    get32_at(s, at + PEER * j)
}
