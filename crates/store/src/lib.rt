// The lent key store (document 01, "The key store" and "Key search"): whether it is sound, the search for a key, and the empty store.
#![tactic(auto)]

pub mod editions;
pub mod field;
pub mod search;
pub mod slots;
pub mod sound;

ghost use Rattle.std.specs.Prelude.{◌≡◌, [], ◌+◌, ◌*◌, ◌-◌, ◌<◌, length};
ghost use Rattle.store.specs.Layout.{total, Bounded, edition_of};
ghost use Rattle.store.specs.Store.{HasPlace, kmac_at, encode, sound};
ghost use Rattle.store.specs.Search.{found_as, find_in, find, key, emptied_as, empty_in, emptied};

use editions::edition_of;
use field::put_number;
use octets::clear;
use refusal::Refusal;
use search::chosen;
use sound::is_sound;

// The number and the limits of an edition of the store.
// Any numbers, and no field says that they are Bounded: sound, entries, encode and the laws take any limits, and what they say may not change.
#[derive(Clone, Copy)]
pub struct Limits {
    pub edition: usize,
    pub keys: usize,
    pub peers: usize,
}

// What find gives: the record's place, the first being 1, and its end.
#[derive(Clone, Copy)]
pub struct Found {
    pub place: usize,
    pub end: u32,
}

// Where the key records start, and the lengths of a record, of the KMAC in it and of a peer.
pub const KEYS_AT: usize = 12;

pub const RECORD: usize = 44;

pub const KMAC: usize = 24;

pub const PEER: usize = 4;

// The key for this peer at the moment t, in a store of this edition.
fn find_in(s: &[u8], lim: Limits, peer: u32, t: u32) -> Result<Found, Refusal>
    requires { Bounded lim }
    ensures { found_as result ≡ find_in (Some lim) s.now peer t }
{
    if !is_sound(s, lim) {
        return Err(Refusal::StoreUnsound);
    }
    chosen(s, lim, peer, t).ok_or(Refusal::NoKey)
}

// The key for this peer at the moment t: of the records that fit, the first with the latest end.
#[tactic(auto, using(crate::proofs::SearchLaws::edition_says), unfolding(crate::specs::Search::find, crate::specs::Search::find_in))]
pub fn find(s: &[u8], peer: u32, t: u32) -> Result<Found, Refusal>
    ensures { found_as result ≡ find s.now peer t }
{
    find_in(s, edition_of(s.len()).ok_or(Refusal::StoreLength)?, peer, t)
}

// The KMAC of the record at a place that find gave, as a part of the store: 24 bytes.
pub fn kmac_at(s: &[u8], place: usize) -> &[u8]
    requires { HasPlace s.now place }
    ensures { (result.now ≡ kmac_at s.now (place - 1)) × (length result.now ≡ 24) }
{
    let start = KEYS_AT + RECORD * (place - 1) + 8;
    &s[start..start + KMAC]
}

// The KMAC of the record that find names; empty where find refuses.
#[tactic(auto, using(crate::proofs::SearchLaws::find_placed, crate::proofs::SearchLaws::key_none))]
pub fn key(s: &[u8], peer: u32, t: u32) -> &[u8]
    ensures { result.now ≡ key s.now peer t }
{
    match find(s, peer, t) {
        Ok(found) => kmac_at(s, found.place),
        Err(_) => &[],
    }
}

// Writes the empty store of an edition into a buffer of its length.
pub fn write_empty(s: &mut [u8], lim: Limits)
    requires bounded { Bounded lim }
    requires s_len { length s.old ≡ total lim }
    ensures { s.new ≡ encode lim [] }
{
    let total = s.len();
    clear(s, 0, total);
    put_number(s, 0, lim.edition);
    put_number(s, 4, KEYS_AT);
    put_number(s, 8, KEYS_AT + RECORD * lim.keys);
    put_number(s, 10, total);
}

// Writes the empty store of the edition that has the buffer's length, whatever stood there.
#[tactic(auto, using(crate::proofs::SearchLaws::edition_says), unfolding(crate::specs::Search::empty_in, crate::specs::Search::emptied))]
pub fn empty(s: &mut [u8]) -> Result<(), Refusal>
    ensures { (emptied_as result ≡ empty_in (edition_of (length s.old))) × (s.new ≡ emptied (edition_of (length s.old)) s.old) }
{
    let lim = edition_of(s.len()).ok_or(Refusal::StoreLength)?;
    write_empty(s, lim);
    Ok(())
}
