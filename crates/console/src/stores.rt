// The store: searched, taken, emptied and converted. The bench has room for a store of either edition, at the front of its buffer.
ghost use Rattle.std.specs.Prelude.{◌≡◌, ◌≤◌, not};
ghost use Rattle.convert.specs.Convert.{Converts};
ghost use Rattle.console.specs.Bench.{limits_of, size_of, store_of, store_in, large_in, empty_of, conversion, large_then, store_then};

use crate::answers::{place, refused};
use crate::text::{LINE_BYTES, line};
use lines::digits::decode;
use lines::words::word;
use refusal::Refusal;
use store::editions::{LENGTH_1, LENGTH_2, edition_of};

// The length of the store that is held.
pub fn size(large: bool) -> usize
    ensures { (result ≡ size_of large) × (result ≤ 38012) }
{
    if large { LENGTH_2 } else { LENGTH_1 }
}

// The store that is held.
pub fn store_of(large: bool, store: &[u8; LENGTH_2]) -> &[u8]
    ensures { result.now ≡ store_of large store.now }
{
    let n = size(large);
    &store[..n]
}

pub fn search(store: &[u8], peer: u32, t: u32) {
    match store::find(store, peer, t) {
        Ok(found) => place(found.place, found.end),
        Err(h) => refused(h),
    }
}

// Takes the bytes of word 1 for the store, sound or not, where an edition has their length. Answers whether edition 2 is held then.
pub fn take(large: bool, text: &[u8], store: &mut [u8; LENGTH_2]) -> bool
    ensures { (result ≡ large_in text.now large) × (store_of result store.new ≡ store_in text.now (store_of large store.old)) }
{
    let mut bytes = [0u8; LINE_BYTES];
    let n = decode(word(text, 1), &mut bytes);
    match edition_of(n) {
        Some(_) => {
            store[..n].copy_from_slice(&bytes[..n]);
            line("store taken");
            n == LENGTH_2
        }
        None => {
            line("store not taken: expected 3852 or 38012 bytes");
            large
        }
    }
}

// Makes the store that is held the empty one of its edition.
pub fn clear(large: bool, store: &mut [u8; LENGTH_2])
    ensures { store_of large store.new ≡ empty_of large }
{
    let n = size(large);
    // Nothing is refused: n is the length of an edition.
    let _ = store::empty(&mut store[..n]);
}

pub fn empty(large: bool, store: &mut [u8; LENGTH_2])
    ensures { store_of large store.new ≡ empty_of large }
{
    clear(large, store);
    line("store empty");
}

// What was done to the store, and the edition that is held.
fn said(done: &str, large: bool) {
    let edition = if large { ", edition 2" } else { ", edition 1" };
    line(format_args!("{done}{edition}"));
}

// Makes the empty store of the edition that is chosen.
pub fn choose(large: bool, store: &mut [u8; LENGTH_2])
    ensures { store_of large store.new ≡ empty_of large }
{
    clear(large, store);
    said("store empty", large);
}

// Makes a store of an edition one of the other.
fn convert_from(large: bool, from: &[u8], to: &mut [u8]) -> Result<(), Refusal>
    ensures { Converts (limits_of large) (limits_of (not large)) from.now to.old to.new result }
{
    if large {
        convert::to_edition1(from, to)
    } else {
        convert::to_edition2(from, to)
    }
}

// Makes the store that is held one of the other edition, which is made in a second buffer. Answers whether edition 2 is held then.
fn convert_in(large: bool, store: &mut [u8; LENGTH_2], made: &mut [u8; LENGTH_2]) -> bool
    ensures { (result ≡ large_then (conversion large (store_of large store.old)) large) × (store_of result store.new ≡ store_then large (store_of large store.old)) }
{
    let n = size(!large);
    match convert_from(large, store_of(large, store), &mut made[..n]) {
        Ok(()) => {
            store[..n].copy_from_slice(&made[..n]);
            said("store converted", !large);
            !large
        }
        Err(h) => {
            refused(h);
            large
        }
    }
}

pub fn convert(large: bool, store: &mut [u8; LENGTH_2]) -> bool
    ensures { (result ≡ large_then (conversion large (store_of large store.old)) large) × (store_of result store.new ≡ store_then large (store_of large store.old)) }
{
    let mut made = [0u8; LENGTH_2];
    convert_in(large, store, &mut made)
}
