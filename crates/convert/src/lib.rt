// A store of one edition made one of the other, between two lent buffers (change request 6).
#![tactic(auto)]

ghost use Rattle.std.specs.Prelude.{◌≡◌, true, eqb, length};
ghost use Rattle.store.specs.Layout.{total, Bounded, edition1, edition2};
ghost use Rattle.store.specs.Store.{entries, encode, sound};
ghost use Rattle.convert.specs.Convert.{has_room, Converts};

use octets::copy;
use refusal::Refusal;
use store::editions::{EDITION_1, EDITION_2};
use store::field::{number_at, put_number};
use store::sound::{counts_ok, is_sound};
use store::{KEYS_AT, Limits, PEER, RECORD, write_empty};

// Whether a buffer has the length of an edition's stores.
fn has_length(s: &[u8], lim: Limits) -> bool
    requires { Bounded lim }
    ensures { result ≡ eqb (length s.now) (total lim) }
{
    s.len() == KEYS_AT + RECORD * lim.keys + PEER * lim.peers
}

// Writes the entries of a sound store as a store of the target's edition. A first peer index is the same in both, so records and peers are copied as they stand.
fn write(from: &[u8], source: Limits, to: &mut [u8], target: Limits)
    requires bounded { (Bounded source) × (Bounded target) × (length to.old ≡ total target) }
    requires from_value { sound source from.now ≡ true }
    requires from_value_2 { has_room target (entries source from.now) ≡ true }
    ensures { to.new ≡ encode target (entries source from.now) }
{
    let n = number_at(from, 2);
    let m = number_at(from, 6);
    let peers_from = KEYS_AT + RECORD * source.keys;
    let peers_to = KEYS_AT + RECORD * target.keys;
    write_empty(to, target);
    put_number(to, 2, n);
    put_number(to, 6, m);
    copy(to, KEYS_AT, from, KEYS_AT, RECORD * n);
    copy(to, peers_to, from, peers_from, PEER * m);
}

// Makes a store of the source's edition one of the target's.
fn convert(from: &[u8], source: Limits, to: &mut [u8], target: Limits) -> Result<(), Refusal>
    requires { (Bounded source) × (Bounded target) }
    ensures { Converts source target from.now to.old to.new result }
{
    if !has_length(from, source) {
        return Err(Refusal::StoreLength);
    }
    if !has_length(to, target) {
        return Err(Refusal::StoreLength);
    }
    if !is_sound(from, source) {
        return Err(Refusal::StoreUnsound);
    }
    if !counts_ok(from, target) {
        return Err(Refusal::NoRoom);
    }
    write(from, source, to, target);
    Ok(())
}

// Makes a store of edition 1 one of edition 2, with the same entries in the same order. Refuses H1, H12.
pub fn to_edition2(from: &[u8], to: &mut [u8]) -> Result<(), Refusal>
    ensures { Converts edition1 edition2 from.now to.old to.new result }
{
    convert(from, EDITION_1, to, EDITION_2)
}

// The same from edition 2 to edition 1. Refuses H1, H12, and H14 where its keys or peers have no room there.
pub fn to_edition1(from: &[u8], to: &mut [u8]) -> Result<(), Refusal>
    ensures { Converts edition2 edition1 from.now to.old to.new result }
{
    convert(from, EDITION_2, to, EDITION_1)
}
