// The worked numbers of document 01 that concern sessions and the store, with those of change requests 3, 4, 5 and 7, a line for each case. Every store is built through messages.
#![tactic(auto)]

mod centre;
mod larger;
mod latest;
mod print;
mod transactions;
mod wire;

use centre::{
    ISSUER, LENGTH, OTHER, PEER, add, add_keys, delete, delete_all, entities, fresh, key, opened,
    validity,
};
use larger::{as_edition_2, larger};
use latest::several_fit;
use print::{counts, found, kmac, nonzero, records};
use store::editions::{LENGTH_1, LENGTH_2};
use transactions::transactions;
use wire::{Key, OWN};

// A word of the other's KMAC, of odd parity too.
const OTHER_KMAC: u32 = 0x02020202;

const STRANGER: u32 = 8;

// The sequence number that zero follows.
const LAST: u16 = 65535;

// ---- limits

fn first_keys(s: &mut [u8]) {
    fresh(s);
    delete(b"empty store, delete:", s, ISSUER, 1);
    add(b"one key:", s, 1, 1);
    add(b"the same key:", s, 1, 1);
    add_keys(b"one key twice in a message:", s, key(2, 1), 2, 0);
}

fn all_keys(s: &mut [u8]) {
    fresh(s);
    add_keys(b"64 keys:", s, key(1, 1), 64, 1);
    add(b"64 keys, add:", s, 65, 1);
    add(b"64 keys, add a held one:", s, 5, 1);
}

fn tenth_key(s: &mut [u8]) {
    delete(b"delete the tenth:", s, ISSUER, 10);
    add(b"add:", s, 65, 1);
    records(s);
}

fn more_peers(s: &mut [u8]) {
    fresh(s);
    add(b"253 peers:", s, 1, 253);
    add(b"253 peers, add with 4:", s, 2, 4);
    add(b"253 peers, add with 3:", s, 2, 3);
    counts(s);
}

fn all_peers(s: &mut [u8]) {
    fresh(s);
    add(b"246 peers:", s, 1, 246);
    add(b"10 peers:", s, 2, 10);
    entities(b"256 peers, 10 by 10:", s, 2, PEER, 10);
    entities(b"256 peers, 10 by 11:", s, 2, PEER, 11);
    counts(s);
}

// ---- keys and searches

// The key of serial 1 with KMAC bytes 00.
fn bad_key(recipient: u32) -> Key {
    Key {
        recipient,
        kmac: 0,
        ..key(1, 1)
    }
}

fn bad_keys(s: &mut [u8]) {
    fresh(s);
    add_keys(b"byte 00:", s, bad_key(OWN), 1, 0);
    add_keys(b"wrong recipient and byte 00:", s, bad_key(STRANGER), 1, 0);
    counts(s);
}

fn moments_and_peers(s: &[u8]) {
    found(b"T is 4:", s, PEER, 4);
    found(b"T is start:", s, PEER, 5);
    found(b"T is 8:", s, PEER, 8);
    found(b"T is end:", s, PEER, 9);
    kmac(b"T is end, the KMAC:", s, PEER, 9);
    found(b"T is 10:", s, PEER, 10);
    kmac(b"T is 10, the KMAC:", s, PEER, 10);
    found(b"last byte of the peer:", s, 0x11223345, 5);
    found(b"first byte of the peer:", s, 0x12223344, 5);
}

fn one_key(s: &mut [u8]) {
    add(b"from 5 to 9:", s, 1, 1);
    moments_and_peers(s);
    delete(b"last byte of the serial:", s, ISSUER, 2);
    delete(b"first byte of the issuer:", s, 0x02020304, 1);
}

fn one_moment(s: &mut [u8]) {
    validity(b"from 5 to 5:", s, 1, 5, 5);
    found(b"start is end, T is 4:", s, PEER, 4);
    found(b"start is end:", s, PEER, 5);
    found(b"start is end, T is 6:", s, PEER, 6);
}

fn without_end(s: &mut [u8]) {
    validity(b"from 9 to FFFFFFFF:", s, 1, 9, 0xffffffff);
    found(b"without end, T is 8:", s, PEER, 8);
    found(b"without end, T is FFFFFFFF:", s, PEER, 0xffffffff);
}

fn reversed(s: &mut [u8]) {
    validity(b"from 6 to 5:", s, 1, 6, 5);
    found(b"start after end, T is 5:", s, PEER, 5);
    found(b"start after end, T is 6:", s, PEER, 6);
}

fn other_periods(s: &mut [u8]) {
    one_moment(s);
    without_end(s);
    reversed(s);
}

fn both_peers(s: &[u8]) {
    found(b"the peer:", s, PEER, 5);
    found(b"the other:", s, OTHER, 5);
    kmac(b"the other's KMAC:", s, OTHER, 5);
}

fn three_keys(s: &mut [u8]) {
    add(b"a second for the peer:", s, 2, 3);
    let third = Key {
        kmac: OTHER_KMAC,
        peer: OTHER,
        ..key(3, 1)
    };
    add_keys(b"a third for another:", s, third, 1, 0);
    both_peers(s);
}

fn replaced_peers(s: &mut [u8]) {
    entities(b"the second for two of the other:", s, 2, OTHER, 2);
    found(b"the other now:", s, OTHER, 5);
    counts(s);
}

fn first_removed(s: &mut [u8]) {
    delete(b"delete the first:", s, ISSUER, 1);
    records(s);
    found(b"the other then:", s, OTHER, 5);
}

fn all_removed(s: &mut [u8]) {
    delete(b"delete the third:", s, ISSUER, 3);
    delete(b"delete the second:", s, ISSUER, 2);
    nonzero(s);
}

fn refusals(s: &mut [u8]) {
    if s.len() < 2 {
        return;
    }
    found(b"short store:", &s[1..], PEER, 5);
    s[1] = 2;
    found(b"unsound store:", s, PEER, 5);
}

// ---- sessions

fn all_deleted(s: &mut [u8]) {
    let session = opened(0, s);
    delete_all(b"delete all:", session, LENGTH, OWN, 1, s);
    found(b"delete all, the peer:", s, PEER, 5);
}

fn last_number(s: &mut [u8]) {
    let session = opened(LAST - 1, s);
    let next = delete_all(
        b"expected 65535, received 65535:",
        session,
        LENGTH,
        OWN,
        LAST,
        s,
    );
    delete_all(b"then received 0:", next, LENGTH, OWN, 0, s);
}

fn wrong_header(s: &mut [u8]) {
    let session = opened(0, s);
    delete_all(
        b"length and receiver both wrong:",
        session,
        LENGTH + 1,
        STRANGER,
        1,
        s,
    );
}

// ---- all cases, in order

fn limits(s: &mut [u8]) {
    first_keys(s);
    all_keys(s);
    tenth_key(s);
    more_peers(s);
    all_peers(s);
}

fn searches(s: &mut [u8]) {
    bad_keys(s);
    one_key(s);
    other_periods(s);
    three_keys(s);
    replaced_peers(s);
    first_removed(s);
    all_removed(s);
    several_fit(s);
    refusals(s);
}

fn smaller(s: &mut [u8]) {
    limits(s);
    searches(s);
    all_deleted(s);
    last_number(s);
    wrong_header(s);
    transactions(s);
}

fn main() {
    let mut s = [0u8; LENGTH_1];
    smaller(&mut s);
    let mut t = [0u8; LENGTH_2];
    larger(&mut t);
    as_edition_2(&mut s);
}
