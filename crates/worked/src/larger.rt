// The cases of edition 2 (document 02, change request 5), and those of a header that disagrees with the length.
use crate::centre::{
    ISSUER, LENGTH, OTHER, PEER, add, add_keys, delete, delete_all, entities, fresh, key, opened,
    validity,
};
use crate::print::{counts, found, front, header, nonzero};
use crate::transactions::transactions;
use crate::wire::{Key, OWN};
use store::KEYS_AT;

// ---- limits

// So many messages of 50 keys each, from this serial on.
fn fifties(name: &[u8], s: &mut [u8], first: u32, n: u32) {
    let mut serial = first;
    for _ in 0..n {
        add_keys(name, s, key(serial, 8), 50, 1);
        serial = serial.wrapping_add(50);
    }
}

fn all_keys(s: &mut [u8]) {
    fresh(s);
    fifties(b"450 keys:", s, 1, 9);
    fifties(b"500 keys:", s, 451, 1);
    counts(s);
    add(b"500 keys, add:", s, 501, 8);
    add(b"500 keys, add a held one:", s, 5, 8);
}

fn latest_end(s: &mut [u8]) {
    found(b"the peer:", s, PEER, 8);
    validity(b"the last from 5 to 10:", s, 500, 5, 10);
    found(b"the peer then:", s, PEER, 8);
}

fn tenth_key(s: &mut [u8]) {
    delete(b"delete the tenth:", s, ISSUER, 10);
    let last = Key {
        peer: OTHER,
        ..key(501, 8)
    };
    add_keys(b"add for another:", s, last, 1, 0);
    found(b"the other:", s, OTHER, 8);
    counts(s);
}

fn thousands(s: &mut [u8]) {
    fresh(s);
    add(b"3000 peers:", s, 1, 1000);
    add(b"3000 peers:", s, 2, 1000);
    add(b"3000 peers:", s, 3, 1000);
}

fn more_peers(s: &mut [u8]) {
    add(b"3997 peers:", s, 4, 997);
    add(b"3997 peers, add with 4:", s, 5, 4);
    add(b"3997 peers, add with 3:", s, 5, 3);
    counts(s);
}

fn all_peers(s: &mut [u8]) {
    entities(b"the fourth by 987:", s, 4, PEER, 987);
    add(b"10 peers:", s, 6, 10);
    entities(b"4000 peers, 10 by 10:", s, 6, PEER, 10);
    entities(b"4000 peers, 10 by 11:", s, 6, PEER, 11);
    counts(s);
}

fn searches(s: &[u8]) {
    found(b"T is 8:", s, PEER, 8);
    found(b"last byte of the peer:", s, 0x11223345, 8);
}

// ---- header and length

// Writes a header over the buffer's.
fn headed(s: &mut [u8], bytes: [u8; KEYS_AT]) {
    if KEYS_AT <= s.len() {
        s[..KEYS_AT].copy_from_slice(&bytes);
    }
}

fn all_deleted(s: &mut [u8]) {
    let session = opened(0, s);
    delete_all(b"delete all:", session, LENGTH, OWN, 1, s);
    header(s);
}

fn as_edition_1(s: &mut [u8]) {
    fresh(s);
    headed(s, [0, 1, 0, 0, 0, 12, 0, 0, 11, 12, 15, 12]);
    delete(b"header of edition 1:", s, ISSUER, 1);
    found(b"header of edition 1, search:", s, PEER, 5);
    all_deleted(s);
    nonzero(s);
}

pub fn as_edition_2(s: &mut [u8]) {
    fresh(s);
    headed(s, [0, 2, 0, 0, 0, 12, 0, 0, 85, 252, 148, 124]);
    delete(b"header of edition 2:", s, ISSUER, 1);
    found(b"header of edition 2, search:", s, PEER, 5);
    all_deleted(s);
}

fn other_lengths(s: &[u8]) {
    found(b"3851 bytes:", front(s, 3851), PEER, 5);
    found(b"3852 bytes:", front(s, 3852), PEER, 5);
    found(b"3853 bytes:", front(s, 3853), PEER, 5);
    found(b"38011 bytes:", front(s, 38011), PEER, 5);
}

// ---- all cases, in order

pub fn larger(s: &mut [u8]) {
    all_keys(s);
    latest_end(s);
    tenth_key(s);
    thousands(s);
    more_peers(s);
    all_peers(s);
    searches(s);
    transactions(s);
    as_edition_1(s);
    other_lengths(s);
}
