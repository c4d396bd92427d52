// The cases of change request 7 (document 02): of the keys that fit, the first with the latest end is taken.
use crate::centre::{ISSUER, OTHER, PEER, add_keys, delete, fresh, key, validity};
use crate::print::{found, kmac};
use crate::wire::Key;

// Adds a key with this period and this word of its KMAC for one peer.
fn hold(name: &[u8], s: &mut [u8], serial: u32, kmac: u32, peer: u32, start: u32, end: u32) {
    let held = Key {
        kmac,
        peer,
        start,
        end,
        ..key(serial, 1)
    };
    add_keys(name, s, held, 1, 0);
}

fn until_9(s: &mut [u8]) {
    fresh(s);
    hold(b"until 8:", s, 1, 0x01010101, PEER, 5, 8);
    hold(b"until 9:", s, 2, 0x02020202, PEER, 5, 9);
}

fn until_30(s: &mut [u8]) {
    hold(b"until 20 for another:", s, 3, 0x04040404, OTHER, 5, 20);
    hold(b"until 9 again:", s, 4, 0x08080808, PEER, 6, 9);
    hold(b"from 10 until 30:", s, 5, 0x10101010, PEER, 10, 30);
}

fn latest_end(s: &[u8]) {
    found(b"the latest end:", s, PEER, 7);
    kmac(b"the latest end, the KMAC:", s, PEER, 7);
    found(b"the latest end, T is 8:", s, PEER, 8);
    found(b"the latest end, T is 10:", s, PEER, 10);
}

fn equal_ends(s: &mut [u8]) {
    delete(b"delete the first of equal ends:", s, ISSUER, 2);
    found(b"the second of equal ends:", s, PEER, 7);
    kmac(b"the second of equal ends, the KMAC:", s, PEER, 7);
}

fn last_and_first_moment(s: &mut [u8]) {
    validity(b"the first without end:", s, 1, 5, 0xffffffff);
    found(b"without end, T is 10:", s, PEER, 10);
    validity(b"from 0 to 0:", s, 5, 0, 0);
    found(b"until 0:", s, PEER, 0);
    kmac(b"until 0, the KMAC:", s, PEER, 0);
}

pub fn several_fit(s: &mut [u8]) {
    until_9(s);
    until_30(s);
    latest_end(s);
    equal_ends(s);
    last_and_first_moment(s);
}
