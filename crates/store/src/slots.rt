// Slots for the records of a store. What is marked in a slot tells of most records that none before has the same issuer and serial, so that few
// are compared with those before.
ghost use Rattle.std.specs.Prelude.{◌≡◌, ◌+◌, ◌≤◌, ◌<◌, length};
ghost use Rattle.store.specs.Layout.{record_at};
ghost use Rattle.store.specs.Slots.{hash_of, slot_of, fingerprint_of, marked_by, suspect};

use super::{KEYS_AT, RECORD};
use octets::get32_at;

// How many slots there are.
pub const SLOTS: usize = 1024;

// The factors of issuer and serial: any that spread them over the slots.
const OF_ISSUER: u64 = 1779033703;

const OF_SERIAL: u64 = 1540483477;

// The mark of a slot whose records have several fingerprints; 0 is that of a slot without one. A byte and no enum: with a fingerprint in a variant it takes two, and a search 1,024 bytes of stack more, past what kmac.h says of it.
const SEVERAL: u8 = 255;

// A number of issuer and serial of record i, of which most have a slot, or at least a fingerprint there, of their own.
pub fn hash_at(s: &[u8], i: usize) -> u64
    requires { (i < 65536) × (record_at i + 44 ≤ length s.now) }
    ensures { result ≡ hash_of s.now i }
{
    let at = KEYS_AT + RECORD * i;
    let issuer = u64::from(get32_at(s, at));
    let serial = u64::from(get32_at(s, at + 4));
    issuer * OF_ISSUER + serial * OF_SERIAL
}

pub fn slot_of(hash: u64) -> usize
    ensures { (result ≡ slot_of hash) × (result < 1024) }
{
    (hash / 4194304) as usize % SLOTS
}

// 1 to 254.
pub fn fingerprint_of(hash: u64) -> u8
    ensures { result ≡ fingerprint_of hash }
{
    (hash % 254 + 1) as u8
}

// Whether a slot with this mark may have a record with this fingerprint.
pub fn is_suspect(mark: u8, fingerprint: u8) -> bool
    ensures { result ≡ suspect mark fingerprint }
{
    mark == fingerprint || mark == SEVERAL
}

// The mark of a slot with one more record, of this fingerprint.
pub fn marked(mark: u8, fingerprint: u8) -> u8
    ensures { result ≡ marked_by mark fingerprint }
{
    if mark == 0 || mark == fingerprint {
        fingerprint
    } else {
        SEVERAL
    }
}
