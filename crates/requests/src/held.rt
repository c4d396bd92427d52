// The record with an issuer and a serial, compared in all four bytes of each.
ghost use Rattle.std.specs.Prelude.{◌≡◌, ◌==◌, ◌&&◌, false, IfSome, MatchOption, ◌+◌, ◌≤◌, ◌<◌, length};
ghost use Rattle.octets.specs.Bytes.{get32};
ghost use Rattle.store.specs.declared.Limits.{Limits};
ghost use Rattle.store.specs.Layout.{record_at};
ghost use Rattle.store.specs.Store.{key_count, entries};
ghost use Rattle.store.specs.Request.{is_held, key_place};

use super::entry::KeyId;
use octets::get32_at;
use store::field::number_at;
use store::{KEYS_AT, RECORD};

// Whether record i has this issuer and serial.
fn has_key(s: &[u8], i: usize, id: KeyId) -> bool
    requires { (i < 65536) × (record_at i + 44 ≤ length s.now) }
    ensures { result ≡ (get32 s.now (record_at i) == id.issuer && get32 s.now (record_at i + 4) == id.serial) }
{
    let at = KEYS_AT + RECORD * i;
    get32_at(s, at) == id.issuer && get32_at(s, at + 4) == id.serial
}

// The place of the record with this issuer and serial, counted from 0.
pub fn key_place(s: &[u8], id: KeyId) -> Option<usize>
    requires { record_at (key_count s.now) ≤ length s.now }
    ensures counted { IfSome result (λ i. i < key_count s.now) }
    ensures found { (L : Limits) → MatchOption result (is_held id.issuer id.serial (entries L s.now) ≡ false)
        (λ i. i ≡ key_place id.issuer id.serial (entries L s.now)) }
{
    (0..number_at(s, 2)).find(|i| has_key(s, *i, id))
}
