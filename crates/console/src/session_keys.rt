// Session keys, and units built and checked with them.
ghost use Rattle.std.specs.Prelude.{◌≡◌, true, [], MatchOption};
ghost use Rattle.runs.specs.Alike.{is_sound};
ghost use Rattle.console.specs.Units.{held_kmac, sound_kmac, keys_by, three_bytes};

use crate::answers::{front, refused};
use crate::text::{LINE_BYTES, line, named};
use lines::digits::decode;
use lines::orders::Route;
use lines::words::word;
use records::is_held;
use store::field::number_at;
use store::{KEYS_AT, KMAC, RECORD};

// ---- session keys

// The session keys of a KMAC; those before where they are refused.
fn derive(held: Option<[u8; 24]>, kmac: &[u8], ra: u64, rb: u64) -> Option<[u8; 24]>
    ensures { result ≡ keys_by kmac.now ra rb held }
{
    match authentication::session_keys(kmac, des::store(ra), des::store(rb)) {
        Ok(keys) => {
            line("session keys held");
            Some(keys)
        }
        Err(h) => {
            refused(h);
            held
        }
    }
}

// The KMAC at a place of a sound store, the first being 1.
// Nothing at a place without a record, of which `store::kmac_at` asks that it is none.
fn kmac_at(s: &[u8], place: usize) -> Option<&[u8]>
    requires { is_sound s.now ≡ true }
    ensures { MatchOption result (held_kmac s.now place ≡ []) (λ kmac. kmac.now ≡ held_kmac s.now place) }
{
    if place == 0 || place > number_at(s, 2) {
        return None;
    }
    let start = KEYS_AT + RECORD * (place - 1) + 8;
    let end = start + KMAC;
    Some(&s[start..end])
}

// The session keys of the record at a place of the store; those before where there are none.
pub fn hold(held: Option<[u8; 24]>, s: &[u8], place: usize, ra: u64, rb: u64) -> Option<[u8; 24]>
    ensures { result ≡ keys_by (sound_kmac s.now place) ra rb held }
{
    if !is_held(s) {
        line("store unsound");
        return held;
    }
    let Some(kmac) = kmac_at(s, place) else {
        line("no record at this place");
        return held;
    };
    derive(held, kmac, ra, rb)
}

// ---- units

// A destination as its bytes.
// As etcs_id of `units`, on which the console does not rest.
fn three(x: u32) -> [u8; 3]
    ensures { result ≡ three_bytes x }
{
    let [_, a, b, c] = x.to_be_bytes();
    [a, b, c]
}

// The user data stand in hex in word 3.
pub fn build(held: Option<[u8; 24]>, text: &[u8], route: Route) {
    let Some(keys) = held else {
        line("no session keys held");
        return;
    };
    let mut bytes = [0u8; LINE_BYTES];
    let n = decode(word(text, 3), &mut bytes);
    let destination = three(route.destination);
    let mut out = [0u8; 1032];
    match authentication::build(&keys, destination, route.direction, &bytes[..n], &mut out) {
        Ok(k) => named("unit ", front(&out, k)),
        Err(h) => refused(h),
    }
}

// The unit stands in hex in word 3.
pub fn check(held: Option<[u8; 24]>, text: &[u8], route: Route) {
    let Some(keys) = held else {
        line("no session keys held");
        return;
    };
    let mut bytes = [0u8; LINE_BYTES];
    let n = decode(word(text, 3), &mut bytes);
    let unit = &bytes[..n];
    let destination = three(route.destination);
    match authentication::check(unit, &keys, destination, route.direction) {
        Ok(_) => named(
            "accepted ",
            authentication::user_data(unit, &keys, destination, route.direction),
        ),
        Err(h) => refused(h),
    }
}
