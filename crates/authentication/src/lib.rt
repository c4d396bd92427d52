// Session keys, the MAC, and data units built and checked (SUBSET-037-2, 6.2).
#![tactic(auto)]

ghost use Rattle.std.specs.Prelude.{◌≡◌, ◌≢◌, length, IfOk, IfErr};
ghost use Rattle.refusal.specs.declared.Refusal.TheVariants.{KeyLength};
ghost use Rattle.octets.specs.Bytes.{same};
ghost use Rattle.authentication.specs.Mac.{mac};
ghost use Rattle.authentication.specs.Keys.{Derives};
ghost use Rattle.authentication.specs.Unit.{Builds, checked_as, checked, data_of};

use crate::cbc::mac_word;
use crate::keys::derive;
use crate::unit::{MAC, contents_right, is_mac, mac_right, put_unit};
use octets::between;
use refusal::Refusal;

mod cbc;
pub mod keys;
pub mod string;
mod unit;

// Bytes of a unit: the first, user data, and 8 of MAC. One of 9 has no user data: its MAC is judged, then H9 (H7 is for fewer).
pub const UNIT_LEAST: usize = 9;

pub const UNIT_MOST: usize = 1032;

pub const DATA_MOST: usize = 1023;

// A triple key, by its length. Refuses H13.
fn triple_key(key: &[u8]) -> Result<&[u8; 24], Refusal>
    ensures ok { IfOk result (λ k. (k.now ≡ key.now) × (length key.now ≡ 24)) }
    ensures err { IfErr result (λ h. (h ≡ KeyLength) × (length key.now ≢ 24)) }
{
    key.try_into().map_err(|_| Refusal::KeyLength)
}

// Key, destination and direction stay three parameters: the C interface lends them apart, and document 01 fixes the form of check and user_data.
// ---- session keys

// The session keys of a KMAC, the responder's random number ra and the initiator's rb. Refuses H13.
#[tactic(auto, using(crate::proofs::AnswerLaws::derive_wrong))]
pub fn session_keys(kmac: &[u8], ra: [u8; 8], rb: [u8; 8]) -> Result<[u8; 24], Refusal>
    ensures { Derives kmac.now ra rb result }
{
    Ok(derive(triple_key(kmac)?, ra, rb))
}

// ---- data units

// Writes the unit of the user data to the front of out, and answers its length. Refuses H13, H2, H10.
pub fn build(
    key: &[u8],
    destination: [u8; 3],
    direction: bool,
    user: &[u8],
    out: &mut [u8],
) -> Result<usize, Refusal>
    ensures { Builds key.now destination direction user.now out.old out.new result }
{
    let key = triple_key(key)?;
    if out.len() < UNIT_MOST {
        return Err(Refusal::OutputLength);
    }
    if !between(1, DATA_MOST, user.len()) {
        return Err(Refusal::DataLength);
    }
    put_unit(out, key, destination, direction, user);
    Ok(user.len() + UNIT_LEAST)
}

// Judges a unit: its length, its MAC, and then its contents. Answers the length of the user data. Refuses H13, H7, H8, H9.
#[tactic(auto, using(crate::proofs::AnswerLaws::key_wrong, crate::proofs::AnswerLaws::length_wrong, crate::proofs::AnswerLaws::mac_wrong, crate::proofs::AnswerLaws::contents_wrong, crate::proofs::AnswerLaws::all_right))]
pub fn check(
    unit: &[u8],
    key: &[u8],
    destination: [u8; 3],
    direction: bool,
) -> Result<usize, Refusal>
    ensures { checked_as result ≡ checked unit.now key.now destination direction }
{
    let key = triple_key(key)?;
    if !between(UNIT_LEAST, UNIT_MOST, unit.len()) {
        return Err(Refusal::UnitLength);
    }
    if !mac_right(unit, key, destination) {
        return Err(Refusal::MacDiffers);
    }
    if !contents_right(unit, direction) {
        return Err(Refusal::UnitContents);
    }
    Ok(unit.len() - UNIT_LEAST)
}

// The user data as a part of the unit; empty where check refuses.
#[tactic(auto, using(crate::proofs::AnswerLaws::data_refused, crate::proofs::AnswerLaws::data_length, crate::proofs::AnswerLaws::data_accepted))]
pub fn user_data<'u, 'k>(
    unit: &'u [u8],
    key: &'k [u8],
    destination: [u8; 3],
    direction: bool,
) -> &'u [u8]
    ensures { result.now ≡ data_of (checked unit.now key.now destination direction) unit.now }
{
    match check(unit, key, destination, direction) {
        Ok(n) => &unit[1..n + 1],
        Err(_) => &[],
    }
}

// ---- for the crates above

// The MAC of a message, whatever its kind.
pub fn mac(key: [u8; 24], destination: [u8; 3], message: &[u8]) -> [u8; 8]
    ensures { result ≡ mac key destination message.now }
{
    des::store(mac_word(&key, destination, message))
}

// Whether the bytes sent are the MAC of a message.
#[tactic(auto, using(crate::proofs::MacLaws::mac_long))]
pub fn mac_is(key: [u8; 24], destination: [u8; 3], message: &[u8], sent: &[u8]) -> bool
    ensures { result ≡ same (mac key destination message.now) sent.now }
{
    sent.len() == MAC && is_mac(&key, destination, message, sent)
}
