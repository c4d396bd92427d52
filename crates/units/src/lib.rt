// The units of connection set-up (SUBSET-037-2, 6.2.5): AU1, AU2, AU3, AR and DI, written and judged.
#![tactic(auto)]

ghost use Rattle.std.specs.Prelude.{◌≡◌, [], ◌∷◌, ◌++◌, ◌/◌, ◌%◌, ◌≤◌, cond, eqb, length, take};
ghost use Rattle.octets.specs.Bytes.{splice};
ghost use Rattle.authentication.specs.Mac.{mac};
ghost use Rattle.units.specs.Units.{type_of, etcs_id, sender_of, random, au1_unit, au2_mac, au2_unit, au3_unit, ar_unit, di_unit, test, first_fault, au1_fault, au2_fields, au2_seal, au3_fault, ar_fault, code, contents_code, release_code};

use crate::header::{
    AR, AU1, AU2, AU3, DI, DT, NO_TYPE, TO_INITIATOR, TO_RESPONDER, df, ety, first_byte, flag, mti,
};
use crate::message::{au2_message, au3_message};
use crate::reason::{
    DIRECTION, FIELD, INFORMATION, LENGTH, LENGTH_OF_AR, LENGTH_OF_AU1, LENGTH_OF_AU2,
    LENGTH_OF_AU3, LENGTH_OF_DT, MAC, MAC_OF_AR, MAC_OF_AU2, MAC_OF_AU3, NOT_AR, NOT_AU2, NOT_AU3,
    NOT_ONE, NOT_ZERO, PARAMETER, RESPONDING_ID, SAFETY_FEATURE, SEQUENCE, TRANSPORT, UNKNOWN,
};

pub mod header;
mod message;
pub mod reason;

// Bytes of an AU1 and of an AU2 (Tables 8 and 9), in which SaF and the random number stand at the same places.
pub const AU1_LENGTH: usize = 13;

pub const AU2_LENGTH: usize = 21;

const SAF_AT: usize = 4;

const RANDOM_AT: usize = 5;

// Bytes of a random number.
const RANDOM: usize = 8;

// Bytes of an AU3 and of an AR: the first, and the MAC (Tables 10 and 11).
pub const SEALED_LENGTH: usize = 9;

// Bytes of a DT with the least user data, and of a DI (Tables 12 and 13).
const DT_LEAST: usize = 10;

pub const DI_LENGTH: usize = 3;

// The safety feature: single DES with modified MAC algorithm 3 (Table 8).
const SAF: u8 = 1;

// What is wrong with a unit, or why a connection ends: a reason and a sub-reason.
#[derive(Clone, Copy, Debug, PartialEq, Eq)]
pub struct Code {
    pub reason: u8,
    pub sub: u8,
}

// ---- identities

pub fn type_of(identity: u32) -> u8
    ensures { result ≡ type_of identity }
{
    (identity >> 24) as u8
}

pub fn etcs_id(identity: u32) -> [u8; 3]
    ensures { result ≡ etcs_id identity }
{
    let [_, first, second, third] = identity.to_be_bytes();
    [first, second, third]
}

// ETY and SA of an AU1 or AU2.
pub fn sender_of(unit: &[u8]) -> u32
    requires { 4 ≤ length unit.now }
    ensures { result ≡ sender_of unit.now }
{
    u32::from_be_bytes([ety(unit[0]), unit[1], unit[2], unit[3]])
}

// The random number of an AU1 or AU2.
#[tactic(auto, unfolding(octets::specs::Bytes::part))]
pub fn random_of(unit: &[u8]) -> [u8; 8]
    requires { 13 ≤ length unit.now }
    ensures { result ≡ random unit.now }
{
    let mut r = [0u8; 8];
    r.copy_from_slice(&unit[RANDOM_AT..AU1_LENGTH]);
    r
}

// ---- writing

// The 13 bytes of an AU1, or of an AU2 before its MAC.
fn put_text(out: &mut [u8], first: u8, own: u32, random: [u8; 8])
    requires { 13 ≤ length out.old }
    ensures { out.new ≡ splice out.old 0 (first ∷ etcs_id own ++ (1 ∷ random)) }
{
    let id = etcs_id(own);
    let head = [first, id[0], id[1], id[2], SAF];
    octets::copy(out, 0, &head, 0, 5);
    octets::copy(out, RANDOM_AT, &random, 0, RANDOM);
}

// A first byte and a MAC.
fn put_sealed(out: &mut [u8], first: u8, key: [u8; 24], destination: u32, message: &[u8])
    requires { 9 ≤ length out.old }
    ensures { out.new ≡ splice out.old 0 (first ∷ mac key (etcs_id destination) message.now) }
{
    let mac = authentication::mac(key, etcs_id(destination), message);
    out[0] = first;
    octets::copy(out, 1, &mac, 0, 8);
}

// The caller's first unit.
#[tactic(auto, unfolding(crate::specs::Units::au1_unit))]
pub fn put_au1(out: &mut [u8], own: u32, rb: [u8; 8])
    requires { (type_of own ≤ 7) × (13 ≤ length out.old) }
    ensures { out.new ≡ splice out.old 0 (au1_unit own rb) }
{
    let first = first_byte(type_of(own), AU1, TO_RESPONDER);
    put_text(out, first, own, rb);
}

// The MAC of an AU2 behind its 13 bytes.
fn put_au2_mac(out: &mut [u8], key: [u8; 24], caller: u32, rb: [u8; 8])
    requires { 21 ≤ length out.old }
    ensures { out.new ≡ splice out.old 13 (au2_mac key caller rb (take 13 out.old)) }
{
    let m = au2_message(caller, rb, &out[..AU1_LENGTH]);
    let mac = authentication::mac(key, etcs_id(caller), &m);
    octets::copy(out, AU1_LENGTH, &mac, 0, 8);
}

// The answer of the called side, `own`, to it.
// Key, identities and random numbers come one by one: the connection that has them is a type of `table`, above.
pub fn put_au2(out: &mut [u8], key: [u8; 24], own: u32, caller: u32, ra: [u8; 8], rb: [u8; 8])
    requires { (type_of own ≤ 7) × (21 ≤ length out.old) }
    ensures { out.new ≡ splice out.old 0 (au2_unit key own caller ra rb) }
{
    let first = first_byte(type_of(own), AU2, TO_INITIATOR);
    put_text(out, first, own, ra);
    put_au2_mac(out, key, caller, rb);
}

// The caller's second unit, to the responder.
#[tactic(auto, unfolding(crate::specs::Units::au3_unit, crate::specs::Units::au3_mac))]
pub fn put_au3(out: &mut [u8], key: [u8; 24], responder: u32, ra: [u8; 8], rb: [u8; 8])
    requires { 9 ≤ length out.old }
    ensures { out.new ≡ splice out.old 0 (au3_unit key responder ra rb) }
{
    let first = first_byte(NO_TYPE, AU3, TO_RESPONDER);
    let m = au3_message(first, ra, rb);
    put_sealed(out, first, key, responder, &m);
}

// The responder's second unit, to the caller.
#[tactic(auto, unfolding(crate::specs::Units::ar_unit, crate::specs::Units::ar_mac))]
pub fn put_ar(out: &mut [u8], key: [u8; 24], caller: u32)
    requires { 9 ≤ length out.old }
    ensures { out.new ≡ splice out.old 0 (ar_unit key caller) }
{
    let first = first_byte(NO_TYPE, AR, TO_INITIATOR);
    let m = [first];
    put_sealed(out, first, key, caller, &m);
}

// The unit that ends a connection.
#[tactic(auto, unfolding(crate::specs::Units::di_unit, octets::specs::Bytes::part))]
pub fn put_di(out: &mut [u8], responder: bool, why: Code)
    requires { 3 ≤ length out.old }
    ensures { out.new ≡ splice out.old 0 (di_unit responder why.reason why.sub) }
{
    let first = first_byte(NO_TYPE, DI, flag(responder));
    let d = [first, why.reason, why.sub];
    octets::copy(out, 0, &d, 0, DI_LENGTH);
}

// ---- judging

// One test of a unit: where it fails, the unit is refused with this reason and sub-reason.
fn test(passed: bool, reason: u8, sub: u8) -> Result<(), Code>
    ensures { result ≡ cond passed (Ok tt) (Err (code reason sub)) }
{
    if passed {
        Ok(())
    } else {
        Err(Code { reason, sub })
    }
}

#[tactic(auto, unfolding(crate::specs::Units::au1_fault, crate::specs::Units::first_fault))]
pub fn au1_fault(unit: &[u8]) -> Result<(), Code>
    ensures { result ≡ au1_fault unit.now }
{
    test(unit.len() == AU1_LENGTH, LENGTH, LENGTH_OF_AU1)?;
    test(mti(unit[0]) == AU1, FIELD, INFORMATION)?;
    test(df(unit[0]) == TO_RESPONDER, DIRECTION, NOT_ZERO)?;
    test(unit[SAF_AT] == SAF, PARAMETER, SAFETY_FEATURE)
}

// Of an AU2, what is judged before the session key can be made of its random number.
#[tactic(auto, unfolding(crate::specs::Units::au2_fields, crate::specs::Units::first_fault))]
pub fn au2_fields(peer: u32, unit: &[u8]) -> Result<(), Code>
    ensures { result ≡ au2_fields peer unit.now }
{
    test(unit.len() == AU2_LENGTH, LENGTH, LENGTH_OF_AU2)?;
    test(mti(unit[0]) == AU2, SEQUENCE, NOT_AU2)?;
    test(sender_of(unit) == peer, FIELD, RESPONDING_ID)?;
    test(unit[SAF_AT] == SAF, PARAMETER, SAFETY_FEATURE)
}

// And what is judged with it.
#[tactic(auto, unfolding(crate::specs::Units::au2_seal, crate::specs::Units::first_fault))]
pub fn au2_seal(key: [u8; 24], own: u32, rb: [u8; 8], unit: &[u8]) -> Result<(), Code>
    requires { length unit.now ≡ 21 }
    ensures { result ≡ au2_seal key own rb unit.now }
{
    let m = au2_message(own, rb, &unit[..AU1_LENGTH]);
    let sealed = authentication::mac_is(key, etcs_id(own), &m, &unit[AU1_LENGTH..]);
    test(sealed, MAC, MAC_OF_AU2)?;
    test(df(unit[0]) == TO_INITIATOR, DIRECTION, NOT_ONE)
}

// The first byte of an AU3 or AR whose MAC is right: the type that is due, no ETY, and the flag; `other` and `swapped` are the sub-reasons of the first and the last.
#[tactic(auto, unfolding(crate::specs::Units::first_fault))]
fn header_fault(first: u8, due: u8, other: u8, direction: u8, swapped: u8) -> Result<(), Code>
    ensures { result ≡ first_fault (test (eqb (first / 2 % 16) due) 9 other ∷ test (eqb (first / 32) 0) 8 1 ∷ test (eqb (first % 2) direction) 6 swapped ∷ []) }
{
    test(mti(first) == due, SEQUENCE, other)?;
    test(ety(first) == NO_TYPE, FIELD, INFORMATION)?;
    test(df(first) == direction, DIRECTION, swapped)
}

#[tactic(auto, unfolding(crate::specs::Units::au3_fault, crate::specs::Units::first_fault))]
pub fn au3_fault(key: [u8; 24], own: u32, ra: [u8; 8], rb: [u8; 8], unit: &[u8]) -> Result<(), Code>
    ensures { result ≡ au3_fault key own ra rb unit.now }
{
    test(unit.len() == SEALED_LENGTH, LENGTH, LENGTH_OF_AU3)?;
    let m = au3_message(unit[0], ra, rb);
    let sealed = authentication::mac_is(key, etcs_id(own), &m, &unit[1..]);
    test(sealed, MAC, MAC_OF_AU3)?;
    header_fault(unit[0], AU3, NOT_AU3, TO_RESPONDER, NOT_ZERO)
}

#[tactic(auto, unfolding(crate::specs::Units::ar_fault, crate::specs::Units::first_fault))]
pub fn ar_fault(key: [u8; 24], own: u32, unit: &[u8]) -> Result<(), Code>
    ensures { result ≡ ar_fault key own unit.now }
{
    test(unit.len() == SEALED_LENGTH, LENGTH, LENGTH_OF_AR)?;
    let sealed = authentication::mac_is(key, etcs_id(own), &unit[..1], &unit[1..]);
    test(sealed, MAC, MAC_OF_AR)?;
    header_fault(unit[0], AR, NOT_AR, TO_INITIATOR, NOT_ONE)
}

// ---- reason and sub-reason of other units

// Of a DT that is refused with H9.
#[tactic(auto, unfolding(crate::specs::Units::contents_code))]
pub fn contents_code(responder: bool, unit: &[u8]) -> Code
    ensures { result ≡ contents_code responder unit.now }
{
    if unit.len() < DT_LEAST {
        return Code {
            reason: LENGTH,
            sub: LENGTH_OF_DT,
        };
    }
    if mti(unit[0]) != DT || ety(unit[0]) != NO_TYPE {
        return Code {
            reason: FIELD,
            sub: INFORMATION,
        };
    }
    let sub = if responder { NOT_ZERO } else { NOT_ONE };
    Code {
        reason: DIRECTION,
        sub,
    }
}

// Of T-DISC.ind with this reason and unit; without a unit it has no bytes.
#[tactic(auto, unfolding(crate::specs::Units::release_code))]
pub fn release_code(reason: u8, unit: &[u8]) -> Code
    ensures { result ≡ release_code reason unit.now }
{
    match *unit {
        [] => Code {
            reason: TRANSPORT,
            sub: reason,
        },
        [first, reason, sub] if mti(first) == DI => Code { reason, sub },
        _ => Code {
            reason: UNKNOWN,
            sub: UNKNOWN,
        },
    }
}
