// The Data Encryption Standard, FIPS 46-3, and its inverse, as the standard prints them: every permutation and the boxes by their tables.
#![tactic(auto)]

ghost use Rattle.std.specs.Prelude.{◌≡◌, true, false};
ghost use Rattle.des.specs.Bits.{bits, bits_of_bytes, bytes_of_bits};
ghost use Rattle.des.specs.Des.{cipher, des_encipher, des_decipher};
ghost use Rattle.des.specs.Words.{Keys, keys_of};

use crate::iteration::crypt;
use crate::permutation::{choice1, choice2};
use crate::shift::shift_both;
use crate::tables::SHIFTS;

pub mod iteration;
pub mod permutation;
pub mod selection;
mod shift;
pub mod tables;

// The block enciphered with the key.
// Enciphering and deciphering are two functions, each with its definition, as the C interface asks; what they share is `crypt`.
pub fn encipher(key: [u8; 8], block: [u8; 8]) -> [u8; 8]
    ensures { result ≡ des_encipher key block }
{
    store(encipher_word(schedule(load(key)), load(block)))
}

// The block deciphered with the key.
pub fn decipher(key: [u8; 8], block: [u8; 8]) -> [u8; 8]
    ensures { result ≡ des_decipher key block }
{
    store(decipher_word(schedule(load(key)), load(block)))
}

// ---- a key's schedule once, and blocks as words

// The keys of the sixteen iterations.
pub fn schedule(key: u64) -> [u64; 16]
    ensures { Keys (bits 64 key) result }
{
    let mut keys = [0u64; 16];
    let mut cd = choice1(key);
    for n in 0..16 {
        cd = shift_both(cd, u64::from(SHIFTS[n]));
        keys[n] = choice2(cd);
    }
    keys
}

// A block enciphered, and deciphered, with any sixteen keys.
pub fn encipher_word(keys: [u64; 16], x: u64) -> u64
    ensures { bits 64 result ≡ cipher (keys_of keys false) (bits 64 x) }
{
    crypt(keys, x, false)
}

pub fn decipher_word(keys: [u64; 16], x: u64) -> u64
    ensures { bits 64 result ≡ cipher (keys_of keys true) (bits 64 x) }
{
    crypt(keys, x, true)
}

// Eight bytes as one word, the first the most significant, and back.
// By `octets`: byte arithmetic stands in one place.
pub fn load(b: [u8; 8]) -> u64
    ensures { bits 64 result ≡ bits_of_bytes b }
{
    octets::get64_at(&b, 0)
}

pub fn store(x: u64) -> [u8; 8]
    ensures { result ≡ bytes_of_bits 8 (bits 64 x) }
{
    let mut b = [0u8; 8];
    octets::put64(&mut b, 0, x);
    b
}
