// The strings that the MACs of set-up are made of, which hold more than their units (6.2.3.2.1.9, .10).
ghost use Rattle.std.specs.Prelude.{◌≡◌, ◌∷◌, ◌++◌, length};
ghost use Rattle.units.specs.Units.{etcs_id};

use crate::{AU1_LENGTH, RANDOM, etcs_id};

// The string of an AU2's MAC: its 13 bytes, of which the last eight are RA, then RB, then B.
pub fn au2_message(caller: u32, rb: [u8; 8], text: &[u8]) -> [u8; 24]
    requires { length text.now ≡ 13 }
    ensures { result ≡ text.now ++ (rb ++ etcs_id caller) }
{
    let id = etcs_id(caller);
    let mut m = [0u8; 24];
    octets::copy(&mut m, 0, text, 0, AU1_LENGTH);
    octets::copy(&mut m, AU1_LENGTH, &rb, 0, RANDOM);
    octets::copy(&mut m, AU1_LENGTH + RANDOM, &id, 0, 3);
    m
}

// The string of an AU3's MAC: its first byte, then RB, then RA.
pub fn au3_message(first: u8, ra: [u8; 8], rb: [u8; 8]) -> [u8; 17]
    ensures { result ≡ first ∷ rb ++ ra }
{
    let mut m = [0u8; 17];
    m[0] = first;
    octets::copy(&mut m, 1, &rb, 0, RANDOM);
    octets::copy(&mut m, 1 + RANDOM, &ra, 0, RANDOM);
    m
}
