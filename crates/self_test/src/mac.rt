// The MAC: Annex B of SUBSET-037-2, and a message's MAC against the printed tables.
ghost use Rattle.std.specs.Prelude.{◌≡◌, true, ◌+◌, ◌/◌, length};
ghost use Rattle.des.specs.Bits.{bits};
ghost use Rattle.authentication.specs.Mac.{chain, mac_string};
ghost use Rattle.self_test.specs.Plain.{Chains, Macs};

use crate::words::{decipher, encipher, fast_decipher, fast_encipher};
use authentication::keys::join;
use authentication::string::{blocks, word_by_bytes};

// The keys of Annex B.
const B1: u64 = 0x0102_0407_080b_0d0e;

const B2: u64 = 0x1013_1516_191a_1c1f;

const B3: u64 = 0x2023_2526_292a_2c2f;

// Keys whose three schedules look up every entry of permuted choice 2 by groups.
const K1: u64 = 0x4561_57bf_b6ab_fbe5;

const K2: u64 = 0x9d54_6497_bf46_cd7a;

const K3: u64 = 0xf8ec_ae25_b99b_02f8;

// Three blocks chained from zero under k1, then k2 and k3, by the joined rounds.
fn fast_cbc_mac(k1: u64, k2: u64, k3: u64, x: u64, y: u64, z: u64) -> u64
    ensures { Chains k1 k2 k3 x y z result }
{
    let h = fast_encipher(k1, 0 ^ x);
    let i = fast_encipher(k1, h ^ y);
    let j = fast_encipher(k1, i ^ z);
    let d = fast_decipher(k2, j);
    fast_encipher(k3, d)
}

// Annex B by the joined rounds: the string 00 to 14 and three zero bytes.
pub fn annex_b() -> bool
    ensures { result ≡ true }
{
    let x = 0x0001_0203_0405_0607;
    let y = 0x0809_0a0b_0c0d_0e0f;
    let z = 0x1011_1213_1400_0000;
    fast_cbc_mac(B1, B2, B3, x, y, z) == 0x361d_431e_d396_c175
}

// The chain over the blocks of a message's string, by the printed tables.
fn plain_chain(k1: u64, destination: [u8; 3], m: &[u8]) -> u64
    ensures { bits 64 result ≡ chain (bits 64 k1) (mac_string destination m.now) ((length m.now + 12) / 8) }
{
    let mut h: u64 = 0;
    for k in 0..blocks(m) {
        h = encipher(k1, h ^ word_by_bytes(k, destination, m));
    }
    h
}

// The MAC of a message by the printed tables.
fn plain_mac(k1: u64, k2: u64, k3: u64, destination: [u8; 3], m: &[u8]) -> u64
    ensures { Macs k1 k2 k3 destination m.now result }
{
    let h = plain_chain(k1, destination, m);
    encipher(k3, decipher(k2, h))
}

// Byte i is i modulo 251, so that no two blocks are alike.
fn fill(m: &mut [u8]) {
    for (i, byte) in m.iter_mut().enumerate() {
        *byte = (i % 251) as u8;
    }
}

// A long message's MAC, as the module makes it, against the printed tables: its 65 blocks look up every entry of the joined table.
pub fn mac_right() -> bool
    ensures { result ≡ true }
{
    let mut m = [0u8; 512];
    fill(&mut m);
    let destination: [u8; 3] = [0x12, 0x34, 0x56];
    let made = authentication::mac(join(K1, K2, K3), destination, &m);
    let plain = plain_mac(K1, K2, K3, destination, &m);
    des::load(made) == plain
}
