// 002 Annex B step by step, session keys, and units built and checked.
use crate::text::{
    answer, byte, destination, end, front, key, line, number, pattern, refused, space, word,
};

// E under K1 of each block chained, D under K2, E under K3 (002, B.1.1.10).
pub fn annex_b() {
    line(b"annex b");
    let k1 = des::schedule(0x0102_0407_080b_0d0e);
    let h1 = step(k1, 0x0001_0203_0405_0607);
    let h2 = step(k1, h1 ^ 0x0809_0a0b_0c0d_0e0f);
    let h3 = step(k1, h2 ^ 0x1011_1213_1400_0000);
    let d = des::decipher_word(des::schedule(0x1013_1516_191a_1c1f), h3);
    word(d);
    end();
    step(des::schedule(0x2023_2526_292a_2c2f), d);
}

fn step(keys: [u64; 16], x: u64) -> u64 {
    let h = des::encipher_word(keys, x);
    word(h);
    end();
    h
}

// ---- session keys

fn bytes(s: &[u8]) {
    for b in s {
        byte(*b);
    }
    end();
}

fn derived_key(kmac: &[u8], n: u8) {
    let mut ra = [0u8; 8];
    pattern(&mut ra, 100u8.wrapping_add(n));
    let mut rb = [0u8; 8];
    pattern(&mut rb, 200u8.wrapping_add(n));
    match authentication::session_keys(kmac, ra, rb) {
        Ok(keys) => bytes(&keys),
        Err(h) => {
            refused(h);
            end();
        }
    }
}

pub fn derived_keys() {
    line(b"session keys");
    let mut kmac = [0u8; 25];
    for n in 0..5 {
        pattern(&mut kmac, n);
        derived_key(front(&kmac, 24), n);
    }
    pattern(&mut kmac, 0);
    derived_key(front(&kmac, 23), 0);
    derived_key(&kmac, 0);
}

// ---- units

// The length of a unit, its first byte, its MAC, and what check answers.
fn unit_contents(unit: &[u8], direction: bool) {
    let n = unit.len();
    if n < 9 {
        return;
    }
    number(n);
    space();
    byte(unit[0]);
    space();
    word(octets::get64_at(unit, n - 8));
    space();
    let k = key();
    answer(authentication::check(unit, &k, destination(), direction));
}

fn unit_line(n: usize, seed: u8, direction: bool) {
    number(n);
    space();
    number(usize::from(direction));
    space();
    let mut user = [0u8; 1023];
    pattern(&mut user, seed);
    let mut out = [0u8; 1032];
    let k = key();
    match authentication::build(&k, destination(), direction, front(&user, n), &mut out) {
        Ok(m) => unit_contents(front(&out, m), direction),
        Err(h) => refused(h),
    }
    end();
}

pub fn units() {
    line(b"units");
    // Each length, and the seed of its user data: the length's lowest byte.
    for n in [1, 2, 3, 4, 10, 11, 12, 114, 1018, 1019, 1020, 1023] {
        unit_line(n, (n % 256) as u8, false);
        unit_line(n, (n % 256) as u8, true);
    }
}
