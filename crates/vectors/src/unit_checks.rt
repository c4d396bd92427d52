// Units refused and accepted, and builds refused (document 01, "Numbers to work by hand").
use crate::text::{answer, destination, end, front, key, line, pattern, space};

fn check_with(unit: &[u8], k: &[u8], d: [u8; 3], direction: bool) {
    answer(authentication::check(unit, k, d, direction));
    end();
}

fn check(unit: &[u8], direction: bool) {
    let k = key();
    check_with(unit, &k, destination(), direction);
}

// The unit that the checks start from.
fn sample() -> [u8; 19] {
    let mut user = [0u8; 10];
    pattern(&mut user, 5);
    let mut out = [0u8; 1032];
    let k = key();
    let _ = authentication::build(&k, destination(), true, &user, &mut out);
    let mut unit = [0u8; 19];
    octets::copy(&mut unit, 0, &out, 0, 19);
    unit
}

// The unit with the lowest bit of byte i changed.
fn flipped(unit: [u8; 19], i: usize) -> [u8; 19] {
    let mut u = unit;
    if i < 19 {
        u[i] = u[i] ^ 1;
    }
    u
}

// A message of one byte with its MAC.
// Two sizes, here and in `sealed`: an array of N + 8 bytes can't be named for a const N.
fn one_byte(first: u8) -> [u8; 9] {
    let m: [u8; 1] = [first];
    let mac = authentication::mac(key(), destination(), &m);
    let mut u = [0u8; 9];
    u[0] = first;
    octets::copy(&mut u, 1, &mac, 0, 8);
    u
}

// A message of three bytes with its MAC.
fn sealed(first: u8) -> [u8; 11] {
    let m: [u8; 3] = [first, 7, 7];
    let mac = authentication::mac(key(), destination(), &m);
    let mut u = [0u8; 11];
    octets::copy(&mut u, 0, &m, 0, 3);
    octets::copy(&mut u, 3, &mac, 0, 8);
    u
}

fn lengths() {
    let u = sample();
    check(front(&u, 8), true);
    let nine = one_byte(0x0a);
    check(&nine, false);
    let mut wrong = nine;
    wrong[8] = wrong[8] ^ 1;
    check(&wrong, false);
    let long = [0u8; 1033];
    check(&long, false);
}

fn contents() {
    let other_mti = sealed(0x0c);
    check(&other_mti, false);
    let other_ety = sealed(0x2a);
    check(&other_ety, false);
    let right = sealed(0x0a);
    check(&right, false);
}

fn keys_of_other_length() {
    let u = sample();
    let k = key();
    check_with(&u, front(&k, 23), destination(), true);
    let mut long = [0u8; 25];
    pattern(&mut long, 1);
    check_with(front(&u, 8), &long, destination(), true);
}

pub fn checks() {
    line(b"checks");
    let u = sample();
    check(&u, true);
    check(&u, false);
    let k = key();
    let mut elsewhere = destination();
    elsewhere[2] = elsewhere[2].wrapping_add(1);
    check_with(&u, &k, elsewhere, true);
    let mut other = [0u8; 24];
    pattern(&mut other, 2);
    check_with(&u, &other, destination(), true);
    let last = flipped(u, 18);
    check(&last, false);
    lengths();
    contents();
    keys_of_other_length();
}

// What check answers where byte i is damaged.
fn damaged_at(i: usize) {
    let u = flipped(sample(), i);
    let k = key();
    answer(authentication::check(&u, &k, destination(), true));
}

pub fn damaged() {
    line(b"damaged");
    damaged_at(0);
    for i in 1..19 {
        space();
        damaged_at(i);
    }
    end();
}

// ---- builds

fn build(k: &[u8], user: &[u8], out: &mut [u8]) {
    answer(authentication::build(k, destination(), false, user, out));
    end();
}

// Into 1,031 bytes.
fn builds_short() {
    let mut user = [0u8; 2];
    pattern(&mut user, 3);
    let mut out = [0u8; 1031];
    let k = key();
    build(&k, &user, &mut out);
    build(&k, front(&user, 0), &mut out);
}

// Into 1,032 bytes.
fn builds_whole() {
    let mut user = [0u8; 1024];
    pattern(&mut user, 3);
    let mut out = [0u8; 1032];
    let k = key();
    build(&k, front(&user, 0), &mut out);
    build(&k, &user, &mut out);
}

// Into 1,033 bytes.
fn builds_long() {
    let mut user = [0u8; 2];
    pattern(&mut user, 3);
    let mut out = [0u8; 1033];
    let k = key();
    build(&k, &user, &mut out);
}

fn builds_other_key() {
    let none = [0u8; 0];
    let mut out = [0u8; 1031];
    let k = key();
    build(front(&k, 23), &none, &mut out);
}

pub fn builds() {
    line(b"builds");
    builds_short();
    builds_whole();
    builds_long();
    builds_other_key();
}
