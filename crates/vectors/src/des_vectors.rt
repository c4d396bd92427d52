// The published vectors of DES: NBS Special Publication 500-20; NIST SP 800-17, Appendix B, Tables B.1 to B.4.
use crate::tables::{PERMUTATION, SUBSTITUTION};
use crate::text::{end, line, space, word};

// Key, plaintext, ciphertext, and that deciphered.
fn vector(key: [u8; 8], plain: [u8; 8]) {
    let cipher = des::encipher(key, plain);
    let back = des::decipher(key, cipher);
    word(des::load(key));
    space();
    word(des::load(plain));
    space();
    word(des::load(cipher));
    space();
    word(des::load(back));
    end();
}

// Table B.1: each bit of the plaintext in turn, under the key of all parity bits.
fn variable_plaintext() {
    line(b"variable plaintext");
    let ones = [1u8; 8];
    for i in 0..64u64 {
        vector(ones, des::store(0x8000_0000_0000_0000 >> i));
    }
}

// Table B.2: each bit of the key in turn, with odd parity.
fn variable_key() {
    line(b"variable key");
    let zero = [0u8; 8];
    for i in 0..56 {
        vector(one_bit(i), zero);
    }
}

// The key whose bit i, parity bits not counted, is set.
fn one_bit(i: usize) -> [u8; 8] {
    let mut k = [1u8; 8];
    if i < 56 {
        k[i / 7] = 0x80 >> (i % 7);
    }
    k
}

fn permutation_operation() {
    line(b"permutation operation");
    let zero = [0u8; 8];
    for key in PERMUTATION {
        vector(des::store(key), zero);
    }
}

fn substitution_table() {
    line(b"substitution table");
    for (key, plain) in SUBSTITUTION {
        vector(des::store(key), des::store(plain));
    }
}

pub fn published() {
    variable_plaintext();
    variable_key();
    permutation_operation();
    substitution_table();
}
