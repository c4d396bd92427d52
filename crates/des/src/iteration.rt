// The sixteen iterations, on the two halves of a block in one word.
ghost use Rattle.std.specs.Prelude.{◌≡◌, ◌<◌};
ghost use Rattle.des.specs.Bits.{bits};
ghost use Rattle.des.specs.Des.{cipher_function, swap, round as rounded, rounds, cipher};
ghost use Rattle.des.specs.Words.{Holds, turned, keys_of};

use crate::permutation::{expand, initial, inverse_initial, permute_p};
use crate::selection::substitute;

// The cipher function f(R, K).
fn cipher_function(r: u64, k: u64) -> u64
    ensures { Holds 32 result (cipher_function (bits 32 r) (bits 48 k)) }
{
    permute_p(substitute(expand(r) ^ k))
}

// One iteration.
fn round(lr: u64, k: u64) -> u64
    ensures { bits 64 result ≡ rounded (bits 48 k) (bits 64 lr) }
{
    let l = lr >> 32;
    let r = lr & 0xffff_ffff;
    (r << 32) | (l ^ cipher_function(r, k))
}

// The place of the key of an iteration: from the last to the first where `back` is true. A flag, as keys_of takes it, a definition that stays; keys in reverse would be a copy of 128 bytes for each pass.
pub fn turn(back: bool, n: usize) -> usize
    requires { n < 16 }
    ensures { result ≡ turned back n }
{
    if back { 15 - n } else { n }
}

// The sixteen iterations.
fn iterations(lr: u64, keys: [u64; 16], back: bool) -> u64
    ensures { bits 64 result ≡ rounds (keys_of keys back) 16 (bits 64 lr) }
{
    let mut s = lr;
    for n in 0..16 {
        s = round(s, keys[turn(back, n)]);
    }
    s
}

// The halves exchanged.
fn exchange(s: u64) -> u64
    ensures { bits 64 result ≡ swap 32 (bits 64 s) }
{
    ((s & 0xffff_ffff) << 32) | (s >> 32)
}

// IP, the sixteen iterations, the halves exchanged, and the inverse of IP.
pub fn crypt(keys: [u64; 16], x: u64, back: bool) -> u64
    ensures { bits 64 result ≡ cipher (keys_of keys back) (bits 64 x) }
{
    let s = iterations(initial(x), keys, back);
    inverse_initial(exchange(s))
}
