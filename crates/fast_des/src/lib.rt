// DES for many blocks: the boxes, P and E from one joined table, permutations by exchanges and shifts. `des` has the standard's own form.
#![tactic(auto)]

ghost use Rattle.std.specs.Prelude.{◌≡◌};
ghost use Rattle.des.specs.Bits.{bits};
ghost use Rattle.des.specs.Words.{Keys};
ghost use Rattle.fast_des.specs.Joined.{joined, pc2_groups};
ghost use Rattle.fast_des.specs.Inside.{Entered, Leaves, Adds, EnciphersInside, DeciphersInside, Each};

use crate::iteration::pass;
use crate::permutation::{choice1, choices, expand, initial, inverse_initial, narrow};
use crate::shift::{shift_2, shift_15};
use crate::tables::{JOINED, PC2_GROUPS};

mod iteration;
mod permutation;
mod selection;
mod shift;
mod tables;

// A block between IP and its inverse: its halves, each expanded to 48 bits.
#[derive(Clone, Copy)]
pub struct Halves {
    pub left: u64,
    pub right: u64,
}

// The tables, in read-only memory.
pub fn joined_table() -> &'static [u64; 512]
    ensures { result.now ≡ joined }
{
    &JOINED
}

pub fn groups_table() -> &'static [u64; 224]
    ensures { result.now ≡ pc2_groups }
{
    &PC2_GROUPS
}

// The keys of the sixteen iterations. They lie 1, 2, 4, 6, 8, 10, 12, 14, 15, 17, 19, 21, 23, 25, 27 and 28 shifts behind permuted choice 1. From each of the words 0, 2, 15 and 17 shifts behind it, the keys 0, 4, 8 and 12 shifts on are taken together; 28 shifts bring C and D round, so 29 are one.
pub fn schedule(key: u64) -> [u64; 16]
    ensures { Keys (bits 64 key) result }
{
    let cd = choice1(key);
    let cd_15 = shift_15(cd);
    let from_0 = choices(cd);
    let from_2 = choices(shift_2(cd));
    let from_15 = choices(cd_15);
    let from_17 = choices(shift_2(cd_15));
    [
        from_17.3, from_2.0, from_0.1, from_2.1, from_0.2, from_2.2, from_0.3, from_2.3, from_15.0,
        from_17.0, from_15.1, from_17.1, from_15.2, from_17.2, from_15.3, from_0.0,
    ]
}

// IP, and each half expanded.
pub fn enter(x: u64) -> Halves
    ensures { Entered result (bits 64 x) }
{
    let y = initial(x);
    Halves {
        left: expand(y >> 32),
        right: expand(y),
    }
}

// The halves as they were before they were expanded, and the inverse of IP.
pub fn leave(h: Halves) -> u64
    ensures { Leaves h result }
{
    inverse_initial((narrow(h.left) << 32) | narrow(h.right))
}

// Two blocks added bit by bit.
pub fn add(a: Halves, b: Halves) -> Halves
    ensures { Adds a b result }
{
    Halves {
        left: a.left ^ b.left,
        right: a.right ^ b.right,
    }
}

// Blocks side by side enciphered, the last with other keys, and deciphered. The inverse of IP and the IP of the next block cancel, so neither is done.
pub fn encipher<const N: usize>(
    blocks: [Halves; N],
    keys: &[u64; 16],
    last: Halves,
    others: &[u64; 16],
) -> ([Halves; N], Halves)
    ensures { Each (λ h r. EnciphersInside h keys.now r) blocks.entry result.0 × EnciphersInside last others.now result.1 }
{
    pass(blocks, keys, last, others, false)
}

pub fn decipher<const N: usize>(
    blocks: [Halves; N],
    keys: &[u64; 16],
    last: Halves,
    others: &[u64; 16],
) -> ([Halves; N], Halves)
    ensures { Each (λ h r. DeciphersInside h keys.now r) blocks.entry result.0 × DeciphersInside last others.now result.1 }
{
    pass(blocks, keys, last, others, true)
}

// The same of one block.
pub fn encipher_halves(h: Halves, keys: [u64; 16]) -> Halves
    ensures { EnciphersInside h keys result }
{
    encipher([], &keys, h, &keys).1
}

pub fn decipher_halves(h: Halves, keys: [u64; 16]) -> Halves
    ensures { DeciphersInside h keys result }
{
    decipher([], &keys, h, &keys).1
}
