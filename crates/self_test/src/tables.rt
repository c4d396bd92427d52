// The tables of the joined rounds, worked again from the printed tables, entry by entry.
ghost use Rattle.std.specs.Prelude.{◌≡◌, true, ◌<◌};
ghost use Rattle.des.specs.Bits.{bits};
ghost use Rattle.des.specs.Tables.{e, pc2};
ghost use Rattle.des.specs.Des.{permute};
ghost use Rattle.des.specs.Words.{Holds};
ghost use Rattle.fast_des.specs.Joined.{placed, moved};

use des::permutation::{choice2, expand, permute_p};
use des::selection::select;

// What box k selects for the six bits g, at its place among the 32 bits, then P and E.
fn joined_entry(k: usize, g: usize) -> u64
    requires { (k < 8) × (g < 64) }
    ensures { Holds 48 result (permute e (moved k g)) }
{
    let s = select(k, g as u64) << (28 - 4 * (k as u64));
    expand(permute_p(s))
}

// The 64 entries of each box.
pub fn joined_right() -> bool
    ensures { result ≡ true }
{
    let table = fast_des::joined_table();
    for (i, entry) in table.iter().enumerate() {
        if *entry != joined_entry(i / 64, i % 64) {
            return false;
        }
    }
    true
}

// Permuted choice 2 of 56 bits whose group i of four is v, and all others are zero.
fn group_entry(i: usize, v: usize) -> u64
    requires { (i < 14) × (v < 16) }
    ensures { Holds 48 result (permute pc2 (placed 56 i (bits 4 v))) }
{
    let s = (v as u64) << (52 - 4 * (i as u64));
    choice2(s)
}

// The 16 entries of each group.
pub fn groups_right() -> bool
    ensures { result ≡ true }
{
    let groups = fast_des::groups_table();
    for (i, entry) in groups.iter().enumerate() {
        if *entry != group_entry(i / 16, i % 16) {
            return false;
        }
    }
    true
}
