// The selection functions S1 to S8 with P and E behind them, by one joined table.
ghost use Rattle.std.specs.Prelude.{◌*◌, ◌/◌, ◌-◌, ◌^◌, ◌<◌};
ghost use Rattle.std.specs.Int.Bits.{bit_and};
ghost use Rattle.des.specs.Bits.{bits};
ghost use Rattle.des.specs.Tables.{e, p};
ghost use Rattle.des.specs.Des.{permute as permuted, selects};
ghost use Rattle.des.specs.Words.{Holds};
ghost use Rattle.fast_des.specs.Joined.{moved};

use crate::joined_table;

// What box k selects for its six of the 48 bits, moved by P and expanded.
fn select(k: usize, x: u64) -> u64
    requires { k < 8 }
    ensures { Holds 48 result (permuted e (moved k (bit_and (x / 2 ^ (42 - 6 * k)) 63))) }
{
    let group = (x >> (42 - 6 * (k as u64))) & 63;
    let table = joined_table();
    let at = 64 * k + (group as usize);
    table[at]
}

// The eight boxes, each at its six of the 48 bits, then P and E. The last box goes first: its bits need no shift.
pub fn substitute(x: u64) -> u64
    ensures { Holds 48 result (permuted e (permuted p (selects 8 (bits 48 x)))) }
{
    let mut r: u64 = 0;
    for k in (0..8).rev() {
        r ^= select(k, x);
    }
    r
}
