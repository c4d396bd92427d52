// The selection functions S1 to S8, by the table of the boxes.
ghost use Rattle.std.specs.Prelude.{◌<◌};
ghost use Rattle.des.specs.Bits.{bits};
ghost use Rattle.des.specs.Des.{select as selected, selects};
ghost use Rattle.des.specs.Words.{Holds};

use crate::tables::SBOXES;

// What box k selects for a group of six bits: the outer two are the row, the four between them the column.
pub fn select(k: usize, group: u64) -> u64
    requires { (k < 8) × (group < 64) }
    ensures { Holds 4 result (selected k (bits 6 group)) }
{
    let row = ((group >> 5) << 1) | (group & 1);
    let column = (group >> 1) & 15;
    let at = 64 * k + 16 * (row as usize) + (column as usize);
    u64::from(SBOXES[at])
}

// The eight boxes, each at its six of the 48 bits.
pub fn substitute(x: u64) -> u64
    ensures { Holds 32 result (selects 8 (bits 48 x)) }
{
    let mut r: u64 = 0;
    for k in 0..8 {
        let group = (x >> (42 - 6 * (k as u64))) & 63;
        r = (r << 4) | select(k, group);
    }
    r
}
