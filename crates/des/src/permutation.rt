// The permutations, each by its printed table.
ghost use Rattle.std.specs.Prelude.{◌≡◌, ◌*◌, ◌≤◌, length};
ghost use Rattle.des.specs.Bits.{bits};
ghost use Rattle.des.specs.Tables.{ip, ip_inverse, e, p, pc1, pc2};
ghost use Rattle.des.specs.Des.{permute as permuted};
ghost use Rattle.des.specs.Words.{Holds, Names, Rows};

use crate::tables::{E, IP, IP_INVERSE, P, PC1, PC2};

// The bits of x, a number of `width` bits, that a row of a table names.
fn permute_row(x: u64, width: u64, row: &[u8]) -> u64
    requires { (Names width row.now) × (length row.now ≤ 64) }
    ensures { Holds (length row.now) result (permuted row.now (bits width x)) }
{
    let mut r: u64 = 0;
    for bit in row {
        r = (r << 1) | ((x >> (width - u64::from(*bit))) & 1);
    }
    r
}

// The bits that a whole table names, row by row: each is printed in eight rows, here of n entries.
// One loop over all entries is plainer, and a block then takes 1.8 times the instructions: the compiler makes shifts by constants of rows alone.
fn permute(x: u64, width: u64, table: &[u8], n: usize) -> u64
    requires { Rows width n table.now }
    ensures { Holds (8 * n) result (permuted table.now (bits width x)) }
{
    let mut r: u64 = 0;
    for row in table.chunks_exact(n) {
        r = (r << n) | permute_row(x, width, row);
    }
    r
}

// IP and its inverse.
pub fn initial(x: u64) -> u64
    ensures { Holds 64 result (permuted ip (bits 64 x)) }
{
    permute(x, 64, &IP, 8)
}

pub fn inverse_initial(x: u64) -> u64
    ensures { Holds 64 result (permuted ip_inverse (bits 64 x)) }
{
    permute(x, 64, &IP_INVERSE, 8)
}

// E, of the low 32 bits.
pub fn expand(x: u64) -> u64
    ensures { Holds 48 result (permuted e (bits 32 x)) }
{
    permute(x, 32, &E, 6)
}

// P, of the low 32 bits.
pub fn permute_p(x: u64) -> u64
    ensures { Holds 32 result (permuted p (bits 32 x)) }
{
    permute(x, 32, &P, 4)
}

// Permuted choice 1 of a key.
pub fn choice1(x: u64) -> u64
    ensures { Holds 56 result (permuted pc1 (bits 64 x)) }
{
    permute(x, 64, &PC1, 7)
}

// Permuted choice 2 of the low 56 bits.
pub fn choice2(x: u64) -> u64
    ensures { Holds 48 result (permuted pc2 (bits 56 x)) }
{
    permute(x, 56, &PC2, 6)
}
