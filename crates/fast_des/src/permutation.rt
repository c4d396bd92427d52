// The permutations, by exchanges and shifts of a word's parts.
ghost use Rattle.std.specs.Prelude.{◌≡◌, ◌+◌, ◌*◌, ◌<◌};
ghost use Rattle.des.specs.Bits.{bits, xor_bits};
ghost use Rattle.des.specs.Tables.{ip, ip_inverse, e, pc1, pc2};
ghost use Rattle.des.specs.Des.{permute as permuted, shift_both};
ghost use Rattle.des.specs.Words.{Holds};
ghost use Rattle.fast_des.specs.Networks.{exchange_bits, spread_parts, gather_parts, middle};
ghost use Rattle.fast_des.specs.Joined.{placed};

use crate::groups_table;

// The bits that m names exchanged with those d places above them.
fn exchange_bits(x: u64, d: u64, m: u64) -> u64
    requires { d < 64 }
    ensures { result ≡ exchange_bits d m x }
{
    let t = ((x >> d) ^ x) & m;
    x ^ t ^ (t << d)
}

pub fn initial(x: u64) -> u64
    ensures { Holds 64 result (permuted ip (bits 64 x)) }
{
    let a = exchange_bits(x, 36, 0x0f0f_0f0f);
    let b = exchange_bits(a, 48, 0xffff);
    let c = exchange_bits(b, 30, 0xcccc_cccc);
    let d = exchange_bits(c, 24, 0xff00_ff00);
    exchange_bits(d, 33, 0x5555_5555)
}

pub fn inverse_initial(x: u64) -> u64
    ensures { Holds 64 result (permuted ip_inverse (bits 64 x)) }
{
    let a = exchange_bits(x, 33, 0x5555_5555);
    let b = exchange_bits(a, 24, 0xff00_ff00);
    let c = exchange_bits(b, 30, 0xcccc_cccc);
    let d = exchange_bits(c, 48, 0xffff);
    exchange_bits(d, 36, 0x0f0f_0f0f)
}

// The bits that `high` names n places up, those that `low` names where they are.
fn spread(x: u64, high: u64, n: u64, low: u64) -> u64
    requires { n < 64 }
    ensures { result ≡ spread_parts high n low x }
{
    ((x & high) << n) ^ (x & low)
}

// The bits that `high` names n places down, those that `low` names where they are.
// As spread, the other way: two definitions (spread_parts, gather_parts).
fn gather(x: u64, high: u64, n: u64, low: u64) -> u64
    requires { n < 64 }
    ensures { result ≡ gather_parts high n low x }
{
    ((x & high) >> n) ^ (x & low)
}

// E: the half with its last bit before it and its first behind it, then cut into groups of six that overlap by two.
pub fn expand(x: u64) -> u64
    ensures { Holds 48 result (permuted e (bits 32 x)) }
{
    let r = x & 0xffff_ffff;
    let w = (r << 1) ^ (r >> 31) ^ ((r & 1) << 33);
    let a = spread(w, 0x3_ffff_0000, 8, 0x3_ffff);
    let b = spread(a, 0x3ff_0003_ff00, 4, 0x3_ff00_03ff);
    spread(b, 0x3f03_f03f_03f0, 2, 0x03f0_3f03_f03f)
}

// The middle four bits of each group of six, which are the half that `expand` was given.
pub fn narrow(x: u64) -> u64
    ensures { Holds 32 result (permuted middle (bits 48 x)) }
{
    let y = (x >> 1) & 0x3cf3_cf3c_f3cf;
    let a = gather(y, 0x3c03_c03c_03c0, 2, 0xf0_0f00_f00f);
    let b = gather(a, 0xff0_000f_f000, 4, 0xff00_00ff);
    gather(b, 0xff_ff00_0000, 8, 0xffff)
}

// Permuted choice 1, of the bytes that IP makes: each has one bit of every byte of the key.
pub fn choice1(x: u64) -> u64
    ensures { Holds 56 result (permuted pc1 (bits 64 x)) }
{
    let y = initial(x);
    let c = ((y & 0xff00_0000) << 24)
        ^ ((y & 0xff00_0000_0000_0000) >> 16)
        ^ ((y & 0xff_0000) << 16)
        ^ ((y & 0xf0_0000_0000_0000) >> 24);
    let d = ((y & 0xff) << 20)
        ^ ((y & 0xff00_0000_0000) >> 28)
        ^ ((y & 0xff00) >> 4)
        ^ ((y & 0xf_0000_0000_0000) >> 48);
    c ^ d
}

// Permuted choice 2 of group i of C and of D, c and d, when both are shifted by k groups: two entries of its table, since such a shift only moves the groups.
fn choose(i: usize, k: usize, c: u64, d: u64) -> u64
    requires { ((i < 7) × (k < 4)) × ((c < 16) × (d < 16)) }
    ensures { Holds 48 result (permuted pc2 (shift_both (4 * k) (xor_bits (placed 56 i (bits 4 c)) (placed 56 (7 + i) (bits 4 d))))) }
{
    let group = (i + 7 - k) % 7;
    let left = 16 * group + (c as usize);
    let right = 16 * (7 + group) + (d as usize);
    let groups = groups_table();
    groups[left] ^ groups[right]
}

// The keys of four iterations: permuted choice 2 of one word shifted by 0, 4, 8 and 12 places. Each group of four bits is taken out once for all four.
pub fn choices(x: u64) -> (u64, u64, u64, u64)
    ensures { Holds 48 result.0 (permuted pc2 (shift_both 0 (bits 56 x))) × Holds 48 result.1 (permuted pc2 (shift_both 4 (bits 56 x))) × Holds 48 result.2 (permuted pc2 (shift_both 8 (bits 56 x))) × Holds 48 result.3 (permuted pc2 (shift_both 12 (bits 56 x))) }
{
    // Four variables, handed out as a tuple: with an array here a schedule takes 144 instructions more, and with one handed out 16.
    let mut none = 0;
    let mut four = 0;
    let mut eight = 0;
    let mut twelve = 0;
    for i in 0..7 {
        let c = (x >> (52 - 4 * (i as u64))) & 15;
        let d = (x >> (24 - 4 * (i as u64))) & 15;
        none ^= choose(i, 0, c, d);
        four ^= choose(i, 1, c, d);
        eight ^= choose(i, 2, c, d);
        twelve ^= choose(i, 3, c, d);
    }
    (none, four, eight, twelve)
}
