// The left shifts of the key schedule.
ghost use Rattle.std.specs.Prelude.{◌≤◌};
ghost use Rattle.des.specs.Bits.{bits};
ghost use Rattle.des.specs.Des.{swap, shift_both};
ghost use Rattle.des.specs.Words.{Holds};

// The low 28 bits of x, n places to the left, and round.
fn rotate28(x: u64, n: u64) -> u64
    requires { n ≤ 28 }
    ensures { Holds 28 result (swap n (bits 28 x)) }
{
    let y = x & 0xfff_ffff;
    ((y << n) | (y >> (28 - n))) & 0xfff_ffff
}

// Both halves of the 56 bits, n places to the left.
pub fn shift_both(cd: u64, n: u64) -> u64
    requires { n ≤ 28 }
    ensures { Holds 56 result (shift_both n (bits 56 cd)) }
{
    (rotate28(cd >> 28, n) << 28) | rotate28(cd, n)
}
