// The left shifts of the key schedule.
ghost use Rattle.std.specs.Prelude.{◌≡◌, ◌≤◌};
ghost use Rattle.des.specs.Bits.{bits};
ghost use Rattle.des.specs.Des.{shift_both};
ghost use Rattle.des.specs.Words.{Holds};
ghost use Rattle.fast_des.specs.Networks.{shift_parts};

// The bits that `high` names n places up, and those that `low` names round to the other end of a half.
fn shift_parts(cd: u64, n: u64, high: u64, low: u64) -> u64
    requires { n ≤ 28 }
    ensures { result ≡ shift_parts n high low cd }
{
    ((cd << n) & high) ^ ((cd >> (28 - n)) & low)
}

// C and D shifted to the left by 2 places, and by 15, and round.
pub fn shift_2(cd: u64) -> u64
    ensures { Holds 56 result (shift_both 2 (bits 56 cd)) }
{
    shift_parts(cd, 2, 0xff_ffff_cfff_fffc, 0x3000_0003)
}

pub fn shift_15(cd: u64) -> u64
    ensures { Holds 56 result (shift_both 15 (bits 56 cd)) }
{
    shift_parts(cd, 15, 0xff_f800_0fff_8000, 0x7ff_f000_7fff)
}
