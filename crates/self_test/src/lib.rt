// The self-test at power-on: the two tables of the joined rounds against the printed ones, DES by the printed tables against the joined rounds, Annex B of SUBSET-037-2, the MAC and the session keys.
// It is proved to answer true. Where it answers false, the machine that runs it is not the one that the proofs are about: memory, processor or compiler back end.
#![tactic(auto)]

ghost use Rattle.std.specs.Prelude.{◌≡◌, true};

use crate::keys::keys_right;
use crate::mac::{annex_b, mac_right};
use crate::tables::{groups_right, joined_right};
use crate::words::{decipher, encipher, fast_decipher, fast_encipher};

mod keys;
mod mac;
mod tables;
mod words;

// A block by the printed tables and by the joined rounds, both ways.
fn block_right(key: u64, x: u64) -> bool
    ensures { result ≡ true }
{
    encipher(key, x) == fast_encipher(key, x) && decipher(key, x) == fast_decipher(key, x)
}

// The second block is the first with key and block complemented.
pub fn self_test() -> bool
    ensures { result ≡ true }
{
    joined_right()
        && groups_right()
        && block_right(0x1334_5779_9bbc_dff1, 0x0123_4567_89ab_cdef)
        && block_right(0xeccb_a886_6443_200e, 0xfedc_ba98_7654_3210)
        && annex_b()
        && mac_right()
        && keys_right()
}
