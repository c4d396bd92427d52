// The MAC: the string chained under K1, then K2 and K3 (6.2.2.7). Each schedule is made once.
ghost use Rattle.std.specs.Prelude.{◌≡◌, ◌+◌, ◌*◌, ◌/◌, ◌<◌, length};
ghost use Rattle.octets.specs.Bytes.{bytes};
ghost use Rattle.des.specs.Words.{Keys};
ghost use Rattle.fast_des.specs.Inside.{Entered};
ghost use Rattle.authentication.specs.Mac.{block, chain, mac_string, mac};

use crate::string::{blocks, string_word};
use fast_des::Halves;

// The schedule of the DES key n of a triple key.
pub fn schedule_at(key: &[u8; 24], n: usize) -> [u64; 16]
    requires { n < 3 }
    ensures { Keys (block key.now n) result }
{
    fast_des::schedule(octets::get64_at(key, 8 * n))
}

// The string's blocks chained under the first key, without the permutations between them. A block is permuted before the chain gets to it.
fn chain_halves(key: &[u8; 24], destination: [u8; 3], m: &[u8]) -> Halves
    ensures { Entered result (chain (block key.now 0) (mac_string destination m.now) ((length m.now + 12) / 8)) }
{
    let keys = schedule_at(key, 0);
    let last = blocks(m) - 1;
    let mut h = fast_des::enter(0);
    let mut b = fast_des::enter(string_word(0, destination, m));
    for k in 0..last {
        let next = fast_des::enter(string_word(k + 1, destination, m));
        h = fast_des::encipher_halves(fast_des::add(h, b), keys);
        b = next;
    }
    fast_des::encipher_halves(fast_des::add(h, b), keys)
}

// The MAC of m, as a word.
pub fn mac_word(key: &[u8; 24], destination: [u8; 3], m: &[u8]) -> u64
    ensures { bytes 8 result ≡ mac key.now destination m.now }
{
    let h = chain_halves(key, destination, m);
    let d = fast_des::decipher_halves(h, schedule_at(key, 1));
    let e = fast_des::encipher_halves(d, schedule_at(key, 2));
    fast_des::leave(e)
}
