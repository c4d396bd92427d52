// Session keys against the three formulas by the printed tables.
ghost use Rattle.std.specs.Prelude.{◌≡◌, ◌==◌, ◌&&◌, ◌/◌, ◌%◌, true};
ghost use Rattle.std.specs.List.{list_all, zip};
ghost use Rattle.std.specs.Int.Count.{ones};
ghost use Rattle.self_test.specs.Plain.{Formulas};

use crate::words::{encipher, triple};
use authentication::keys::{join, lefts, rights};

// Whether bytes are those of the formulas but for the parity bit, and have an odd number of ones.
fn same_but_parity(key: &[u8], plain: &[u8]) -> bool
    ensures { result ≡ list_all (λ x. x.0 / 2 == x.1 / 2 && ones x.0 % 2 == 1) (zip key.now plain.now) }
{
    key.iter()
        .zip(plain)
        .all(|(k, p)| *k >> 1 == *p >> 1 && k.count_ones() % 2 == 1)
}

// The three formulas, x being the left halves and y the right, without parity.
fn formulas(k1: u64, k2: u64, k3: u64, x: u64, y: u64) -> [u8; 24]
    ensures { Formulas k1 k2 k3 x y result }
{
    join(
        triple(k1, k2, k3, x),
        triple(k1, k2, k3, y),
        triple(k3, k2, k1, x),
    )
}

// The session keys of the KMAC k1, k2, k3 and the random numbers a and b.
fn keys_right_of(k1: u64, k2: u64, k3: u64, a: u64, b: u64) -> bool
    ensures { result ≡ true }
{
    let plain = formulas(k1, k2, k3, lefts(a, b), rights(a, b));
    match authentication::session_keys(&join(k1, k2, k3), des::store(a), des::store(b)) {
        Ok(key) => same_but_parity(&key, &plain),
        Err(_) => false,
    }
}

// The session keys of sixteen KMACs that DES makes: three of them look up every entry of both tables.
pub fn keys_right() -> bool
    ensures { result ≡ true }
{
    let mut x: u64 = 0x0123_4567_89ab_cdef;
    for _ in 0..16 {
        let k1 = encipher(x, x);
        let k2 = encipher(x, k1);
        let k3 = encipher(x, k2);
        if !keys_right_of(k1, k2, k3, x, k3) {
            return false;
        }
        x = k3;
    }
    true
}
