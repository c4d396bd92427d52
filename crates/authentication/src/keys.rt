// The three formulas of the session keys (6.2.3.2.3.15), and their parity (.16).
ghost use Rattle.std.specs.Prelude.{◌≡◌, ◌++◌, map, length, take, drop, slice_index};
ghost use Rattle.octets.specs.Bytes.{bytes};
ghost use Rattle.des.specs.Bits.{bits};
ghost use Rattle.authentication.specs.Keys.{odd as oddOf, session_keys, Triples, Drawn};

use crate::cbc::schedule_at;

// The left halves of two words, and the right halves.
pub fn lefts(a: u64, b: u64) -> u64
    ensures { bits 64 result ≡ take 32 (bits 64 a) ++ take 32 (bits 64 b) }
{
    ((a >> 32) << 32) | (b >> 32)
}

pub fn rights(a: u64, b: u64) -> u64
    ensures { bits 64 result ≡ drop 32 (bits 64 a) ++ drop 32 (bits 64 b) }
{
    ((a & 0xffff_ffff) << 32) | (b & 0xffff_ffff)
}

// DES (K3, DES⁻¹ (K2, DES (K1, x))), the same of y, and DES (K1, DES⁻¹ (K2, DES (K3, x))).
fn triples(k1: [u64; 16], k2: [u64; 16], k3: [u64; 16], x: u64, y: u64) -> [u64; 3]
    ensures { (Triples k1 k2 k3 x (slice_index result 0)) × ((Triples k1 k2 k3 y (slice_index result 1)) × (Triples k3 k2 k1 x (slice_index result 2))) }
{
    let left = fast_des::enter(x);
    let (a, last) = fast_des::encipher([left, fast_des::enter(y)], &k1, left, &k3);
    let (b, last) = fast_des::decipher(a, &k2, last, &k2);
    let (c, last) = fast_des::encipher(b, &k3, last, &k1);
    [
        fast_des::leave(c[0]),
        fast_des::leave(c[1]),
        fast_des::leave(last),
    ]
}

// The three formulas, x being the left halves and y the right.
fn draw(kmac: &[u8; 24], x: u64, y: u64) -> [u64; 3]
    ensures { Drawn kmac.now x y (slice_index result 0) (slice_index result 1) (slice_index result 2) }
{
    let k1 = schedule_at(kmac, 0);
    let k2 = schedule_at(kmac, 1);
    let k3 = schedule_at(kmac, 2);
    triples(k1, k2, k3, x, y)
}

// The bytes of three words.
pub fn join(a: u64, b: u64, c: u64) -> [u8; 24]
    ensures { result ≡ bytes 8 a ++ (bytes 8 b ++ bytes 8 c) }
{
    let mut d = [0u8; 24];
    octets::put64(&mut d, 0, a);
    octets::put64(&mut d, 8, b);
    octets::put64(&mut d, 16, c);
    d
}

// A byte with odd parity by its lowest bit.
fn odd(b: u8) -> u8
    ensures { result ≡ oddOf b }
{
    let high = b >> 1;
    let low = (u8::count_ones(high) % 2 + 1) % 2;
    (high << 1) | (low as u8)
}

fn set_parity(mut d: [u8; 24]) -> [u8; 24]
    ensures { result ≡ map oddOf d }
{
    for b in d.iter_mut() {
        *b = odd(*b);
    }
    d
}

pub fn derive(kmac: &[u8; 24], ra: [u8; 8], rb: [u8; 8]) -> [u8; 24]
    ensures { result ≡ session_keys kmac.now ra rb }
{
    let a = des::load(ra);
    let b = des::load(rb);
    let [one, two, three] = draw(kmac, lefts(a, b), rights(a, b));
    set_parity(join(one, two, three))
}
