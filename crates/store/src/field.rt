// Numbers of two bytes in a store.
ghost use Rattle.std.specs.Prelude.{◌≡◌, ◌+◌, ◌≤◌, ◌<◌, length};
ghost use Rattle.octets.specs.Bytes.{get16, be16, splice};

use octets::{get16_at, put16};

pub fn number_at(s: &[u8], i: usize) -> usize
    requires { i + 2 ≤ length s.now }
    ensures { (result ≡ get16 s.now i) × (result < 65536) }
{
    usize::from(get16_at(s, i))
}

// Writes what two bytes hold of v.
pub fn put_number(s: &mut [u8], i: usize, v: usize)
    requires { i + 2 ≤ length s.old }
    ensures { s.new ≡ splice s.old i (be16 v) }
{
    put16(s, i, (v % 65536) as u16);
}
