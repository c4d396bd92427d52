// Leaf operations on lent bytes. Every other crate reads and writes bytes through these.
#![tactic(auto, using(crate::proofs::SpliceLaws::part_written))]

ghost use Rattle.std.specs.Prelude.{◌≡◌, ◌+◌, ◌≤◌, ◌<◌, length, replicate};
ghost use Rattle.octets.specs.Bytes.{between as isBetween, get16, get32, number, be16, be32, bytes, part, splice, closed, opened, all_zero};

// ---- numbers in a range

// As (low..=high).contains(&n), with the definition of the specs for its contract.
pub fn between(low: usize, high: usize, n: usize) -> bool
    ensures { result ≡ isBetween low high n }
{
    low <= n && n <= high
}

// ---- big-endian numbers: a function for each width, since from_be_bytes and to_be_bytes belong to each type, and a generic one would be a trait with a law and these bodies again

pub fn get16_at(s: &[u8], i: usize) -> u16
    requires { i + 2 ≤ length s.now }
    ensures { result ≡ get16 s.now i }
{
    u16::from_be_bytes([s[i], s[i + 1]])
}

pub fn get32_at(s: &[u8], i: usize) -> u32
    requires { i + 4 ≤ length s.now }
    ensures { result ≡ get32 s.now i }
{
    u32::from_be_bytes([s[i], s[i + 1], s[i + 2], s[i + 3]])
}

pub fn get64_at(s: &[u8], i: usize) -> u64
    requires { i + 8 ≤ length s.now }
    ensures { result ≡ number 8 s.now i }
{
    let mut word = [0; 8];
    word.copy_from_slice(&s[i..i + 8]);
    u64::from_be_bytes(word)
}

pub fn put16(s: &mut [u8], i: usize, v: u16)
    requires { i + 2 ≤ length s.old }
    ensures { s.new ≡ splice s.old i (be16 v) }
{
    s[i..i + 2].copy_from_slice(&v.to_be_bytes());
}

pub fn put32(s: &mut [u8], i: usize, v: u32)
    requires { i + 4 ≤ length s.old }
    ensures { s.new ≡ splice s.old i (be32 v) }
{
    s[i..i + 4].copy_from_slice(&v.to_be_bytes());
}

pub fn put64(s: &mut [u8], i: usize, v: u64)
    requires { i + 8 ≤ length s.old }
    ensures { s.new ≡ splice s.old i (bytes 8 v) }
{
    s[i..i + 8].copy_from_slice(&v.to_be_bytes());
}

// ---- runs of bytes

// Writes n zeros from index i.
pub fn clear(s: &mut [u8], i: usize, n: usize)
    requires { i + n ≤ length s.old }
    ensures { s.new ≡ splice s.old i (replicate n 0) }
{
    s[i..i + n].fill(0);
}

// Copies the n bytes of src from index at to index i of s.
pub fn copy(s: &mut [u8], i: usize, src: &[u8], at: usize, n: usize)
    requires { (i + n ≤ length s.old) × (at + n ≤ length src.now) }
    ensures { s.new ≡ splice s.old i (part src.now at n) }
{
    s[i..i + n].copy_from_slice(&src[at..at + n]);
}

// Moves the n bytes from index i + gap to index i. The compiler makes one call of memmove of this loop where the gap is a constant, and none of copy_within.
fn move_left(s: &mut [u8], i: usize, gap: usize, n: usize)
    requires { i + gap + n ≤ length s.old }
    ensures { s.new ≡ splice s.old i (part s.old (i + gap) n) }
{
    for k in 0..n {
        s[i + k] = s[i + gap + k];
    }
}

// Takes the gap at index i out, moves the n bytes behind it up, and clears what falls free.
pub fn close_gap(s: &mut [u8], i: usize, gap: usize, n: usize)
    requires { i + gap + n ≤ length s.old }
    ensures { s.new ≡ closed s.old i gap n }
{
    move_left(s, i, gap, n);
    clear(s, i + n, gap);
}

// Moves the n bytes at index i on by the gap.
pub fn open_gap(s: &mut [u8], i: usize, gap: usize, n: usize)
    requires { i + gap + n ≤ length s.old }
    ensures { s.new ≡ opened s.old i gap n }
{
    s.copy_within(i..i + n, i + gap);
}

// Whether the n bytes from index i are zero. All are looked at: without a way out of the loop many are compared at once.
pub fn is_clear(s: &[u8], i: usize, n: usize) -> bool
    requires { i + n ≤ length s.now }
    ensures { result ≡ all_zero (part s.now i n) }
{
    let mut clear = true;
    for x in &s[i..i + n] {
        if *x != 0 {
            clear = false;
        }
    }
    clear
}
