// Digits in ASCII, of either case: numbers and bytes read from them, and bytes written as them.
ghost use Rattle.std.specs.Prelude.{◌≡◌, true, ◌<◌, ◌≤◌, ◌/◌, ◌*◌, length, take};
ghost use Rattle.octets.specs.Bytes.{splice};
ghost use Rattle.lines.specs.Digits.{digit as digitOf, is_digit as isDigit, worth as worthOf, are_digits, glyph as glyphOf, from_hex, bytes_of, to_hex, Numbers, Puts};

// The value of a digit. Two comparisons for a range, which become one: of a match over ranges the compiler makes a chain of them.
#[tactic(auto, unfolding(crate::specs::Digits::digit))]
fn digit(b: u8) -> Option<u8>
    ensures { result ≡ digitOf b }
{
    if b >= b'0' && b <= b'9' {
        Some(b - b'0')
    } else if b >= b'A' && b <= b'F' {
        Some(b - b'A' + 10)
    } else if b >= b'a' && b <= b'f' {
        Some(b - b'a' + 10)
    } else {
        None
    }
}

// What a byte is worth as a digit; 16, more than any digit, where it is none.
fn worth(b: u8) -> u8
    ensures { result ≡ worthOf b }
{
    digit(b).unwrap_or(16)
}

fn is_digit(b: u8, base: u8) -> bool
    ensures { result ≡ isDigit base b }
{
    worth(b) < base
}

// Whether every byte is a digit in the base.
#[tactic(auto, unfolding(crate::specs::Digits::are_digits))]
pub fn are_digits(s: &[u8], base: u8) -> bool
    ensures { result ≡ are_digits base s.now }
{
    s.iter().all(|b| is_digit(*b, base))
}

// The number that at most 16 digits stand for.
pub fn number(s: &[u8], base: u8) -> u64
    requires { (base ≤ 16) × (length s.now ≤ 16) × (are_digits base s.now ≡ true) }
    ensures { Numbers base s.now result }
{
    let mut r = 0;
    for b in s {
        r = r * u64::from(base) + u64::from(worth(*b));
    }
    r
}

// Writes the first n bytes of a text in hex to the front of out.
fn put_bytes(s: &[u8], out: &mut [u8], n: usize)
    requires { (2 * n ≤ length s.now) × (n ≤ length out.old) × (are_digits 16 s.now ≡ true) }
    ensures { out.new ≡ splice out.old 0 (take n (from_hex s.now)) }
{
    for i in 0..n {
        out[i] = worth(s[2 * i]) * 16 + worth(s[2 * i + 1]);
    }
}

// Writes the bytes of a text in hex to the front of out, as many as it has room for, and answers how many.
// The caller lends the room and takes the front as a slice: the definition Puts names what stood there before.
pub fn decode(s: &[u8], out: &mut [u8]) -> usize
    ensures { Puts (take (length out.old) (bytes_of s.now)) out.old out.new result }
{
    if !are_digits(s, 16) {
        return 0;
    }
    let n = (s.len() / 2).min(out.len());
    put_bytes(s, out, n);
    n
}

// The digit of a value below 16.
#[tactic(auto, unfolding(crate::specs::Digits::glyph))]
fn glyph(x: u8) -> u8
    requires { x < 16 }
    ensures { result ≡ glyphOf x }
{
    if x < 10 { b'0' + x } else { b'a' + (x - 10) }
}

// Writes the first n bytes in hex to the front of out.
fn put_digits(s: &[u8], out: &mut [u8], n: usize)
    requires { (n ≤ length s.now) × (2 * n ≤ length out.old) }
    ensures { out.new ≡ splice out.old 0 (to_hex (take n s.now)) }
{
    for i in 0..n {
        out[2 * i] = glyph(s[i] / 16);
        out[2 * i + 1] = glyph(s[i] % 16);
    }
}

// Writes bytes in hex to the front of out, as many as it has room for, and answers how many digits.
pub fn encode(s: &[u8], out: &mut [u8]) -> usize
    ensures { Puts (to_hex (take (length out.old / 2) s.now)) out.old out.new result }
{
    let n = s.len().min(out.len() / 2);
    put_digits(s, out, n);
    2 * n
}
