// The lines that are written.
ghost use Rattle.std.specs.Prelude.{◌≡◌, ◌+◌, ◌≤◌, length};
ghost use Rattle.octets.specs.Bytes.{splice};
ghost use Rattle.lines.specs.Digits.{Puts};
ghost use Rattle.sheet.specs.Row.{field, fields, row, bad_row};

use depot::Tally;

// Writes a space and a number from index at, and answers the index behind them.
fn put_field(out: &mut [u8], at: usize, n: u32) -> usize
    requires { at + length (field n) ≤ length out.old }
    ensures { (out.new ≡ splice out.old at (field n)) × (result ≡ at + length (field n)) }
{
    let mut digits = [0u8; 20];
    let k = io::decimal(n as u64, &mut digits);
    out[at] = b' ';
    octets::copy(out, at + 1, &digits[..k], 0, k);
    at + 1 + k
}

// Writes numbers from index at, a space before each, and answers the index behind them.
fn put_fields(out: &mut [u8], at: usize, numbers: &[u32]) -> usize
    requires { at + length (fields numbers.now) ≤ length out.old }
    ensures { (out.new ≡ splice out.old at (fields numbers.now)) × (result ≡ at + length (fields numbers.now)) }
{
    let mut end = at;
    for n in numbers {
        end = put_field(out, end, *n);
    }
    end
}

// Writes the line of a file to the front of out, and answers its length. Behind the name come at most six times eleven bytes, and the line end.
pub fn put_row(out: &mut [u8], name: &[u8], c: Tally) -> usize
    requires { length name.now + 67 ≤ length out.old }
    ensures { Puts (row name.now c) out.old out.new result }
{
    let numbers = [
        c.held,
        c.classes.fit,
        c.classes.ended,
        c.classes.early,
        c.classes.reversed,
        c.peers,
    ];
    let n = name.len();
    octets::copy(out, 0, name, 0, n);
    let end = put_fields(out, n, &numbers);
    out[end] = b'\n';
    end + 1
}

// Writes the line of a file that is bad to the front of out, and answers its length.
pub fn put_bad(out: &mut [u8], name: &[u8]) -> usize
    requires { length name.now + 5 ≤ length out.old }
    ensures { Puts (bad_row name.now) out.old out.new result }
{
    let n = name.len();
    octets::copy(out, 0, name, 0, n);
    octets::copy(out, n, b" bad\n", 0, 5);
    n + 5
}

// Writes a text to the front of out, and answers its length.
pub fn put_text(out: &mut [u8], text: &[u8]) -> usize
    requires { length text.now ≤ length out.old }
    ensures { Puts text.now out.old out.new result }
{
    let n = text.len();
    octets::copy(out, 0, text, 0, n);
    n
}
