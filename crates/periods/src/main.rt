// The periods of a store's keys: reads a store from standard input, and writes a line for each key, without its KMAC.
#![tactic(auto)]

ghost use Rattle.std.specs.Prelude.{◌≡◌, true};
ghost use Rattle.runs.specs.Alike.{is_sound};

use records::{Record, is_held, record_at};
use store::editions::LENGTH_2;
use store::field::number_at;

// The descriptors of standard input and output.
const STANDARD_INPUT: i32 = 0;

const STANDARD_OUTPUT: i32 = 1;

// One byte more than the longest store: an input that fills it is none.
const INPUT: usize = LENGTH_2 + 1;

// Where the header has the number of keys.
const KEY_COUNT: usize = 2;

// What fails to be written is lost, and what comes behind it is written all the same: so it is not by `println!`, where nothing is written behind a failure.
fn text(s: &[u8]) {
    io::write_all(STANDARD_OUTPUT, s);
}

// Eight hex digits, and what stands behind them.
fn word(x: u32, behind: &[u8]) {
    io::print_hex(STANDARD_OUTPUT, u64::from(x), 8);
    text(behind);
}

fn line(r: Record) {
    word(r.issuer, b" ");
    word(r.serial, b" ");
    word(r.start, b" ");
    word(r.end, b"\n");
}

fn lines(s: &[u8])
    requires { is_sound s.now ≡ true }
{
    for i in 0..number_at(s, KEY_COUNT) {
        line(record_at(s, i));
    }
}

fn periods(s: &[u8]) {
    if is_held(s) {
        lines(s);
    } else {
        text(b"bad\n");
    }
}

fn main() {
    let mut input = [0u8; INPUT];
    let n = io::read_full(STANDARD_INPUT, &mut input);
    periods(&input[..n]);
}
