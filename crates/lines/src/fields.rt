// The fields of a line: numbers and bytes in digits.
ghost use Rattle.std.specs.Prelude.{◌≡◌, ◌≤◌, ◌<◌, ◌+◌, ◌*◌, ◌^◌, IfOk};
ghost use Rattle.lines.specs.Words.{word as word_of};
ghost use Rattle.lines.specs.Fields.{hex_field, decimal_field, bytes_field};

use crate::digits::{are_digits, number};
use crate::words::word;
use std::fmt;

// Why a line is not read.
#[derive(Clone, Copy, Debug, PartialEq, Eq)]
pub enum Fault {
    TooFewWords,
    TooManyWords,
    NotHex,
    OddDigits,
    OtherLength,
    NotDecimal,
    OutOfRange,
    NoName,
}

impl fmt::Display for Fault {
    fn fmt<W: fmt::Write>(&self, f: &mut fmt::Formatter<W>) -> fmt::Result {
        f.write_str(match self {
            Fault::TooFewWords => "too few words",
            Fault::TooManyWords => "too many words",
            Fault::NotHex => "not hex digits",
            Fault::OddDigits => "odd number of hex digits",
            Fault::OtherLength => "wrong number of hex digits",
            Fault::NotDecimal => "not a decimal number",
            Fault::OutOfRange => "number out of range",
            Fault::NoName => "neither a nor b",
        })
    }
}

// Word k as a number of so many hex digits, at most 16.
#[tactic(auto, unfolding(crate::specs::Fields::hex_field))]
pub fn hex_field(line: &[u8], k: usize, digits: usize) -> Result<u64, Fault>
    requires { digits ≤ 16 }
    ensures is { result ≡ hex_field (word_of line.now k) digits }
    ensures below { IfOk result (λ v. v < 2 ^ (4 * digits)) }
{
    let w = word(line, k);
    if !are_digits(w, 16) {
        return Err(Fault::NotHex);
    }
    if w.len() != digits {
        return Err(Fault::OtherLength);
    }
    Ok(number(w, 16))
}

// Word k as a decimal number in a range.
#[tactic(auto, unfolding(crate::specs::Fields::decimal_field))]
pub fn decimal_field(line: &[u8], k: usize, least: u64, most: u64) -> Result<u64, Fault>
    ensures is { result ≡ decimal_field (word_of line.now k) least most }
    ensures below { IfOk result (λ v. v < most + 1) }
{
    let w = word(line, k);
    if !are_digits(w, 10) {
        return Err(Fault::NotDecimal);
    }
    if w.len() > 16 {
        return Err(Fault::OutOfRange);
    }
    let n = number(w, 10);
    if n < least || n > most {
        return Err(Fault::OutOfRange);
    }
    Ok(n)
}

// Word k as bytes in hex: how many.
#[tactic(auto, unfolding(crate::specs::Fields::bytes_field))]
pub fn bytes_field(line: &[u8], k: usize) -> Result<usize, Fault>
    ensures { result ≡ bytes_field (word_of line.now k) }
{
    let w = word(line, k);
    if !are_digits(w, 16) {
        return Err(Fault::NotHex);
    }
    if w.len() % 2 != 0 {
        return Err(Fault::OddDigits);
    }
    Ok(w.len() / 2)
}
