// What is written to standard output, and how long a line of the input may be.
use lines::digits::encode;
use std::fmt::Write;
use std::{fmt, str};

// The descriptor of standard output.
const STANDARD_OUTPUT: i32 = 1;

// The most characters of a line, and the most bytes that it can have in hex: a store of edition 2 fits.
pub const LINE: usize = 76100;

pub const LINE_BYTES: usize = 38050;

// Standard output. Each piece of a text is a write of its own. What fails to be written is lost, and what comes behind it is written all the same; so no failure is told, which would drop the rest of the line and its end.
#[derive(Drop)]
struct Output;

impl fmt::Write for Output {
    fn write_str(&mut self, s: &str) -> fmt::Result {
        io::write_all(STANDARD_OUTPUT, s.as_bytes());
        Ok(())
    }
}

// Eight hex digits. They are one piece, where `{x:08x}` writes the leading zeros and the digits apart.
#[derive(Clone, Copy)]
pub struct Word(pub u32);

impl fmt::Display for Word {
    fn fmt<W: fmt::Write>(&self, f: &mut fmt::Formatter<W>) -> fmt::Result {
        let mut digits = [0u8; 8];
        encode(&self.0.to_be_bytes(), &mut digits);
        // Digits are text: the empty one never comes.
        f.write_str(str::from_utf8(&digits).unwrap_or(""))
    }
}

pub fn text<D: fmt::Display + Drop>(value: D) {
    let mut output = Output;
    let _ = output.write(value);
}

pub fn line<D: fmt::Display + Drop>(value: D) {
    let mut output = Output;
    let _ = output.writeln(value);
}

// A line of bytes that need be no text.
pub fn copied(s: &[u8]) {
    io::write_all(STANDARD_OUTPUT, s);
    line("");
}

// A name, and behind it two hex digits for each byte, of at most 1,032 bytes. They are written at once, which a Display of bytes would not do.
pub fn named(name: &str, s: &[u8]) {
    text(name);
    let mut digits = [0u8; 2064];
    let n = encode(s, &mut digits);
    copied(&digits[..n]);
}
