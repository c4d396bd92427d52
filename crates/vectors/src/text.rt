// Lines of text, and the bytes that both programs make up.
use refusal::Refusal;

// The descriptor of standard output.
const STANDARD_OUTPUT: i32 = 1;

pub fn line(text: &[u8]) {
    io::write_all(STANDARD_OUTPUT, text);
    end();
}

pub fn end() {
    io::write_all(STANDARD_OUTPUT, b"\n");
}

pub fn space() {
    io::write_all(STANDARD_OUTPUT, b" ");
}

pub fn word(x: u64) {
    io::print_hex(STANDARD_OUTPUT, x, 16);
}

pub fn byte(x: u8) {
    io::print_hex(STANDARD_OUTPUT, x as u64, 2);
}

pub fn number(n: usize) {
    io::print_decimal(STANDARD_OUTPUT, n as u64);
}

// What a call answers: a length, or the refusal.
pub fn answer(a: Result<usize, Refusal>) {
    match a {
        Ok(n) => number(n),
        Err(h) => refused(h),
    }
}

pub fn refused(h: Refusal) {
    io::write_all(STANDARD_OUTPUT, b"H");
    io::print_decimal(STANDARD_OUTPUT, u64::from(u8::from(h)));
}

// n bytes, byte i being (seed + 37 i) mod 256.
pub fn pattern(d: &mut [u8], seed: u8) {
    let mut x = seed;
    for b in d {
        *b = x;
        x = x.wrapping_add(37);
    }
}

// The first n bytes of s, or all where there are fewer.
// As in the console: programs share no crate of their own, and the module has no use for it.
pub fn front(s: &[u8], n: usize) -> &[u8] {
    &s[..n.min(s.len())]
}

// The key and the destination of every unit here.
pub fn key() -> [u8; 24] {
    let mut k = [0u8; 24];
    pattern(&mut k, 1);
    k
}

pub fn destination() -> [u8; 3] {
    let mut d = [0u8; 3];
    pattern(&mut d, 17);
    d
}
