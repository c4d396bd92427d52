// The lines of a text and the words of a line.
ghost use Rattle.std.specs.Prelude.{◌≡◌, ◌≤◌, length};
ghost use Rattle.std.specs.List.{position};
ghost use Rattle.lines.specs.Words.{is_blank, in_class, First, word as word_of};

// What a search through a text stops at: a blank is a space, a tab or a carriage return, and a letter any other byte.
#[derive(Clone, Copy)]
pub enum Class {
    LineEnd,
    Blank,
    Letter,
}

fn is_blank(b: u8) -> bool
    ensures { result ≡ is_blank b }
{
    matches!(b, b' ' | b'\t' | b'\r')
}

fn is_in(class: Class, b: u8) -> bool
    ensures { result ≡ in_class class b }
{
    match class {
        Class::LineEnd => b == b'\n',
        Class::Blank => is_blank(b),
        Class::Letter => !is_blank(b),
    }
}

// The index of the first byte of a class.
fn position(class: Class, s: &[u8]) -> Option<usize>
    ensures { result ≡ position (in_class class) s.now }
{
    s.iter().position(|b| is_in(class, *b))
}

// The index of the first byte of a class from index i on; where there is none, the length.
// Where there is none, the length: what lies before it is a slice in either case (First).
pub fn first(class: Class, s: &[u8], i: usize) -> usize
    requires { i ≤ length s.now }
    ensures { First class s.now i result }
{
    match position(class, &s[i..]) {
        Some(n) => i + n,
        None => s.len(),
    }
}

// Word k of a line, the first being 0; empty where there are fewer.
pub fn word(s: &[u8], k: usize) -> &[u8]
    ensures { result.now ≡ word_of s.now k }
{
    let mut at = first(Class::Letter, s, 0);
    for _j in 0..k {
        at = first(Class::Letter, s, first(Class::Blank, s, at));
    }
    let end = first(Class::Blank, s, at);
    &s[at..end]
}
