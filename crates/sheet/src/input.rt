// The input of the report: lines cut out of a stream, the moment, and names of files.
ghost use Rattle.std.specs.Prelude.{◌≡◌, ◌≤◌, length};
ghost use Rattle.sheet.specs.Input.{moment_of, is_name, TakesLine};

use lines::digits::{are_digits, number};
use lines::words::{Class, first};

// Where a chunk is read on, how much of the line is held, and whether the line has ended. No Option: the definition TakesLine names all three, and the caller goes on from there in either case.
#[derive(Clone, Copy)]
pub struct Cut {
    pub at: usize,
    pub filled: usize,
    pub ended: bool,
}

// The longest name, and how many digits a moment has.
const NAME_MOST: usize = 255;

const MOMENT_DIGITS: usize = 8;

// How much of a line is held: one byte more than the longest name.
pub const LINE: usize = NAME_MOST + 1;

// The moment that a line says.
pub fn read_moment(line: &[u8]) -> Option<u32>
    ensures { result ≡ moment_of line.now }
{
    if line.len() != MOMENT_DIGITS || !are_digits(line, 16) {
        return None;
    }
    Some(number(line, 16) as u32)
}

// Whether a line can be the name of a file: 1 to 255 bytes, none of them zero.
pub fn is_name(line: &[u8]) -> bool
    ensures { result ≡ is_name line.now }
{
    if line.is_empty() || line.len() > NAME_MOST {
        return false;
    }
    !line.contains(&0)
}

// Takes the bytes of a chunk from index at up to a line end, or all of them, to the end of the line that is held; what has no room is left out.
pub fn take_line(line: &mut [u8], filled: usize, chunk: &[u8], at: usize) -> Cut
    requires { (filled ≤ length line.old) × (at ≤ length chunk.now) }
    ensures { TakesLine line.old filled chunk.now at line.new result }
{
    let end = first(Class::LineEnd, chunk, at);
    let k = (end - at).min(line.len() - filled);
    octets::copy(line, filled, chunk, at, k);
    if end < chunk.len() {
        return Cut {
            at: end + 1,
            filled: filled + k,
            ended: true,
        };
    }
    Cut {
        at: end,
        filled: filled + k,
        ended: false,
    }
}
