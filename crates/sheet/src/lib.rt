// The lines of the depot report (change request 14): what is written of each line of the input, and at its end.
#![tactic(auto)]

pub mod input;
mod row;

ghost use Rattle.std.specs.Prelude.{◌≡◌, ◌≤◌, length};
ghost use Rattle.lines.specs.Digits.{Puts};
ghost use Rattle.sheet.specs.Input.{moment_of};
ghost use Rattle.sheet.specs.Row.{longest};
ghost use Rattle.sheet.specs.Report.{begun, file_line, line_of, last_of, asks_file, ShortName, PutsLine};
ghost use Rattle.depot.specs.Counts.{counts_of};

use depot::{Tally, added, counts};
use input::{is_name, read_moment};
use row::{put_bad, put_row, put_text};

// The report so far: the first line comes next; or names do, at T and with these sums; or nothing more is written.
#[derive(Clone, Copy)]
pub enum Report {
    First,
    Names(u32, Tally),
    Over,
}

// How many bytes are written, and the report then.
#[derive(Clone, Copy)]
pub struct Written {
    pub count: usize,
    pub report: Report,
}

// The longest line: a name of 255 bytes, six numbers of ten digits with a space before each, and the line end.
pub const ROW: usize = 322;

impl Report {
    // Whether the bytes of the file that a line names are wanted.
    pub fn asks_file(self, line: &[u8]) -> bool
        ensures { result ≡ asks_file self line.now }
    {
        match self {
            Report::First => false,
            Report::Names(_, _) => is_name(line),
            Report::Over => false,
        }
    }
}

// The first line of the input.
fn put_first(out: &mut [u8], line: &[u8]) -> Written
    requires { longest ≤ length out.old }
    ensures { PutsLine (begun (moment_of line.now)) out.old out.new result }
{
    match read_moment(line) {
        Some(t) => Written {
            count: put_text(out, b"file held fit ended early reversed peers\n"),
            report: Report::Names(t, Tally::default()),
        },
        None => Written {
            count: put_text(out, b"bad moment\n"),
            report: Report::Over,
        },
    }
}

// A file with these bytes.
fn put_file(out: &mut [u8], t: u32, sums: Tally, name: &[u8], file: &[u8]) -> Written
    requires longest_in_bounds { longest ≤ length out.old }
    requires short_name { ShortName name.now }
    ensures { PutsLine (file_line t sums name.now (counts_of file.now t)) out.old out.new result }
{
    let Some(c) = counts(file, t) else {
        return Written {
            count: put_bad(out, name),
            report: Report::Names(t, sums),
        };
    };
    match added(sums, c) {
        Some(s) => Written {
            count: put_row(out, name, c),
            report: Report::Names(t, s),
        },
        None => Written {
            count: put_text(out, b"sum too large\n"),
            report: Report::Over,
        },
    }
}

// Writes what the report says of a line of the input to the front of out. `file` is what the file that it names holds, and nothing where it can't be read.
#[tactic(auto, using(crate::proofs::InputLaws::name_short, crate::proofs::RowLaws::none_written), unfolding(crate::specs::Report::line_of))]
pub fn put_line(out: &mut [u8], report: Report, line: &[u8], file: &[u8]) -> Written
    requires { longest ≤ length out.old }
    ensures { PutsLine (line_of report line.now file.now) out.old out.new result }
{
    match report {
        Report::First => put_first(out, line),
        Report::Names(t, sums) if is_name(line) => put_file(out, t, sums, line, file),
        Report::Names(_, _) => Written {
            count: put_text(out, b"bad\n"),
            report,
        },
        Report::Over => Written { count: 0, report },
    }
}

// Writes what the report says at the end of the input to the front of out, and answers its length.
#[tactic(auto, using(crate::proofs::RowLaws::none_written), unfolding(crate::specs::Report::last_of))]
pub fn put_last(out: &mut [u8], report: Report) -> usize
    requires { longest ≤ length out.old }
    ensures { Puts (last_of report) out.old out.new result }
{
    match report {
        Report::First => put_text(out, b"bad moment\n"),
        Report::Names(_, sums) => put_row(out, b"sum", sums),
        Report::Over => 0,
    }
}
