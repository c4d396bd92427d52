// The depot report: reads a moment and names of files from standard input, and writes a line of counts for each store and one of sums.
#![tactic(auto)]

ghost use Rattle.std.specs.Prelude.{◌≡◌, ◌+◌, ◌≤◌, length, IfOk, IfSome};
ghost use Rattle.sheet.specs.Row.{longest};
ghost use Rattle.report.specs.declared.TheConstants.{OUTPUT};

use sheet::input::{LINE, take_line};
use sheet::{ROW, Report, Written, put_last, put_line};
use std::io::{Error, Read};
use std::rt::Files;
use std::{fmt, fs, str};
use store::editions::LENGTH_2;

// One byte more than the longest store: a file that fills it is none.
const FILE: usize = LENGTH_2 + 1;

// How much of the output waits at most.
const OUTPUT: usize = 4096;

// What ends the report early, without its sums.
#[derive(Drop)]
enum Failure {
    Input(Error),
    Output(Error),
}

impl fmt::Display for Failure {
    fn fmt<W: fmt::Write>(&self, f: &mut fmt::Formatter<W>) -> fmt::Result {
        match self {
            Failure::Input(why) => write!(f, "standard input: {why}"),
            Failure::Output(why) => write!(f, "standard output: {why}"),
        }
    }
}

// How far the report is, in memory that is lent once.
#[derive(Drop)]
struct Progress {
    report: Report,
    // What is held of a line that has not ended.
    line: [u8; LINE],
    filled: usize,
    ghost held: { filled ≤ length line },
    // The file that a line names.
    file: [u8; FILE],
    // The output, and how much of it waits to be written.
    out: [u8; OUTPUT],
    waiting: usize,
    ghost waits: { waiting ≤ OUTPUT },
}

// Reads what there is to the front of a buffer, and answers how many bytes: as many as fit where there are more.
// The memory is fixed, and a read may bring less than there is room for: so the loop goes by what has come, and no iterator counts that.
fn read_all(from: &mut impl Read, file: &mut [u8]) -> Result<usize, Error>
    ensures { IfOk result (λ n. n ≤ length file.new) }
{
    let mut n = 0;
    while n < file.len() {
        let more = from.read(&mut file[n..])?;
        if more == 0 {
            break;
        }
        n += more;
    }
    Ok(n)
}

// Reads a file to the front of a buffer, and answers how many bytes; none where it can't be read. A name that is no UTF-8 opens no file.
fn load(files: &impl Files, name: &[u8], file: &mut [u8]) -> Option<usize>
    ensures { IfSome result (λ n. n ≤ length file.new) }
{
    let path = str::from_utf8(name).ok()?;
    let mut opened = fs::open(files, path).ok()?;
    read_all(&mut opened, file).ok()
}

impl Progress {
    // Writes out what waits. Where that fails, none of it waits any more.
    fn flush(&mut self, rt: &impl Print) -> Result<(), Failure>
        ensures written { self.new.waiting ≡ 0 }
        ensures kept { (self.new.line ≡ self.old.line) × (self.new.filled ≡ self.old.filled) }
    {
        let written = rt.write_all(&self.out[..self.waiting]);
        self.waiting = 0;
        written.map_err(Failure::Output)
    }

    // Room for a line of output.
    fn make_room(&mut self, rt: &impl Print) -> Result<(), Failure>
        ensures room { self.new.waiting + longest ≤ OUTPUT }
        ensures kept { (self.new.line ≡ self.old.line) × (self.new.filled ≡ self.old.filled) }
    {
        if OUTPUT - self.waiting < ROW {
            self.flush(rt)?;
        }
        Ok(())
    }

    // A line of the input has come to its end. There is room before its file is opened, which may wait.
    fn end_line(&mut self, files: &impl Files)
        requires { self.old.waiting + longest ≤ OUTPUT }
        ensures { self.new.filled ≡ 0 }
    {
        let line = &self.line[..self.filled];
        let n = if self.report.asks_file(line) {
            load(files, line, &mut self.file).unwrap_or(0)
        } else {
            0
        };
        let room = &mut self.out[self.waiting..];
        let Written { count, report } = put_line(room, self.report, line, &self.file[..n]);
        self.report = report;
        self.waiting += count;
        self.filled = 0;
    }

    // Works the lines that end in a chunk of the input.
    // Room is made here as make_room does it: its answer, made for each line, took a fifth of the time of short lines.
    fn feed(&mut self, rt: &(impl Files + Print), chunk: &[u8]) -> Result<(), Failure> {
        let mut at = 0;
        while at < chunk.len() {
            let cut = take_line(&mut self.line, self.filled, chunk, at);
            at = cut.at;
            self.filled = cut.filled;
            if cut.ended {
                if OUTPUT - self.waiting < ROW {
                    self.flush(rt)?;
                }
                self.end_line(rt);
            }
        }
        Ok(())
    }

    // Works the input until it ends or nothing more is written. What is due is written out before the next read, which may wait.
    // Nothing says that the input ends: the reads are counted down from a number that no run uses up.
    fn read(&mut self, rt: &(impl Files + Print), input: &mut impl Read) -> Result<(), Failure> {
        let mut chunk = io::buffer();
        for _ in 0..u64::MAX {
            let n = input.read(&mut chunk).map_err(Failure::Input)?;
            self.feed(rt, &chunk[..n])?;
            self.flush(rt)?;
            if n == 0 || matches!(self.report, Report::Over) {
                break;
            }
        }
        Ok(())
    }

    // The whole report. A last line needs no line end.
    fn run(&mut self, rt: &(impl Files + Print), input: &mut impl Read) -> Result<(), Failure> {
        self.read(rt, input)?;
        if self.filled > 0 {
            self.make_room(rt)?;
            self.end_line(rt);
        }
        self.make_room(rt)?;
        self.waiting += put_last(&mut self.out[self.waiting..], self.report);
        self.flush(rt)
    }
}

fn main(rt: HostRuntime) {
    let mut progress = Progress {
        report: Report::First,
        line: [0u8; LINE],
        filled: 0,
        file: [0u8; FILE],
        out: [0u8; OUTPUT],
        waiting: 0,
    };
    if let Err(failure) = progress.run(&rt, &mut rt.stdin()) {
        let _ = eprintln!(rt; "report: {failure}");
    }
}
