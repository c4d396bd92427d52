// Reads lines from standard input and writes what the module answers to each; help lists them.
#![tactic(auto)]

use crate::bench::Bench;
use crate::stores::clear;
use crate::text::LINE;
use std::io::Read;
use store::editions::LENGTH_2;

mod answers;
mod bench;
mod connections;
mod events;
mod faults;
mod session_keys;
mod sessions;
mod show;
mod stores;
mod text;

// Works the lines of a chunk of the input; the last piece is the start of a line that goes on, or empty.
fn feed(start: Bench, chunk: &[u8], line: &mut [u8; LINE], store: &mut [u8; LENGTH_2]) -> Bench {
    let mut bench = start;
    for piece in chunk.split_inclusive(|b| *b == b'\n') {
        bench = match piece.strip_suffix(b"\n") {
            Some(text) => bench.append(line, text).end_line(line, store),
            None => bench.append(line, piece),
        };
    }
    bench
}

// Reads until the input ends, and works each line that ends. A read that fails ends the input.
fn run(input: &mut impl Read, line: &mut [u8; LINE], store: &mut [u8; LENGTH_2]) -> Bench {
    let mut bench = Bench::new();
    // Nothing says that the input ends: the reads are counted down from a number that no run uses up.
    for _ in 0..u64::MAX {
        let mut chunk = io::buffer();
        let n = input.read(&mut chunk).unwrap_or(0);
        if n == 0 {
            break;
        }
        bench = feed(bench, &chunk[..n], line, store);
    }
    bench
}

fn main(rt: HostRuntime) {
    let mut line = [0u8; LINE];
    let mut store = [0u8; LENGTH_2];
    // Edition 1, as it was when there was no other.
    clear(false, &mut store);
    let bench = run(&mut rt.stdin(), &mut line, &mut store);
    // The last line counts, with a line end or without.
    if bench.filled > 0 {
        bench.end_line(&line, &mut store);
    }
}
