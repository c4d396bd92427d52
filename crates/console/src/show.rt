// The held records, in order of place.
ghost use Rattle.std.specs.Prelude.{◌≡◌, ◌+◌, ◌*◌, ◌<◌, ◌≤◌, true, length};
ghost use Rattle.octets.specs.Bytes.{get16};
ghost use Rattle.runs.specs.Alike.{is_sound};

use crate::text::{Word, line, text};
use records::{Record, is_held, peer_at, record_at};
use store::editions::LENGTH_2;
use store::field::number_at;

fn record(place: usize, r: Record) {
    let Record {
        issuer,
        serial,
        start,
        end,
        ..
    } = r;
    text(format_args!(
        "place {place}: issuer {} serial {}",
        Word(issuer),
        Word(serial)
    ));
    text(format_args!(" start {} end {} peers", Word(start), Word(end)));
}

fn peers(s: &[u8], first: usize, count: usize)
    requires { (first + count < 65536) × (12 ≤ length s.now) × (get16 s.now 8 + 4 * (first + count) ≤ length s.now) }
{
    for j in first..first + count {
        let peer = Word(peer_at(s, j));
        text(format_args!(" {peer}"));
    }
    line("");
}

fn records(s: &[u8])
    requires { is_sound s.now ≡ true }
{
    let n = number_at(s, 2);
    let peer_count = number_at(s, 6);
    line(format_args!("records {n}, peers {peer_count}"));
    for i in 0..n {
        let r = record_at(s, i);
        record(i + 1, r);
        peers(s, r.first, r.count);
    }
}

pub fn held(s: &[u8]) {
    // A store of edition 1 is shown without its edition.
    if s.len() == LENGTH_2 {
        line("edition 2");
    }
    if is_held(s) {
        records(s);
    } else {
        line("store unsound");
    }
}
