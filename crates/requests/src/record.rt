// A key record's fields and the header's counts, read and written.
ghost use Rattle.std.specs.Prelude.{◌≡◌, ◌++◌, ◌+◌, ◌*◌, ◌≤◌, ◌<◌, length};
ghost use Rattle.octets.specs.Bytes.{be16, be32, splice};
ghost use Rattle.store.specs.Layout.{record_at};
ghost use Rattle.store.specs.Store.{key_record};
ghost use Rattle.requests.specs.Edit.{Counted, with_counts, renumbered};
ghost use Rattle.requests.specs.Worked.{new_entry};

use super::Counts;
use super::entry::{Addition, KeyId, Period};
use octets::{copy, put32};
use store::field::{number_at, put_number};
use store::{KEYS_AT, KMAC, RECORD};

// The counts of the store and of its record i.
pub fn counts_at(s: &[u8], i: usize) -> Counts
    requires { (i < 65536) × (record_at i + 44 ≤ length s.now) }
    ensures { Counted s.now i result }
{
    let at = KEYS_AT + RECORD * i;
    Counts {
        keys: number_at(s, 2),
        peers: number_at(s, 6),
        first: number_at(s, at + 40),
        count: number_at(s, at + 42),
    }
}

// Writes the two counts of the header.
#[tactic(auto, unfolding(crate::specs::Edit::with_counts))]
pub fn put_counts(s: &mut [u8], n: usize, m: usize)
    requires { 12 ≤ length s.old }
    ensures { s.new ≡ with_counts s.old n m }
{
    put_number(s, 2, n);
    put_number(s, 6, m);
}

// Writes issuer, serial and KMAC at index i.
fn put_key(s: &mut [u8], i: usize, id: KeyId, kmac: &[u8])
    requires { (i + 32 ≤ length s.old) × (length kmac.now ≡ 24) }
    ensures { s.new ≡ splice s.old i ((be32 id.issuer ++ be32 id.serial) ++ kmac.now) }
{
    put32(s, i, id.issuer);
    put32(s, i + 4, id.serial);
    copy(s, i + 8, kmac, 0, KMAC);
}

// Writes start and end at index i.
pub fn put_period(s: &mut [u8], i: usize, period: Period)
    requires { i + 8 ≤ length s.old }
    ensures { s.new ≡ splice s.old i (be32 period.start ++ be32 period.end) }
{
    put32(s, i, period.start);
    put32(s, i + 4, period.end);
}

// Writes first peer index and peer count at index i.
pub fn put_share(s: &mut [u8], i: usize, first: usize, count: usize)
    requires { i + 4 ≤ length s.old }
    ensures { s.new ≡ splice s.old i (be16 first ++ be16 count) }
{
    put_number(s, i, first);
    put_number(s, i + 2, count);
}

// Writes the record of a new key at index i; its first peer has the index p.
pub fn put_record(s: &mut [u8], i: usize, p: usize, new: Addition)
    requires { i + 44 ≤ length s.old }
    ensures { s.new ≡ splice s.old i (key_record p (new_entry new.entry)) }
{
    put_key(s, i, new.id, new.kmac);
    put_period(s, i + 32, new.period);
    put_share(s, i + 40, p, new.peers.count());
}

// Counts the first peer indexes of the n records from index i anew, from p.
pub fn renumber(s: &mut [u8], i: usize, n: usize, p: usize)
    requires { (i + 44 * n ≤ length s.old) × (n < 65536) × (p < 1048576) }
    ensures { s.new ≡ renumbered s.old i n p }
{
    let mut first = p;
    for k in 0..n {
        let at = i + RECORD * k;
        let count = number_at(s, at + 42);
        put_number(s, at + 40, first);
        first += count;
    }
}
