// The peers of a record, replaced.
ghost use Rattle.std.specs.Prelude.{◌≡◌, true, ◌+◌, ◌-◌, ◌≤◌, ◌<◌, ◌/◌, ◌%◌, length};
ghost use Rattle.octets.specs.Bytes.{splice};
ghost use Rattle.octets.specs.Words.{numbers, words};
ghost use Rattle.store.specs.Store.{key_count, peer_count, count, encode, entries, sound};
ghost use Rattle.store.specs.Request.{update_at, with_peers};
ghost use Rattle.requests.specs.Edit.{replaced};
ghost use Rattle.requests.specs.Worked.{peer_numbers};

use super::entry::PeerList;
use super::record::{counts_at, put_counts, put_share, renumber};
use octets::{close_gap, copy, open_gap};
use store::{KEYS_AT, Limits, PEER, RECORD};

// Writes peers at index i.
pub fn put_peers(s: &mut [u8], i: usize, new: &[u8])
    requires { (i + length new.now ≤ length s.old) × (length new.now % 4 ≡ 0) }
    ensures { s.new ≡ splice s.old i (words (numbers new.now 0 (length new.now / 4))) }
{
    copy(s, i, new, 0, new.len());
}

// Replaces the old bytes of peers at index i by new ones, and moves the tail behind them.
fn replace(s: &mut [u8], i: usize, old: usize, tail: usize, new: &[u8])
    requires room { (i + old + tail ≤ length s.old) × (i + length new.now + tail ≤ length s.old) }
    requires whole { length new.now % 4 ≡ 0 }
    ensures { s.new ≡ replaced s.old i old (length new.now) tail (words (numbers new.now 0 (length new.now / 4))) }
{
    let n = new.len();
    if n < old {
        close_gap(s, i + n, old - n, tail);
    } else {
        open_gap(s, i + old, n - old, tail);
    }
    put_peers(s, i, new);
}

// Replaces the peers of record i of a sound store.
#[tactic(auto, using(store::proofs::SearchLaws::room, crate::proofs::AroundLaws::record_inside))]
pub fn replace_peers(s: &mut [u8], lim: Limits, i: usize, new: PeerList)
    requires s_value { sound lim s.old ≡ true }
    requires i_bound { i < key_count s.old }
    requires bound { peer_count s.old - count s.old i + length new.bytes.now / 4 ≤ lim.peers }
    ensures { s.new ≡ encode lim (update_at i (with_peers (peer_numbers new.entry)) (entries lim s.old)) }
{
    let old = counts_at(s, i);
    replace(
        s,
        KEYS_AT + RECORD * lim.keys + PEER * old.first,
        PEER * old.count,
        PEER * (old.peers - old.first - old.count),
        new.bytes,
    );
    let count = new.count();
    let at = KEYS_AT + RECORD * i;
    put_share(s, at + 40, old.first, count);
    renumber(s, at + RECORD, old.keys - i - 1, old.first + count);
    put_counts(s, old.keys, old.peers - old.count + count);
}

// The same, and no byte is moved where there are as many new peers as old ones.
#[tactic(auto, using(store::proofs::SearchLaws::room, crate::proofs::AroundLaws::record_inside))]
pub fn set_peers(s: &mut [u8], lim: Limits, i: usize, new: PeerList)
    requires s_value { sound lim s.old ≡ true }
    requires i_bound { i < key_count s.old }
    requires bound { peer_count s.old - count s.old i + length new.bytes.now / 4 ≤ lim.peers }
    ensures { s.new ≡ encode lim (update_at i (with_peers (peer_numbers new.entry)) (entries lim s.old)) }
{
    let old = counts_at(s, i);
    if old.count == new.count() {
        put_peers(s, KEYS_AT + RECORD * lim.keys + PEER * old.first, new.bytes);
        return;
    }
    replace_peers(s, lim, i, new);
}
