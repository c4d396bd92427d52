// A record behind the others.
ghost use Rattle.std.specs.Prelude.{◌≡◌, true, [], ◌∷◌, ◌++◌, ◌+◌, ◌≤◌, ◌<◌, ◌/◌, length};
ghost use Rattle.store.specs.Store.{key_count, peer_count, encode, entries, sound};
ghost use Rattle.requests.specs.Worked.{new_entry};

use super::entry::Addition;
use super::peers::put_peers;
use super::record::{put_counts, put_record};
use store::field::number_at;
use store::{KEYS_AT, Limits, PEER, RECORD};

// Puts a new record behind the others of a sound store that has room for it.
#[tactic(auto, using(store::proofs::SearchLaws::frame))]
pub fn append(s: &mut [u8], lim: Limits, new: Addition)
    requires s_value { sound lim s.old ≡ true }
    requires s_bound { (key_count s.old < lim.keys) × (peer_count s.old + length new.peers.bytes.now / 4 ≤ lim.peers) }
    ensures { s.new ≡ encode lim (entries lim s.old ++ (new_entry new.entry ∷ [])) }
{
    let n = number_at(s, 2);
    let p = number_at(s, 6);
    put_record(s, KEYS_AT + RECORD * n, p, new);
    put_peers(s, KEYS_AT + RECORD * lim.keys + PEER * p, new.peers.bytes);
    put_counts(s, n + 1, p + new.peers.count());
}
