// A record taken out: its peers fall away, then the gap in the records is closed; what falls free is zero.
ghost use Rattle.std.specs.Prelude.{◌≡◌, true, ◌<◌};
ghost use Rattle.store.specs.Store.{key_count, encode, entries, sound};
ghost use Rattle.store.specs.Request.{remove_at};

use super::entry::PeerList;
use super::peers::replace_peers;
use octets::close_gap;
use store::field::{number_at, put_number};
use store::{KEYS_AT, Limits, RECORD};

// Takes record i out of a sound store: no peers take the place of its own, then the used records behind it move up. Behind those all is zero.
#[tactic(auto, using(store::proofs::SearchLaws::frame))]
pub fn remove_at(s: &mut [u8], lim: Limits, i: usize)
    requires s_value { sound lim s.old ≡ true }
    requires i_bound { i < key_count s.old }
    ensures { s.new ≡ encode lim (remove_at i (entries lim s.old)) }
{
    let n = number_at(s, 2);
    replace_peers(s, lim, i, PeerList { bytes: b"" });
    close_gap(s, KEYS_AT + RECORD * i, RECORD, RECORD * (n - i - 1));
    put_number(s, 2, n - 1);
}
