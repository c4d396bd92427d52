// The keys of a store by their periods.
ghost use Rattle.std.specs.Prelude.{◌≡◌, true, ◌<◌};
ghost use Rattle.store.specs.Store.{key_count, entry_at, entries, sound};
ghost use Rattle.depot.specs.Counts.{class_of, class_in, one_more, in_all, classes_of};

use super::{Class, Classes};
use octets::get32_at;
use store::field::number_at;
use store::search::fits;
use store::{KEYS_AT, Limits, RECORD};

// The class of a key with this start and end at the moment t.
fn class_of(start: u32, end: u32, t: u32) -> Class
    ensures { result ≡ class_of start «end» t }
{
    if end < start {
        Class::Reversed
    } else if t < start {
        Class::Early
    } else if fits(start, end, t) {
        Class::Fit
    } else {
        Class::Ended
    }
}

// The class of record i of a sound store.
fn class_at(s: &[u8], lim: Limits, i: usize, t: u32) -> Class
    requires s_value { sound lim s.now ≡ true }
    requires i_bound { i < key_count s.now }
    ensures { result ≡ class_in t (entry_at lim s.now i) }
{
    let at = KEYS_AT + RECORD * i;
    class_of(get32_at(s, at + 32), get32_at(s, at + 36), t)
}

impl Classes {
    // One key more in a class.
    fn one_more(&mut self, class: Class)
        requires { in_all self.old < 65536 }
        ensures { self.new ≡ one_more class self.old }
    {
        match class {
            Class::Fit => self.fit += 1,
            Class::Ended => self.ended += 1,
            Class::Early => self.early += 1,
            Class::Reversed => self.reversed += 1,
        }
    }
}

// How many keys of a sound store are in each class, counted from the last to the first.
pub fn classes_of(s: &[u8], lim: Limits, t: u32) -> Classes
    requires { sound lim s.now ≡ true }
    ensures { result ≡ classes_of t (entries lim s.now) }
{
    let mut c = Classes::default();
    for i in (0..number_at(s, 2)).rev() {
        c.one_more(class_at(s, lim, i, t));
    }
    c
}
