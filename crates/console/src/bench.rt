// The module at the bench: the session, the store, the session keys and the connections that the lines work on.
ghost use Rattle.std.specs.Prelude.{◌≡◌, length};
ghost use Rattle.lines.specs.Orders.{order_of};
ghost use Rattle.console.specs.Bench.{at_start, filled_by, line_by, with_filled, next_line, held_at, obeyed, line_done, Leaves};

use crate::answers::shown;
use crate::connections;
use crate::connections::Sides;
use crate::faults::{bad, help, too_long, unknown};
use crate::session_keys::{build, check, hold};
use crate::sessions::{begin, receive};
use crate::show::held;
use crate::stores::{choose, convert, empty, search, store_of, take};
use crate::text::{LINE, copied};
use lines::orders::{Order, read};
use session::Session;
use store::editions::LENGTH_2;

#[derive(Clone, Copy)]
pub struct Bench {
    pub session: Session,
    // Whether the store that is held has the length of edition 2. A bool, as the definitions have it (size_of, store_of, large_then); `lines`, which reads it, does not rest on `store`.
    pub large: bool,
    // The session keys that are held.
    pub keys: Option<[u8; 24]>,
    pub sides: Sides,
    // The number of the line that is read, and how many bytes of it are there: more than it has room for where it is too long. A length of an array could not say the last.
    pub line: u64,
    pub filled: usize,
}

impl Bench {
    pub fn new() -> Bench
        ensures { result ≡ at_start }
    {
        let session = Session {
            state: Session::CLOSED,
            own: 0,
            peer: 0,
            next: 0,
            expected: 0,
            remembered: false,
            transaction: 0,
        };
        Bench {
            session,
            large: false,
            keys: None,
            sides: connections::none(),
            line: 1,
            filled: 0,
        }
    }

    // What a line asks is done.
    fn obey(mut self, text: &[u8], store: &mut [u8; LENGTH_2]) -> Bench
        ensures { Leaves (obeyed (order_of text.now) text.now (held_at self store.old)) self result store.new }
    {
        match read(text) {
            Order::Nothing => {}
            Order::Note => copied(text),
            Order::Begin(own, peer, number) => {
                self.session = begin(self.session, own, peer, number);
            }
            Order::Message => {
                self.session = receive(self.session, text, self.large, store);
            }
            Order::Search(peer, t) => search(store_of(self.large, store), peer, t),
            Order::Keys(place, ra, rb) => {
                self.keys = hold(self.keys, store_of(self.large, store), place, ra, rb);
            }
            Order::Build(route) => build(self.keys, text, route),
            Order::Check(route) => check(self.keys, text, route),
            Order::Connection(name, what) => {
                let held = store_of(self.large, store);
                self.sides = connections::obey(self.sides, name, what, text, held);
            }
            Order::Store => {
                self.large = take(self.large, text, store);
            }
            Order::Edition(large) => {
                choose(large, store);
                self.large = large;
            }
            Order::Convert => {
                self.large = convert(self.large, store);
            }
            Order::Show => {
                held(store_of(self.large, store));
                shown(self.session);
            }
            Order::Empty => empty(self.large, store),
            Order::Help => help(),
            Order::Unknown => unknown(self.line),
            Order::Bad(fault, command) => bad(self.line, fault, command),
        }
        self
    }

    // The line has come to its end.
    pub fn end_line(self, text: &[u8], store: &mut [u8; LENGTH_2]) -> Bench
        ensures { Leaves (line_done text.now self.filled (held_at self store.old)) (next_line self) result store.new }
    {
        let n = self.filled;
        if text.len() < n {
            too_long(self.line);
            return self.next_line();
        }
        let done = self.obey(&text[..n], store);
        done.next_line()
    }

    fn next_line(mut self) -> Bench
        ensures { result ≡ next_line self }
    {
        self.filled = 0;
        self.line = self.line.wrapping_add(1);
        self
    }

    // Takes bytes to the end of the line.
    pub fn append(mut self, line: &mut [u8], more: &[u8]) -> Bench
        ensures bench { result ≡ with_filled self (filled_by (length line.old) self.filled (length more.now)) }
        ensures bytes { line.new ≡ line_by line.old self.filled more.now }
    {
        let n = self.filled;
        if n > line.len() {
            return self;
        }
        if more.len() > line.len() - n {
            self.filled = line.len() + 1;
            return self;
        }
        let end = n + more.len();
        line[n..end].copy_from_slice(more);
        self.filled = end;
        self
    }
}
