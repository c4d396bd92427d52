// Sessions with the key centre (document 01, "Sessions"): begin and receive.
#![tactic(auto)]

ghost use Rattle.std.specs.Prelude.{◌≡◌, ◌+◌, ◌≤◌, true, length};
ghost use Rattle.store.specs.Layout.{total, Bounded};
ghost use Rattle.store.specs.Store.{sound};
ghost use Rattle.refusal.specs.House.{house_number};
ghost use Rattle.octets.specs.Bytes.{splice};
ghost use Rattle.message.specs.Header.{kind, transaction};
ghost use Rattle.message.specs.Body.{body_ok};
ghost use Rattle.message.specs.Written.{reply_head};
ghost use Rattle.session.specs.Sessions.{Begins, Closed, Open, closing, opening, remembering, replied};
ghost use Rattle.session.specs.Rules.{receive, receive_in, in_state, judged, type_test, repeats, obey, Does};
ghost use Rattle.session.specs.Parts.{response_number, Lent, Refuses, Waits, Reports, work_if_sound};

use crate::headed::Headed;
use crate::header::{header_fault, is_opening};
use crate::response::Response;
use message::body::{REQ_NUM_AT, body_ok};
use message::written::{HEAD, put_init, put_reply};
use message::{Command, Kind, Task};
use refusal::Refusal;
use store::editions::edition_of;
use store::sound::is_sound;
use store::{Limits, write_empty};

mod headed;
mod header;
mod response;

#[derive(Clone, Copy)]
pub struct Session {
    pub state: u8,
    pub own: u32,
    pub peer: u32,
    pub next: u16,
    pub expected: u16,
    // Whether a transaction number is remembered, and which: zero is one like another. Two fields and no Option: C keeps both, and what does not set the number keeps it as it came (claims NoneIsNone and NotHeard).
    pub remembered: bool,
    pub transaction: u32,
}

// What a message that is not refused does: a reply of a length, or the session is opened or ended.
#[derive(Clone, Copy)]
pub enum Received {
    Reply(usize),
    Opened,
    Ended,
}

// The answer to a message, and the session for the next.
#[derive(Clone, Copy)]
pub struct Turn {
    pub answer: Result<Received, Refusal>,
    pub session: Session,
}

impl Session {
    // State codes, constants as document 01 asks; a session with any other code, which C may lend, is a closed one.
    pub const CLOSED: u8 = 0;

    pub const WAITING: u8 = 1;

    pub const OPEN: u8 = 2;

    // The interface version, the longest message and the least output buffer.
    pub const VERSION: u8 = message::VERSION;

    pub const MESSAGE_MOST: usize = message::MESSAGE_MOST;

    pub const OUTPUT_LEAST: usize = 1032;

    // ---- what becomes of a session

    fn closed(self) -> Session
        ensures { result ≡ closing self }
    {
        Session {
            state: Session::CLOSED,
            ..self
        }
    }

    fn opened(self, number: u16) -> Session
        ensures { result ≡ opening self number }
    {
        let expected = number.wrapping_add(1);
        Session {
            state: Session::OPEN,
            expected,
            remembered: false,
            transaction: 0,
            ..self
        }
    }

    fn remembering(self, number: u32) -> Session
        ensures { result ≡ remembering self number }
    {
        Session {
            remembered: true,
            transaction: number,
            ..self
        }
    }

    // After a reply that leaves the session open.
    fn kept(self) -> Session
        ensures { result ≡ replied self Open }
    {
        let next = self.next.wrapping_add(1);
        let expected = self.expected.wrapping_add(1);
        Session {
            state: Session::OPEN,
            next,
            expected,
            ..self
        }
    }

    // After a reply that closes the session.
    fn dropped(self) -> Session
        ensures { result ≡ replied self Closed }
    {
        let next = self.next.wrapping_add(1);
        Session {
            state: Session::CLOSED,
            next,
            ..self
        }
    }

    // ---- begin

    // Begins a session: writes a session init with the starting number, and hands back its length. Refuses H2, H6.
    #[tactic(auto, unfolding(crate::specs::Sessions::begin))]
    pub fn begin(
        own: u32,
        peer: u32,
        number: u16,
        out: &mut [u8],
    ) -> Result<(Session, usize), Refusal>
        ensures { Begins own peer number out.old out.new result }
    {
        if out.len() < Session::OUTPUT_LEAST {
            return Err(Refusal::OutputLength);
        }
        if own == peer {
            return Err(Refusal::SameIdentity);
        }
        put_init(out, own, peer, number);
        let next = number.wrapping_add(1);
        let session = Session {
            state: Session::WAITING,
            own,
            peer,
            next,
            expected: 0,
            remembered: false,
            transaction: 0,
        };
        Ok((session, HEAD))
    }

    // ---- answers

    #[tactic(auto, unfolding(crate::specs::Rules::refuse))]
    fn refuse(self, h: Refusal) -> Turn
        ensures { Refuses (house_number h) self result.answer result.session }
    {
        Turn {
            answer: Err(h),
            session: self,
        }
    }

    // Writes a reply's head before the n RESULTs that stand in out already. The session is then the one given.
    fn reply(
        self,
        response: Response,
        n: u16,
        after: Session,
        m: Headed<'_>,
        out: &mut [u8],
    ) -> Turn
        requires { 23 ≤ length out.old }
        ensures answer { result.answer ≡ Ok (Received.Reply (23 + n)) }
        ensures session { result.session ≡ after }
        ensures output { out.new ≡ splice out.old 0 (reply_head self.own self.peer (transaction m.entry.bytes.now) self.next (response_number response) n) }
    {
        let number = m.transaction();
        put_reply(
            out,
            self.own,
            self.peer,
            number,
            self.next,
            response.number(),
            n,
        );
        Turn {
            answer: Ok(Received::Reply(HEAD + (n as usize))),
            session: after,
        }
    }

    // The same with RESPONSE 0, in a session that stays open.
    fn report(self, n: u16, m: Headed<'_>, out: &mut [u8]) -> Turn
        requires { 23 ≤ length out.old }
        ensures { Reports n self m.entry.bytes.now out.old out.new result.answer result.session }
    {
        self.reply(Response::Done, n, self.kept(), m, out)
    }

    // ---- waiting

    // The first message: a valid session init opens the session, anything else closes it. Refuses H5.
    #[tactic(auto, unfolding(crate::specs::Rules::while_waiting, crate::specs::Rules::refuse))]
    fn receive_waiting(self, m: Headed<'_>) -> Turn
        ensures { Waits self m.entry.bytes.now result.answer result.session }
    {
        if is_opening(self, m) {
            return Turn {
                answer: Ok(Received::Opened),
                session: self.opened(m.sequence()),
            };
        }
        Turn {
            answer: Err(Refusal::NoSessionInit),
            session: self.closed(),
        }
    }

    // ---- a command past all tests
    // lim, m, s and out stay four parameters: a struct would hold two `&mut`, and each contract would say of each what it leaves, and that it is still the same.

    // The requests of a command, on a sound store. RESPONSE is 0, whatever the RESULTs.
    fn work(
        self,
        command: Command,
        lim: Limits,
        m: Headed<'_>,
        s: &mut [u8],
        out: &mut [u8],
    ) -> Turn
        requires bounded { Bounded lim }
        requires sound { sound lim s.old ≡ true }
        requires body { body_ok (Task.Requests command) m.bytes.now ≡ true }
        requires room { 1032 ≤ length out.old }
        ensures { Does (obey lim (Task.Requests command) self m.entry.bytes.now s.old out.old) result.answer result.session s.new out.new }
    {
        let n = octets::get16_at(m.bytes, REQ_NUM_AT);
        command::work(s, out, lim, self.own, command, m.bytes, n as usize);
        self.report(n, m, out)
    }

    // The store test: an unsound store is answered 6, before any request is worked and nowhere else.
    #[tactic(auto, unfolding(crate::specs::Rules::first_failed, crate::specs::Rules::respond))]
    fn work_if_sound(
        self,
        command: Command,
        lim: Limits,
        m: Headed<'_>,
        s: &mut [u8],
        out: &mut [u8],
    ) -> Turn
        requires bounded { Bounded lim }
        requires body { body_ok (Task.Requests command) m.bytes.now ≡ true }
        requires room { 1032 ≤ length out.old }
        ensures { Does (work_if_sound lim command self m.entry.bytes.now s.old out.old) result.answer result.session s.new out.new }
    {
        if !is_sound(s, lim) {
            return self.reply(Response::StoreUnsound, 0, self.kept(), m, out);
        }
        self.work(command, lim, m, s, out)
    }

    #[tactic(auto, unfolding(crate::specs::Rules::obey))]
    fn delete_all(self, lim: Limits, m: Headed<'_>, s: &mut [u8], out: &mut [u8]) -> Turn
        requires { Lent lim s.old out.old }
        ensures { Does (obey lim Task.DeleteAll self m.entry.bytes.now s.old out.old) result.answer result.session s.new out.new }
    {
        write_empty(s, lim);
        self.report(0, m, out)
    }

    // A message of one of the six types whose header is right.
    #[tactic(auto, unfolding(crate::specs::Rules::first_failed, crate::specs::Rules::obey, crate::specs::Rules::respond))]
    fn perform(self, task: Task, lim: Limits, m: Headed<'_>, s: &mut [u8], out: &mut [u8]) -> Turn
        requires { Lent lim s.old out.old }
        ensures { Does (judged (type_test (Kind.Asks task) lim m.entry.bytes.now s.old) lim self m.entry.bytes.now s.old out.old) result.answer result.session s.new out.new }
    {
        if !body_ok(task, m.bytes) {
            return self.reply(Response::FormatError, 0, self.dropped(), m, out);
        }
        match task {
            Task::Requests(command) => self.work_if_sound(command, lim, m, s, out),
            Task::DeleteAll => self.delete_all(lim, m, s, out),
            Task::EndOfUpdate => Turn {
                answer: Ok(Received::Ended),
                session: self.closed(),
            },
        }
    }

    // ---- receive

    // A message whose header is right and whose transaction number is another than the last, by its type.
    #[tactic(auto, unfolding(crate::specs::Rules::respond))]
    fn receive_typed(self, lim: Limits, m: Headed<'_>, s: &mut [u8], out: &mut [u8]) -> Turn
        requires { Lent lim s.old out.old }
        ensures { Does (judged (type_test (kind m.entry.bytes.now) lim m.entry.bytes.now s.old) lim self m.entry.bytes.now s.old out.old) result.answer result.session s.new out.new }
    {
        match m.kind() {
            Kind::Asks(task) => self.perform(task, lim, m, s, out),
            Kind::SessionInit | Kind::Other => {
                self.reply(Response::NotSupported, 0, self.kept(), m, out)
            }
        }
    }

    // The number is the one that is remembered.
    fn repeats(self, number: u32) -> bool
        ensures { result ≡ repeats self number }
    {
        self.remembered && number == self.transaction
    }

    // A message to an open session.
    #[tactic(auto, unfolding(crate::specs::Rules::in_state, crate::specs::Rules::respond, crate::specs::Rules::verdict, crate::specs::Rules::first_failed, crate::specs::Rules::heard))]
    fn receive_open(self, lim: Limits, m: Headed<'_>, s: &mut [u8], out: &mut [u8]) -> Turn
        requires { Lent lim s.old out.old }
        ensures { Does (in_state Open lim self m.entry.bytes.now s.old out.old) result.answer result.session s.new out.new }
    {
        if let Err(response) = header_fault(self, m) {
            return self.reply(response, 0, self.dropped(), m, out);
        }
        let number = m.transaction();
        let session = self.remembering(number);
        if self.repeats(number) {
            return session.reply(Response::TransactionMismatch, 0, session.dropped(), m, out);
        }
        session.receive_typed(lim, m, s, out)
    }

    // A message with a store of an edition. Refuses H2, H3, H4, H5.
    #[tactic(auto, unfolding(crate::specs::Rules::receive_in, crate::specs::Rules::in_state))]
    fn receive_in(self, lim: Limits, m: &[u8], s: &mut [u8], out: &mut [u8]) -> Turn
        requires { (Bounded lim) × (length s.old ≡ total lim) }
        ensures { Does (receive_in (Some lim) self m.now s.old out.old) result.answer result.session s.new out.new }
    {
        let state = self.state;
        if out.len() < Session::OUTPUT_LEAST {
            return self.refuse(Refusal::OutputLength);
        }
        if state != Session::OPEN && state != Session::WAITING {
            return self.refuse(Refusal::SessionClosed);
        }
        let Some(m) = Headed::new(m) else {
            return self.refuse(Refusal::MessageShort);
        };
        if state == Session::OPEN {
            return self.receive_open(lim, m, s, out);
        }
        self.receive_waiting(m)
    }

    // Takes a message: works it on the store and writes the reply to the front of out. Refuses H1, H2, H3, H4, H5.
    #[tactic(auto, unfolding(crate::specs::Rules::receive, crate::specs::Rules::receive_in))]
    pub fn receive(self, message: &[u8], store: &mut [u8], out: &mut [u8]) -> Turn
        ensures { Does (receive self message.now store.old out.old) result.answer result.session store.new out.new }
    {
        let Some(lim) = edition_of(store.len()) else {
            return self.refuse(Refusal::StoreLength);
        };
        self.receive_in(lim, message, store, out)
    }
}
