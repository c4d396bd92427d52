// The two connections of the bench: what a line asks of one of them.
ghost use Rattle.std.specs.Prelude.{◌≡◌};
ghost use Rattle.table.specs.Steps.{Does, step};
ghost use Rattle.console.specs.Connections.{at_rest, bytes_at, input_of, stepped as steppedBy, brought as broughtBy, asked as asked_of, sides_by};

use crate::events::{state, told};
use crate::text::LINE_BYTES;
use lines::connections::{Asked, Event, Name};
use lines::digits::decode;
use lines::words::word;
use table::{Connection, Step};

// A connection, and the identity of its side, which is kept when it ends.
#[derive(Clone, Copy)]
pub struct Side {
    pub own: u32,
    pub connection: Connection,
}

#[derive(Clone, Copy)]
pub struct Sides {
    pub a: Side,
    pub b: Side,
}

fn at_rest(own: u32) -> Side
    ensures { result ≡ at_rest own }
{
    Side {
        own,
        connection: Connection::none(),
    }
}

pub fn none() -> Sides
    ensures { result ≡ record { a = at_rest 0; b = at_rest 0 } }
{
    Sides {
        a: at_rest(0),
        b: at_rest(0),
    }
}

// The word that has the bytes of an event, a unit or user data; where it has none, word 5, which no line has. An empty word, as the definition bytes_at has it, and so no Option.
fn bytes_at(event: Event) -> usize
    ensures { result ≡ bytes_at event }
{
    match event {
        Event::Confirm | Event::Say | Event::End => 2,
        Event::Bring(_) => 3,
        Event::Indicate(_, _) => 4,
        Event::Call(_, _, _)
        | Event::Respond
        | Event::Release(_, _)
        | Event::Lost(_)
        | Event::Late => 5,
    }
}

fn step_of(side: Side, event: Event, bytes: &[u8], store: &[u8], out: &mut [u8]) -> Step
    ensures { Does (step (input_of event side.own bytes.now store.now) side.connection out.old) result.answer result.connection out.new }
{
    let own = side.own;
    let c = side.connection;
    match event {
        Event::Call(peer, t, rb) => setup::request(
            c,
            true,
            own,
            peer,
            t,
            des::store(rb),
            store,
            out,
        ),
        Event::Indicate(t, ra) => setup::indicated(
            c,
            true,
            own,
            t,
            des::store(ra),
            bytes,
            store,
            out,
        ),
        Event::Confirm => setup::confirmed(c, bytes, out),
        Event::Bring(kind) => setup::unit(c, setup::kind_numbered(kind), bytes, out),
        Event::Respond => setup::respond(c, out),
        Event::Say => setup::send(c, bytes, out),
        Event::Release(reason, sub) => setup::release(c, reason, sub, out),
        Event::Lost(reason) => setup::disconnected(c, reason, &bytes[..0], out),
        Event::End => setup::disconnected(c, 0, bytes, out),
        Event::Late => setup::time_out(c, out),
    }
}

// An event is brought to a connection, and what goes out is written.
fn stepped(side: Side, event: Event, bytes: &[u8], store: &[u8]) -> Side
    ensures { result ≡ steppedBy (input_of event side.own bytes.now store.now) side }
{
    let mut out = [0u8; 1032];
    let step = step_of(side, event, bytes, store, &mut out);
    told(step, bytes, &out);
    Side {
        own: side.own,
        connection: step.connection,
    }
}

fn brought(side: Side, event: Event, text: &[u8], store: &[u8]) -> Side
    ensures { result ≡ broughtBy event text.now store.now side }
{
    let mut bytes = [0u8; LINE_BYTES];
    let n = decode(word(text, bytes_at(event)), &mut bytes);
    stepped(side, event, &bytes[..n], store)
}

fn asked(side: Side, what: Asked, text: &[u8], store: &[u8]) -> Side
    ensures { result ≡ asked_of what text.now store.now side }
{
    match what {
        Asked::Idle(own) => {
            state(Connection::IDLE);
            at_rest(own)
        }
        Asked::Event(event) => brought(side, event, text, store),
    }
}

// What a line asks of the connection of this name.
pub fn obey(mut sides: Sides, name: Name, what: Asked, text: &[u8], store: &[u8]) -> Sides
    ensures { result ≡ sides_by name what text.now store.now sides }
{
    match name {
        Name::A => sides.a = asked(sides.a, what, text, store),
        Name::B => sides.b = asked(sides.b, what, text, store),
    }
    sides
}
