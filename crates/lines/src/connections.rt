// What a line asks of one of the two connections, a and b.
ghost use Rattle.std.specs.Prelude.{◌≡◌};
ghost use Rattle.lines.specs.Words.{word as word_of};
ghost use Rattle.lines.specs.Connections.{name_field, verb_text, verb_fields, bytes_asked, asked_of};

use crate::fields::{Fault, bytes_field, decimal_field, hex_field};
use crate::words::word;

// The two connections.
#[derive(Clone, Copy, Debug, PartialEq, Eq)]
pub enum Name {
    A,
    B,
}

// The commands for a connection.
#[derive(Clone, Copy)]
pub enum Verb {
    Connection,
    Call,
    Indicate,
    Confirm,
    Bring,
    Respond,
    Say,
    Release,
    Lost,
    End,
    Late,
}

// An event with its numbers. The bytes of units and of user data stay in the line.
#[derive(Clone, Copy)]
pub enum Event {
    // The peer, T and RB.
    Call(u32, u32, u64),
    // T and RA.
    Indicate(u32, u64),
    Confirm,
    // 1 is AU3, 2 AR, 3 DT: the kinds themselves are those of the table, above this crate.
    Bring(u8),
    Respond,
    Say,
    // The reason and the sub-reason.
    Release(u8, u8),
    Lost(u8),
    End,
    Late,
}

// What is asked of a connection: to be the idle one, with this own identity, or an event.
#[derive(Clone, Copy)]
pub enum Asked {
    Idle(u32),
    Event(Event),
}

// The connection that word 1 names.
#[tactic(auto, unfolding(crate::specs::Connections::name_field))]
pub fn name_field(line: &[u8]) -> Result<Name, Fault>
    ensures { result ≡ name_field (word_of line.now 1) }
{
    match word(line, 1) {
        b"a" => Ok(Name::A),
        b"b" => Ok(Name::B),
        _ => Err(Fault::NoName),
    }
}

impl Verb {
    // The word that asks for it.
    pub fn text(self) -> &'static [u8]
        ensures { result.now ≡ verb_text self }
    {
        match self {
            Verb::Connection => b"connection",
            Verb::Call => b"call",
            Verb::Indicate => b"indicate",
            Verb::Confirm => b"confirm",
            Verb::Bring => b"bring",
            Verb::Respond => b"respond",
            Verb::Say => b"say",
            Verb::Release => b"release",
            Verb::Lost => b"lost",
            Verb::End => b"end",
            Verb::Late => b"late",
        }
    }

    // How many words follow it.
    pub fn fields(self) -> usize
        ensures { result ≡ verb_fields self }
    {
        match self {
            Verb::Respond | Verb::Late => 1,
            Verb::Connection | Verb::Confirm | Verb::Say | Verb::Lost | Verb::End => 2,
            Verb::Bring | Verb::Release => 3,
            Verb::Call | Verb::Indicate => 4,
        }
    }
}

// ---- what is asked, a function for each form of the fields

// An event whose last field is bytes, in word k.
fn with_bytes(line: &[u8], k: usize, event: Event) -> Result<Asked, Fault>
    ensures { result ≡ bytes_asked line.now k event }
{
    bytes_field(line, k)?;
    Ok(Asked::Event(event))
}

fn idle(line: &[u8]) -> Result<Asked, Fault>
    ensures { result ≡ asked_of Verb.Connection line.now }
{
    let own = hex_field(line, 2, 8)?;
    Ok(Asked::Idle(own as u32))
}

fn call(line: &[u8]) -> Result<Asked, Fault>
    ensures { result ≡ asked_of Verb.Call line.now }
{
    let peer = hex_field(line, 2, 8)?;
    let t = hex_field(line, 3, 8)?;
    let rb = hex_field(line, 4, 16)?;
    Ok(Asked::Event(Event::Call(peer as u32, t as u32, rb)))
}

fn indicate(line: &[u8]) -> Result<Asked, Fault>
    ensures { result ≡ asked_of Verb.Indicate line.now }
{
    let t = hex_field(line, 2, 8)?;
    let ra = hex_field(line, 3, 16)?;
    with_bytes(line, 4, Event::Indicate(t as u32, ra))
}

fn bring(line: &[u8]) -> Result<Asked, Fault>
    ensures { result ≡ asked_of Verb.Bring line.now }
{
    let kind = decimal_field(line, 2, 1, 3)?;
    with_bytes(line, 3, Event::Bring(kind as u8))
}

fn release(line: &[u8]) -> Result<Asked, Fault>
    ensures { result ≡ asked_of Verb.Release line.now }
{
    let reason = decimal_field(line, 2, 0, 255)?;
    let sub = decimal_field(line, 3, 0, 255)?;
    Ok(Asked::Event(Event::Release(reason as u8, sub as u8)))
}

fn lost(line: &[u8]) -> Result<Asked, Fault>
    ensures { result ≡ asked_of Verb.Lost line.now }
{
    let reason = decimal_field(line, 2, 0, 255)?;
    Ok(Asked::Event(Event::Lost(reason as u8)))
}

// What stands behind the name.
pub fn fields_of(verb: Verb, line: &[u8]) -> Result<Asked, Fault>
    ensures { result ≡ asked_of verb line.now }
{
    match verb {
        Verb::Connection => idle(line),
        Verb::Call => call(line),
        Verb::Indicate => indicate(line),
        Verb::Confirm => with_bytes(line, 2, Event::Confirm),
        Verb::Bring => bring(line),
        Verb::Respond => Ok(Asked::Event(Event::Respond)),
        Verb::Say => with_bytes(line, 2, Event::Say),
        Verb::Release => release(line),
        Verb::Lost => lost(line),
        Verb::End => with_bytes(line, 2, Event::End),
        Verb::Late => Ok(Asked::Event(Event::Late)),
    }
}
