// SUBSET-137 on the wire: message types, the body test, and the messages that are written (000, 5.3).
#![tactic(auto)]

ghost use Rattle.std.specs.Prelude.{◌≡◌};
ghost use Rattle.message.specs.Header.{kind_of};

pub mod body;
pub mod written;

// ---- the header (5.3.3): its length, and where its fields stand

pub const HEADER: usize = 20;

pub const VERSION_AT: usize = 4;

pub const RECEIVER_AT: usize = 5;

pub const SENDER_AT: usize = 9;

pub const TRANSACTION_AT: usize = 13;

pub const SEQUENCE_AT: usize = 17;

pub const TYPE_AT: usize = 19;

// The interface version, and the longest message (5.3.2.4).
pub const VERSION: u8 = 2;

pub const MESSAGE_MOST: usize = 5000;

// ---- message types

// The commands with a list of requests.
#[derive(Clone, Copy)]
pub enum Command {
    Adds,
    Deletes,
    Validities,
    Entities,
}

// What a message of one of the six known types asks.
#[derive(Clone, Copy)]
pub enum Task {
    Requests(Command),
    DeleteAll,
    EndOfUpdate,
}

#[derive(Clone, Copy)]
pub enum Kind {
    Asks(Task),
    SessionInit,
    Other,
}

// The kind of a message type number.
impl From<u8> for Kind {
    ghost from_gives = { λ t k. k ≡ kind_of t };

    #[tactic(auto, unfolding(crate::specs::Header::kind_of))]
    fn from(t: u8) -> Kind {
        match t {
            0 => Kind::Asks(Task::Requests(Command::Adds)),
            1 => Kind::Asks(Task::Requests(Command::Deletes)),
            2 => Kind::Asks(Task::DeleteAll),
            3 => Kind::Asks(Task::Requests(Command::Validities)),
            4 => Kind::Asks(Task::Requests(Command::Entities)),
            9 => Kind::SessionInit,
            10 => Kind::Asks(Task::EndOfUpdate),
            _ => Kind::Other,
        }
    }
}
