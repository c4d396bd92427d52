// The tests of a message's header, in the order of document 01.
ghost use Rattle.std.specs.Prelude.{◌≡◌};
ghost use Rattle.session.specs.Rules.{length_ok, is_init, opens};
ghost use Rattle.session.specs.Parts.{Faults};
ghost use Rattle.message.specs.Header.{kind};

use crate::Session;
use crate::headed::Headed;
use crate::response::Response;
use message::Kind;
use message::written::init_ok;

// The length field is the number of bytes delivered, at most 5,000.
fn length_ok(m: Headed<'_>) -> bool
    ensures { result ≡ length_ok m.entry.bytes.now }
{
    m.length() as usize == m.bytes.len() && m.bytes.len() <= Session::MESSAGE_MOST
}

// The RESPONSE of the first header test that fails.
#[tactic(auto, unfolding(crate::specs::Rules::first_failed))]
pub fn header_fault(e: Session, m: Headed<'_>) -> Result<(), Response>
    ensures { Faults e m.entry.bytes.now result }
{
    if !length_ok(m) {
        return Err(Response::LengthError);
    }
    if m.version() != Session::VERSION {
        return Err(Response::VersionMismatch);
    }
    if m.receiver() != e.own {
        return Err(Response::ReceiverMismatch);
    }
    if m.sender() != e.peer {
        return Err(Response::SenderMismatch);
    }
    if m.sequence() != e.expected {
        return Err(Response::SequenceMismatch);
    }
    Ok(())
}

// The message is a session init.
fn is_init(m: Headed<'_>) -> bool
    ensures { result ≡ is_init (kind m.entry.bytes.now) }
{
    matches!(m.kind(), Kind::SessionInit)
}

// The one message that opens a waiting session.
#[tactic(auto, unfolding(crate::specs::Rules::opens))]
pub fn is_opening(e: Session, m: Headed<'_>) -> bool
    ensures { result ≡ opens e m.entry.bytes.now }
{
    is_init(m)
        && length_ok(m)
        && m.version() == Session::VERSION
        && m.receiver() == e.own
        && m.sender() == e.peer
        && init_ok(m.bytes)
}
