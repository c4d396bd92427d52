// The C interface of sessions: each function calls the one of `session_buffer`.
ghost use Rattle.std.specs.Prelude.{◌≡◌};
ghost use Rattle.refusal.specs.Code.{code};
ghost use Rattle.session.specs.Sessions.{begin, begin_output};
ghost use Rattle.session.specs.Rules.{receive};
ghost use Rattle.session_buffer.specs.SessionBuffer.{session_of, begun_length, begun_buffer, Tells};

// Begins a session: writes the session init to the front of out, and the session.
#[unsafe(no_mangle)]
pub extern "C" fn kmac_begin(
    own: u32,
    peer: u32,
    number: u16,
    session: &mut [u8; 32],
    out: &mut [u8],
) -> i32
    ensures value { result ≡ code (begun_length (begin own peer number out.old)) }
    ensures session_after { session.new ≡ begun_buffer (begin own peer number out.old) session.old }
    ensures out_after { out.new ≡ begin_output (begin own peer number out.old) own peer number out.old }
{
    session_buffer::begin(own, peer, number, session, out)
}

// Takes a message: works it on the store, and writes the reply to the front of out, and the session.
#[unsafe(no_mangle)]
pub extern "C" fn kmac_receive(
    session: &mut [u8; 32],
    message: &[u8],
    store: &mut [u8],
    out: &mut [u8],
) -> i32
    ensures { Tells (receive (session_of session.old) message.now store.old out.old) result session.old session.new store.new out.new }
{
    session_buffer::receive(session, message, store, out)
}
