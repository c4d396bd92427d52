// Connection set-up on buffers as a host lends them: a connection of 64 bytes, 8 bytes for the events of a step, and an output buffer.
// Each call is an event of `setup`, on the connection that the buffer holds.
#![tactic(auto)]

ghost use Rattle.std.specs.Prelude.{◌≡◌};
ghost use Rattle.octets.specs.Bytes.{nonzero};
ghost use Rattle.refusal.specs.House.{gives};
ghost use Rattle.refusal.specs.Code.{code};
ghost use Rattle.table.specs.Steps.{kind_of, connect_request, connect_response, data_request, disconnect_request, connect_indication, connect_confirmation, disconnect_indication, unit_indication, time_out, step, stepped_as, kind_numbered};
ghost use Rattle.connection_buffer.specs.ConnectionBuffer.{connection_of, kind_number, unit_length, Short, connection_after, events_after, Tells};

use crate::buffers::{bytes_of, events_of, load};
use setup::kind_of;
use table::Step;

mod buffers;

// What the host is told of a step; a refusal writes nowhere. C lends connection and events apart, so they are two parameters.
fn tell(taken: Step, connection: &mut [u8; 64], events: &mut [u8; 8]) -> i32
    requires { Short (stepped_as taken.answer) }
    ensures value { result ≡ code (unit_length (stepped_as taken.answer)) }
    ensures connection_after { connection.new ≡ connection_after (stepped_as taken.answer) taken.connection connection.old }
    ensures events_after { events.new ≡ events_after (stepped_as taken.answer) taken.connection events.old }
{
    let then = taken.connection;
    match taken.answer {
        Ok(actions) => {
            *connection = bytes_of(then);
            *events = events_of(actions, then.state);
            actions.written as i32
        }
        Err(h) => i32::from(h),
    }
}

// Each event loads the connection and tells for itself: one function for it would take the event as a closure, whose contract says the event's own once more.
// ---- events from the user

// Sa-CONNECT.request.
pub fn connect_request(
    connection: &mut [u8; 64],
    acceptable: u8,
    own: u32,
    peer: u32,
    t: u32,
    rb: [u8; 8],
    store: &[u8],
    events: &mut [u8; 8],
    out: &mut [u8],
) -> i32
    ensures { Tells (step (connect_request (nonzero acceptable) own peer t rb store.now) (connection_of connection.old) out.old) result connection.old connection.new events.old events.new out.new }
{
    let before = load(connection);
    let taken = setup::request(before, acceptable != 0, own, peer, t, rb, store, out);
    tell(taken, connection, events)
}

// Sa-CONNECT.response.
pub fn connect_response(connection: &mut [u8; 64], events: &mut [u8; 8], out: &mut [u8]) -> i32
    ensures { Tells (step connect_response (connection_of connection.old) out.old) result connection.old connection.new events.old events.new out.new }
{
    let taken = setup::respond(load(connection), out);
    tell(taken, connection, events)
}

// Sa-DATA.request.
pub fn data_request(
    connection: &mut [u8; 64],
    user: &[u8],
    events: &mut [u8; 8],
    out: &mut [u8],
) -> i32
    ensures { Tells (step (data_request user.now) (connection_of connection.old) out.old) result connection.old connection.new events.old events.new out.new }
{
    let taken = setup::send(load(connection), user, out);
    tell(taken, connection, events)
}

// Sa-DISCONNECT.request.
pub fn disconnect_request(
    connection: &mut [u8; 64],
    reason: u8,
    sub: u8,
    events: &mut [u8; 8],
    out: &mut [u8],
) -> i32
    ensures { Tells (step (disconnect_request reason sub) (connection_of connection.old) out.old) result connection.old connection.new events.old events.new out.new }
{
    let taken = setup::release(load(connection), reason, sub, out);
    tell(taken, connection, events)
}

// ---- events from the transport

// T-CONNECT.indication.
pub fn connect_indication(
    connection: &mut [u8; 64],
    acceptable: u8,
    own: u32,
    t: u32,
    ra: [u8; 8],
    unit: &[u8],
    store: &[u8],
    events: &mut [u8; 8],
    out: &mut [u8],
) -> i32
    ensures { Tells (step (connect_indication (nonzero acceptable) own t ra unit.now store.now) (connection_of connection.old) out.old) result connection.old connection.new events.old events.new out.new }
{
    let before = load(connection);
    let taken = setup::indicated(before, acceptable != 0, own, t, ra, unit, store, out);
    tell(taken, connection, events)
}

// T-CONNECT.confirmation.
pub fn connect_confirmation(
    connection: &mut [u8; 64],
    unit: &[u8],
    events: &mut [u8; 8],
    out: &mut [u8],
) -> i32
    ensures { Tells (step (connect_confirmation unit.now) (connection_of connection.old) out.old) result connection.old connection.new events.old events.new out.new }
{
    let taken = setup::confirmed(load(connection), unit, out);
    tell(taken, connection, events)
}

// T-DISCONNECT.indication.
pub fn disconnect_indication(
    connection: &mut [u8; 64],
    reason: u8,
    unit: &[u8],
    events: &mut [u8; 8],
    out: &mut [u8],
) -> i32
    ensures { Tells (step (disconnect_indication reason unit.now) (connection_of connection.old) out.old) result connection.old connection.new events.old events.new out.new }
{
    let taken = setup::disconnected(load(connection), reason, unit, out);
    tell(taken, connection, events)
}

// T-DATA.indication.
pub fn unit_indication(
    connection: &mut [u8; 64],
    kind: u8,
    unit: &[u8],
    events: &mut [u8; 8],
    out: &mut [u8],
) -> i32
    ensures { Tells (step (unit_indication (kind_numbered kind) unit.now) (connection_of connection.old) out.old) result connection.old connection.new events.old events.new out.new }
{
    let taken = setup::unit(load(connection), setup::kind_numbered(kind), unit, out);
    tell(taken, connection, events)
}

// The kind of a unit, by its first byte.
pub fn unit_kind(unit: &[u8]) -> i32
    ensures { result ≡ code (gives (kind_number (kind_of unit.now))) }
{
    kind_of(unit) as i32
}

// ---- the timer

// The time-out of T estab.
pub fn time_out(connection: &mut [u8; 64], events: &mut [u8; 8], out: &mut [u8]) -> i32
    ensures { Tells (step time_out (connection_of connection.old) out.old) result connection.old connection.new events.old events.new out.new }
{
    let taken = setup::time_out(load(connection), out);
    tell(taken, connection, events)
}
