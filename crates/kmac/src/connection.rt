// The C interface of connection set-up: each function calls the one of `connection_buffer`.
ghost use Rattle.std.specs.Prelude.{◌≡◌};
ghost use Rattle.octets.specs.Bytes.{nonzero};
ghost use Rattle.refusal.specs.House.{gives};
ghost use Rattle.refusal.specs.Code.{code};
ghost use Rattle.table.specs.Steps.{kind_of, connect_request, connect_response, data_request, disconnect_request, connect_indication, connect_confirmation, disconnect_indication, unit_indication, time_out, step, kind_numbered};
ghost use Rattle.connection_buffer.specs.ConnectionBuffer.{connection_of, kind_number, Tells};

// Sa-CONNECT.request: the caller begins set-up.
#[unsafe(no_mangle)]
pub extern "C" fn kmac_connect_request(
    connection: &mut [u8; 64],
    acceptable: u8,
    own: u32,
    peer: u32,
    t: u32,
    rb: &[u8; 8],
    store: &[u8],
    events: &mut [u8; 8],
    out: &mut [u8],
) -> i32
    ensures { Tells (step (connect_request (nonzero acceptable) own peer t rb.now store.now) (connection_of connection.old) out.old) result connection.old connection.new events.old events.new out.new }
{
    connection_buffer::connect_request(
        connection, acceptable, own, peer, t, *rb, store, events, out,
    )
}

// Sa-CONNECT.response: the called side takes the connection.
#[unsafe(no_mangle)]
pub extern "C" fn kmac_connect_response(
    connection: &mut [u8; 64],
    events: &mut [u8; 8],
    out: &mut [u8],
) -> i32
    ensures { Tells (step connect_response (connection_of connection.old) out.old) result connection.old connection.new events.old events.new out.new }
{
    connection_buffer::connect_response(connection, events, out)
}

// Sa-DATA.request: protects user data.
#[unsafe(no_mangle)]
pub extern "C" fn kmac_data_request(
    connection: &mut [u8; 64],
    user: &[u8],
    events: &mut [u8; 8],
    out: &mut [u8],
) -> i32
    ensures { Tells (step (data_request user.now) (connection_of connection.old) out.old) result connection.old connection.new events.old events.new out.new }
{
    connection_buffer::data_request(connection, user, events, out)
}

// Sa-DISCONNECT.request: releases the connection.
#[unsafe(no_mangle)]
pub extern "C" fn kmac_disconnect_request(
    connection: &mut [u8; 64],
    reason: u8,
    sub: u8,
    events: &mut [u8; 8],
    out: &mut [u8],
) -> i32
    ensures { Tells (step (disconnect_request reason sub) (connection_of connection.old) out.old) result connection.old connection.new events.old events.new out.new }
{
    connection_buffer::disconnect_request(connection, reason, sub, events, out)
}

// T-CONNECT.indication: the called side begins set-up, with an AU1.
#[unsafe(no_mangle)]
pub extern "C" fn kmac_connect_indication(
    connection: &mut [u8; 64],
    acceptable: u8,
    own: u32,
    t: u32,
    ra: &[u8; 8],
    unit: &[u8],
    store: &[u8],
    events: &mut [u8; 8],
    out: &mut [u8],
) -> i32
    ensures { Tells (step (connect_indication (nonzero acceptable) own t ra.now unit.now store.now) (connection_of connection.old) out.old) result connection.old connection.new events.old events.new out.new }
{
    connection_buffer::connect_indication(
        connection, acceptable, own, t, *ra, unit, store, events, out,
    )
}

// T-CONNECT.confirmation, with an AU2.
#[unsafe(no_mangle)]
pub extern "C" fn kmac_connect_confirmation(
    connection: &mut [u8; 64],
    unit: &[u8],
    events: &mut [u8; 8],
    out: &mut [u8],
) -> i32
    ensures { Tells (step (connect_confirmation unit.now) (connection_of connection.old) out.old) result connection.old connection.new events.old events.new out.new }
{
    connection_buffer::connect_confirmation(connection, unit, events, out)
}

// T-DISCONNECT.indication, with a DI or without a unit.
#[unsafe(no_mangle)]
pub extern "C" fn kmac_disconnect_indication(
    connection: &mut [u8; 64],
    reason: u8,
    unit: &[u8],
    events: &mut [u8; 8],
    out: &mut [u8],
) -> i32
    ensures { Tells (step (disconnect_indication reason unit.now) (connection_of connection.old) out.old) result connection.old connection.new events.old events.new out.new }
{
    connection_buffer::disconnect_indication(connection, reason, unit, events, out)
}

// T-DATA.indication, with a unit of the kind that is named.
#[unsafe(no_mangle)]
pub extern "C" fn kmac_unit_indication(
    connection: &mut [u8; 64],
    kind: u8,
    unit: &[u8],
    events: &mut [u8; 8],
    out: &mut [u8],
) -> i32
    ensures { Tells (step (unit_indication (kind_numbered kind) unit.now) (connection_of connection.old) out.old) result connection.old connection.new events.old events.new out.new }
{
    connection_buffer::unit_indication(connection, kind, unit, events, out)
}

// The kind of a unit, by its first byte.
#[unsafe(no_mangle)]
pub extern "C" fn kmac_unit_kind(unit: &[u8]) -> i32
    ensures { result ≡ code (gives (kind_number (kind_of unit.now))) }
{
    connection_buffer::unit_kind(unit)
}

// The time-out of T estab.
#[unsafe(no_mangle)]
pub extern "C" fn kmac_time_out(
    connection: &mut [u8; 64],
    events: &mut [u8; 8],
    out: &mut [u8],
) -> i32
    ensures { Tells (step time_out (connection_of connection.old) out.old) result connection.old connection.new events.old events.new out.new }
{
    connection_buffer::time_out(connection, events, out)
}
