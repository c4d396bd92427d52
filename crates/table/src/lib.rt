// Table 20 of connection set-up (SUBSET-037-2, 6.2.6): connections, states, outgoing events, what a step hands back, and the search where set-up starts.
#![tactic(auto)]

ghost use Rattle.std.specs.Prelude.{◌≡◌};
ghost use Rattle.table.specs.Table.{state_of};
ghost use Rattle.table.specs.Steps.{idle, with_state};

use refusal::Refusal;
use units::Code;

pub mod ends;
pub mod search;

// A connection. The key is the KMAC in WFTC, and the session key from then on; all is zero in IDLE. The state is a byte, as C may lend any. No Debug here and in Step: it would print the key.
#[derive(Clone, Copy)]
pub struct Connection {
    pub state: u8,
    pub responder: bool,
    pub own: u32,
    pub peer: u32,
    pub ra: [u8; 8],
    pub rb: [u8; 8],
    pub key: [u8; 24],
}

// The states, as Table 14 names them.
#[derive(Clone, Copy, Debug, PartialEq, Eq)]
pub enum State {
    IDLE,
    WFTC,
    WFAR,
    DATA,
    WFAU3,
    WFRESP,
}

// Which unit a T-DATA.indication brought, with the number that a host gives it.
#[derive(Clone, Copy, Debug, PartialEq, Eq)]
pub enum Kind {
    Au3 = 1,
    Ar = 2,
    Dt = 3,
}

// The outgoing event to the user of the safe service: user data with their length, a release or a report with reason and sub-reason.
#[derive(Clone, Copy, Debug, PartialEq, Eq)]
pub enum ToUser {
    Nothing,
    ConnectIndication,
    ConnectConfirmation,
    DataIndication(usize),
    DisconnectIndication(Code),
    ReportIndication(Code),
}

// The outgoing event to the transport, with its unit (Table 16), and the number that a host is told.
#[derive(Clone, Copy, Debug, PartialEq, Eq)]
pub enum ToTransport {
    Quiet = 0,
    TConnReq = 1,
    TConnResp = 2,
    TDiscReq = 3,
    TDiscReqDi = 4,
    SendAu3 = 5,
    SendAr = 6,
    SendDt = 7,
}

// What becomes of the timer T estab: nothing, a5, a6, a19 (Table 19); and the number that a host is told.
#[derive(Clone, Copy, Debug, PartialEq, Eq)]
pub enum Timer {
    Keep = 0,
    Set = 1,
    Stop = 2,
    StopAll = 3,
}

// What goes out, in the order of Table 20, and how many bytes of the output buffer the unit has.
#[derive(Clone, Copy, Debug, PartialEq, Eq)]
pub struct Actions {
    pub user: ToUser,
    pub transport: ToTransport,
    pub timer: Timer,
    pub written: usize,
}

// The answer to an event, and the connection for the next.
#[derive(Clone, Copy)]
pub struct Step {
    pub answer: Result<Actions, Refusal>,
    pub connection: Connection,
}

// The state that a code names; any code that names none is idle.
impl From<u8> for State {
    ghost from_gives = { λ code state. state ≡ state_of code };

    fn from(code: u8) -> State {
        match code {
            Connection::WFTC => State::WFTC,
            Connection::WFAR => State::WFAR,
            Connection::DATA => State::DATA,
            Connection::WFAU3 => State::WFAU3,
            Connection::WFRESP => State::WFRESP,
            _ => State::IDLE,
        }
    }
}

impl Connection {
    // State codes; a connection with any other code is idle.
    pub const IDLE: u8 = 0;

    pub const WFTC: u8 = 1;

    pub const WFAR: u8 = 2;

    pub const DATA: u8 = 3;

    pub const WFAU3: u8 = 4;

    pub const WFRESP: u8 = 5;

    // The least output buffer (H2).
    pub const OUTPUT_LEAST: usize = 1032;

    // No connection.
    pub fn none() -> Connection
        ensures { result ≡ idle }
    {
        let random = [0u8; 8];
        let key = [0u8; 24];
        Connection {
            state: Connection::IDLE,
            responder: false,
            own: 0,
            peer: 0,
            ra: random,
            rb: random,
            key,
        }
    }

    // The connection in another state.
    pub fn entering(self, code: u8) -> Connection
        ensures { result ≡ with_state self code }
    {
        Connection {
            state: code,
            ..self
        }
    }
}
