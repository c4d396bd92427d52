// The first byte of a unit: ETY three bits, MTI four, direction flag one (6.2.5.1).
ghost use Rattle.std.specs.Prelude.{◌≡◌, ◌/◌, ◌%◌, ◌<◌};
ghost use Rattle.authentication.specs.Unit.{flag as flagOf, first_byte};

// Message types (Table 7).
pub const AU1: u8 = 1;

pub const AU2: u8 = 2;

pub const AU3: u8 = 3;

pub const DT: u8 = 5;

pub const DI: u8 = 8;

pub const AR: u8 = 9;

// ETY of a unit that names no sender.
pub const NO_TYPE: u8 = 0;

// Direction flags: to the responder, and to the initiator (6.2.5.1.7).
pub const TO_RESPONDER: u8 = 0;

pub const TO_INITIATOR: u8 = 1;

// The flag of a sender.
pub fn flag(responder: bool) -> u8
    ensures { (result ≡ flagOf responder) × (result < 2) }
{
    u8::from(responder)
}

// The three fields joined.
pub fn first_byte(ety: u8, mti: u8, df: u8) -> u8
    requires { (ety < 8) × (mti < 16) × (df < 2) }
    ensures { result ≡ first_byte ety mti df }
{
    (ety << 5) | (mti << 1) | df
}

// And taken apart.
pub fn ety(first: u8) -> u8
    ensures { result ≡ first / 32 }
{
    first >> 5
}

pub fn mti(first: u8) -> u8
    ensures { result ≡ first / 2 % 16 }
{
    (first >> 1) & 15
}

pub fn df(first: u8) -> u8
    ensures { result ≡ first % 2 }
{
    first & 1
}
