// Reasons and sub-reasons (6.3.3.5). A sub-reason is read with its reason.

// Table 24: no transport service available; the sub-reason is the transport's own.
pub const TRANSPORT: u8 = 1;

// Table 25: a parameter is missing or invalid.
pub const PARAMETER: u8 = 3;

pub const SAFETY_FEATURE: u8 = 29;

// Table 26: the MAC of a DT, AU2, AU3, AR.
pub const MAC: u8 = 4;

pub const MAC_OF_DT: u8 = 1;

pub const MAC_OF_AU2: u8 = 2;

pub const MAC_OF_AU3: u8 = 3;

pub const MAC_OF_AR: u8 = 4;

// Table 27: an authentication message is replayed after set-up.
pub const REPLAY: u8 = 5;

pub const AUTHENTICATION: u8 = 1;

// 6.3.3.5.5: the direction flag is 0 instead of 1, and 1 instead of 0.
pub const DIRECTION: u8 = 6;

pub const NOT_ONE: u8 = 1;

pub const NOT_ZERO: u8 = 2;

// Table 29: time-out without an AR.
pub const TIME_OUT: u8 = 7;

pub const NO_AR: u8 = 3;

// Table 30: a field is invalid; the responding identity is not the one that was called.
pub const FIELD: u8 = 8;

pub const INFORMATION: u8 = 1;

pub const RESPONDING_ID: u8 = 4;

// Table 31: another unit than the AU2, AU3, AR that is due.
pub const SEQUENCE: u8 = 9;

pub const NOT_AU2: u8 = 1;

pub const NOT_AU3: u8 = 2;

pub const NOT_AR: u8 = 3;

// Table 32: the length of an AU1, AU2, AU3, DT, AR.
pub const LENGTH: u8 = 10;

pub const LENGTH_OF_AU1: u8 = 1;

pub const LENGTH_OF_AU2: u8 = 2;

pub const LENGTH_OF_AU3: u8 = 3;

pub const LENGTH_OF_DT: u8 = 5;

pub const LENGTH_OF_AR: u8 = 8;

// 6.3.3.5.7: a reason or a sub-reason that is unknown.
pub const UNKNOWN: u8 = 127;
