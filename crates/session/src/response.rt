// RESPONSE, how a message is answered (000, 5.3.15).
ghost use Rattle.std.specs.Prelude.{◌≡◌};
ghost use Rattle.session.specs.Parts.{response_number};

#[derive(Clone, Copy)]
pub enum Response {
    Done = 0,
    NotSupported = 1,
    LengthError = 2,
    SenderMismatch = 3,
    ReceiverMismatch = 4,
    VersionMismatch = 5,
    StoreUnsound = 6,
    SequenceMismatch = 9,
    TransactionMismatch = 10,
    FormatError = 11,
}

impl Response {
    pub fn number(self) -> u8
        ensures { result ≡ response_number self }
    {
        self as u8
    }
}
