// A message with a whole header, and the fields of the header.
ghost use Rattle.std.specs.Prelude.{◌≡◌, ◌≤◌, ◌<◌, length, MatchOption};
ghost use Rattle.message.specs.Header.{message_length, version, receiver, sender, transaction, sequence, kind};

use message::{
    HEADER, Kind, RECEIVER_AT, SENDER_AT, SEQUENCE_AT, TRANSACTION_AT, TYPE_AT, VERSION_AT,
};

#[derive(Clone, Copy)]
pub struct Headed<'a> {
    pub bytes: &'a [u8],
    ghost whole: { 20 ≤ length bytes.now },
}

impl<'a> Headed<'a> {
    pub fn new(bytes: &'a [u8]) -> Option<Headed<'a>>
        ensures { MatchOption result (length bytes.now < 20) (λ m. m.bytes.now ≡ bytes.now) }
    {
        if bytes.len() < HEADER {
            return None;
        }
        Some(Headed { bytes })
    }

    pub fn length(self) -> u32
        ensures { result ≡ message_length self.entry.bytes.now }
    {
        octets::get32_at(self.bytes, 0)
    }

    pub fn version(self) -> u8
        ensures { result ≡ version self.entry.bytes.now }
    {
        self.bytes[VERSION_AT]
    }

    pub fn receiver(self) -> u32
        ensures { result ≡ receiver self.entry.bytes.now }
    {
        octets::get32_at(self.bytes, RECEIVER_AT)
    }

    pub fn sender(self) -> u32
        ensures { result ≡ sender self.entry.bytes.now }
    {
        octets::get32_at(self.bytes, SENDER_AT)
    }

    pub fn transaction(self) -> u32
        ensures { result ≡ transaction self.entry.bytes.now }
    {
        octets::get32_at(self.bytes, TRANSACTION_AT)
    }

    pub fn sequence(self) -> u16
        ensures { result ≡ sequence self.entry.bytes.now }
    {
        octets::get16_at(self.bytes, SEQUENCE_AT)
    }

    pub fn kind(self) -> Kind
        ensures { result ≡ kind self.entry.bytes.now }
    {
        Kind::from(self.bytes[TYPE_AT])
    }
}
