// The refusals of the house (document 01, "Refusals of the house"; H14 is of document 02, change request 6).
#![tactic(auto)]

ghost use Rattle.std.specs.Prelude.{◌≡◌, ◌^◌, ◌<◌, IfOk};
ghost use Rattle.refusal.specs.House.{house, house_number, answer_as};
ghost use Rattle.refusal.specs.Code.{code};

#[derive(Clone, Copy, Debug, PartialEq, Eq)]
pub enum Refusal {
    // H1: the store buffer has the length of no edition, neither 3,852 nor 38,012 bytes; in a conversion, not that of its side's edition.
    StoreLength,
    // H2: the output buffer is under 1,032 bytes.
    OutputLength,
    // H3: a message to a closed session.
    SessionClosed,
    // H4: a message shorter than its header.
    MessageShort,
    // H5: waiting, and no valid session init.
    NoSessionInit,
    // H6: begin with the own identity equal to the peer's.
    SameIdentity,
    // H7: a unit under 9 or over 1,032 bytes.
    UnitLength,
    // H8: the MAC differs.
    MacDiffers,
    // H9: the MAC is right; the user data are empty, or ETY, MTI or direction wrong.
    UnitContents,
    // H10: the user data to protect are not 1 to 1,023 bytes.
    DataLength,
    // H11: no key fits.
    NoKey,
    // H12: a search in an unsound store, or its conversion.
    StoreUnsound,
    // H13: the lent key is not 24 bytes.
    KeyLength,
    // H14: a conversion to edition 1 with more than 64 keys or 256 peers held.
    NoRoom,
}

// The number that the papers give the refusal.
impl From<Refusal> for u8 {
    ghost from_gives = { λ h n. n ≡ house_number h };

    fn from(h: Refusal) -> u8 {
        match h {
            Refusal::StoreLength => 1,
            Refusal::OutputLength => 2,
            Refusal::SessionClosed => 3,
            Refusal::MessageShort => 4,
            Refusal::NoSessionInit => 5,
            Refusal::SameIdentity => 6,
            Refusal::UnitLength => 7,
            Refusal::MacDiffers => 8,
            Refusal::UnitContents => 9,
            Refusal::DataLength => 10,
            Refusal::NoKey => 11,
            Refusal::StoreUnsound => 12,
            Refusal::KeyLength => 13,
            Refusal::NoRoom => 14,
        }
    }
}

// The number that C is given.
impl From<Refusal> for i32 {
    ghost from_gives = { λ h z. z ≡ code (house (house_number h)) };

    fn from(h: Refusal) -> i32 {
        -i32::from(u8::from(h))
    }
}

// What C is told of a call that gives a number.
pub fn told(answer: Result<usize, Refusal>) -> i32
    requires { IfOk answer (λ n. n < 2 ^ 31) }
    ensures { result ≡ code (answer_as (λ n. n) answer) }
{
    match answer {
        Ok(n) => n as i32,
        Err(h) => i32::from(h),
    }
}
