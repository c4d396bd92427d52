// The requests of document 01, "What each request does", one function for each: it works in place on a sound store, answers the RESULT
// and leaves the store of the new entries.
#![tactic(auto)]

mod append;
pub mod entry;
mod held;
mod peers;
mod record;
mod removal;

ghost use Rattle.std.specs.Prelude.{◌≡◌, true, ℕ};
ghost use Rattle.store.specs.Store.{entries, sound};
ghost use Rattle.store.specs.Request.{delete, validity, entities, result as result_of};
ghost use Rattle.requests.specs.Worked.{Worked, failure_number, result_number, peer_numbers, addition};

use append::append;
use entry::{Addition, KeyId, PeerList, Period};
use held::key_place;
use peers::set_peers;
use record::{counts_at, put_period};
use removal::remove_at;
use store::field::number_at;
use store::sound::all_odd;
use store::{KEYS_AT, Limits, RECORD};

// The counts of a store, and the first peer index and peer count of one of its records.
#[derive(Clone, Copy)]
pub struct Counts {
    pub keys: usize,
    pub peers: usize,
    pub first: usize,
    pub count: usize,
}

// Why a request is not done, with the number that its RESULT has (000, 5.3.15.1).
#[derive(Clone, Copy, Debug, PartialEq, Eq)]
pub enum Failure {
    NotHeld = 1,
    NoRoom = 2,
    HeldAlready = 3,
    Corrupted = 4,
    NotRecipient = 5,
    TooManyPeers = 255,
}

impl From<Failure> for u8 {
    ghost from_gives = { λ f n. n ≡ failure_number f };

    fn from(failure: Failure) -> u8 {
        failure as u8
    }
}

// The RESULT of a request: 0 where it is done.
pub fn result_number(done: Result<(), Failure>) -> u8
    ensures { result ≡ result_number done }
{
    match done {
        Ok(()) => 0,
        Err(failure) => u8::from(failure),
    }
}

// The bytes and their edition stay two parameters, and each function asks that they are sound: that they are so again afterwards follows only from what
// the fields of a message fit (WorkLaws of `command`), and a struct that is always sound would ask each function here for that.

// Deletes the key with this issuer and serial.
#[tactic(auto, using(store::proofs::SearchLaws::frame))]
pub fn delete(s: &mut [u8], lim: Limits, id: KeyId) -> Result<(), Failure>
    requires { sound lim s.old ≡ true }
    ensures { (own : ℕ) → Worked lim own (delete id.issuer id.serial) s.old s.new (result_number result) }
{
    let i = key_place(s, id).ok_or(Failure::NotHeld)?;
    remove_at(s, lim, i);
    Ok(())
}

// Replaces start and end of the key with this issuer and serial.
#[tactic(auto, using(store::proofs::SearchLaws::frame, store::proofs::SearchLaws::room))]
pub fn set_validity(s: &mut [u8], lim: Limits, id: KeyId, period: Period) -> Result<(), Failure>
    requires { sound lim s.old ≡ true }
    ensures { (own : ℕ) → Worked lim own (validity id.issuer id.serial period.start period.end) s.old s.new (result_number result) }
{
    let i = key_place(s, id).ok_or(Failure::NotHeld)?;
    put_period(s, KEYS_AT + RECORD * i + 32, period);
    Ok(())
}

// Replaces the peers of the key with this issuer and serial.
#[tactic(auto, using(store::proofs::SearchLaws::frame, store::proofs::SearchLaws::room))]
pub fn set_entities(s: &mut [u8], lim: Limits, id: KeyId, peers: PeerList) -> Result<(), Failure>
    requires { sound lim s.old ≡ true }
    ensures { (own : ℕ) → Worked lim own (entities id.issuer id.serial (peer_numbers peers.entry)) s.old s.new (result_number result) }
{
    let i = key_place(s, id).ok_or(Failure::NotHeld)?;
    let old = counts_at(s, i);
    if lim.peers < old.peers - old.count + peers.count() {
        return Err(Failure::TooManyPeers);
    }
    set_peers(s, lim, i, peers);
    Ok(())
}

// Whether an addition can be done; own is the own identity.
#[tactic(auto, using(store::proofs::SearchLaws::frame))]
fn add_result(s: &[u8], lim: Limits, own: u32, new: Addition) -> Result<(), Failure>
    requires { sound lim s.now ≡ true }
    ensures { result_number result ≡ result_of lim own (addition new.entry) (entries lim s.now) }
{
    let n = number_at(s, 2);
    if new.recipient != own {
        return Err(Failure::NotRecipient);
    }
    if !all_odd(new.kmac, 0) {
        return Err(Failure::Corrupted);
    }
    if key_place(s, new.id).is_some() {
        return Err(Failure::HeldAlready);
    }
    if lim.keys <= n {
        return Err(Failure::NoRoom);
    }
    if lim.peers < number_at(s, 6) + new.peers.count() {
        return Err(Failure::TooManyPeers);
    }
    Ok(())
}

// Adds a key; own is the own identity.
pub fn add(s: &mut [u8], lim: Limits, own: u32, new: Addition) -> Result<(), Failure>
    requires { sound lim s.old ≡ true }
    ensures { Worked lim own (addition new.entry) s.old s.new (result_number result) }
{
    add_result(s, lim, own, new)?;
    append(s, lim, new);
    Ok(())
}
