// What the depot report counts (change request 14): the keys of a store by their periods at a moment, its peers, and the sums over many stores.
#![tactic(auto)]

mod periods;

ghost use Rattle.std.specs.Prelude.{◌≡◌};
ghost use Rattle.depot.specs.Counts.{counts_of, sum_of};

use periods::classes_of;
use store::editions::edition_of;
use store::field::number_at;
use store::sound::is_sound;

// Where a key's period lies at a moment.
#[derive(Clone, Copy)]
pub enum Class {
    Fit,
    Ended,
    Early,
    Reversed,
}

// How many keys are in each class.
#[derive(Clone, Copy, Default)]
pub struct Classes {
    pub fit: u32,
    pub ended: u32,
    pub early: u32,
    pub reversed: u32,
}

// The six numbers of a line of the report.
#[derive(Clone, Copy, Default)]
pub struct Tally {
    pub held: u32,
    pub classes: Classes,
    pub peers: u32,
}

// The counts of a store of either edition at the moment t; none where it has no edition's length, or is unsound.
#[tactic(auto, using(store::proofs::SearchLaws::edition_says, store::proofs::SoundLaws::sound_says, crate::proofs::CountLaws::counts_of_sound), unfolding(crate::specs::Counts::counts_of, crate::specs::Counts::counts_in))]
pub fn counts(s: &[u8], t: u32) -> Option<Tally>
    ensures { result ≡ counts_of s.now t }
{
    let lim = edition_of(s.len())?;
    if !is_sound(s, lim) {
        return None;
    }
    Some(Tally {
        held: number_at(s, 2) as u32,
        classes: classes_of(s, lim, t),
        peers: number_at(s, 6) as u32,
    })
}

// The sums with one store's counts added; none where one would pass the largest number of four bytes.
pub fn added(a: Tally, b: Tally) -> Option<Tally>
    ensures { result ≡ sum_of a b }
{
    Some(Tally {
        held: a.held.checked_add(b.held)?,
        classes: Classes {
            fit: a.classes.fit.checked_add(b.classes.fit)?,
            ended: a.classes.ended.checked_add(b.classes.ended)?,
            early: a.classes.early.checked_add(b.classes.early)?,
            reversed: a.classes.reversed.checked_add(b.classes.reversed)?,
        },
        peers: a.peers.checked_add(b.peers)?,
    })
}
