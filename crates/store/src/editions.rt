// The editions of the store.
ghost use Rattle.std.specs.Prelude.{◌≡◌};
ghost use Rattle.store.specs.Layout.{edition_of};

use super::Limits;

// The lengths of a store of edition 1 and of edition 2.
pub const LENGTH_1: usize = 3852;

pub const LENGTH_2: usize = 38012;

pub const EDITION_1: Limits = Limits {
    edition: 1,
    keys: 64,
    peers: 256,
};

pub const EDITION_2: Limits = Limits {
    edition: 2,
    keys: 500,
    peers: 4000,
};

// The edition whose stores have this length.
#[tactic(auto, unfolding(crate::specs::Layout::edition_of, crate::specs::Layout::edition_in))]
pub fn edition_of(length: usize) -> Option<Limits>
    ensures { result ≡ edition_of length }
{
    match length {
        LENGTH_1 => Some(EDITION_1),
        LENGTH_2 => Some(EDITION_2),
        _ => None,
    }
}
