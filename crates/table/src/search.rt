// The search where the table starts set-up: store's own, and H11 for an identity type over 7.
ghost use Rattle.std.specs.Prelude.{◌≡◌, ◌&&◌, ◌-◌, leb};
ghost use Rattle.units.specs.Units.{type_of};
ghost use Rattle.store.specs.Store.{HasPlace, kmac_at};
ghost use Rattle.table.specs.Steps.{found};
ghost use Rattle.table.specs.Parts.{searched_as};

use refusal::Refusal;
use store::KMAC;
use units::type_of;

// The largest identity type: ETY has three bits.
const TYPE_MOST: u8 = 7;

// Whether both types can be served.
fn are_types(own: u32, peer: u32) -> bool
    ensures { result ≡ leb (type_of own) 7 && leb (type_of peer) 7 }
{
    type_of(own) <= TYPE_MOST && type_of(peer) <= TYPE_MOST
}

// The place of the record.
#[tactic(auto, unfolding(crate::specs::Steps::found))]
pub fn search(store: &[u8], own: u32, peer: u32, t: u32) -> Result<usize, Refusal>
    ensures { searched_as result ≡ found store.now own peer t }
{
    let found = store::find(store, peer, t)?;
    if !are_types(own, peer) {
        return Err(Refusal::NoKey);
    }
    Ok(found.place)
}

// The KMAC at the place that was found: read there, since a second search would test the whole store again.
pub fn kmac(store: &[u8], place: usize) -> [u8; 24]
    requires { HasPlace store.now place }
    ensures { result ≡ kmac_at store.now (place - 1) }
{
    let mut r = [0u8; KMAC];
    r.copy_from_slice(store::kmac_at(store, place));
    r
}
