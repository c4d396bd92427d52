// The C interface: each function does what the call behind it does.
#![tactic(auto)]

ghost use Rattle.std.specs.Prelude.{◌≡◌, length};
ghost use Rattle.octets.specs.Bytes.{nonzero};
ghost use Rattle.refusal.specs.House.{gives, unless_refused};
ghost use Rattle.refusal.specs.Code.{code};
ghost use Rattle.des.specs.Des.{des_encipher, des_decipher};
ghost use Rattle.store.specs.Layout.{edition1, edition2, edition_of};
ghost use Rattle.store.specs.Search.{place_in, find, empty_in, emptied};
ghost use Rattle.convert.specs.Convert.{answered, converted, converted_as};
ghost use Rattle.authentication.specs.Keys.{derived, session_keys};
ghost use Rattle.authentication.specs.Unit.{built, buffer, unit_of, checked};
ghost use Rattle.kmac.specs.Code.{version, end_after};

use refusal::told;

mod connection;
mod sessions;

// KMAC_VERSION of kmac.h: it rises where a host must be changed or compiled again.
const VERSION: i32 = 6;

// The version of the library's C interface, for a host to compare with KMAC_VERSION.
#[unsafe(no_mangle)]
pub extern "C" fn kmac_version() -> i32
    ensures { result ≡ code (gives version) }
{
    VERSION
}

// The self-test at power-on. It is proved to answer 0: anything else says that the machine is not the one that the proofs are about.
#[unsafe(no_mangle)]
pub extern "C" fn kmac_self_test() -> i32
    ensures { result ≡ code (gives 0) }
{
    if self_test::self_test() { 0 } else { -1 }
}

// Enciphers a block.
#[unsafe(no_mangle)]
pub extern "C" fn kmac_des_encipher(key: &[u8; 8], block: &[u8; 8], res: &mut [u8; 8])
    ensures { res.new ≡ des_encipher key.now block.now }
{
    *res = des::encipher(*key, *block);
}

// Deciphers a block.
#[unsafe(no_mangle)]
pub extern "C" fn kmac_des_decipher(key: &[u8; 8], block: &[u8; 8], res: &mut [u8; 8])
    ensures { res.new ≡ des_decipher key.now block.now }
{
    *res = des::decipher(*key, *block);
}

// The place of the key for a peer at the moment t; its end is written where there is one.
#[unsafe(no_mangle)]
#[tactic(auto, using(crate::proofs::CodeLaws::place_small))]
pub extern "C" fn kmac_find(store: &[u8], peer: u32, t: u32, end: &mut u32) -> i32
    ensures value { result ≡ code (place_in (find store.now peer t)) }
    ensures end_after { «end».new ≡ end_after (find store.now peer t) «end».old }
{
    let found = store::find(store, peer, t);
    if let Ok(place) = found {
        *end = place.end;
    }
    told(found.map(|at| at.place))
}

// Writes the empty store of the buffer's length.
#[unsafe(no_mangle)]
pub extern "C" fn kmac_empty_store(store: &mut [u8]) -> i32
    ensures { (result ≡ code (empty_in (edition_of (length store.old)))) × (store.new ≡ emptied (edition_of (length store.old)) store.old) }
{
    told(store::empty(store).map(|_| 0))
}

// Makes a store of edition 1 one of edition 2.
#[unsafe(no_mangle)]
pub extern "C" fn kmac_to_edition2(from: &[u8], to: &mut [u8]) -> i32
    ensures value { result ≡ code (answered edition1 edition2 from.now to.old) }
    ensures to_after { to.new ≡ converted edition1 edition2 from.now to.old }
{
    told(convert::to_edition2(from, to).map(|_| 0))
}

// Makes a store of edition 2 one of edition 1, where its keys and peers have room there.
#[unsafe(no_mangle)]
pub extern "C" fn kmac_to_edition1(from: &[u8], to: &mut [u8]) -> i32
    ensures value { result ≡ code (answered edition2 edition1 from.now to.old) }
    ensures to_after { to.new ≡ converted edition2 edition1 from.now to.old }
{
    told(convert::to_edition1(from, to).map(|_| 0))
}

// Checks a unit: the length of its user data, which start at byte 1.
#[unsafe(no_mangle)]
#[tactic(auto, using(crate::proofs::CodeLaws::data_small))]
pub extern "C" fn kmac_check(unit: &[u8], key: &[u8], destination: &[u8; 3], direction: u8) -> i32
    ensures { result ≡ code (checked unit.now key.now destination.now (nonzero direction)) }
{
    told(authentication::check(unit, key, *destination, direction != 0))
}

// Derives the session keys, and writes them where it does not refuse.
#[unsafe(no_mangle)]
pub extern "C" fn kmac_session_keys(
    kmac: &[u8],
    ra: &[u8; 8],
    rb: &[u8; 8],
    keys: &mut [u8; 24],
) -> i32
    ensures value { result ≡ code (derived kmac.now) }
    ensures keys_after { keys.new ≡ unless_refused (derived kmac.now) (session_keys kmac.now ra.now rb.now) keys.old }
{
    match authentication::session_keys(kmac, *ra, *rb) {
        Ok(made) => {
            *keys = made;
            0
        }
        Err(h) => i32::from(h),
    }
}

// Builds a unit at the front of out.
#[unsafe(no_mangle)]
#[tactic(auto, using(crate::proofs::CodeLaws::unit_small))]
pub extern "C" fn kmac_build(
    key: &[u8],
    destination: &[u8; 3],
    direction: u8,
    user: &[u8],
    out: &mut [u8],
) -> i32
    ensures value { result ≡ code (built key.now user.now out.old) }
    ensures out_after { out.new ≡ buffer (built key.now user.now out.old) (unit_of key.now destination.now (nonzero direction) user.now) out.old }
{
    told(authentication::build(key, *destination, direction != 0, user, out))
}
