// The data unit: its first byte, its MAC, written and judged (6.2.5.3, Table 12).
ghost use Rattle.std.specs.Prelude.{◌≡◌, ◌+◌, ◌≤◌, length, take};
ghost use Rattle.octets.specs.Bytes.{splice, same};
ghost use Rattle.authentication.specs.Mac.{mac};
ghost use Rattle.authentication.specs.Unit.{flag as flagOf, header as headerOf, message, unit_of, body, mac_of, right_header, right_contents};

use crate::UNIT_LEAST;
use crate::cbc::mac_word;

// Bytes of a MAC.
pub const MAC: usize = 8;

// ETY and MTI of a DT unit (6.2.5.1, Table 12). `units`, which rests on this crate, has them and the flag for the other units.
const ETY: u8 = 0;

const MTI: u8 = 5;

// ---- the first byte

fn flag(direction: bool) -> u8
    ensures { result ≡ flagOf direction }
{
    u8::from(direction)
}

// ETY, MTI and the direction flag joined.
fn header(direction: bool) -> u8
    ensures { result ≡ headerOf direction }
{
    (ETY << 5) | (MTI << 1) | flag(direction)
}

// And taken apart.
#[tactic(auto, using(std::proofs::lemmas::Nat::and_mask), unfolding(crate::specs::Unit::right_header, crate::specs::Unit::flag))]
fn header_right(b: u8, direction: bool) -> bool
    ensures { result ≡ right_header direction b }
{
    b >> 5 == ETY && (b >> 1) & 15 == MTI && b & 1 == flag(direction)
}

// ---- judging

// All eight bytes of the two MACs are compared at once.
pub fn is_mac(key: &[u8; 24], destination: [u8; 3], message: &[u8], sent: &[u8]) -> bool
    requires { length sent.now ≡ 8 }
    ensures { result ≡ same (mac key.now destination message.now) sent.now }
{
    let made = mac_word(key, destination, message);
    let sent = octets::get64_at(sent, 0);
    made == sent
}

pub fn mac_right(unit: &[u8], key: &[u8; 24], destination: [u8; 3]) -> bool
    requires { 9 ≤ length unit.now }
    ensures { result ≡ same (mac key.now destination (body unit.now)) (mac_of unit.now) }
{
    let n = unit.len() - MAC;
    is_mac(key, destination, &unit[..n], &unit[n..])
}

pub fn contents_right(unit: &[u8], direction: bool) -> bool
    ensures { result ≡ right_contents direction unit.now }
{
    unit.len() > UNIT_LEAST && header_right(unit[0], direction)
}

// ---- writing

// The unit without its MAC.
fn put_message(out: &mut [u8], direction: bool, user: &[u8])
    requires { 1 + length user.now ≤ length out.old }
    ensures { out.new ≡ splice out.old 0 (message direction user.now) }
{
    out[0] = header(direction);
    octets::copy(out, 1, user, 0, user.len());
}

// The MAC of the first n bytes behind them.
fn put_mac(out: &mut [u8], n: usize, key: &[u8; 24], destination: [u8; 3])
    requires { n + 8 ≤ length out.old }
    ensures { out.new ≡ splice out.old n (mac key.now destination (take n out.old)) }
{
    let x = mac_word(key, destination, &out[..n]);
    octets::put64(out, n, x);
}

pub fn put_unit(out: &mut [u8], key: &[u8; 24], destination: [u8; 3], direction: bool, user: &[u8])
    requires { length user.now + 9 ≤ length out.old }
    ensures { out.new ≡ splice out.old 0 (unit_of key.now destination direction user.now) }
{
    put_message(out, direction, user);
    put_mac(out, user.len() + 1, key, destination);
}
