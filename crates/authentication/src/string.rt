// The string l | DA | m | p that the MAC is made of, block by block: it is nowhere copied.
ghost use Rattle.std.specs.Prelude.{◌≡◌, ◌+◌, ◌*◌, ◌/◌, ◌<◌, length, get_or};
ghost use Rattle.octets.specs.Bytes.{number};
ghost use Rattle.authentication.specs.Mac.{unpadded, mac_string};

// Byte i of l | DA | m, and zero behind it, as the padding is.
fn string_byte(i: usize, destination: [u8; 3], m: &[u8]) -> u8
    ensures { result ≡ get_or (unpadded destination m.now) i 0 }
{
    let l = m.len() + 3;
    match i {
        0 => (l / 256 % 256) as u8,
        1 => (l % 256) as u8,
        2..=4 => destination[i - 2],
        _ => m.get(i - 5).copied().unwrap_or(0),
    }
}

// The number of blocks of l | DA | m | p.
pub fn blocks(m: &[u8]) -> usize
    ensures { result ≡ (length m.now + 12) / 8 }
{
    (m.len() + 12) / 8
}

// Block k of l | DA | m | p, as a word, byte by byte.
pub fn word_by_bytes(k: usize, destination: [u8; 3], m: &[u8]) -> u64
    requires { k < (length m.now + 12) / 8 }
    ensures { result ≡ number 8 (mac_string destination m.now) (8 * k) }
{
    let mut r: u64 = 0;
    for i in 0..8 {
        r = r * 256 + u64::from(string_byte(8 * k + i, destination, m));
    }
    r
}

// The same, at once where the block lies whole in m.
pub fn string_word(k: usize, destination: [u8; 3], m: &[u8]) -> u64
    requires { k < (length m.now + 12) / 8 }
    ensures { result ≡ number 8 (mac_string destination m.now) (8 * k) }
{
    if 1 <= k && 8 * k + 3 <= m.len() {
        return octets::get64_at(m, 8 * k - 5);
    }
    word_by_bytes(k, destination, m)
}
