// Blocks and keys as words: by the printed tables, and by the joined rounds.
ghost use Rattle.std.specs.Prelude.{◌≡◌};
ghost use Rattle.des.specs.Bits.{bits};
ghost use Rattle.des.specs.Des.{encipher_bits, decipher_bits};
ghost use Rattle.authentication.specs.Keys.{triple as tripled};

pub fn encipher(key: u64, x: u64) -> u64
    ensures { bits 64 result ≡ encipher_bits (bits 64 key) (bits 64 x) }
{
    des::encipher_word(des::schedule(key), x)
}

pub fn decipher(key: u64, x: u64) -> u64
    ensures { bits 64 result ≡ decipher_bits (bits 64 key) (bits 64 x) }
{
    des::decipher_word(des::schedule(key), x)
}

pub fn fast_encipher(key: u64, x: u64) -> u64
    ensures { bits 64 result ≡ encipher_bits (bits 64 key) (bits 64 x) }
{
    let keys = fast_des::schedule(key);
    fast_des::leave(fast_des::encipher_halves(fast_des::enter(x), keys))
}

pub fn fast_decipher(key: u64, x: u64) -> u64
    ensures { bits 64 result ≡ decipher_bits (bits 64 key) (bits 64 x) }
{
    let keys = fast_des::schedule(key);
    fast_des::leave(fast_des::decipher_halves(fast_des::enter(x), keys))
}

// DES (K3, DES⁻¹ (K2, DES (K1, x))).
// Three keys, since the formulas take them in two orders.
pub fn triple(k1: u64, k2: u64, k3: u64, x: u64) -> u64
    ensures { bits 64 result ≡ tripled (bits 64 k1) (bits 64 k2) (bits 64 k3) (bits 64 x) }
{
    encipher(k3, decipher(k2, encipher(k1, x)))
}
