// What a request brings of a key (000, 5.3.4.1).
ghost use Rattle.std.specs.Prelude.{◌≡◌, ◌/◌, ◌%◌, length};

use store::PEER;

// K-IDENTIFIER (000, 5.3.4.1).
#[derive(Clone, Copy)]
pub struct KeyId {
    pub issuer: u32,
    pub serial: u32,
}

// VALID-PERIOD (000, 5.3.4.1).
#[derive(Clone, Copy)]
pub struct Period {
    pub start: u32,
    pub end: u32,
}

// Peers, four bytes each.
#[derive(Clone, Copy)]
pub struct PeerList<'a> {
    pub bytes: &'a [u8],
    pub ghost whole: { length bytes.now % 4 ≡ 0 },
}

impl PeerList<'_> {
    pub fn count(self) -> usize
        ensures { result ≡ length self.entry.bytes.now / 4 }
    {
        self.bytes.len() / PEER
    }
}

// A key to be added.
#[derive(Clone, Copy)]
pub struct Addition<'a> {
    pub id: KeyId,
    pub recipient: u32,
    pub kmac: &'a [u8],
    pub peers: PeerList<'a>,
    pub period: Period,
    pub ghost kmac_long: { length kmac.now ≡ 24 },
}
