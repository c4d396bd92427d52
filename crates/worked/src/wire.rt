// The messages of the key centre (000, 5.3).
ghost use Rattle.std.specs.Prelude.{◌≤◌};

use message::written::{HEAD, put_init};
use message::{MESSAGE_MOST, TRANSACTION_AT, VERSION};

// The module and its key centre.
pub const OWN: u32 = 7;

pub const CENTRE: u32 = 6;

// Message types (000, 5.3.3).
const ADD_KEYS: u8 = 0;

const DELETE_KEYS: u8 = 1;

pub const DELETE_ALL_KEYS: u8 = 2;

const UPDATE_KEY_VALIDITIES: u8 = 3;

const UPDATE_KEY_ENTITIES: u8 = 4;

pub const END_OF_UPDATE: u8 = 10;

pub const RESERVED: u8 = 200;

// K-LENGTH, and a KMAC's words.
const KEY_LENGTH: u8 = 24;

const KMAC_WORDS: u16 = 6;

// What an add request says of a key; its KMAC is the same four bytes six times.
#[derive(Clone, Copy)]
pub struct Key {
    pub recipient: u32,
    pub issuer: u32,
    pub serial: u32,
    pub kmac: u32,
    pub peer: u32,
    pub count: u16,
    pub start: u32,
    pub end: u32,
}

// A message as far as it is written. Where there is no room for a field it is not written.
#[derive(Clone, Copy)]
pub struct Message {
    bytes: [u8; MESSAGE_MOST],
    len: usize,
    ghost fits: { len ≤ 5000 },
}

impl Message {
    // ---- fields

    fn field(&mut self, bytes: &[u8]) {
        if bytes.len() <= MESSAGE_MOST - self.len {
            let end = self.len + bytes.len();
            self.bytes[self.len..end].copy_from_slice(bytes);
            self.len = end;
        }
    }

    pub fn byte(&mut self, v: u8) {
        self.field(&[v]);
    }

    fn half(&mut self, v: u16) {
        self.field(&v.to_be_bytes());
    }

    fn word(&mut self, v: u32) {
        self.field(&v.to_be_bytes());
    }

    // The word v, n times.
    fn words(&mut self, v: u32, n: u16) {
        for _ in 0..n {
            self.word(v);
        }
    }

    // K-IDENTIFIER.
    fn identifier(&mut self, issuer: u32, serial: u32) {
        self.word(issuer);
        self.word(serial);
    }

    fn period(&mut self, start: u32, end: u32) {
        self.word(start);
        self.word(end);
    }

    // PEER-NUM, and that many times the peer.
    fn peers(&mut self, peer: u32, count: u16) {
        self.half(count);
        self.words(peer, count);
    }

    // K-STRUCT.
    fn k_struct(&mut self, key: Key) {
        self.byte(KEY_LENGTH);
        self.identifier(key.issuer, key.serial);
        self.word(key.recipient);
        self.words(key.kmac, KMAC_WORDS);
        self.peers(key.peer, key.count);
        self.period(key.start, key.end);
    }

    // ---- messages; their length is still to be written, and the transaction number is the sequence number

    pub fn header(receiver: u32, number: u16, kind: u8) -> Message {
        let mut m = Message {
            bytes: [0; MESSAGE_MOST],
            len: 0,
        };
        m.word(0);
        m.byte(VERSION);
        m.word(receiver);
        m.word(CENTRE);
        m.word(u32::from(number));
        m.half(number);
        m.byte(kind);
        m
    }

    // A header and REQ-NUM.
    fn command(number: u16, kind: u8, requests: u16) -> Message {
        let mut m = Message::header(OWN, number, kind);
        m.half(requests);
        m
    }

    // Adds n keys: the first, and each next with a serial higher by step.
    pub fn add(number: u16, first: Key, n: u16, step: u32) -> Message {
        let mut m = Message::command(number, ADD_KEYS, n);
        let mut key = first;
        for _ in 0..n {
            m.k_struct(key);
            key.serial = key.serial.wrapping_add(step);
        }
        m
    }

    pub fn delete(number: u16, issuer: u32, serial: u32) -> Message {
        let mut m = Message::command(number, DELETE_KEYS, 1);
        m.identifier(issuer, serial);
        m
    }

    pub fn validity(number: u16, issuer: u32, serial: u32, start: u32, end: u32) -> Message {
        let mut m = Message::command(number, UPDATE_KEY_VALIDITIES, 1);
        m.identifier(issuer, serial);
        m.period(start, end);
        m
    }

    // Replaces the peers by so many of this one.
    pub fn entities(number: u16, issuer: u32, serial: u32, peer: u32, count: u16) -> Message {
        let mut m = Message::command(number, UPDATE_KEY_ENTITIES, 1);
        m.identifier(issuer, serial);
        m.peers(peer, count);
        m
    }

    // A session init, whole.
    pub fn init(number: u16) -> Message {
        let mut bytes = [0; MESSAGE_MOST];
        put_init(&mut bytes, CENTRE, OWN, number);
        Message { bytes, len: HEAD }
    }

    // ---- a message that is written

    pub fn set_length(&mut self, length: u32) {
        octets::put32(&mut self.bytes, 0, length);
    }

    pub fn set_transaction(&mut self, number: u32) {
        octets::put32(&mut self.bytes, TRANSACTION_AT, number);
    }

    // With its length written.
    pub fn whole(self) -> Message {
        let mut m = self;
        m.set_length(self.len as u32);
        m
    }

    pub fn as_slice(&self) -> &[u8] {
        &self.bytes[..self.len]
    }
}
