// What a line asks.
ghost use Rattle.std.specs.Prelude.{◌≡◌};
ghost use Rattle.lines.specs.Orders.{begin_order, search_order, keys_order, edition_order, unit_field, connection_order, bytes_order, fields_order, text_of, commands, command_of, field_count, has_word, counted_order, command_order, order_of};

use crate::connections::{Asked, Name, Verb, fields_of, name_field};
use crate::fields::{Fault, bytes_field, decimal_field, hex_field};
use crate::words::word;

#[derive(Clone, Copy)]
pub enum Command {
    Begin,
    Message,
    Search,
    Keys,
    Build,
    Check,
    Connection(Verb),
    Store,
    Edition,
    Convert,
    Show,
    Empty,
    Help,
}

// The destination of a unit, and its direction.
#[derive(Clone, Copy)]
pub struct Route {
    pub destination: u32,
    pub direction: bool,
}

// A line that is read, with its numbers. The bytes of a message, of user data and of a unit stay in the line.
#[derive(Clone, Copy)]
pub enum Order {
    Nothing,
    Note,
    Begin(u32, u32, u16),
    Message,
    Search(u32, u32),
    Keys(usize, u64, u64),
    Build(Route),
    Check(Route),
    Connection(Name, Asked),
    Store,
    // Whether it is edition 2.
    Edition(bool),
    Convert,
    Show,
    Empty,
    Help,
    Unknown,
    Bad(Fault, Command),
}

// ---- lines

fn begin(line: &[u8]) -> Result<Order, Fault>
    ensures { result ≡ begin_order line.now }
{
    let own = hex_field(line, 1, 8)?;
    let peer = hex_field(line, 2, 8)?;
    let number = decimal_field(line, 3, 0, 65535)?;
    Ok(Order::Begin(own as u32, peer as u32, number as u16))
}

// A line that has bytes in hex and no other field.
fn with_bytes(line: &[u8], order: Order) -> Result<Order, Fault>
    ensures { result ≡ bytes_order order line.now }
{
    bytes_field(line, 1)?;
    Ok(order)
}

fn search(line: &[u8]) -> Result<Order, Fault>
    ensures { result ≡ search_order line.now }
{
    let peer = hex_field(line, 1, 8)?;
    let t = hex_field(line, 2, 8)?;
    Ok(Order::Search(peer as u32, t as u32))
}

fn keys(line: &[u8]) -> Result<Order, Fault>
    ensures { result ≡ keys_order line.now }
{
    let place = decimal_field(line, 1, 0, 65535)?;
    let ra = hex_field(line, 2, 16)?;
    let rb = hex_field(line, 3, 16)?;
    Ok(Order::Keys(place as usize, ra, rb))
}

fn edition(line: &[u8]) -> Result<Order, Fault>
    ensures { result ≡ edition_order line.now }
{
    let n = decimal_field(line, 1, 1, 2)?;
    Ok(Order::Edition(n == 2))
}

// The destination and the direction of a unit; its bytes or its user data stand behind them.
fn unit_field(line: &[u8]) -> Result<Route, Fault>
    ensures { result ≡ unit_field line.now }
{
    let destination = hex_field(line, 1, 6)?;
    let direction = decimal_field(line, 2, 0, 1)?;
    bytes_field(line, 3)?;
    Ok(Route {
        destination: destination as u32,
        direction: direction != 0,
    })
}

fn connection(verb: Verb, line: &[u8]) -> Result<Order, Fault>
    ensures { result ≡ connection_order verb line.now }
{
    let name = name_field(line)?;
    let asked = fields_of(verb, line)?;
    Ok(Order::Connection(name, asked))
}

// ---- commands

// All commands, in the order in which help lists them.
pub const COMMANDS: [Command; 23] = [
    Command::Begin,
    Command::Message,
    Command::Search,
    Command::Keys,
    Command::Build,
    Command::Check,
    Command::Connection(Verb::Connection),
    Command::Connection(Verb::Call),
    Command::Connection(Verb::Indicate),
    Command::Connection(Verb::Confirm),
    Command::Connection(Verb::Bring),
    Command::Connection(Verb::Respond),
    Command::Connection(Verb::Say),
    Command::Connection(Verb::Release),
    Command::Connection(Verb::Lost),
    Command::Connection(Verb::End),
    Command::Connection(Verb::Late),
    Command::Store,
    Command::Edition,
    Command::Convert,
    Command::Show,
    Command::Empty,
    Command::Help,
];

impl Command {
    // The word that asks for it.
    pub fn text(self) -> &'static [u8]
        ensures { result.now ≡ text_of self }
    {
        match self {
            Command::Begin => b"begin",
            Command::Message => b"message",
            Command::Search => b"search",
            Command::Keys => b"keys",
            Command::Build => b"build",
            Command::Check => b"check",
            Command::Connection(verb) => verb.text(),
            Command::Store => b"store",
            Command::Edition => b"edition",
            Command::Convert => b"convert",
            Command::Show => b"show",
            Command::Empty => b"empty",
            Command::Help => b"help",
        }
    }

    // How many words follow it.
    fn fields(self) -> usize
        ensures { result ≡ field_count self }
    {
        match self {
            Command::Begin | Command::Keys | Command::Build | Command::Check => 3,
            Command::Search => 2,
            Command::Message | Command::Store | Command::Edition => 1,
            Command::Connection(verb) => verb.fields(),
            Command::Convert | Command::Show | Command::Empty | Command::Help => 0,
        }
    }
}

// The command that a word names.
#[tactic(auto, unfolding(crate::specs::Orders::command_of))]
fn command_of(w: &[u8]) -> Option<Command>
    ensures { result ≡ command_of w.now }
{
    COMMANDS.iter().copied().find(|c| c.text() == w)
}

fn has_word(line: &[u8], k: usize) -> bool
    ensures { result ≡ has_word line.now k }
{
    !word(line, k).is_empty()
}

// A line whose command has as many words as it wants.
fn read_fields(command: Command, line: &[u8]) -> Result<Order, Fault>
    ensures { result ≡ fields_order command line.now }
{
    match command {
        Command::Begin => begin(line),
        Command::Message => with_bytes(line, Order::Message),
        Command::Search => search(line),
        Command::Keys => keys(line),
        Command::Build => Ok(Order::Build(unit_field(line)?)),
        Command::Check => Ok(Order::Check(unit_field(line)?)),
        Command::Connection(verb) => connection(verb, line),
        Command::Store => with_bytes(line, Order::Store),
        Command::Edition => edition(line),
        Command::Convert => Ok(Order::Convert),
        Command::Show => Ok(Order::Show),
        Command::Empty => Ok(Order::Empty),
        Command::Help => Ok(Order::Help),
    }
}

// A line whose first word is that of a command.
#[tactic(auto, unfolding(crate::specs::Orders::counted_order))]
fn count_and_read(command: Command, line: &[u8]) -> Result<Order, Fault>
    ensures { result ≡ counted_order command line.now }
{
    let n = command.fields();
    if !has_word(line, n) {
        return Err(Fault::TooFewWords);
    }
    if has_word(line, n + 1) {
        return Err(Fault::TooManyWords);
    }
    read_fields(command, line)
}

fn read_command(command: Command, line: &[u8]) -> Order
    ensures { result ≡ command_order command line.now }
{
    count_and_read(command, line).unwrap_or_else(|fault| Order::Bad(fault, command))
}

// What a line asks.
#[tactic(auto, unfolding(crate::specs::Orders::order_of))]
pub fn read(line: &[u8]) -> Order
    ensures { result ≡ order_of line.now }
{
    if line.starts_with(b"#") {
        return Order::Note;
    }
    let w = word(line, 0);
    if w.is_empty() {
        return Order::Nothing;
    }
    match command_of(w) {
        Some(command) => read_command(command, line),
        None => Order::Unknown,
    }
}
