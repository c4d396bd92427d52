// What is said of a line that is not read, and help.
use crate::text::line;
use lines::connections::Verb;
use lines::fields::Fault;
use lines::orders::{COMMANDS, Command};

fn connection_usage(verb: Verb) -> &'static str {
    match verb {
        Verb::Connection => "connection NAME IDENTITY (a or b, 8 hex digits: makes it idle)",
        Verb::Call => "call NAME PEER T RB (a or b, 8 hex digits each, random number of 16)",
        Verb::Indicate => {
            "indicate NAME T RA UNIT (a or b, 8 and 16 hex digits, two hex digits a byte)"
        }
        Verb::Confirm => "confirm NAME UNIT (a or b, two hex digits a byte)",
        Verb::Bring => {
            "bring NAME KIND UNIT (a or b; 1 is AU3, 2 AR, 3 DT; two hex digits a byte)"
        }
        Verb::Respond => "respond NAME (a or b)",
        Verb::Say => "say NAME DATA (a or b, two hex digits a byte)",
        Verb::Release => "release NAME REASON SUB (a or b, 0 to 255 each)",
        Verb::Lost => "lost NAME REASON (a or b, 0 to 255)",
        Verb::End => "end NAME UNIT (a or b, two hex digits a byte)",
        Verb::Late => "late NAME (a or b)",
    }
}

fn usage(command: Command) -> &'static str {
    match command {
        Command::Begin => "begin OWN PEER NUMBER (identities of 8 hex digits, NUMBER 0 to 65535)",
        Command::Message => "message HEX (two hex digits a byte)",
        Command::Search => "search PEER T (8 hex digits each)",
        Command::Keys => {
            "keys PLACE RA RB (PLACE 0 to 65535, the first being 1; random numbers of 16 hex digits)"
        }
        Command::Build => {
            "build DESTINATION DIRECTION DATA (6 hex digits, 0 or 1, two hex digits a byte)"
        }
        Command::Check => {
            "check DESTINATION DIRECTION UNIT (6 hex digits, 0 or 1, two hex digits a byte)"
        }
        Command::Connection(verb) => connection_usage(verb),
        Command::Store => "store HEX (3852 or 38012 bytes, two hex digits a byte)",
        Command::Edition => "edition N (1 or 2: makes the empty store of it)",
        Command::Convert => "convert (makes the store one of the other edition)",
        Command::Show => "show",
        Command::Empty => "empty",
        Command::Help => "help",
    }
}

pub fn bad(n: u64, fault: Fault, command: Command) {
    let usage = usage(command);
    line(format_args!("line {n}: {fault}: expected {usage}"));
}

// What is said is one piece, and so one write.
fn at_line(n: u64, what: &str) {
    line(format_args!("line {n}: {what}"));
}

pub fn unknown(n: u64) {
    at_line(n, "no such command: help lists them");
}

// The number is LINE, written out so that the text is one piece.
pub fn too_long(n: u64) {
    at_line(n, "line too long: expected at most 76100 characters");
}

pub fn help() {
    line("# and any text: copied to the output");
    for command in &COMMANDS {
        line(usage(*command));
    }
}
