// Lines of text for the console: digits, words, and what a line asks.
#![tactic(auto)]

pub mod connections;
pub mod digits;
pub mod fields;
pub mod orders;
pub mod words;
