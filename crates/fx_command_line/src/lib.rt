//! The command line: which call the program's arguments name.
#![tactic(auto)]

mod commands;
mod help_text;
mod words;

pub use words::{Call, read_words};
