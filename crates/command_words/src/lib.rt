//! What do the words of a command line say? They say at most one [`Command`], with the names of its files. Whether they say one is the
//! program's own grammar alone ([`read_words`] tests it before it does anything else); words that pass are then taken apart by `clap`.
#![tactic(auto)]

mod command;
mod grammar;
mod parser;
mod read;

pub use crate::command::{Command, ImageCommand};
pub use crate::read::read_words;
