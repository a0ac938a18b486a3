//! What is a line of words, and how is one written?
//!
//! The texts that the program reads and prints are lines: words with one space between them and a newline at the end,
//! numbers in decimal digits. `specs/Lines.antt` says so once for every crate that reads or writes a line; here stand the
//! calls that add words to one.
#![tactic(auto)]

mod line;
mod words;

pub use crate::line::{line_of_three, line_of_two};
pub use crate::words::{push_number, push_number_word, push_word};
