//! How do bytes of any length reach a LEB that is written in whole units? Appended bytes go to the LEB as its units fill;
//! what doesn't fill a unit waits in memory, and a sync pads it by a gap and writes it.
//!
//! The text of a buffer is what is written of its LEB, with what waits behind it (`specs/Buffer.antt`). An append adds its
//! bytes to that text, and a sync a gap, which is all that the calls promise. What is written are whole units, and less than
//! a unit waits, so each unit that is full is written. A power cut leaves what is written, and nothing behind the units of a
//! call under way.
#![tactic(auto)]

mod buffer;
mod units;

pub use crate::buffer::Buffer;
