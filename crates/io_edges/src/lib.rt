//! Where a program meets its files and its output: a [`Keeper`] reads and writes whole files by name, and a [`Sink`]
//! takes text. What is written may come as [`Pieces`]. Each counts its faults, and a call answers `Failed` exactly where the count rose. A keeper or sink in
//! memory tells what it holds, so that a program that is generic in both is proved against the bytes themselves; the
//! host's files and its standard output tell nothing. The calls of those in memory fail exactly where a list says so.
#![tactic(auto)]

mod file_keeper;
mod keeper;
mod mem_keeper;
mod mem_sink;
mod out_sink;
mod pieces;
mod schedule;
mod sink;

pub use crate::file_keeper::FileKeeper;
pub use crate::keeper::{KeepFault, Keeper};
pub use crate::mem_keeper::MemKeeper;
pub use crate::mem_sink::MemSink;
pub use crate::out_sink::OutSink;
pub use crate::pieces::Pieces;
pub use crate::sink::{Sink, SinkFault};
