//! The program's commands, over any keeper of files and any sink of text.
#![tactic(auto)]

mod beginning;
mod command;
mod copies;
mod image;
mod image_command;
mod laws;
mod mkfs;
mod perform;
mod top;
mod volume_pieces;

pub use crate::laws::{a_run_begins_on_what_mkfs_made, a_run_begins_where_another_ended};
pub use crate::top::ubifs;
