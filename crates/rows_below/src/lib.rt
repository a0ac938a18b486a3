//! Which row of an index stands below branches, read from contents.
//!
//! A row that stands somewhere is determined by the bytes there: `row_by` reads a node after another, by the decoder of media_sys. So
//! whoever keeps a branch alone, and what the contents were, has said which row is below it (`specs/RowBelow.antt`).
#![tactic(auto)]

mod laws;

pub use crate::laws::contents_tell_rows;
