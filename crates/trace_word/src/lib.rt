//! How does each caller know where its lines stand in a trace that all callers make, if all that one learns of the value
//! behind a lock is its type's invariant?
//!
//! The trace's length is a word. The recorder, whose seat lies behind the lock, knows the trace. Each caller's pass knows a
//! beginning of it, and how many lines of its own it may have there: its claim. Notes carry what one has seen to the other.
//! The rule, which each step on the word keeps in any schedule: the recorder's list is as long as the word says; all other
//! lists are beginnings of it; and it has of no caller more lines than that caller's pass has claimed.
#![tactic(auto)]

mod note;
mod pass;
mod recorder;
mod steps;
mod view;
mod word;

pub use crate::note::Note;
pub use crate::pass::Pass;
pub use crate::recorder::Recorder;
pub use crate::word::TraceWord;
