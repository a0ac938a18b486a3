//! What do the callers of a script leave who are at work at once?
//!
//! A phase is some lines, each of a caller. Each caller makes its own calls in a thread of its own, one after another, and workers put pages
//! meanwhile. The idea: the lock of the files keeps that all lines so far are one history, and each caller's pass keeps which of them are its own. So
//! behind the phase there is one trace. What is left to find out is that no line is missing for want of memory.
#![tactic(auto)]

mod at_once;
mod jobs;
mod lines;
mod whole;

pub use crate::at_once::serve_at_once;
pub use crate::lines::{CallerLine, last_caller};
pub use crate::whole::is_memory;
