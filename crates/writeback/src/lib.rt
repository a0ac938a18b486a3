//! What have callers and workers done after a phase, in which all of them were at work at once, each in a thread of its own? A
//! caller makes its operations one after another; a worker puts dirty pages in the background until it gets a key. Each pass
//! comes back, and its caller's lines are those before the phase and then those of its operations, in order. The idea: a call's
//! clause speaks of the caller's own pass alone, so a caller's run needs nothing of what the others do meanwhile.
#![tactic(auto)]

mod background;
mod closing;
mod gate;
mod job;
mod together;

pub use crate::background::worker;
pub use crate::closing::{NotBegun, close_after_phase};
pub use crate::gate::{Gate, OpenGate};
pub use crate::job::{Job, run};
pub use crate::together::{StopKey, phase};
