//! How do callers and workers share one file system? Files with the lines of all calls lie behind one lock. The lock's type keeps
//! that the lines are legal; a caller knows the rest by its pass. Each call locks, hands on and lets go, so the lock's calls
//! need no answer of their own. Keys that stop workers lie behind a lock of their own.
#![tactic(auto)]

mod keys;
mod live;

pub use crate::keys::StopKind;
pub use crate::live::{Closed, Live};
