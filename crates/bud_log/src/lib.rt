//! What does the log say: to which main LEBs, the buds, was the journal written since the last commit, and where does the
//! log end?
//!
//! The log is a ring of LEBs behind the masters. A commit begins a section of it at the start of a LEB, with a commit start
//! node, and each LEB that a journal head goes on in is named there by a reference. Reading begins where the master says and
//! goes on round the ring, as long as a LEB begins with a node whose sequence number is greater than the first commit
//! start's: so an older section, of which the unmapping was undone by a power cut, is never read, and one that a commit began
//! and a cut left unfinished is. `specs/LogText.antt` says what the text of one LEB says, `specs/Buds.antt` what references
//! name, and `specs/Log.antt` which LEBs are read and where the log ends, over any contents, so also over what a cut leaves.
//!
//! A `Log` is written by three calls: a bud is opened, a commit starts a section, and after it the sections before are
//! unmapped. The invariant is `IsReady` of `specs/Writing.antt`: a cut leaves the LEBs that are read as they are, and whatever
//! it leaves of the ring's other LEBs begins with no number above the first commit start's, so that none of it is read.
//! `specs/LogAt.antt` says where the log goes on and when it is full, and `specs/LogCalls.antt` what a cut leaves of each LEB.
#![tactic(auto)]

mod buds;
pub mod client;
mod commits;
mod head_at;
mod laws;
mod laying;
mod log;
mod log_end;
mod log_fault;
mod log_read;
mod read_to;
mod reading;
mod ring;
mod seen;

pub use crate::buds::reference_at;
pub use crate::commits::commit_of;
pub use crate::head_at::HeadAt;
pub use crate::laws::one_log;
pub use crate::log::Log;
pub use crate::log_fault::LogFault;
pub use crate::log_read::LogRead;
pub use crate::reading::read_log;
pub use crate::ring::next_leb;
pub use crate::seen::{Seen, is_later, see, start_of};
