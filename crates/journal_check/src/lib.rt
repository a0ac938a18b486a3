//! Does the journal of an image meet its rules, and what is wrong with it first?
//!
//! Two rules of crate sound_image speak of the journal: `HasLog` on the log, and `HasBuds` on what stands in buds.
//! [`check_log`] reads the log and answers one of both: the rule holds, with what the log says; or it is broken, with the first
//! place at which it is. The idea: of each part of the rule what is wrong first is kept while the log is read, LEB by LEB, so that one pass
//! over the ring finds it, whichever part it is.
#![tactic(auto)]

mod adding;
mod commits;
mod log_check;
mod log_found;
mod log_verdict;
mod newer;
mod read_lebs;
mod reading;
mod references;

pub use crate::log_check::check_log;
pub use crate::log_found::LogFound;
