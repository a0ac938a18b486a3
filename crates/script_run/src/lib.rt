//! What does a script do on a volume in memory?
//!
//! A session has files over a plain backing. A line of a script is a step of it, as a mount, or a caller's operation, which waits for the end of its
//! phase. There the lines that wait are served: one caller's one after another, and those of many callers, or beside workers, at once. Each is
//! answered as the plain operation answers, or for want of room or of a place among orphans. Behind the last line the tree that was put is left,
//! without what has no name. What makes it work is one invariant of the session: no call of its backing fails, and all that the backing promised has
//! room.
#![tactic(auto)]

mod law;
mod lines;
mod nameless;
mod opening;
mod phase;
mod reader;
mod reading;
mod session;
mod whole;

pub use crate::law::{
    a_first_file_is_made, a_first_file_is_made_beside_a_worker, a_phase_is_legal,
    a_script_of_one_caller_is_a_run, what_has_room_is_not_refused_for_want_of_it,
    what_names_fill_takes_no_more, what_only_looks_takes_no_room,
};
pub use crate::whole::{Played, Run, play};
