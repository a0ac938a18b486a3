//! Which calls did the callers of a file system make, in which order, and what was each answered? Files over a backing are kept with the lines of all
//! calls so far. The lines are legal. Replayed one after another, they lead from the files as they were to files that callers can't tell from the
//! present ones. Each is answered as its operation's definition says, or refused for a cause that is told. Behind a lock this is known of the files
//! by their type. What a caller knows beyond that goes with its pass: the lines as it saw them last, in which its own stand each once and in order.
#![tactic(auto)]

mod law;
mod pass;
mod passes;
mod replies;
mod site;
mod traced;

pub use crate::law::{a_line_leaves_what_was_seen, a_sync_leaves_what_was_seen_last};
pub use crate::pass::Pass;
pub use crate::passes::{Ledger, NewTrace, meet_all, open};
pub use crate::site::Site;
pub use crate::traced::{Finished, TracedFs};
