//! The plain model of files: what each operation of the file system answers and leaves, as a function of the files
//! alone. Every layer is proved against it, and nothing in it speaks of pages that are dirty, of places on the medium
//! or of buffers. `specs/Files.antt` has the state, and `specs/Operation.antt` the operations, each with its refusals in
//! order and, where it changes the tree at once, the group of changes that it puts; what one operation does stands in a
//! file of its own (`Making`, `Links`, `Rename`, `Handles`, `Truncation`, `Attributes`). `specs/Change.antt` says what a
//! change does, `specs/Recovery.antt` which trees a cut may leave, `specs/Proper.antt` what every tree keeps,
//! `specs/Legal.antt` which lines of calls are legal, and `specs/Cover.antt` and `specs/Need.antt` have the sums that
//! admission tests. `specs/Worked.antt` has runs worked by hand.
#![tactic(auto)]

mod backing;
mod backing_answers;
mod blocks;
mod change;
mod group;
mod inode;
mod law;
mod op;
mod ordered_name;
mod page_node;
mod refusal;
mod reply;
mod rows;
mod share;
mod space;
mod trace;
mod worked;

pub use crate::backing::Backing;
pub use crate::backing_answers::{Collected, Ended, Mode, Started, Stepped, StoreFault};
pub use crate::blocks::{BLOCK_SIZE, Blocks};
pub use crate::change::Change;
pub use crate::group::Group;
pub use crate::inode::{Entry, Inode, Kind};
pub use crate::law::{
    a_cut_keeps_what_was_synced, changes_are_seen, groups_make_the_changes,
    later_groups_stand_alone, reads_are_what_was_written, writes_are_kept,
};
pub use crate::op::Op;
pub use crate::ordered_name::OrderedName;
pub use crate::page_node::PageNode;
pub use crate::refusal::{Cause, NoSpace, Refusal, Scarce, Table};
pub use crate::reply::Reply;
pub use crate::rows::Rows;
pub use crate::share::Share;
pub use crate::space::{Class, Grant, Need, Space};
pub use crate::trace::TraceLine;
pub use crate::worked::{
    a_trace_is_judged, directories_are_counted, groups_and_trees_are_told, names_are_answered,
    open_files_are_answered, recovery_is_told,
};
