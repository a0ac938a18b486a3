//! The properties area of a volume: what the tree of LEB properties says of each main LEB, and how a new tree takes its
//! place.
//!
//! A tree is read from its root's place down, level by level: the nodes of a level, from left to right, say where those of
//! the next stand, and the pnodes say the properties of four main LEBs each. `specs/Tree.antt` says so of any contents, LEB
//! by LEB, so it can be said of what a power cut leaves too. A new tree goes into another LEB of the area than the present
//! one, by one change, so the present tree stands at every moment. While it is laid into a buffer, the invariant is that the
//! bytes so far, alone, are a tree from the present level down.
#![tactic(auto)]

mod laws;
mod levels;
mod lpt_at;
mod nodes;
mod reading;
mod rows;
mod table;
mod writing;

pub use crate::laws::{one_list, still_there};
pub use crate::lpt_at::LptAt;
pub use crate::reading::read_tree;
pub use crate::writing::write_tree;
