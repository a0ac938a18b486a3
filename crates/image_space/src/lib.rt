//! Which space does a sound image have, once it is recovered and before any commit?
//!
//! Crate sound_image says it of what an image says (`space_of_image`): bytes of live leaves, empty LEBs, LEBs of the index, the index's
//! weight, and the main LEBs. [`space_of`] tells it of lists: the nodes of the index, the log's references and the recovered leaves.
//! The idea: what stands in a main LEB, and for which heads the log names it, are four marks. Each list is gone over once, and
//! each of its members marks its own LEB, so that no list is searched for a LEB. The counts are then made of the marks alone. A
//! node's length tells whether it is full, so no node is read again ([`lengths_tell_the_weight`]).
#![tactic(auto)]

mod counting;
mod leb_use;
mod marking;
mod space;
mod sums;
mod weight_law;

pub use crate::space::space_of;
pub use crate::weight_law::lengths_tell_the_weight;
