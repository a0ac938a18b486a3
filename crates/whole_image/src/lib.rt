//! Which whole image holds a tree of files?
//!
//! [`make_image`] lays the nodes of a tree, their index and the areas around them into a blank volume. The volume holds a sound image of
//! that tree then.
#![tactic(auto)]

mod filling;
mod law;
mod make_fault;
mod making;
mod packing;
mod tests_of_trees;

pub use crate::law::{
    a_covered_tree_has_room, an_admitted_tree_fits, the_image_of_an_admitted_tree_may_be_written,
};
pub use crate::make_fault::MakeFault;
pub use crate::making::{make_image, make_packed};
pub use crate::packing::packed_geometry;
