//! Do the leaves of an image, its tree and its links meet their rules, and what is wrong with them first?
//!
//! Three rules of crate sound_image speak of what a mount recovers: `HasLeaves`, `HasTree` and `HasLinks`. The crates below test their parts on
//! lists. The calls here read what is missing, join the parts, and tell a breach of the whole rule. The idea: whatever image the contents are, if
//! the calls before this one have read it so, what is recovered of lists is recovered of the image. So each clause holds for every such image.
#![tactic(auto)]

mod judged;
mod links;
mod reading;
mod recovered;
mod recovered_tree;
mod sourced;
mod tree;
mod tree_found;
mod tree_read;

pub use crate::links::check_links;
pub use crate::recovered::check_recovered;
pub use crate::tree::check_tree;
pub use crate::tree_read::TreeRead;
