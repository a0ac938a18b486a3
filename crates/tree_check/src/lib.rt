//! Which of the leaves after recovery shows what is out of its place first, and which inode has a wrong number of links first?
//!
//! Two rules of crate sound_image speak of the tree that leaves show: `HasTree` and `HasLinks`. [`first_out_of_place`] and
//! [`first_wrong_link`] are handed what each leaf shows, and answer the first place that breaks the rule, or none. They are exact on any
//! leaves, also on those of an image that somebody made to deceive. What names lead to and the kinds of inodes are put in order of inode
//! number once, so that each leaf is then tested in a few bisections. What is reached from the root is found downwards, level by level, each number once. The
//! invariant: after n levels the numbers that n steps reach are marked, and an entry of a marked directory leads to a marked number,
//! unless its directory is of the last level.
#![tactic(auto)]

mod children;
mod counts;
mod facts;
mod inode_kind;
mod key_order;
mod kinds;
mod kinds_by_inode;
mod laws;
mod link;
mod link_check;
mod links;
mod links_by_inode;
mod map_reads;
mod place_check;
mod reach;
mod seen_leaves;
mod shown_leaf;

pub use crate::laws::{
    each_leaf_can_be_told, no_wrong_link_means_right_links, nothing_misplaced_means_in_place,
};
pub use crate::link_check::first_wrong_link;
pub use crate::place_check::{first_out_of_place, number_shown};
pub use crate::shown_leaf::{Shown, ShownLeaf};
