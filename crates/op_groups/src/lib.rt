//! Which parts does a path have, which words of an operation are refused at once, and which group of changes does an
//! operation put, given what was looked up? Each answer is a function of what is handed in, and its contract an equation
//! with a definition of `fs_model`. The idea: whoever walks a path over a backing looks inodes and entries up, and hands
//! them in as facts (`specs/Facts.antt`); a group is then the definition's in every tree that has those facts. So nothing
//! here reads a tree, and no cost grows with more than what is handed in.
#![tactic(auto)]

mod attributes;
mod directories;
mod inodes;
mod law;
mod links;
mod makes;
mod moves;
mod names;
mod needs;
mod parent;
mod paths;
mod rows;
mod shares;
mod sizes;
mod words;

pub use crate::attributes::{setting_mode, truncating};
pub use crate::directories::{dir_links, dir_size, has_no_entry};
pub use crate::inodes::{less_linked, new_dir, new_file, new_symlink, touched};
pub use crate::law::{
    a_group_of_nodes_asks_little, a_new_size_asks_for_enough, groups_stay_within_the_limit,
    what_goes_was_looked_up,
};
pub use crate::links::{is_linked_out, linking, losing, removing};
pub use crate::makes::{is_used_up, making};
pub use crate::moves::moving;
pub use crate::names::{front_of, is_same_name, is_under, last_of, pop_last};
pub use crate::needs::{group_need, inode_bytes, truncation_need};
pub use crate::parent::Parent;
pub use crate::paths::{components, has_long_name, is_name_path, is_path, is_root, root_entry};
pub use crate::rows::by_hash;
pub use crate::sizes::size_of;
pub use crate::words::{
    ends_too_far, is_bad_len, is_bad_mode, is_bad_slot, is_bad_target, is_too_big,
};
