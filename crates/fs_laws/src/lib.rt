//! Does an operation keep the tree proper? Where the tree is proper and each handle names a regular file, the changes of
//! an operation's group are nodes, few enough for one group, the tree is proper after them, and each handle still names a
//! regular file; a page that is written back keeps the tree proper too. The idea: what is asked of a tree is said by
//! look-ups (`proofs/Rel.antt`), and what a change keeps by itself (`proofs/Local.antt`) apart from what an operation's
//! changes keep together. A chain of directories up to the root takes no more steps than there are inodes, so that an
//! inode may go (`proofs/Climb.antt`), and one way alone leads to a directory, so that a directory may move to wherever
//! its own path doesn't lead (`proofs/Ways.antt`). A caller of a backing is proved from the laws alone (`put_operation`).
#![tactic(auto)]

mod client;
mod law;

pub use crate::law::{
    a_closed_file_keeps_trees_proper, a_dropped_inode_keeps_trees_proper, a_fresh_volume_is_sound,
    a_further_name_keeps_trees_proper, a_mount_keeps_trees_proper, a_moved_name_keeps_trees_proper,
    a_new_directory_keeps_trees_proper, a_new_file_keeps_trees_proper,
    a_new_mode_keeps_trees_proper, a_new_size_keeps_trees_proper,
    a_new_symbolic_link_keeps_trees_proper, a_page_keeps_trees_proper, a_page_leaves_files_sound,
    a_removed_directory_keeps_trees_proper, a_removed_name_keeps_trees_proper,
    a_replay_leaves_what_has_a_name, a_write_keeps_trees_proper, an_opened_file_keeps_trees_proper,
    an_operation_asks_for_little, an_operation_fits_its_grant, an_operation_keeps_trees_proper,
    an_operation_leaves_files_sound, groups_fit_trees_built_alike, trees_built_alike_are_proper,
};
