//! What does it mean that an index stands on a medium?
//!
//! A medium is contents: bytes by LEB. `specs/PlacedRow.antt` has the shape of an index whose nodes have places, and
//! `specs/Stored.antt` says when it stands in contents: from the root's branch on, each index node is intact where its
//! branch leads, of its length and of its level, and its keys lie between its branch's key and the next one's. The idea:
//! nodes are never changed where they stand, so that what is written at a free place leaves each index that stands, and a
//! parent that is written behind its children makes one.
#![tactic(auto)]

mod law;

pub use crate::law::{
    a_node_behind_its_children_stands, a_range_removal_keeps_what_nodes_are,
    a_range_removal_leaves_the_keys_of_branches, a_removal_keeps_what_nodes_are,
    a_removal_leaves_the_keys_of_branches, a_replacement_keeps_what_nodes_are,
    a_replacement_leaves_the_keys_of_branches, a_root_behind_its_children_makes_an_index,
    a_root_leads_to_one_index, a_stored_index_is_an_index, an_index_depends_on_its_lebs_alone,
    an_index_takes_the_bytes_of_its_nodes, an_insertion_goes_by_the_keys_of_branches,
    an_insertion_keeps_what_nodes_are,
};
