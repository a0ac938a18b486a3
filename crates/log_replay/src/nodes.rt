// The nodes of the journal, in order of number.

ghost use Rattle.std.specs.Prelude.{◌≡◌, List, length, OnOk};
ghost use Rattle.std.specs.List.{AllByRecursion};
ghost use Rattle.media_leaf.specs.LeafNode.{IsLeaf};
ghost use Rattle.leaf_map.specs.After.{kept_after};
ghost use Rattle.leaf_map.specs.Kept.{Kept, Placed};
ghost use Rattle.leaf_map.specs.Recovered.{leaves_after};
ghost use Rattle.journal_scan.specs.Content.{told};
ghost use Rattle.log_replay.specs.Changes.{HasBlockKey, IsHeavier};
ghost use Rattle.log_replay.specs.Standing.{IsFreshPlace, StandsForLeaves};
ghost use Rattle.log_replay.specs.Told.{AreNodesOf};

use crate::application::apply;
use crate::standing::Standing;
use journal_scan::JournalNode;
use leaf_map::{a_change_of_leaves_is_one_of_the_tree, indexes_follow};
use std::alloc::Global;
use ubifs_base::Memory;

// Applies nodes.
pub(crate) fn apply_nodes(
    alloc: Global,
    standing: &mut Standing,
    nodes: Vec<JournalNode>,
) -> Result<(), Memory>
    requires { AllByRecursion HasBlockKey nodes.items }
    ensures stands { OnOk result ((kept : List Kept) (placed : List Placed) → AreNodesOf kept placed nodes.items → StandsForLeaves kept standing.old → StandsForLeaves (leaves_after kept placed) standing.new) }
    ensures weight { OnOk result (IsHeavier (length nodes.items) standing.old standing.new) }
{
    for node in nodes {
        apply_node(alloc, standing, node)?;
    }
    Ok(())
}

// Applies a node: the index and its maps are then those of the leaves after it.
fn apply_node(alloc: Global, standing: &mut Standing, node: JournalNode) -> Result<(), Memory>
    requires { HasBlockKey node }
    ensures stands { OnOk result ((kept : List Kept) (new : Placed) → node ≡ told new → IsLeaf new.node → IsFreshPlace kept new → StandsForLeaves kept standing.old → StandsForLeaves (kept_after kept new) standing.new) }
    ensures weight { IsHeavier 1 standing.old standing.new }
{
    indexes_follow();
    a_change_of_leaves_is_one_of_the_tree();
    apply(alloc, standing, node)?;
    Ok(())
}
