// The nodes of the journal, in order of number.

ghost use Rattle.std.specs.Prelude.{◌≡◌, ◌<◌, ◌≤◌, ℕ, fold, length, IfOk, OnOk};
ghost use Rattle.index_tree.specs.Order.{leaf_rank};
ghost use Rattle.leaf_recovery.specs.Applied.{ends_at_told, kept_after_told, put_leaf_told, put_place_told, without_ended};
ghost use Rattle.leaf_recovery.specs.Found.{leaf_at_node};
ghost use Rattle.leaf_recovery.specs.Things.{has_inode_told, is_idle_told};

use crate::found::leaf_at_node;
use crate::recovered_leaf::RecoveredLeaf;
use crate::thing::{becomes_leaf, ends};
use journal_scan::{JournalNode, NodeContent};
use log_replay::thing::{is_inode, rank};
use std::alloc::Global;
use ubifs_base::Memory;

// Applies nodes.
pub(crate) fn apply_nodes(
    alloc: Global,
    kept: &mut Vec<RecoveredLeaf>,
    nodes: &[JournalNode],
) -> Result<(), Memory>
    ensures { OnOk result (kept.new.items ≡ fold kept_after_told kept.old.items nodes.now) }
{
    for node in nodes {
        apply_node(alloc, kept, node)?;
    }
    Ok(())
}

// Applies one node.
fn apply_node(
    alloc: Global,
    kept: &mut Vec<RecoveredLeaf>,
    node: &JournalNode,
) -> Result<(), Memory>
    ensures { OnOk result (kept.new.items ≡ kept_after_told kept.old.items node.now) }
{
    if is_idle(kept.as_slice(), &node.content) {
        return Ok(());
    }
    if becomes_leaf(&node.content) {
        let new = leaf_at_node(alloc, node)?;
        put_leaf(kept, &node.content, new)?;
        return Ok(());
    }
    drop_ended(kept, &node.content);
    Ok(())
}

// Whether a node does nothing: a block of no inode.
fn is_idle(kept: &[RecoveredLeaf], content: &NodeContent) -> bool
    ensures { result ≡ is_idle_told kept.now content.now }
{
    match content {
        NodeContent::Block { ino, .. } => !has_inode(kept, *ino),
        NodeContent::Inode { .. }
        | NodeContent::Entry { .. }
        | NodeContent::Truncation { .. }
        | NodeContent::Unknown { .. } => false,
    }
}

pub(crate) fn has_inode(kept: &[RecoveredLeaf], ino: u32) -> bool
    ensures { result ≡ has_inode_told kept.now ino }
{
    for leaf in kept {
        if is_inode(ino, &leaf.content) {
            return true;
        }
    }
    false
}

// Drops the leaves that a node makes obsolete.
pub(crate) fn drop_ended(kept: &mut Vec<RecoveredLeaf>, content: &NodeContent)
    ensures { kept.new.items ≡ without_ended content.now kept.old.items }
{
    kept.retain(|leaf| !ends(content, &leaf.content));
}

// Puts a leaf in the place of the one that its node makes obsolete, or else behind all leaves whose key isn't greater.
pub(crate) fn put_leaf(
    kept: &mut Vec<RecoveredLeaf>,
    content: &NodeContent,
    new: RecoveredLeaf,
) -> Result<(), Memory>
    ensures { OnOk result (kept.new.items ≡ put_leaf_told content.now new kept.old.items) }
{
    let place = place_for(kept.as_slice(), content, rank(&new.leaf.key));
    if ends_at(kept.as_slice(), place, content) {
        kept[place] = new;
        return Ok(());
    }
    kept.insert(place, new)?;
    Ok(())
}

// Whether a node makes the leaf obsolete that stands at this place.
fn ends_at(kept: &[RecoveredLeaf], place: usize, content: &NodeContent) -> bool
    ensures { result ≡ ends_at_told content.now place kept.now }
{
    match kept.get(place) {
        Some(leaf) => ends(content, &leaf.content),
        None => false,
    }
}

// How many leaves stand before the first that a node makes obsolete or whose key is greater.
fn place_for(kept: &[RecoveredLeaf], content: &NodeContent, new: u128) -> usize
    ensures { result ≡ put_place_told content.now new kept.now }
{
    let mut place = 0;
    for leaf in kept {
        if ends(content, &leaf.content) || rank(&leaf.leaf.key) > new {
            return place;
        }
        place += 1;
    }
    place
}
