// Nodes of the journal that say no change.

ghost use Rattle.std.specs.Prelude.{◌≡◌, List, None, fold, map};
ghost use Rattle.std.specs.List.{AllByRecursion};
ghost use Rattle.media_leaf.specs.LeafNode.{IsLeaf};
ghost use Rattle.leaf_map.specs.Kept.{Placed};
ghost use Rattle.leaf_map.specs.Recovered.{nodes_in_order};
ghost use Rattle.journal_scan.specs.Content.{number_told, told};
ghost use Rattle.image_check.specs.WrongValues.{IsFirstOf, sooner_of};
ghost use Rattle.shown_leaves.specs.FalseNodes.{IsUnchanging};
ghost use Rattle.shown_leaves.specs.Told.{unchanging_told, wrong_node_told};

use image_check::{WrongValue, sooner};
use journal_scan::{JournalNode, NodeContent};
use log_replay::thing::number_of;

/// The first of the journal's nodes that says no change of the tree: an attribute, or an inode with links whose mode names no kind
/// (`struct ubifs_ino_node` of ubifs-media.h). The nodes are those to be applied, in order of number. The inode number of the node's
/// key is wanted. Reads nothing and takes no memory.
pub fn first_unchanging(nodes: &[JournalNode]) -> Option<WrongValue>
    ensures first { (placed : List Placed) → AllByRecursion (λ x. IsLeaf x.node) placed → nodes.now ≡ map told (nodes_in_order placed) → IsFirstOf (IsUnchanging placed) result }
{
    first_told(nodes)
}

fn first_told(nodes: &[JournalNode]) -> Option<WrongValue>
    ensures { result ≡ fold (λ first x. sooner_of first (unchanging_told x)) None nodes.now }
{
    let mut first = None;
    for node in nodes {
        first = sooner(first, unchanging(node));
    }
    first
}

// What is wrong with a node if it says no change.
fn unchanging(node: &JournalNode) -> Option<WrongValue>
    ensures { result ≡ unchanging_told node.now }
{
    match &node.content {
        NodeContent::Unknown { linked: true, .. } => Some(wrong_node(node)),
        NodeContent::Unknown { linked: false, .. }
        | NodeContent::Inode { .. }
        | NodeContent::Block { .. }
        | NodeContent::Entry { .. }
        | NodeContent::Truncation { .. } => None,
    }
}

// A node's place, where the inode number of its key is wanted.
pub(crate) fn wrong_node(node: &JournalNode) -> WrongValue
    ensures { result ≡ wrong_node_told node.now }
{
    WrongValue {
        lnum: node.lnum,
        offs: node.offs,
        wanted: number_in(&node.content) as u64,
        found: 0,
    }
}

// The inode number of a node's key.
fn number_in(content: &NodeContent) -> u32
    ensures { result ≡ number_told content.now }
{
    match content {
        NodeContent::Inode { ino, .. }
        | NodeContent::Block { ino, .. }
        | NodeContent::Truncation { ino, .. } => *ino,
        NodeContent::Entry { dir, .. } => *dir,
        NodeContent::Unknown { key, .. } => number_of(key),
    }
}
