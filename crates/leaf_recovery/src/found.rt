// Each committed leaf is found at its own node or at its copy.

ghost use Rattle.std.specs.Prelude.{◌≡◌, map, IfOk, OnOk};
ghost use Rattle.leaf_recovery.specs.Found.{copies_left_told, copy_of_key_told, found_leaves_told, leaf_at_copy, leaf_at_node, leaf_found_told, leaf_read, left_behind, lost_leaves_told, own_node_told, unread_leaf};
ghost use Rattle.leaf_recovery.specs.Lost.{lost_leaf_told};

use crate::copies::{copy_of_key, drop_shown, is_own};
use crate::lost::lost_leaf;
use crate::lost_leaf::LostLeaf;
use crate::recovered_leaf::RecoveredLeaf;
use crate::thing::{copied, leaf_of, place_of};
use index_tree::Leaf;
use journal_scan::{JournalNode, NodeContent};
use log_replay::CommittedLeaf;
use media_sys::RefNode;
use std::alloc::Global;
use ubifs_base::{Key, Memory};

// The leaves that are found, and those that are lost.
#[derive(Drop)]
pub(crate) struct FoundLeaves {
    pub(crate) leaves: Vec<RecoveredLeaf>,
    pub(crate) lost: Vec<LostLeaf>,
}

// Finds the committed leaves, out of these copies.
pub(crate) fn find_leaves(
    alloc: Global,
    references: &[RefNode],
    committed: &[CommittedLeaf],
    nodes: &[JournalNode],
    spare: Vec<JournalNode>,
) -> Result<FoundLeaves, Memory>
    ensures leaves { IfOk result (λ found. found.leaves.items ≡ found_leaves_told references.now spare.items committed.now) }
    ensures lost { IfOk result (λ found. found.lost.items ≡ map (lost_leaf_told references.now nodes.now) (lost_leaves_told references.now spare.items committed.now)) }
{
    let mut copies = spare;
    let mut leaves = Vec::new(alloc);
    let mut lost = Vec::new(alloc);
    for leaf in committed {
        match find_leaf(alloc, references, leaf, &mut copies)? {
            Some(found) => leaves.push(found)?,
            None => lost.push(lost_leaf(references, nodes, leaf))?,
        }
    }
    Ok(FoundLeaves { leaves, lost })
}

// Finds one leaf.
fn find_leaf(
    alloc: Global,
    references: &[RefNode],
    leaf: &CommittedLeaf,
    copies: &mut Vec<JournalNode>,
) -> Result<Option<RecoveredLeaf>, Memory>
    ensures found { IfOk result (λ found. found ≡ leaf_found_told copies.old.items leaf.now (own_node_told references.now leaf.now)) }
    ensures left { OnOk result (copies.new.items ≡ copies_left_told copies.old.items leaf.now (own_node_told references.now leaf.now)) }
{
    match &leaf.found {
        Some(node) if is_own(references, &leaf.leaf, node) => {
            let found = leaf_of_node(alloc, leaf.leaf, node)?;
            Ok(Some(found))
        }
        _ => find_copy(alloc, &leaf.leaf, copies),
    }
}

// A leaf whose node was read.
fn leaf_of_node(alloc: Global, leaf: Leaf, node: &JournalNode) -> Result<RecoveredLeaf, Memory>
    ensures { IfOk result (λ found. found ≡ leaf_read leaf node.now) }
{
    let content = copied(alloc, &node.content)?;
    Ok(RecoveredLeaf {
        leaf,
        content,
        sqnum: node.sqnum,
        source: Some(place_of(node)),
    })
}

// The leaf that a node becomes where it stands.
pub(crate) fn leaf_at_node(alloc: Global, node: &JournalNode) -> Result<RecoveredLeaf, Memory>
    ensures { IfOk result (λ found. found ≡ leaf_at_node node.now) }
{
    leaf_of_node(alloc, leaf_of(node), node)
}

// Takes a leaf's copy, if one is left.
fn find_copy(
    alloc: Global,
    leaf: &Leaf,
    copies: &mut Vec<JournalNode>,
) -> Result<Option<RecoveredLeaf>, Memory>
    ensures found { IfOk result (λ found. found ≡ leaf_at_copy leaf.now (copy_of_key_told leaf.now copies.old.items)) }
    ensures left { OnOk result (copies.new.items ≡ left_behind (copy_of_key_told leaf.now copies.old.items) copies.old.items) }
{
    let Some(copy) = copy_of_key(alloc, leaf, copies.as_slice())? else {
        return Ok(unread_leaf(leaf));
    };
    drop_shown(copies, &copy.content);
    let found = leaf_at_node(alloc, &copy)?;
    Ok(Some(found))
}

// A leaf whose node nobody can read: an inode without links, or a block; a name can't be told.
fn unread_leaf(leaf: &Leaf) -> Option<RecoveredLeaf>
    ensures { result ≡ unread_leaf leaf.now }
{
    let content = match leaf.key {
        Key::Ino { ino } => NodeContent::Inode { ino, linked: false },
        Key::Block { ino, block } => NodeContent::Block { ino, block },
        Key::Dent { .. } | Key::Xent { .. } => return None,
    };
    Some(RecoveredLeaf {
        leaf: *leaf,
        content,
        sqnum: 0,
        source: None,
    })
}
