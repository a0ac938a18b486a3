// The collector's copies.

ghost use Rattle.std.specs.Prelude.{◌≡◌, not, filter, IfOk};
ghost use Rattle.std.specs.List.{list_any};
ghost use Rattle.leaf_recovery.specs.Found.{copy_of_key_told, is_original_told, is_own_told, spare_copies_told};
ghost use Rattle.leaf_recovery.specs.Things.{shows_told};

use crate::named::in_bud;
use crate::thing::{copied, leaf_of, shows, shows_thing};
use index_tree::Leaf;
use journal_scan::{JournalNode, NodeContent};
use log_replay::CommittedLeaf;
use log_replay::thing::{is_one, rank};
use media_sys::RefNode;
use std::alloc::Global;
use ubifs_base::Memory;

// Whether a node is a leaf's own.
pub(crate) fn is_own(references: &[RefNode], leaf: &Leaf, node: &JournalNode) -> bool
    ensures { result ≡ is_own_told references.now leaf.now node.now }
{
    !in_bud(references, leaf) && shows_thing(&node.content) && is_one(leaf, &leaf_of(node))
}

// The copies of what no own node shows.
pub(crate) fn spare_copies(
    alloc: Global,
    references: &[RefNode],
    committed: &[CommittedLeaf],
    copies: &[JournalNode],
) -> Result<Vec<JournalNode>, Memory>
    ensures { IfOk result (λ spare. spare.items ≡ spare_copies_told references.now committed.now copies.now) }
{
    let mut spare = Vec::new(alloc);
    for copy in copies {
        if !has_original(references, copy, committed) {
            spare.push(copied_node(alloc, copy)?)?;
        }
    }
    Ok(spare)
}

// Whether the own node of one of some leaves shows what a copy shows.
fn has_original(references: &[RefNode], copy: &JournalNode, committed: &[CommittedLeaf]) -> bool
    ensures { result ≡ list_any (is_original_told references.now copy.now) committed.now }
{
    for leaf in committed {
        if is_original(references, copy, leaf) {
            return true;
        }
    }
    false
}

fn is_original(references: &[RefNode], copy: &JournalNode, leaf: &CommittedLeaf) -> bool
    ensures { result ≡ is_original_told references.now copy.now leaf.now }
{
    match &leaf.found {
        Some(node) => shows(&node.content, &copy.content) && is_own(references, &leaf.leaf, node),
        None => false,
    }
}

// A node, once more.
pub(crate) fn copied_node(alloc: Global, node: &JournalNode) -> Result<JournalNode, Memory>
    ensures { IfOk result (λ copy. copy ≡ node.now) }
{
    let content = copied(alloc, &node.content)?;
    Ok(JournalNode {
        content,
        sqnum: node.sqnum,
        lnum: node.lnum,
        offs: node.offs,
        len: node.len,
    })
}

// The first of some copies that has a leaf's key.
pub(crate) fn copy_of_key(
    alloc: Global,
    leaf: &Leaf,
    copies: &[JournalNode],
) -> Result<Option<JournalNode>, Memory>
    ensures { IfOk result (λ copy. copy ≡ copy_of_key_told leaf.now copies.now) }
{
    for copy in copies {
        if rank(&leaf_of(copy).key) == rank(&leaf.key) {
            return Ok(Some(copied_node(alloc, copy)?));
        }
    }
    Ok(None)
}

// Drops the copies of what a node shows.
pub(crate) fn drop_shown(copies: &mut Vec<JournalNode>, content: &NodeContent)
    ensures { copies.new.items ≡ filter (λ c. not (shows_told content.now c.content)) copies.old.items }
{
    copies.retain(|copy| !shows(content, &copy.content));
}
