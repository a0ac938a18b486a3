// The leaves that aren't found.

ghost use Rattle.std.specs.Prelude.{◌≡◌, not, filter, is_some, IfOk, OnOk};
ghost use Rattle.std.specs.List.{list_any};
ghost use Rattle.leaf_recovery.specs.Lost.{empty_told, has_name_told, has_rank_told, is_nothing_told, is_renamed_told, is_taken_told, lost_leaf_told, names_left_told, shows_nothing_told, reads_name_told, spare_names_told, stands_for_told, unnamed_told};
ghost use Rattle.leaf_recovery.specs.Things.{same_name_told};

use crate::copies::copied_node;
use crate::lost_leaf::LostLeaf;
use crate::named::in_bud;
use crate::recovered_leaf::RecoveredLeaf;
use crate::thing::{is_of_name, key_of, leaf_of, shows_thing};
use index_tree::Leaf;
use journal_scan::{JournalNode, NodeContent};
use log_replay::CommittedLeaf;
use log_replay::thing::{is_one, rank};
use media_sys::RefNode;
use std::alloc::Global;
use ubifs_base::Memory;

// What is kept of a leaf that isn't found.
pub(crate) fn lost_leaf(
    references: &[RefNode],
    nodes: &[JournalNode],
    leaf: &CommittedLeaf,
) -> LostLeaf
    ensures { result ≡ lost_leaf_told references.now nodes.now leaf.now }
{
    LostLeaf {
        leaf: leaf.leaf,
        is_empty: shows_nothing(references, leaf),
        is_renamed: is_renamed(nodes, leaf),
    }
}

// Whether an intact node of a leaf's key and length stands at its place, but shows nothing.
fn shows_nothing(references: &[RefNode], leaf: &CommittedLeaf) -> bool
    ensures { result ≡ shows_nothing_told references.now leaf.now }
{
    match &leaf.found {
        Some(node) => is_nothing(references, &leaf.leaf, node),
        None => false,
    }
}

pub(crate) fn is_nothing(references: &[RefNode], leaf: &Leaf, node: &JournalNode) -> bool
    ensures { result ≡ is_nothing_told references.now leaf.now node.now }
{
    !in_bud(references, leaf) && !shows_thing(&node.content) && is_one(leaf, &leaf_of(node))
}

// Whether the journal has a node of the name of a lost leaf that can be read.
fn is_renamed(nodes: &[JournalNode], leaf: &CommittedLeaf) -> bool
    ensures { result ≡ is_renamed_told nodes.now leaf.now }
{
    match &leaf.found {
        Some(node) => has_name(nodes, &node.content),
        None => false,
    }
}

fn has_name(nodes: &[JournalNode], content: &NodeContent) -> bool
    ensures { result ≡ has_name_told nodes.now content.now }
{
    for node in nodes {
        if is_of_name(content, &node.content) {
            return true;
        }
    }
    false
}

// The leaves whose node names no inode, where the journal hasn't replaced them.
pub(crate) fn empty_leaves(alloc: Global, lost: &[LostLeaf]) -> Result<Vec<Leaf>, Memory>
    ensures { IfOk result (λ empty. empty.items ≡ empty_told lost.now) }
{
    let mut empty = Vec::new(alloc);
    for leaf in lost {
        if leaf.is_empty && !leaf.is_renamed {
            empty.push(leaf.leaf)?;
        }
    }
    Ok(empty)
}

// The lost leaves of which no node can be read, where the journal hasn't replaced them. Only if a leaf is lost, nodes are compared with
// all leaves.
pub(crate) fn missing_leaves(
    alloc: Global,
    references: &[RefNode],
    committed: &[CommittedLeaf],
    found: &[RecoveredLeaf],
    lost: &[LostLeaf],
    nodes: &[JournalNode],
) -> Result<Vec<Leaf>, Memory>
    ensures { IfOk result (λ missing. missing.items ≡ unnamed_told (spare_names_told references.now committed.now found.now nodes.now) lost.now) }
{
    if lost.is_empty() {
        return Ok(Vec::new(alloc));
    }
    let names = spare_names(alloc, references, committed, found, nodes)?;
    let missing = unnamed_leaves(alloc, lost, names)?;
    Ok(missing)
}

// The same, of these names.
fn unnamed_leaves(
    alloc: Global,
    lost: &[LostLeaf],
    names: Vec<JournalNode>,
) -> Result<Vec<Leaf>, Memory>
    ensures { IfOk result (λ missing. missing.items ≡ unnamed_told names.items lost.now) }
{
    let mut names = names;
    let mut missing = Vec::new(alloc);
    for leaf in lost {
        if !leaf.is_empty && !take_name(alloc, &leaf.leaf, &mut names)? {
            missing.push(leaf.leaf)?;
        }
    }
    Ok(missing)
}

// Takes a name of a leaf's key, if one is left.
fn take_name(alloc: Global, leaf: &Leaf, names: &mut Vec<JournalNode>) -> Result<bool, Memory>
    ensures taken { IfOk result (λ taken. taken ≡ is_some (stands_for_told names.old.items leaf.now)) }
    ensures left { OnOk result (names.new.items ≡ names_left_told (stands_for_told names.old.items leaf.now) names.old.items) }
{
    let Some(name) = stands_for(alloc, leaf, names.as_slice())? else {
        return Ok(false);
    };
    drop_name(names, &name.content);
    Ok(true)
}

fn stands_for(
    alloc: Global,
    leaf: &Leaf,
    names: &[JournalNode],
) -> Result<Option<JournalNode>, Memory>
    ensures { IfOk result (λ name. name ≡ stands_for_told names.now leaf.now) }
{
    for node in names {
        if has_rank(rank(&leaf.key), &node.content) {
            return Ok(Some(copied_node(alloc, node)?));
        }
    }
    Ok(None)
}

fn has_rank(sought: u128, content: &NodeContent) -> bool
    ensures { result ≡ has_rank_told sought content.now }
{
    match content {
        NodeContent::Truncation { .. } => false,
        NodeContent::Inode { .. }
        | NodeContent::Block { .. }
        | NodeContent::Entry { .. }
        | NodeContent::Unknown { .. } => rank(&key_of(content)) == sought,
    }
}

fn drop_name(names: &mut Vec<JournalNode>, content: &NodeContent)
    ensures { names.new.items ≡ filter (λ z. not (same_name_told content.now z.content)) names.old.items }
{
    names.retain(|node| !is_of_name(content, &node.content));
}

// The nodes of the journal that may stand for names that can't be read: no leaf that can be read, and none that is found, has
// their name.
fn spare_names(
    alloc: Global,
    references: &[RefNode],
    committed: &[CommittedLeaf],
    found: &[RecoveredLeaf],
    nodes: &[JournalNode],
) -> Result<Vec<JournalNode>, Memory>
    ensures { IfOk result (λ names. names.items ≡ spare_names_told references.now committed.now found.now nodes.now) }
{
    let mut names = Vec::new(alloc);
    for node in nodes {
        if !is_taken(references, committed, found, node) {
            names.push(copied_node(alloc, node)?)?;
        }
    }
    Ok(names)
}

fn is_taken(
    references: &[RefNode],
    committed: &[CommittedLeaf],
    found: &[RecoveredLeaf],
    node: &JournalNode,
) -> bool
    ensures { result ≡ is_taken_told references.now committed.now found.now node.now }
{
    if is_read_name(references, committed, &node.content) {
        return true;
    }
    is_found_name(found, &node.content)
}

fn is_read_name(references: &[RefNode], committed: &[CommittedLeaf], content: &NodeContent) -> bool
    ensures { result ≡ list_any (reads_name_told references.now content.now) committed.now }
{
    for leaf in committed {
        if reads_name(references, content, leaf) {
            return true;
        }
    }
    false
}

fn reads_name(references: &[RefNode], content: &NodeContent, leaf: &CommittedLeaf) -> bool
    ensures { result ≡ reads_name_told references.now content.now leaf.now }
{
    match &leaf.found {
        Some(node) => is_of_name(&node.content, content) && !in_bud(references, &leaf.leaf),
        None => false,
    }
}

fn is_found_name(found: &[RecoveredLeaf], content: &NodeContent) -> bool
    ensures { result ≡ list_any (λ k. same_name_told k.content content.now) found.now }
{
    for leaf in found {
        if is_of_name(&leaf.content, content) {
            return true;
        }
    }
    false
}
