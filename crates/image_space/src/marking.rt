// The marks of main LEBs.

ghost use Rattle.std.specs.Prelude.{◌≡◌, ◌+◌, ◌<◌, ℕ, IfOk, IfNone, IfSome};
ghost use Rattle.image_space.specs.Uses.{AreMarked, AreUses, leaf_seen, leaves_seen, node_seen, nodes_seen, reference_seen, references_seen};

use crate::leb_use::LebUse;
use index_tree::Leaf;
use media_sys::{Branch, RefNode};
use std::alloc::Global;
use ubifs_base::Memory;

/// The marks of so many main LEBs, the first of which has this number: what stands in them, and for which heads references name them.
pub(crate) fn uses_of(
    alloc: Global,
    first: u32,
    count: u32,
    nodes: &[Branch],
    references: &[RefNode],
    leaves: &[Leaf],
) -> Result<Vec<LebUse>, Memory>
    ensures { IfOk result (λ uses. AreUses first count nodes.now references.now leaves.now uses.items) }
{
    let none = LebUse {
        indexed: false,
        filled: false,
        named: false,
        for_others: false,
    };
    let mut uses = vec![in alloc; none; count as usize]?;
    mark_nodes(first, nodes, &mut uses);
    mark_leaves(first, leaves, &mut uses);
    mark_references(first, references, &mut uses);
    Ok(uses)
}

// Marks the LEBs in which these nodes of the index stand.
fn mark_nodes(first: u32, nodes: &[Branch], uses: &mut Vec<LebUse>)
    ensures { AreMarked first (nodes_seen nodes.now) uses.old.items uses.new.items }
{
    let mut left = nodes;
    'marking: while let Some((node, rest)) = left.split_first() {
        mark_node(first, *node, uses);
        left = rest;
    }
}

// Marks the LEBs in which these leaves stand.
fn mark_leaves(first: u32, leaves: &[Leaf], uses: &mut Vec<LebUse>)
    ensures { AreMarked first (leaves_seen leaves.now) uses.old.items uses.new.items }
{
    let mut left = leaves;
    'marking: while let Some((leaf, rest)) = left.split_first() {
        mark_leaf(first, *leaf, uses);
        left = rest;
    }
}

// Marks the LEBs that these references name.
fn mark_references(first: u32, references: &[RefNode], uses: &mut Vec<LebUse>)
    ensures { AreMarked first (references_seen references.now) uses.old.items uses.new.items }
{
    let mut left = references;
    'marking: while let Some((reference, rest)) = left.split_first() {
        mark_reference(first, *reference, uses);
        left = rest;
    }
}

// Marks the LEB of one node, if that is a main LEB.
fn mark_node(first: u32, node: Branch, uses: &mut Vec<LebUse>)
    ensures { AreMarked first (λ lnum seen. node_seen lnum seen node) uses.old.items uses.new.items }
{
    if let Some(at) = place_of(first, node.lnum, uses.len()) {
        uses[at].indexed = true;
    }
}

// The same of a leaf.
fn mark_leaf(first: u32, leaf: Leaf, uses: &mut Vec<LebUse>)
    ensures { AreMarked first (λ lnum seen. leaf_seen lnum seen leaf) uses.old.items uses.new.items }
{
    if let Some(at) = place_of(first, leaf.lnum, uses.len()) {
        uses[at].filled = true;
    }
}

// The same of a reference.
fn mark_reference(first: u32, reference: RefNode, uses: &mut Vec<LebUse>)
    ensures { AreMarked first (λ lnum seen. reference_seen lnum seen reference) uses.old.items uses.new.items }
{
    if let Some(at) = place_of(first, reference.lnum, uses.len()) {
        uses[at].named = true;
        if reference.head.number() != 0 {
            uses[at].for_others = true;
        }
    }
}

// Which of so many LEBs, the first of which has this number, a LEB is.
fn place_of(first: u32, lnum: u32, count: usize) -> Option<usize>
    ensures none { IfNone result ((at : ℕ) → at < count → lnum ≡ first + at → ⊥) }
    ensures some { IfSome result (λ at. (at < count) × (lnum ≡ first + at)) }
{
    if lnum < first {
        return None;
    }
    let at = (lnum - first) as usize;
    if at >= count {
        return None;
    }
    Some(at)
}
