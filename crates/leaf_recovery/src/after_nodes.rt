// The leaves after the nodes of the journal.

ghost use Rattle.std.specs.Prelude.{◌≡◌, List, IsTrue, IfOk, OnOk, fold};
ghost use Rattle.leaf_recovery.specs.Applied.{kept_after_told};
ghost use Rattle.leaf_recovery.specs.Ranked.{AreByRank, AreInKeyOrder, DoFitKeys, fits_key};
ghost use Rattle.leaf_recovery.specs.declared.recovered_leaf.RecoveredLeaf.{RecoveredLeaf};

use crate::applied::apply_nodes;
use crate::found::leaf_at_node;
use crate::key_order::{are_in_key_order, do_fit_keys, first_ended, past_ended};
use crate::ranked::{drop_between, is_idle_ranked, joined, put_ranked, rank_leaves};
use crate::recovered_leaf::RecoveredLeaf;
use crate::thing::becomes_leaf;
use journal_scan::JournalNode;
use std::alloc::Global;
use std::collections::BTreeMap;
use ubifs_base::Memory;

// For so many nodes no map is made.
const FEW_NODES: usize = 128;

// The leaves after nodes. If there are many, and the leaves stand in the order of their keys, each node takes look-ups.
pub(crate) fn leaves_after(
    alloc: Global,
    found: Vec<RecoveredLeaf>,
    nodes: &[JournalNode],
) -> Result<Vec<RecoveredLeaf>, Memory>
    ensures { IfOk result (λ left. left.items ≡ fold kept_after_told found.items nodes.now) }
{
    if nodes.len() > FEW_NODES && can_be_ranked(found.as_slice(), nodes) {
        let left = leaves_after_ranked(alloc, found, nodes)?;
        return Ok(left);
    }
    let mut left = found;
    apply_nodes(alloc, &mut left, nodes)?;
    Ok(left)
}

// Whether the places of keys tell what nodes touch.
fn can_be_ranked(leaves: &[RecoveredLeaf], nodes: &[JournalNode]) -> bool
    ensures { IsTrue result → AreInKeyOrder 0 leaves.now × DoFitKeys nodes.now }
{
    are_in_key_order(leaves) && do_fit_keys(nodes)
}

// The leaves after nodes, by look-ups.
fn leaves_after_ranked(
    alloc: Global,
    found: Vec<RecoveredLeaf>,
    nodes: &[JournalNode],
) -> Result<Vec<RecoveredLeaf>, Memory>
    requires { AreInKeyOrder 0 found.items × DoFitKeys nodes.now }
    ensures { IfOk result (λ left. left.items ≡ fold kept_after_told found.items nodes.now) }
{
    let mut ranked = rank_leaves(alloc, found)?;
    apply_ranked(alloc, &mut ranked, nodes)?;
    let left = joined(alloc, ranked)?;
    Ok(left)
}

// Applies nodes to leaves by rank.
fn apply_ranked(
    alloc: Global,
    ranked: &mut BTreeMap<u128, Vec<RecoveredLeaf>>,
    nodes: &[JournalNode],
) -> Result<(), Memory>
    ensures { OnOk result ((leaves : List RecoveredLeaf) → DoFitKeys nodes.now → AreByRank ranked.old leaves → AreByRank ranked.new (fold kept_after_told leaves nodes.now)) }
{
    let mut left = nodes;
    'applying: while let Some((node, rest)) = left.split_first() {
        apply_node_ranked(alloc, ranked, node)?;
        left = rest;
    }
    Ok(())
}

// Applies one node.
fn apply_node_ranked(
    alloc: Global,
    ranked: &mut BTreeMap<u128, Vec<RecoveredLeaf>>,
    node: &JournalNode,
) -> Result<(), Memory>
    ensures { OnOk result ((leaves : List RecoveredLeaf) → IsTrue (fits_key node.now.content) → AreByRank ranked.old leaves → AreByRank ranked.new (kept_after_told leaves node.now)) }
{
    if is_idle_ranked(ranked, &node.content) {
        return Ok(());
    }
    if becomes_leaf(&node.content) {
        let new = leaf_at_node(alloc, node)?;
        put_ranked(alloc, ranked, &node.content, new)?;
        return Ok(());
    }
    drop_between(
        alloc,
        ranked,
        &node.content,
        first_ended(&node.content),
        past_ended(&node.content),
    )?;
    Ok(())
}
