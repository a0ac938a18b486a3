// Leaves without a node of their own go to copies.

ghost use Rattle.std.specs.Prelude.{◌≡◌, List, map, IfOk, OnOk};
ghost use Rattle.leaf_map.specs.Kept.{Placed};
ghost use Rattle.leaf_map.specs.Parts.{Committed, Parts};
ghost use Rattle.log_replay.specs.Settling.{CanSettle, DropsOwned, HasCopies, SettlesLeaf, leaf_read_of, settled_of, spare_of};

use crate::copies::{drop_same, take_first};
use crate::read_leaf::ReadLeaf;
use crate::thing::rank;
use journal_scan::JournalNode;
use std::alloc::Global;
use std::collections::BTreeMap;
use ubifs_base::Memory;

// Drops the copies of what own nodes show.
pub(crate) fn drop_owned(
    alloc: Global,
    reads: &[ReadLeaf],
    ranked: &mut BTreeMap<u128, Vec<JournalNode>>,
) -> Result<(), Memory>
    ensures { OnOk result ((parts : Parts) (committed : List Committed) (left : List Placed) → CanSettle parts committed left → reads.now ≡ map (leaf_read_of parts) committed → HasCopies left ranked.old
        → HasCopies (spare_of parts committed left) ranked.new) }
{
    let mut left = reads;
    'dropping: while let Some((first, rest)) = left.split_first() {
        drop_of_one(alloc, first, ranked)?;
        left = rest;
    }
    Ok(())
}

// Drops the copies of what a leaf's own node shows, if it has one.
fn drop_of_one(
    alloc: Global,
    read: &ReadLeaf,
    ranked: &mut BTreeMap<u128, Vec<JournalNode>>,
) -> Result<(), Memory>
    ensures { OnOk result (DropsOwned read.now ranked.old ranked.new) }
{
    if !read.is_own {
        return Ok(());
    }
    let Some(node) = &read.node else {
        return Ok(());
    };
    drop_same(alloc, ranked, rank(&read.leaf.key), &node.content)?;
    Ok(())
}

// Gives each leaf without a node of its own the first copy of its key that is left.
pub(crate) fn settle(
    alloc: Global,
    reads: Vec<ReadLeaf>,
    ranked: BTreeMap<u128, Vec<JournalNode>>,
) -> Result<Vec<ReadLeaf>, Memory>
    ensures { IfOk result (λ settled. (parts : Parts) (committed : List Committed) (left : List Placed) → CanSettle parts committed left → reads.items ≡ map (leaf_read_of parts) committed → HasCopies left ranked
        → settled.items ≡ settled_of parts left committed) }
{
    let mut ranked = ranked;
    let mut settled = Vec::new(alloc);
    for read in reads {
        settled.push(settle_leaf(alloc, read, &mut ranked)?)?;
    }
    Ok(settled)
}

// Gives a leaf without a node of its own the first copy of its key that is left.
fn settle_leaf(
    alloc: Global,
    read: ReadLeaf,
    ranked: &mut BTreeMap<u128, Vec<JournalNode>>,
) -> Result<ReadLeaf, Memory>
    ensures { IfOk result (λ settled. SettlesLeaf read settled ranked.old ranked.new) }
{
    if read.is_own {
        return Ok(read);
    }
    let Some(node) = take_first(alloc, ranked, rank(&read.leaf.key))? else {
        return Ok(read);
    };
    Ok(ReadLeaf {
        leaf: read.leaf,
        is_own: false,
        node: Some(node),
        copy: None,
    })
}
