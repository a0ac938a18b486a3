// Leaves by the places of their keys in the order.

ghost use Rattle.std.specs.Prelude.{◌≡◌, ◌≤◌, ◌<◌, ℕ, cond, if◌then◌else◌, nat_lt, [], Some, None, List, IfOk, IfSome, OnOk};
ghost use Rattle.std.specs.BTreeMap.{is_at};
ghost use Rattle.std.specs.Ordering.{nat_cmp};
ghost use Rattle.index_tree.specs.Order.{leaf_rank};
ghost use Rattle.leaf_recovery.specs.Applied.{put_leaf_told, without_ended};
ghost use Rattle.leaf_recovery.specs.Ranked.{AreByRank, IsBeforeFound, is_between, is_idle_ranked, leaf_behind, leaves_at_rank, leaves_with_rank};
ghost use Rattle.leaf_recovery.specs.Things.{has_inode_told};
ghost use Rattle.leaf_recovery.specs.declared.recovered_leaf.RecoveredLeaf.{RecoveredLeaf};

use crate::applied::{drop_ended, has_inode, put_leaf};
use crate::recovered_leaf::RecoveredLeaf;
use journal_scan::NodeContent;
use log_replay::thing::rank;
use std::alloc::Global;
use std::collections::BTreeMap;
use std::ops::Bound;
use ubifs_base::{Key, Memory};

// Leaves by the places of their keys in the order; those of one key stay in order.
pub(crate) fn rank_leaves(
    alloc: Global,
    leaves: Vec<RecoveredLeaf>,
) -> Result<BTreeMap<u128, Vec<RecoveredLeaf>>, Memory>
    ensures { IfOk result (λ ranked. (r : ℕ) → leaves_at_rank ranked r ≡ leaves_with_rank r leaves.items) }
{
    let mut ranked = BTreeMap::new(alloc);
    for leaf in leaves {
        add(alloc, &mut ranked, leaf)?;
    }
    Ok(ranked)
}

// Puts a leaf behind those of its key.
fn add(
    alloc: Global,
    ranked: &mut BTreeMap<u128, Vec<RecoveredLeaf>>,
    leaf: RecoveredLeaf,
) -> Result<(), Memory>
    ensures { OnOk result ((r : ℕ) → leaves_at_rank ranked.new r ≡ leaf_behind (is_at (nat_cmp (leaf_rank leaf.leaf)) r) leaf (leaves_at_rank ranked.old r)) }
{
    let place = rank(&leaf.leaf.key);
    let mut leaves = taken(alloc, ranked, place)?;
    leaves.push(leaf)?;
    ranked.insert(place, leaves)?;
    Ok(())
}

// Takes out the leaves of a place. If there are none, there is room for one.
fn taken(
    alloc: Global,
    ranked: &mut BTreeMap<u128, Vec<RecoveredLeaf>>,
    rank: u128,
) -> Result<Vec<RecoveredLeaf>, Memory>
    ensures taken { IfOk result (λ leaves. leaves.items ≡ leaves_at_rank ranked.old rank) }
    ensures left { OnOk result ((r : ℕ) → leaves_at_rank ranked.new r ≡ cond (is_at (nat_cmp rank) r) [] (leaves_at_rank ranked.old r)) }
{
    match ranked.remove(&rank) {
        Some(leaves) => Ok(leaves),
        None => {
            let leaves = Vec::with_capacity(alloc, 1)?;
            Ok(leaves)
        }
    }
}

// Puts a leaf among those of its key, in the place of the one that its node makes obsolete, or else behind them.
pub(crate) fn put_ranked(
    alloc: Global,
    ranked: &mut BTreeMap<u128, Vec<RecoveredLeaf>>,
    content: &NodeContent,
    new: RecoveredLeaf,
) -> Result<(), Memory>
    ensures { OnOk result ((r : ℕ) → leaves_at_rank ranked.new r ≡ cond (is_at (nat_cmp (leaf_rank new.leaf)) r) (put_leaf_told content.now new (leaves_at_rank ranked.old r)) (leaves_at_rank ranked.old r)) }
{
    let place = rank(&new.leaf.key);
    let mut leaves = taken(alloc, ranked, place)?;
    put_leaf(&mut leaves, content, new)?;
    ranked.insert(place, leaves)?;
    Ok(())
}

// Drops the leaves that a node makes obsolete from the places between two.
pub(crate) fn drop_between(
    alloc: Global,
    ranked: &mut BTreeMap<u128, Vec<RecoveredLeaf>>,
    content: &NodeContent,
    first: u128,
    past: u128,
) -> Result<(), Memory>
    ensures { OnOk result ((r : ℕ) → leaves_at_rank ranked.new r ≡ cond (is_between first past r) (without_ended content.now (leaves_at_rank ranked.old r)) (leaves_at_rank ranked.old r)) }
{
    let mut at = first;
    'passing: while let Some(rank) = next_rank(ranked, at, past) {
        drop_at(alloc, ranked, content, rank)?;
        at = rank + 1;
    }
    Ok(())
}

// The first place from one on, and before another, that has leaves.
fn next_rank(ranked: &BTreeMap<u128, Vec<RecoveredLeaf>>, first: u128, past: u128) -> Option<u128>
    ensures some { IfSome result (λ r. (first ≤ r) × (r < past)) }
    ensures least { (r : ℕ) → first ≤ r → r < past → IsBeforeFound result r → leaves_at_rank ranked.now r ≡ [] }
{
    match ranked
        .range((Bound::Included(first), Bound::Unbounded))
        .next()
    {
        Some((rank, _)) => before(*rank, past),
        None => None,
    }
}

// A place, where it is before another.
fn before(rank: u128, past: u128) -> Option<u128>
    ensures { result ≡ (if nat_lt rank past then Some rank else None) }
{
    if rank < past { Some(rank) } else { None }
}

// Drops the leaves of a place that a node makes obsolete.
fn drop_at(
    alloc: Global,
    ranked: &mut BTreeMap<u128, Vec<RecoveredLeaf>>,
    content: &NodeContent,
    rank: u128,
) -> Result<(), Memory>
    ensures { OnOk result ((r : ℕ) → leaves_at_rank ranked.new r ≡ cond (is_at (nat_cmp rank) r) (without_ended content.now (leaves_at_rank ranked.old r)) (leaves_at_rank ranked.old r)) }
{
    let mut leaves = taken(alloc, ranked, rank)?;
    drop_ended(&mut leaves, content);
    if leaves.is_empty() {
        return Ok(());
    }
    ranked.insert(rank, leaves)?;
    Ok(())
}

// Whether a node does nothing: a block of no inode.
pub(crate) fn is_idle_ranked(
    ranked: &BTreeMap<u128, Vec<RecoveredLeaf>>,
    content: &NodeContent,
) -> bool
    ensures { result ≡ is_idle_ranked ranked.now content.now }
{
    match content {
        NodeContent::Block { ino, .. } => !has_inode_at(
            ranked,
            rank(&Key::Ino { ino: *ino }),
            *ino,
        ),
        NodeContent::Inode { .. }
        | NodeContent::Entry { .. }
        | NodeContent::Truncation { .. }
        | NodeContent::Unknown { .. } => false,
    }
}

// Whether one of the leaves of a place is that of an inode.
fn has_inode_at(ranked: &BTreeMap<u128, Vec<RecoveredLeaf>>, rank: u128, ino: u32) -> bool
    ensures { result ≡ has_inode_told (leaves_at_rank ranked.now rank) ino }
{
    match ranked.get(&rank) {
        Some(leaves) => has_inode(leaves.as_slice(), ino),
        None => false,
    }
}

// The leaves in order.
pub(crate) fn joined(
    alloc: Global,
    ranked: BTreeMap<u128, Vec<RecoveredLeaf>>,
) -> Result<Vec<RecoveredLeaf>, Memory>
    ensures { IfOk result (λ joined. (leaves : List RecoveredLeaf) → AreByRank ranked leaves → joined.items ≡ leaves) }
{
    let mut joined = Vec::with_capacity(alloc, ranked.len())?;
    let mut left = ranked;
    'joining: while let Some((_, leaves)) = left.pop_first() {
        let mut next = leaves;
        joined.append(&mut next)?;
    }
    Ok(joined)
}
