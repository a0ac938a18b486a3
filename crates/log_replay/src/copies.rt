// The collector's copies, by the place of their keys in the order.

ghost use Rattle.std.specs.Prelude.{◌≡◌, ℕ, cond, filter, [], slice_get, IfOk, OnOk};
ghost use Rattle.std.specs.BTreeMap.{is_at};
ghost use Rattle.std.specs.Ordering.{nat_cmp};
ghost use Rattle.log_replay.specs.Copies.{at_rank, journal_node_behind, copy_place, first_taken, is_of_rank, other_leaf_nodes};

use crate::application::Place;
use crate::thing::{is_same, key_of, place_of, rank};
use journal_scan::{JournalNode, NodeContent};
use std::alloc::Global;
use std::collections::BTreeMap;
use ubifs_base::Memory;

// Copies by the place of their keys in the order; those of one key stand in order of the log.
pub(crate) fn by_rank(
    alloc: Global,
    copies: Vec<JournalNode>,
) -> Result<BTreeMap<u128, Vec<JournalNode>>, Memory>
    ensures { IfOk result (λ m. (r : ℕ) → at_rank m r ≡ filter (is_of_rank r) copies.items) }
{
    let mut ranked = BTreeMap::new(alloc);
    for copy in copies {
        add(alloc, &mut ranked, copy)?;
    }
    Ok(ranked)
}

// Puts a copy behind those of its key.
fn add(
    alloc: Global,
    ranked: &mut BTreeMap<u128, Vec<JournalNode>>,
    copy: JournalNode,
) -> Result<(), Memory>
    ensures { OnOk result ((r : ℕ) → at_rank ranked.new r ≡ journal_node_behind (is_of_rank r copy) copy (at_rank ranked.old r)) }
{
    let Some(key) = key_of(&copy.content) else {
        return Ok(());
    };
    let mut copies = taken(alloc, ranked, rank(&key));
    copies.push(copy)?;
    ranked.insert(rank(&key), copies)?;
    Ok(())
}

// Takes out the copies of a key.
fn taken(
    alloc: Global,
    ranked: &mut BTreeMap<u128, Vec<JournalNode>>,
    rank: u128,
) -> Vec<JournalNode>
    ensures taken { result.items ≡ at_rank ranked.old rank }
    ensures left { (r : ℕ) → at_rank ranked.new r ≡ cond (is_at (nat_cmp rank) r) [] (at_rank ranked.old r) }
{
    match ranked.remove(&rank) {
        Some(copies) => copies,
        None => Vec::new(alloc),
    }
}

// The place of the first copy of a node's key that has its number and makes the same leaf.
pub(crate) fn copy_of(
    ranked: &BTreeMap<u128, Vec<JournalNode>>,
    rank: u128,
    node: &JournalNode,
) -> Option<Place>
    ensures { result ≡ copy_place node.now (at_rank ranked.now rank) }
{
    let copies = ranked.get(&rank)?;
    first_of(copies.as_slice(), node)
}

fn first_of(copies: &[JournalNode], node: &JournalNode) -> Option<Place>
    ensures { result ≡ copy_place node.now copies.now }
{
    for copy in copies {
        if copy.sqnum == node.sqnum && is_same(&node.content, &copy.content) {
            return Some(place_of(copy));
        }
    }
    None
}

// Drops the copies of a key that make the leaf of the same inode, block or name.
pub(crate) fn drop_same(
    alloc: Global,
    ranked: &mut BTreeMap<u128, Vec<JournalNode>>,
    rank: u128,
    content: &NodeContent,
) -> Result<(), Memory>
    ensures { OnOk result ((r : ℕ) → at_rank ranked.new r ≡ cond (is_at (nat_cmp rank) r) (other_leaf_nodes content.now (at_rank ranked.old r)) (at_rank ranked.old r)) }
{
    let copies = taken(alloc, ranked, rank);
    let left = others(alloc, copies, content)?;
    ranked.insert(rank, left)?;
    Ok(())
}

// Takes the first copy of a key, and drops the others that make the same leaf.
pub(crate) fn take_first(
    alloc: Global,
    ranked: &mut BTreeMap<u128, Vec<JournalNode>>,
    rank: u128,
) -> Result<Option<JournalNode>, Memory>
    ensures first { IfOk result (λ first. first ≡ slice_get (at_rank ranked.old rank) 0) }
    ensures left { OnOk result ((r : ℕ) → at_rank ranked.new r ≡ cond (is_at (nat_cmp rank) r) (first_taken (at_rank ranked.old r)) (at_rank ranked.old r)) }
{
    let mut copies = taken(alloc, ranked, rank);
    if copies.is_empty() {
        return Ok(None);
    }
    let first = copies.remove(0);
    let left = others(alloc, copies, &first.content)?;
    ranked.insert(rank, left)?;
    Ok(Some(first))
}

// The copies that make other leaves.
fn others(
    alloc: Global,
    copies: Vec<JournalNode>,
    content: &NodeContent,
) -> Result<Vec<JournalNode>, Memory>
    ensures { IfOk result (λ left. left.items ≡ other_leaf_nodes content.now copies.items) }
{
    let mut left = Vec::new(alloc);
    for copy in copies {
        if !is_same(content, &copy.content) {
            left.push(copy)?;
        }
    }
    Ok(left)
}
