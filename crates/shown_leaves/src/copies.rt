// Copies that the collector made, and those among its nodes that are none.

ghost use Rattle.std.specs.Prelude.{◌≡◌, ◌↔◌, List, All, map, IfNone, IfOk, IsTrue};
ghost use Rattle.std.specs.List.{list_any};
ghost use Rattle.leaf_map.specs.Kept.{Placed};
ghost use Rattle.leaf_map.specs.Parts.{Committed, Named, Parts, in_bud};
ghost use Rattle.journal_scan.specs.Content.{told};
ghost use Rattle.log_replay.specs.Replay.{told_committed};
ghost use Rattle.sound_image.specs.Image.{named_by_ref_node};
ghost use Rattle.sound_image.specs.Leaves.{IsPlacedIn};
ghost use Rattle.sound_image.specs.Tree.{IsCopy};
ghost use Rattle.ubi_volume.specs.Volume.{Keeps, SameShape};
ghost use Rattle.ubi_volume.specs.Faults.{HasAreaCause, StaysSureArea};
ghost use Rattle.image_check.specs.WrongValues.{IsFirstOf};
ghost use Rattle.shown_leaves.specs.FalseNodes.{IsFalseCopy};
ghost use Rattle.shown_leaves.specs.Copies.{AreCommittedTold, ArePartsTold, DecidesCopy, FoundStands, IsOwnAmong, IsOwnAt, has_own_told, is_lost_at};
ghost use Rattle.shown_leaves.specs.Stored.{leaf_node};

use crate::reading::read_node;
use crate::stored_node::{StoredNode, is_same_node};
use crate::unchanging::wrong_node;
use image_check::{WrongValue, sooner};
use index_tree::Leaf;
use journal_scan::JournalNode;
use log_replay::CommittedLeaf;
use log_replay::thing::{key_of, makes, rank};
use media_leaf::one_node;
use media_sys::RefNode;
use std::alloc::Global;
use ubi_volume::{AreaFault, Volume};

/// The first of the collector's nodes that is no copy: neither of the own node of a committed leaf nor of one whose own node can't be
/// read (Hunter 2008, "Garbage collection"; `move_nodes` of Linux fs/ubifs copies nodes as they are). `references` are the log's,
/// `committed` the committed leaves with what stands at their places, and `copies` the nodes of the collector's head. Without copies
/// nothing is read. A copy is compared with the own nodes of those leaves that have its key, each of which is read. The inode number of
/// the node's key is wanted. Each copy is held against each leaf's key, in memory. Takes memory for two nodes' bytes.
pub fn first_false_copy<V: Volume>(
    alloc: Global,
    volume: &mut V,
    references: &[RefNode],
    committed: &[CommittedLeaf],
    copies: &[JournalNode],
) -> Result<Option<WrongValue>, AreaFault>
    ensures first { IfOk result (λ first. (parts : Parts) → ArePartsTold (V.state volume.old).holds parts references.now committed.now copies.now → IsFirstOf (IsFalseCopy parts) first) }
    ensures copies { IfOk result (λ first. (parts : Parts) → ArePartsTold (V.state volume.old).holds parts references.now committed.now copies.now → IfNone first (All (IsCopy parts) parts.copies)) }
    ensures keeps { Keeps (V.state volume.old) (V.state volume.new) × SameShape (V.state volume.old) (V.state volume.new) }
    ensures cause { HasAreaCause (V.state volume.old).faults (V.state volume.new).faults result }
    ensures sure { StaysSureArea (V.state volume.old) (V.state volume.new) result }
{
    let mut first = None;
    let mut left = copies;
    'comparing: while let Some((copy, rest)) = left.split_first() {
        if !is_copy(alloc, volume, references, committed, copy)? {
            first = sooner(first, Some(wrong_node(copy)));
        }
        left = rest;
    }
    Ok(first)
}

// Whether a node is a copy.
fn is_copy<V: Volume>(
    alloc: Global,
    volume: &mut V,
    references: &[RefNode],
    committed: &[CommittedLeaf],
    copy: &JournalNode,
) -> Result<bool, AreaFault>
    ensures copy { IfOk result (λ is. (parts : Parts) (x : Placed) → AreCommittedTold (V.state volume.old).holds parts.named parts.committed references.now committed.now → IsPlacedIn (V.state volume.old).holds x → copy.now ≡ told x → DecidesCopy parts x is) }
    ensures keeps { Keeps (V.state volume.old) (V.state volume.new) }
    ensures shape { SameShape (V.state volume.old) (V.state volume.new) }
    ensures cause { HasAreaCause (V.state volume.old).faults (V.state volume.new).faults result }
    ensures sure { StaysSureArea (V.state volume.old) (V.state volume.new) result }
{
    let Some(key) = key_of(&copy.content) else {
        return Ok(false);
    };
    let rank = rank(&key);
    if is_of_lost(references, committed, rank) {
        return Ok(true);
    }
    one_node();
    let Some(node) = read_node(alloc, volume, copy.lnum, copy.offs, copy.len)? else {
        return Ok(false);
    };
    is_among(alloc, volume, references, committed, rank, &node)
}

// Whether a committed leaf has a key of this rank and no own node that can be read.
fn is_of_lost(references: &[RefNode], committed: &[CommittedLeaf], rank: u128) -> bool
    ensures { result ≡ list_any (is_lost_at references.now rank) committed.now }
{
    for leaf in committed {
        if is_lost(references, leaf, rank) {
            return true;
        }
    }
    false
}

fn is_lost(references: &[RefNode], leaf: &CommittedLeaf, sought: u128) -> bool
    ensures { result ≡ is_lost_at references.now sought leaf.now }
{
    rank(&leaf.leaf.key) == sought && !has_own(references, leaf)
}

// Whether a node is the own node of a committed leaf with a key of this rank.
fn is_among<V: Volume>(
    alloc: Global,
    volume: &mut V,
    references: &[RefNode],
    committed: &[CommittedLeaf],
    rank: u128,
    node: &StoredNode,
) -> Result<bool, AreaFault>
    ensures own { IfOk result (λ is. (named : List Named) (leaves : List Committed) → AreCommittedTold (V.state volume.old).holds named leaves references.now committed.now → IsTrue is ↔ IsOwnAmong named rank leaves (leaf_node node.now)) }
    ensures keeps { Keeps (V.state volume.old) (V.state volume.new) }
    ensures shape { SameShape (V.state volume.old) (V.state volume.new) }
    ensures cause { HasAreaCause (V.state volume.old).faults (V.state volume.new).faults result }
    ensures sure { StaysSureArea (V.state volume.old) (V.state volume.new) result }
{
    let mut left = committed;
    'comparing: while let Some((leaf, rest)) = left.split_first() {
        if is_own_node(alloc, volume, references, leaf, rank, node)? {
            return Ok(true);
        }
        left = rest;
    }
    Ok(false)
}

// Whether a node is the own node of this leaf, which has a key of this rank.
fn is_own_node<V: Volume>(
    alloc: Global,
    volume: &mut V,
    references: &[RefNode],
    leaf: &CommittedLeaf,
    sought: u128,
    node: &StoredNode,
) -> Result<bool, AreaFault>
    ensures own { IfOk result (λ is. (c : Committed) → leaf.now ≡ told_committed c → FoundStands (V.state volume.old).holds c → IsTrue is ↔ IsOwnAt (map named_by_ref_node references.now) sought c (leaf_node node.now)) }
    ensures keeps { Keeps (V.state volume.old) (V.state volume.new) }
    ensures shape { SameShape (V.state volume.old) (V.state volume.new) }
    ensures cause { HasAreaCause (V.state volume.old).faults (V.state volume.new).faults result }
    ensures sure { StaysSureArea (V.state volume.old) (V.state volume.new) result }
{
    one_node();
    if rank(&leaf.leaf.key) != sought {
        return Ok(false);
    }
    if !has_own(references, leaf) {
        return Ok(false);
    }
    let Some(there) = read_node(alloc, volume, leaf.leaf.lnum, leaf.leaf.offs, leaf.leaf.len)?
    else {
        return Ok(false);
    };
    Ok(is_same_node(&there, node))
}

// Whether what stands at a committed leaf's place is its own node.
fn has_own(references: &[RefNode], leaf: &CommittedLeaf) -> bool
    ensures { result ≡ has_own_told references.now leaf.now }
{
    match &leaf.found {
        Some(node) => makes(node, &leaf.leaf) && !is_in_bud(references, &leaf.leaf),
        None => false,
    }
}

// Whether the log names a leaf's place.
fn is_in_bud(references: &[RefNode], leaf: &Leaf) -> bool
    ensures { result ≡ in_bud (map named_by_ref_node references.now) leaf.now }
{
    for reference in references {
        if reference.lnum == leaf.lnum && reference.offs <= leaf.offs {
            return true;
        }
    }
    false
}
