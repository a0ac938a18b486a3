// Which listed inodes may go.

ghost use Rattle.std.specs.Prelude.{◌≡◌, ◌||◌, ◌++◌, ◌∷◌, [], ℕ, IfOk, OnOk, filter, if◌then◌else◌, is_some, not};
ghost use Rattle.std.specs.BTreeMap.{get};
ghost use Rattle.std.specs.List.{list_any};
ghost use Rattle.std.specs.Ordering.{nat_cmp};
ghost use Rattle.log_replay.specs.Spared.{is_spared_by_map, spared_by, unknown_inode, unspared};

use crate::application::at_place;
use crate::committed_leaf::CommittedLeaf;
use crate::named::is_in_bud;
use crate::thing::{is_one, place_of};
use journal_scan::NodeContent;
use std::alloc::Global;
use std::collections::BTreeMap;
use ubifs_base::{Key, Memory};

// The list without the inodes whose own node has links although its mode names no kind.
pub(crate) fn unspared(
    alloc: Global,
    leaves: &[CommittedLeaf],
    named: &BTreeMap<u32, u32>,
    listed: &[u32],
) -> Result<Vec<u32>, Memory>
    ensures { IfOk result (λ left. left.items ≡ unspared named.now leaves.now listed.now) }
{
    let spared = spared_inodes(alloc, leaves, named)?;
    let left = without_spared(alloc, &spared, listed)?;
    Ok(left)
}

// The inodes that are spared.
fn spared_inodes(
    alloc: Global,
    leaves: &[CommittedLeaf],
    named: &BTreeMap<u32, u32>,
) -> Result<BTreeMap<u32, bool>, Memory>
    ensures { IfOk result (λ spared. (q : ℕ) → is_some (get nat_cmp spared q) ≡ list_any (is_spared_by_map named.now q) leaves.now) }
{
    let mut spared = BTreeMap::new(alloc);
    let mut left = leaves;
    'sparing: while let Some((first, rest)) = left.split_first() {
        note_spared(first, named, &mut spared)?;
        left = rest;
    }
    Ok(spared)
}

// Keeps the inode that a leaf spares, if it spares one.
fn note_spared(
    leaf: &CommittedLeaf,
    named: &BTreeMap<u32, u32>,
    spared: &mut BTreeMap<u32, bool>,
) -> Result<(), Memory>
    ensures { OnOk result ((q : ℕ) → is_some (get nat_cmp spared.new q) ≡ (is_spared_by_map named.now q leaf.now || is_some (get nat_cmp spared.old q))) }
{
    if let Some(ino) = spared_by(leaf, named) {
        spared.insert(ino, true)?;
    }
    Ok(())
}

// The inode that a leaf spares.
fn spared_by(leaf: &CommittedLeaf, named: &BTreeMap<u32, u32>) -> Option<u32>
    ensures { result ≡ spared_by named.now leaf.now }
{
    let Some(node) = &leaf.found else {
        return None;
    };
    let Some(ino) = unknown_inode(&node.content) else {
        return None;
    };
    if is_in_bud(named, &leaf.leaf) {
        return None;
    }
    if !is_one(&leaf.leaf, &at_place(Key::Ino { ino }, place_of(node))) {
        return None;
    }
    Some(ino)
}

// The inode that has links by what a node says, but no known kind.
fn unknown_inode(content: &NodeContent) -> Option<u32>
    ensures { result ≡ unknown_inode content.now }
{
    match content {
        NodeContent::Unknown {
            key: Key::Ino { ino },
            linked: true,
        } => Some(*ino),
        NodeContent::Unknown { .. }
        | NodeContent::Inode { .. }
        | NodeContent::Block { .. }
        | NodeContent::Entry { .. }
        | NodeContent::Truncation { .. } => None,
    }
}

// The list without these inodes.
fn without_spared(
    alloc: Global,
    spared: &BTreeMap<u32, bool>,
    listed: &[u32],
) -> Result<Vec<u32>, Memory>
    ensures { IfOk result (λ left. left.items ≡ filter (λ ino. not (is_some (get nat_cmp spared.now ino))) listed.now) }
{
    let mut left = Vec::new(alloc);
    for ino in listed {
        keep_unspared(spared, *ino, &mut left)?;
    }
    Ok(left)
}

// Keeps an inode behind others unless it is one of these.
fn keep_unspared(spared: &BTreeMap<u32, bool>, ino: u32, left: &mut Vec<u32>) -> Result<(), Memory>
    ensures { OnOk result (left.new.items ≡ (if is_some (get nat_cmp spared.now ino) then left.old.items else left.old.items ++ (ino ∷ []))) }
{
    if spared.contains_key(&ino) {
        return Ok(());
    }
    left.push(ino)?;
    Ok(())
}
