// Originals or copies, by LEB.

ghost use Rattle.std.specs.Prelude.{◌≡◌, ◌||◌, ℕ, is_some, map, IfOk, OnOk};
ghost use Rattle.std.specs.BTreeMap.{get};
ghost use Rattle.std.specs.List.{list_any};
ghost use Rattle.std.specs.Option.{option_map};
ghost use Rattle.std.specs.Ordering.{nat_cmp};
ghost use Rattle.leaf_recovery.specs.Moved.{all_moved_told, copy_of_told, is_bare_told, moved_unless};
ghost use Rattle.leaf_recovery.specs.Things.{leaf_told};

use crate::named::is_named;
use crate::recovered_leaf::RecoveredLeaf;
use crate::thing::{leaf_of, shows};
use index_tree::Leaf;
use journal_scan::JournalNode;
use media_sys::RefNode;
use std::alloc::Global;
use std::collections::BTreeMap;
use ubifs_base::Memory;

// Moves leaves to their copies, by LEB: where the log doesn't name it, and each leaf has one. Without copies none moves.
pub(crate) fn move_leaves(
    alloc: Global,
    references: &[RefNode],
    copies: &[JournalNode],
    kept: Vec<RecoveredLeaf>,
) -> Result<Vec<RecoveredLeaf>, Memory>
    ensures { IfOk result (λ moved. moved.items ≡ all_moved_told references.now copies.now kept.items) }
{
    if copies.is_empty() {
        return Ok(kept);
    }
    let stays = staying(alloc, copies, kept.as_slice())?;
    let moved = move_others(alloc, references, copies, &stays, kept)?;
    Ok(moved)
}

// The LEBs in which a leaf has no copy.
fn staying(
    alloc: Global,
    copies: &[JournalNode],
    kept: &[RecoveredLeaf],
) -> Result<BTreeMap<u32, bool>, Memory>
    ensures { IfOk result (λ stays. (lnum : ℕ) → is_some (get nat_cmp stays lnum) ≡ list_any (is_bare_told copies.now lnum) kept.now) }
{
    let mut stays = BTreeMap::new(alloc);
    let mut left = kept;
    'staying: while let Some((first, rest)) = left.split_first() {
        note_bare(copies, first, &mut stays)?;
        left = rest;
    }
    Ok(stays)
}

// Keeps a leaf's LEB if the leaf has no copy.
fn note_bare(
    copies: &[JournalNode],
    leaf: &RecoveredLeaf,
    stays: &mut BTreeMap<u32, bool>,
) -> Result<(), Memory>
    ensures { OnOk result ((lnum : ℕ) → is_some (get nat_cmp stays.new lnum) ≡ (is_bare_told copies.now lnum leaf.now || is_some (get nat_cmp stays.old lnum))) }
{
    if copy_of(copies, leaf).is_some() {
        return Ok(());
    }
    stays.insert(leaf.leaf.lnum, true)?;
    Ok(())
}

// Moves the leaves to their copies that stand in no LEB that is named or stays.
fn move_others(
    alloc: Global,
    references: &[RefNode],
    copies: &[JournalNode],
    stays: &BTreeMap<u32, bool>,
    kept: Vec<RecoveredLeaf>,
) -> Result<Vec<RecoveredLeaf>, Memory>
    ensures { IfOk result (λ moved. moved.items ≡ map (moved_unless references.now copies.now (λ lnum. is_some (get nat_cmp stays.now lnum))) kept.items) }
{
    let mut moved = Vec::new(alloc);
    for leaf in kept {
        moved.push(move_leaf(references, copies, stays, leaf))?;
    }
    Ok(moved)
}

fn move_leaf(
    references: &[RefNode],
    copies: &[JournalNode],
    stays: &BTreeMap<u32, bool>,
    leaf: RecoveredLeaf,
) -> RecoveredLeaf
    ensures { result ≡ moved_unless references.now copies.now (λ lnum. is_some (get nat_cmp stays.now lnum)) leaf }
{
    if is_named(references, leaf.leaf.lnum) || stays.contains_key(&leaf.leaf.lnum) {
        return leaf;
    }
    let Some(at) = copy_of(copies, &leaf) else {
        return leaf;
    };
    RecoveredLeaf {
        leaf: at,
        content: leaf.content,
        sqnum: leaf.sqnum,
        source: leaf.source,
    }
}

// The leaf that the copy of a leaf's node becomes, which has the node's number.
fn copy_of(copies: &[JournalNode], leaf: &RecoveredLeaf) -> Option<Leaf>
    ensures { result ≡ option_map leaf_told (copy_of_told copies.now leaf.now) }
{
    for copy in copies {
        if copy.sqnum == leaf.sqnum && shows(&leaf.content, &copy.content) {
            return Some(leaf_of(copy));
        }
    }
    None
}
