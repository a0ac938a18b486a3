// What is out of its place in the tree.

ghost use Rattle.std.specs.Prelude.{◌≡◌, ℕ, ◌||◌, [], List, IfOk, IsTrue, OnOk, map};
ghost use Rattle.leaf_map.specs.Kept.{Kept};
ghost use Rattle.leaf_map.specs.Shown.{tree_of};
ghost use Rattle.image_check.specs.WrongValues.{IsFirstOf};
ghost use Rattle.tree_check.specs.Facts.{facts_in, is_misplaced};
ghost use Rattle.tree_check.specs.KeyOrder.{ShowNothingTwice};
ghost use Rattle.tree_check.specs.LinkFindings.{soonest_of};
ghost use Rattle.tree_check.specs.Places.{IsOutOfPlaceAt, number_shown, misplaced_at, wrong_alone, wrong_if, wrong_root, wrongs_behind};
ghost use Rattle.tree_check.specs.Seen.{is_seen, same_told};
ghost use Rattle.tree_check.specs.Told.{AreShownBy};
ghost use Rattle.tree_check.specs.declared.shown_leaf.Shown.{Shown as AShown};

use crate::facts::{TreeFacts, facts_of, is_misplaced};
use crate::key_order::keys_go_up;
use crate::kinds::kind_at;
use crate::link::ROOT;
use crate::seen_leaves::{SeenLeaves, nothing_seen, see};
use crate::shown_leaf::{Shown, ShownLeaf};
use image_check::{WrongValue, sooner};
use std::alloc::Global;
use ubifs_base::Memory;

/// What is out of its place first among leaves (`dbg_check_filesystem` of Linux fs/ubifs): a leaf that shows the inode, name or block of
/// one before it; inode 1, which is no directory; a directory that isn't the root, and has not one name or isn't reached from the root;
/// a name that stands in no directory, or leads to no inode of its kind, or to the root. There the inode number is wanted to which a name leads, or else the one in the
/// leaf's key, and 0 is found. Without inode 1 it is wanted at `root`, the LEB and offset of the root of the index. None if all is in its place.
/// Takes memory for an inode number a name and an inode, and for maps with an entry a directory. Where what leaves show doesn't go up, or more than 16
/// names behind one have its directory and hash, it takes memory for maps with an entry a leaf besides, and copies names twice.
pub fn first_out_of_place(
    alloc: Global,
    leaves: &[ShownLeaf],
    root: (u32, u32),
) -> Result<Option<WrongValue>, Memory>
    ensures { IfOk result (λ found. (kept : List Kept) (highest : ℕ) → AreShownBy kept leaves.now → IsFirstOf (IsOutOfPlaceAt kept (tree_of kept highest) root) found) }
{
    let go_up = keys_go_up(leaves);
    let facts = facts_of(alloc, leaves, go_up)?;
    let missing = missing_root(&facts, root);
    let first = first_misplaced(alloc, &facts, leaves, go_up, missing)?;
    Ok(first)
}

// What is wrong at the root of the index if there is no inode 1.
fn missing_root(facts: &TreeFacts, root: (u32, u32)) -> Option<WrongValue>
    ensures { result ≡ wrong_root ((facts_in facts.now).kind 1) root }
{
    match kind_at(&facts.kinds, ROOT) {
        Some(_) => None,
        None => Some(WrongValue {
            lnum: root.0,
            offs: root.1,
            wanted: ROOT as u64,
            found: 0,
        }),
    }
}

// The first of what is found and of the leaves that are out of their places. Where leaves go up, none shows what one before it shows.
fn first_misplaced(
    alloc: Global,
    facts: &TreeFacts,
    leaves: &[ShownLeaf],
    go_up: bool,
    found: Option<WrongValue>,
) -> Result<Option<WrongValue>, Memory>
    requires { IsTrue go_up → ShowNothingTwice leaves.now }
    ensures { IfOk result (λ first. first ≡ soonest_of found (wrongs_behind (facts_in facts.now) [] leaves.now)) }
{
    if go_up {
        return Ok(first_alone(facts, leaves, found));
    }
    let first = first_behind(alloc, facts, leaves, found)?;
    Ok(first)
}

// The same of leaves of which none shows what one before it shows.
fn first_alone(
    facts: &TreeFacts,
    leaves: &[ShownLeaf],
    found: Option<WrongValue>,
) -> Option<WrongValue>
    ensures { result ≡ soonest_of found (map (wrong_alone (facts_in facts.now)) leaves.now) }
{
    let mut first = found;
    let mut left = leaves;
    'telling: while let Some((leaf, rest)) = left.split_first() {
        first = sooner(first, misplaced_alone(facts, leaf));
        left = rest;
    }
    first
}

// What is wrong with a leaf by itself.
fn misplaced_alone(facts: &TreeFacts, leaf: &ShownLeaf) -> Option<WrongValue>
    ensures { result ≡ wrong_alone (facts_in facts.now) leaf.now }
{
    if is_misplaced(facts, &leaf.shown) {
        return Some(misplaced_at(leaf));
    }
    None
}

// The same of any leaves.
fn first_behind(
    alloc: Global,
    facts: &TreeFacts,
    leaves: &[ShownLeaf],
    found: Option<WrongValue>,
) -> Result<Option<WrongValue>, Memory>
    ensures { IfOk result (λ first. first ≡ soonest_of found (wrongs_behind (facts_in facts.now) [] leaves.now)) }
{
    let mut seen = nothing_seen(alloc);
    let mut first = found;
    let mut left = leaves;
    'telling: while let Some((leaf, rest)) = left.split_first() {
        first = sooner(first, misplaced(facts, &mut seen, leaf)?);
        left = rest;
    }
    Ok(first)
}

// What is wrong with a leaf, where this was shown before it.
fn misplaced(
    facts: &TreeFacts,
    seen: &mut SeenLeaves,
    leaf: &ShownLeaf,
) -> Result<Option<WrongValue>, Memory>
    ensures wrong { IfOk result (λ wrong. wrong ≡ wrong_if (is_misplaced (facts_in facts.now) leaf.now.shown || is_seen seen.old leaf.now.shown) leaf.now) }
    ensures noted { OnOk result ((s : AShown) → is_seen seen.new s ≡ (is_seen seen.old s || same_told leaf.now.shown s)) }
{
    let was = see(seen, &leaf.shown)?;
    if is_misplaced(facts, &leaf.shown) || was {
        return Ok(Some(misplaced_at(leaf)));
    }
    Ok(None)
}

// What is wrong at a leaf that is out of its place.
fn misplaced_at(leaf: &ShownLeaf) -> WrongValue
    ensures { result ≡ misplaced_at leaf.now }
{
    WrongValue {
        lnum: leaf.lnum,
        offs: leaf.offs,
        wanted: number_shown(leaf.number, &leaf.shown) as u64,
        found: 0,
    }
}

/// The inode number by which a leaf is named that shows this and has this number in its key: of an entry that of its inode, and else
/// that in the key.
pub fn number_shown(number: u32, shown: &Shown) -> u32
    ensures { result ≡ number_shown number shown.now }
{
    match shown {
        Shown::Entry { ino, .. } => *ino,
        Shown::Inode { .. }
        | Shown::Deletion { .. }
        | Shown::Block { .. }
        | Shown::Truncation { .. }
        | Shown::Nothing => number,
    }
}
