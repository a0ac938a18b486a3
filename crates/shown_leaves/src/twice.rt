// Committed leaves that are there twice.

ghost use Rattle.std.specs.Prelude.{◌≡◌, not, map, IfOk, IsTrue, OnOk, ◌||◌};
ghost use Rattle.leaf_map.specs.Parts.{Parts};
ghost use Rattle.sound_image.specs.Breaches.{IsCommittedTwice};
ghost use Rattle.image_check.specs.WrongValues.{IsFirstOf};
ghost use Rattle.shown_leaves.specs.Spots.{AreSpotsApart, IsApartFrom, IsTwiceIn, Spot, has_spot, is_at_one_place, is_same_spot, spot_of, wrong_leaf};

use image_check::{WrongValue, sooner};
use index_tree::Leaf;
use log_replay::thing::{number_of, rank};
use std::alloc::Global;
use std::collections::BTreeSet;
use ubifs_base::Memory;

/// The first of the committed leaves that has the key and the place of one before it (`dbg_check_key_order` of Linux fs/ubifs refuses
/// two branches of one key with one name). The leaves are those of the committed index. The number in the leaf's key is wanted. The
/// error is want of memory. Where keys don't go up, or more than 16 leaves behind one have its key, a set of the leaves' places takes
/// some for each leaf.
pub fn first_twice(alloc: Global, leaves: &[Leaf]) -> Result<Option<WrongValue>, Memory>
    ensures first { IfOk result (λ first. (parts : Parts) → leaves.now ≡ map (λ x. x.leaf) parts.committed → IsFirstOf (IsCommittedTwice parts) first) }
{
    if are_apart(leaves) {
        return Ok(None);
    }
    let first = first_seen(alloc, leaves)?;
    Ok(first)
}

// The same by a set, in whatever order the leaves are.
fn first_seen(alloc: Global, leaves: &[Leaf]) -> Result<Option<WrongValue>, Memory>
    ensures { IfOk result (IsFirstOf (IsTwiceIn leaves.now)) }
{
    let mut seen = BTreeSet::new(alloc);
    let mut first = None;
    let mut left = leaves;
    'seeing: while let Some((leaf, rest)) = left.split_first() {
        if !is_new(&mut seen, leaf)? {
            first = sooner(first, Some(wrong_leaf(leaf)));
        }
        left = rest;
    }
    Ok(first)
}

// So many leaves of one key are compared with one before them.
const MOST_EQUAL: u32 = 16;

// Whether no leaf has the key and the place of one before it, as the order of keys tells it: these go up from one leaf to the next, as
// in an index, or stay where places differ. True is never told of more than 16 leaves of one key behind one.
fn are_apart(leaves: &[Leaf]) -> bool
    ensures { IsTrue result → AreSpotsApart leaves.now }
{
    let mut left = leaves;
    'going: while let Some((leaf, rest)) = left.split_first() {
        if !is_ahead_of(leaf, rest) {
            return false;
        }
        left = rest;
    }
    true
}

// Whether what stands behind a leaf has greater keys, up to the first that has one, and else another place.
fn is_ahead_of(leaf: &Leaf, behind: &[Leaf]) -> bool
    ensures { IsTrue result → IsApartFrom leaf.now behind.now }
{
    let key = rank(&leaf.key);
    let mut passed = 0u32;
    let mut left = behind;
    'passing: while let Some((next, rest)) = left.split_first() {
        let there = rank(&next.key);
        if there > key {
            return true;
        }
        if there < key || passed >= MOST_EQUAL {
            return false;
        }
        if is_at_one_place(leaf, next) {
            return false;
        }
        passed += 1;
        left = rest;
    }
    true
}

// Whether two leaves stand at one place.
fn is_at_one_place(leaf: &Leaf, other: &Leaf) -> bool
    ensures { result ≡ is_at_one_place leaf.now other.now }
{
    leaf.lnum == other.lnum && leaf.offs == other.offs && leaf.len == other.len
}

// Whether a leaf's key and place weren't seen yet. From now on they are.
fn is_new(seen: &mut BTreeSet<(u128, u32, u32, u32)>, leaf: &Leaf) -> Result<bool, Memory>
    ensures new { IfOk result (λ new. new ≡ not (has_spot seen.old (spot_of leaf.now))) }
    ensures seen { OnOk result ((q : Spot) → has_spot seen.new q ≡ (is_same_spot (spot_of leaf.now) q || has_spot seen.old q)) }
{
    let new = seen.insert(spot_of(leaf))?;
    Ok(new)
}

// A leaf's key, by its place in the order, and its place.
fn spot_of(leaf: &Leaf) -> (u128, u32, u32, u32)
    ensures { result ≡ spot_of leaf.now }
{
    (rank(&leaf.key), leaf.lnum, leaf.offs, leaf.len)
}

// A leaf's place, where the number in its key is wanted.
fn wrong_leaf(leaf: &Leaf) -> WrongValue
    ensures { result ≡ wrong_leaf leaf.now }
{
    WrongValue {
        lnum: leaf.lnum,
        offs: leaf.offs,
        wanted: number_of(&leaf.key) as u64,
        found: 0,
    }
}
