// The leaves that show what one before them shows.

ghost use Rattle.std.specs.Prelude.{◌≡◌, ◌++◌, ◌∷◌, [], cond, IfOk, IsTrue, OnOk};
ghost use Rattle.leaf_recovery.specs.Repeated.{IsFoundAhead, RepeatNothing, repeated_behind_told};
ghost use Rattle.leaf_recovery.specs.Seen.{has_seen};

use crate::recovered_leaf::RecoveredLeaf;
use crate::seen::{Seen, has_seen, note, nothing};
use crate::thing::{copied, rank_shown, shows};
use journal_scan::NodeContent;
use std::alloc::Global;
use ubifs_base::Memory;

// So many leaves of one key are compared with one before them.
const MOST_EQUAL: u32 = 16;

// The leaves that show what one before them shows. Where keys go up there is none, and no map is made.
pub(crate) fn repeated_leaves(
    alloc: Global,
    found: &[RecoveredLeaf],
) -> Result<Vec<RecoveredLeaf>, Memory>
    ensures { IfOk result (λ repeated. repeated.items ≡ repeated_behind_told [] found.now) }
{
    if keys_go_up(found) {
        return Ok(Vec::new(alloc));
    }
    let repeated = repeated_by_maps(alloc, found)?;
    Ok(repeated)
}

// Whether no leaf shows what one before it shows, as the order of their keys tells it: this goes up from one to the next, as in an
// index, or stays where what they show differs. True is never told of more than 16 leaves of one key behind one.
fn keys_go_up(found: &[RecoveredLeaf]) -> bool
    ensures { IsTrue result → RepeatNothing found.now }
{
    let mut left = found;
    'going: while let Some((leaf, rest)) = left.split_first() {
        if !is_ahead_of(&leaf.content, rest) {
            return false;
        }
        left = rest;
    }
    true
}

// Whether what stands behind something has greater keys, up to the first that has one, and else isn't shown by it.
fn is_ahead_of(content: &NodeContent, behind: &[RecoveredLeaf]) -> bool
    ensures { IsTrue result → IsFoundAhead content.now behind.now }
{
    let place = rank_shown(content);
    if place == 0 {
        return false;
    }
    let mut passed = 0u32;
    let mut left = behind;
    'passing: while let Some((next, rest)) = left.split_first() {
        let there = rank_shown(&next.content);
        if there > place {
            return true;
        }
        if there < place || passed >= MOST_EQUAL {
            return false;
        }
        if shows(content, &next.content) {
            return false;
        }
        passed += 1;
        left = rest;
    }
    true
}

// The same by look-ups, in whatever order the leaves are.
fn repeated_by_maps(alloc: Global, found: &[RecoveredLeaf]) -> Result<Vec<RecoveredLeaf>, Memory>
    ensures { IfOk result (λ repeated. repeated.items ≡ repeated_behind_told [] found.now) }
{
    let mut seen = nothing(alloc);
    let mut repeated = Vec::new(alloc);
    for leaf in found {
        keep_repeated(alloc, &seen, leaf, &mut repeated)?;
        note(alloc, &mut seen, &leaf.content)?;
    }
    Ok(repeated)
}

// Keeps a leaf that shows what was seen.
fn keep_repeated(
    alloc: Global,
    seen: &Seen,
    leaf: &RecoveredLeaf,
    repeated: &mut Vec<RecoveredLeaf>,
) -> Result<(), Memory>
    ensures { OnOk result (repeated.new.items ≡ repeated.old.items ++ cond (has_seen seen.now leaf.now.content) (leaf.now ∷ []) []) }
{
    if has_seen(alloc, seen, &leaf.content)? {
        repeated.push(copied_leaf(alloc, leaf)?)?;
    }
    Ok(())
}

// A leaf, once more.
fn copied_leaf(alloc: Global, leaf: &RecoveredLeaf) -> Result<RecoveredLeaf, Memory>
    ensures { IfOk result (λ copy. copy ≡ leaf.now) }
{
    let content = copied(alloc, &leaf.content)?;
    Ok(RecoveredLeaf {
        leaf: leaf.leaf,
        content,
        sqnum: leaf.sqnum,
        source: leaf.source,
    })
}
