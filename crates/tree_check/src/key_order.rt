// The order of what leaves show.

ghost use Rattle.std.specs.Prelude.{◌≡◌, ◌<◌, ◌∷◌, ℕ, IsFalse, IsTrue};
ghost use Rattle.fs_model.specs.Path.{is_same_name};
ghost use Rattle.tree_check.specs.KeyOrder.{DoKeysGoUp, ShowNothingTwice, IsAheadOf, shown_rank};
ghost use Rattle.tree_check.specs.Seen.{same_name, same_told};

use crate::shown_leaf::{Shown, ShownLeaf};
use ubifs_base::{Name, r5};

// What a key's place in the order has for one inode number more, and for one kind more.
const NUMBER: u128 = 1 << 34;

const KIND: u128 = 1 << 32;

// So many names of one directory and hash are compared with one before them.
const MOST_EQUAL: u32 = 16;

/// Whether no leaf shows what one before it shows, as the order of their keys tells it: this goes up from one to the next, as in an
/// index, or they are names of one directory and hash that differ. True is never told of more than 16 such names behind one.
pub(crate) fn keys_go_up(leaves: &[ShownLeaf]) -> bool
    ensures { IsTrue result → ShowNothingTwice leaves.now }
{
    match leaves.split_first() {
        Some((first, behind)) => do_follow(first, behind),
        None => true,
    }
}

// The same of a leaf and of those behind it. The place of each is computed once if they go up.
fn do_follow(first: &ShownLeaf, behind: &[ShownLeaf]) -> bool
    ensures { IsTrue result → DoKeysGoUp (first.now ∷ behind.now) }
{
    let mut last = first;
    let mut place = shown_rank(&first.shown);
    if place == 0 {
        return false;
    }
    let mut left = behind;
    'going: while let Some((next, rest)) = left.split_first() {
        let there = shown_rank(&next.shown);
        if there <= place && !is_ahead_of(&last.shown, place, left) {
            return false;
        }
        last = next;
        place = there;
        left = rest;
    }
    true
}

// Whether what stands behind something at a place in the order has greater keys, up to the first that has one, and else is another name.
fn is_ahead_of(shown: &Shown, place: u128, behind: &[ShownLeaf]) -> bool
    requires { (place ≡ shown_rank shown.now) × (0 < place) }
    ensures { IsTrue result → IsAheadOf shown.now behind.now }
{
    let mut passed = 0u32;
    let mut left = behind;
    'passing: while let Some((next, rest)) = left.split_first() {
        let there = shown_rank(&next.shown);
        if there > place {
            return true;
        }
        if there < place || passed >= MOST_EQUAL {
            return false;
        }
        if !are_other_names(shown, &next.shown) {
            return false;
        }
        passed += 1;
        left = rest;
    }
    true
}

// Whether both are names, and not the same.
fn are_other_names(one: &Shown, other: &Shown) -> bool
    ensures { IsTrue result → IsFalse (same_told one.now other.now) }
{
    match one {
        Shown::Entry { name, .. } => is_other_name(name, other),
        Shown::Inode { .. }
        | Shown::Deletion { .. }
        | Shown::Block { .. }
        | Shown::Truncation { .. }
        | Shown::Nothing => false,
    }
}

fn is_other_name(name: &Name, other: &Shown) -> bool
    ensures { (dir : ℕ) → IsTrue result → IsFalse (same_name dir name.now other.now) }
{
    match other {
        Shown::Entry { name: there, .. } => !is_same_name(there, name),
        Shown::Inode { .. }
        | Shown::Deletion { .. }
        | Shown::Block { .. }
        | Shown::Truncation { .. }
        | Shown::Nothing => false,
    }
}

fn is_same_name(one: &Name, other: &Name) -> bool
    ensures { result ≡ is_same_name one.now other.now }
{
    one == other
}

// The place in the order of an inode, a block or a name; else 0.
fn shown_rank(shown: &Shown) -> u128
    ensures { result ≡ shown_rank shown.now }
{
    match shown {
        Shown::Inode { ino, .. } => *ino as u128 * NUMBER,
        Shown::Block { ino, block } => *ino as u128 * NUMBER + (KIND + *block as u128),
        Shown::Entry { dir, name, .. } => {
            *dir as u128 * NUMBER + (2 * KIND + r5(name.as_slice()) as u128)
        }
        Shown::Deletion { .. } | Shown::Truncation { .. } | Shown::Nothing => 0,
    }
}
