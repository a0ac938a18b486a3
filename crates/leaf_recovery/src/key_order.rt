// Whether leaves stand in the order of their keys, each at the key of what it shows.

ghost use Rattle.std.specs.Prelude.{◌≡◌, IsTrue};
ghost use Rattle.leaf_recovery.specs.Ranked.{AreInKeyOrder, DoFitKeys, HasKeyShown, first_ended, fits_key, past_ended};

use crate::recovered_leaf::RecoveredLeaf;
use crate::thing::rank_shown;
use journal_scan::{JournalNode, NodeContent};
use log_replay::thing::{number_of, rank};
use ubifs_base::r5;

const FIRST: u128 = 1 << 33;

const KIND: u128 = 1 << 29;

// The bytes of a block.
const BLOCK_BYTES: u64 = 4096;

// Whether leaves have the keys of what they show, and these never fall.
pub(crate) fn are_in_key_order(leaves: &[RecoveredLeaf]) -> bool
    ensures { IsTrue result → AreInKeyOrder 0 leaves.now }
{
    let mut low = 0;
    let mut left = leaves;
    'going: while let Some((leaf, rest)) = left.split_first() {
        if !has_key_shown(leaf) || rank(&leaf.leaf.key) < low {
            return false;
        }
        low = rank(&leaf.leaf.key);
        left = rest;
    }
    true
}

// Whether a leaf has the key of what it shows.
fn has_key_shown(leaf: &RecoveredLeaf) -> bool
    ensures { IsTrue result → HasKeyShown leaf.now }
{
    rank(&leaf.leaf.key) == rank_shown(&leaf.content) && fits_key(&leaf.content)
}

// Whether a number of a block has the 29 bits that a key has for it.
fn fits_key(content: &NodeContent) -> bool
    ensures { result ≡ fits_key content.now }
{
    match content {
        NodeContent::Block { block, .. } => (*block as u128) < KIND,
        NodeContent::Inode { .. }
        | NodeContent::Entry { .. }
        | NodeContent::Truncation { .. }
        | NodeContent::Unknown { .. } => true,
    }
}

// The same of nodes.
pub(crate) fn do_fit_keys(nodes: &[JournalNode]) -> bool
    ensures { IsTrue result → DoFitKeys nodes.now }
{
    let mut left = nodes;
    'going: while let Some((node, rest)) = left.split_first() {
        if !fits_key(&node.content) {
            return false;
        }
        left = rest;
    }
    true
}

// The first place of what a node makes obsolete.
#[tactic(auto, unfolding(index_tree::specs::Order::key_rank))]
pub(crate) fn first_ended(content: &NodeContent) -> u128
    ensures { result ≡ first_ended content.now }
{
    match content {
        NodeContent::Inode { ino, .. } => *ino as u128 * FIRST,
        NodeContent::Block { ino, .. } => *ino as u128 * FIRST,
        NodeContent::Entry { dir, name, .. } => {
            *dir as u128 * FIRST + 2 * KIND + r5(name.as_slice()) as u128
        }
        NodeContent::Truncation { ino, new_size } => {
            *ino as u128 * FIRST + KIND + (*new_size / BLOCK_BYTES) as u128
        }
        NodeContent::Unknown { key, .. } => number_of(key) as u128 * FIRST,
    }
}

// The place behind the last.
#[tactic(auto, unfolding(index_tree::specs::Order::key_rank))]
pub(crate) fn past_ended(content: &NodeContent) -> u128
    ensures { result ≡ past_ended content.now }
{
    match content {
        NodeContent::Inode { ino, .. } => *ino as u128 * FIRST + 2 * KIND,
        NodeContent::Block { ino, .. } => *ino as u128 * FIRST + 2 * KIND,
        NodeContent::Entry { dir, name, .. } => {
            *dir as u128 * FIRST + 2 * KIND + r5(name.as_slice()) as u128 + 1
        }
        NodeContent::Truncation { ino, .. } => *ino as u128 * FIRST + 2 * KIND,
        NodeContent::Unknown { key, .. } => number_of(key) as u128 * FIRST + 2 * KIND,
    }
}
