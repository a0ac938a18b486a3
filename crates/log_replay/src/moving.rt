// Which leaves stand at their copies after all.

ghost use Rattle.std.specs.Prelude.{◌≡◌, ◌≤◌, ◌||◌, ℕ, fold, is_some, IfOk, OnOk};
ghost use Rattle.std.specs.BTreeMap.{get};
ghost use Rattle.std.specs.Ordering.{nat_cmp};
ghost use Rattle.index_tree.specs.Shape.{contents, shape_weight};
ghost use Rattle.index_tree.specs.Tree.{shape};
ghost use Rattle.log_replay.specs.Moving.{Stay, candidate_of, candidates_of, moved_all, moved_one, stays_in};

use crate::candidate::Candidate;
use crate::index_calls::{stands, swap_leaf};
use crate::read_leaf::ReadLeaf;
use index_tree::Index;
use std::alloc::Global;
use std::collections::BTreeMap;
use ubifs_base::Memory;

// The leaves that were found in LEBs that the log doesn't name.
pub(crate) fn candidates_of(
    alloc: Global,
    settled: &[ReadLeaf],
    named: &BTreeMap<u32, u32>,
) -> Result<Vec<Candidate>, Memory>
    ensures { IfOk result (λ candidates. candidates.items ≡ candidates_of named.now settled.now) }
{
    let mut candidates = Vec::new(alloc);
    for read in settled {
        if let Some(candidate) = candidate_of(read, named) {
            candidates.push(candidate)?;
        }
    }
    Ok(candidates)
}

fn candidate_of(read: &ReadLeaf, named: &BTreeMap<u32, u32>) -> Option<Candidate>
    ensures { result ≡ candidate_of named.now read.now }
{
    match &read.node {
        Some(node) if !named.contains_key(&node.lnum) => Some(Candidate {
            leaf: read.leaf,
            copy: read.copy,
        }),
        _ => None,
    }
}

// Moves leaves to their copies, by LEB: where each leaf that is left has one.
pub(crate) fn move_leaves(
    alloc: Global,
    index: &mut Index,
    candidates: &[Candidate],
) -> Result<(), Memory>
    ensures leaves { OnOk result (contents (shape index.new.root) ≡ moved_all candidates.now (contents (shape index.old.root))) }
    ensures weight { shape_weight index.old.fanout (shape index.new.root) ≤ shape_weight index.old.fanout (shape index.old.root) }
    ensures fanout { index.new.fanout ≡ index.old.fanout }
{
    let stays = staying(alloc, index, candidates)?;
    move_all(index, candidates, &stays);
    Ok(())
}

// The LEBs in which a leaf is left that has no copy.
fn staying(
    alloc: Global,
    index: &mut Index,
    candidates: &[Candidate],
) -> Result<BTreeMap<u32, bool>, Memory>
    ensures stay { IfOk result (λ stays. Stay (contents (shape index.old.root)) candidates.now stays) }
    ensures leaves { contents (shape index.new.root) ≡ contents (shape index.old.root) }
    ensures weight { shape_weight index.old.fanout (shape index.new.root) ≤ shape_weight index.old.fanout (shape index.old.root) }
    ensures fanout { index.new.fanout ≡ index.old.fanout }
{
    let mut stays = BTreeMap::new(alloc);
    let mut left = candidates;
    'staying: while let Some((first, rest)) = left.split_first() {
        note_stay(index, first, &mut stays)?;
        left = rest;
    }
    Ok(stays)
}

// Keeps a leaf's LEB if the leaf is left and has no copy.
fn note_stay(
    index: &mut Index,
    candidate: &Candidate,
    stays: &mut BTreeMap<u32, bool>,
) -> Result<(), Memory>
    ensures stay { OnOk result ((lnum : ℕ) → is_some (get nat_cmp stays.new lnum) ≡ (stays_in (contents (shape index.old.root)) lnum candidate.now || is_some (get nat_cmp stays.old lnum))) }
    ensures leaves { contents (shape index.new.root) ≡ contents (shape index.old.root) }
    ensures weight { shape_weight index.old.fanout (shape index.new.root) ≤ shape_weight index.old.fanout (shape index.old.root) }
    ensures fanout { index.new.fanout ≡ index.old.fanout }
{
    if candidate.copy.is_some() {
        return Ok(());
    }
    if stands(index, &candidate.leaf) {
        stays.insert(candidate.leaf.lnum, true)?;
    }
    Ok(())
}

// Moves leaves to their copies where none of their LEB stays.
fn move_all(index: &mut Index, candidates: &[Candidate], stays: &BTreeMap<u32, bool>)
    ensures leaves { contents (shape index.new.root) ≡ fold (moved_one (λ lnum. is_some (get nat_cmp stays.now lnum))) (contents (shape index.old.root)) candidates.now }
    ensures weight { shape_weight index.old.fanout (shape index.new.root) ≤ shape_weight index.old.fanout (shape index.old.root) }
    ensures fanout { index.new.fanout ≡ index.old.fanout }
{
    let mut left = candidates;
    'moving: while let Some((first, rest)) = left.split_first() {
        move_one(index, first, stays);
        left = rest;
    }
}

fn move_one(index: &mut Index, candidate: &Candidate, stays: &BTreeMap<u32, bool>)
    ensures leaves { contents (shape index.new.root) ≡ moved_one (λ lnum. is_some (get nat_cmp stays.now lnum)) (contents (shape index.old.root)) candidate.now }
    ensures weight { shape_weight index.old.fanout (shape index.new.root) ≤ shape_weight index.old.fanout (shape index.old.root) }
    ensures fanout { index.new.fanout ≡ index.old.fanout }
{
    if stays.contains_key(&candidate.leaf.lnum) {
        return;
    }
    if let Some(place) = candidate.copy {
        swap_leaf(index, &candidate.leaf, place);
    }
}
