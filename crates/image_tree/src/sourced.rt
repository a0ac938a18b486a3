// Leaves after recovery, with where their nodes were read.

ghost use Rattle.std.specs.Prelude.{◌≡◌, None, Some, IfOk, fold, map};
ghost use Rattle.image_check.specs.WrongValues.{sooner_of};
ghost use Rattle.tree_check.specs.Places.{misplaced_at};
ghost use Rattle.image_tree.specs.Sources.{block_of, empty_at, source_of, sourced_of};

use image_check::{WrongValue, sooner};
use index_tree::Leaf;
use journal_scan::NodeContent;
use leaf_recovery::{Place, RecoveredLeaf};
use shown_leaves::{KnownBlock, Source, SourcedLeaf};
use std::alloc::Global;
use tree_check::{ShownLeaf, number_shown};
use ubifs_base::Memory;

pub(crate) fn sourced(alloc: Global, kept: &[RecoveredLeaf]) -> Result<Vec<SourcedLeaf>, Memory>
    ensures { IfOk result (λ all. all.items ≡ map sourced_of kept.now) }
{
    let mut all = Vec::new(alloc);
    for leaf in kept {
        all.push(sourced_leaf(leaf))?;
    }
    Ok(all)
}

fn sourced_leaf(leaf: &RecoveredLeaf) -> SourcedLeaf
    ensures { result ≡ sourced_of leaf.now }
{
    SourcedLeaf {
        leaf: leaf.leaf,
        source: source(leaf.source),
        block: block(&leaf.content),
    }
}

fn source(place: Option<Place>) -> Option<Source>
    ensures { result ≡ source_of place }
{
    match place {
        Some(at) => Some(Source {
            lnum: at.lnum,
            offs: at.offs,
            len: at.len,
        }),
        None => None,
    }
}

// The block that a node is told to be.
fn block(content: &NodeContent) -> Option<KnownBlock>
    ensures { result ≡ block_of content.now }
{
    match content {
        NodeContent::Block { ino, block } => Some(KnownBlock {
            ino: *ino,
            number: *block,
        }),
        NodeContent::Inode { .. }
        | NodeContent::Entry { .. }
        | NodeContent::Truncation { .. }
        | NodeContent::Unknown { .. } => None,
    }
}

// The first of some leaves, where the number by which it is named is wanted.
pub(crate) fn first_named(leaves: &[ShownLeaf]) -> Option<WrongValue>
    ensures { result ≡ fold (λ first leaf. sooner_of first (Some (misplaced_at leaf))) None leaves.now }
{
    let mut first = None;
    for leaf in leaves {
        first = sooner(first, Some(named_at(leaf)));
    }
    first
}

fn named_at(leaf: &ShownLeaf) -> WrongValue
    ensures { result ≡ misplaced_at leaf.now }
{
    WrongValue {
        lnum: leaf.lnum,
        offs: leaf.offs,
        wanted: number_shown(leaf.number, &leaf.shown) as u64,
        found: 0,
    }
}

// The first of the names of inode 0.
pub(crate) fn first_empty(empty: &[Leaf]) -> Option<WrongValue>
    ensures { result ≡ fold (λ first leaf. sooner_of first (Some (empty_at leaf))) None empty.now }
{
    let mut first = None;
    for leaf in empty {
        first = sooner(first, Some(empty_at(leaf)));
    }
    first
}

fn empty_at(leaf: &Leaf) -> WrongValue
    ensures { result ≡ empty_at leaf.now }
{
    WrongValue {
        lnum: leaf.lnum,
        offs: leaf.offs,
        wanted: 0,
        found: 0,
    }
}
