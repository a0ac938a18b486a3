// What leaves show, and which of them don't show what stands at their places.

ghost use Rattle.std.specs.Prelude.{◌≡◌, ◌↔◌, All, IfNone, IfOk, IsTrue, List, Some, length};
ghost use Rattle.std.specs.Option.{option_map};
ghost use Rattle.leaf_map.specs.Kept.{Kept};
ghost use Rattle.ubi_volume.specs.Volume.{Keeps, SameShape};
ghost use Rattle.ubi_volume.specs.Faults.{HasAreaCause, StaysSureArea};
ghost use Rattle.sound_image.specs.Tree.{ShowsItsNode};
ghost use Rattle.image_check.specs.WrongValues.{IsFirstOf};
ghost use Rattle.tree_check.specs.Told.{AreShownBy, IsShownBy};
ghost use Rattle.tree_check.specs.declared.shown_leaf.Shown.TheVariants.{Block};
ghost use Rattle.shown_leaves.specs.Sources.{AreSourced, IsSourced, IsUnlike, IsUnlikeIn, StandsAtLeaf};
ghost use Rattle.shown_leaves.specs.Judged.{is_at_source, judged_of, known_in_place, source_in_place};
ghost use Rattle.shown_leaves.specs.Stored.{leaf_node};

use crate::reading::read_node;
use crate::shown::{is_leaf_shown, shown_of};
use crate::shown_leaves::ShownLeaves;
use crate::sourced_leaf::{KnownBlock, Source, SourcedLeaf};
use crate::standing::{MOST_BYTES, read_standing};
use crate::standing_in::stand_in;
use crate::stored_node::{StoredNode, is_same_node};
use image_check::{WrongValue, sooner};
use log_replay::thing::number_of;
use media_leaf::one_node;
use std::alloc::Global;
use tree_check::{Shown, ShownLeaf, number_shown};
use ubi_volume::{AreaFault, Volume};

// What a leaf shows, and what is wrong if it doesn't show what stands at its place.
#[derive(Drop)]
struct JudgedLeaf {
    leaf: ShownLeaf,
    unlike: Option<WrongValue>,
}

/// What leaves of a recovered index show (the node table of ubifs-media.h), and the first of them that doesn't show what stands at its
/// place: an inode of a known kind, a block or a name (`dbg_check_filesystem` of Linux fs/ubifs reads each leaf's node). Each leaf's
/// node stands where it was read; without a source it is what stands in for it. A leaf that stands where its node was read takes one
/// read, another one two; a block that is known and stands there takes none. Places may lie outside the volume. Takes memory for two nodes' bytes and for what is shown.
pub fn read_shown<V: Volume>(
    alloc: Global,
    volume: &mut V,
    leaves: &[SourcedLeaf],
) -> Result<ShownLeaves, AreaFault>
    ensures shown { IfOk result (λ made. (kept : List Kept) → AreSourced (V.state volume.old).holds kept leaves.now → AreShownBy kept made.leaves.items) }
    ensures unlike { IfOk result (λ made. (kept : List Kept) → AreSourced (V.state volume.old).holds kept leaves.now → IsFirstOf (IsUnlikeIn (V.state volume.old).holds kept) made.unlike) }
    ensures all { IfOk result (λ made. (kept : List Kept) → AreSourced (V.state volume.old).holds kept leaves.now → IfNone made.unlike (All (ShowsItsNode (V.state volume.old).holds) kept)) }
    ensures keeps { Keeps (V.state volume.old) (V.state volume.new) × SameShape (V.state volume.old) (V.state volume.new) }
    ensures cause { HasAreaCause (V.state volume.old).faults (V.state volume.new).faults result }
    ensures sure { StaysSureArea (V.state volume.old) (V.state volume.new) result }
{
    let mut buffer = vec![in alloc; 0; MOST_BYTES as usize]?;
    read_all(alloc, volume, leaves, &mut buffer)
}

// The same, with room for any leaf node.
fn read_all<V: Volume>(
    alloc: Global,
    volume: &mut V,
    leaves: &[SourcedLeaf],
    buffer: &mut [u8],
) -> Result<ShownLeaves, AreaFault>
    requires room { length buffer.old ≡ 4256 }
    ensures shown { IfOk result (λ made. (kept : List Kept) → AreSourced (V.state volume.old).holds kept leaves.now → AreShownBy kept made.leaves.items) }
    ensures unlike { IfOk result (λ made. (kept : List Kept) → AreSourced (V.state volume.old).holds kept leaves.now → IsFirstOf (IsUnlikeIn (V.state volume.old).holds kept) made.unlike) }
    ensures all { IfOk result (λ made. (kept : List Kept) → AreSourced (V.state volume.old).holds kept leaves.now → IfNone made.unlike (All (ShowsItsNode (V.state volume.old).holds) kept)) }
    ensures keeps { Keeps (V.state volume.old) (V.state volume.new) × SameShape (V.state volume.old) (V.state volume.new) }
    ensures cause { HasAreaCause (V.state volume.old).faults (V.state volume.new).faults result }
    ensures sure { StaysSureArea (V.state volume.old) (V.state volume.new) result }
{
    let mut shown = Vec::new(alloc);
    let mut unlike = None;
    let mut left = leaves;
    'reading: while let Some((leaf, rest)) = left.split_first() {
        let one = judge_leaf(alloc, volume, leaf, buffer)?;
        unlike = sooner(unlike, one.unlike);
        shown.push(one.leaf)?;
        left = rest;
    }
    Ok(ShownLeaves {
        leaves: shown,
        unlike,
    })
}

// One leaf.
fn judge_leaf<V: Volume>(
    alloc: Global,
    volume: &mut V,
    leaf: &SourcedLeaf,
    buffer: &mut [u8],
) -> Result<JudgedLeaf, AreaFault>
    requires room { length buffer.old ≡ 4256 }
    ensures len { length buffer.new ≡ length buffer.old }
    ensures judged { IfOk result (λ one. (x : Kept) → IsSourced (V.state volume.old).holds x leaf.now → IsShownBy x one.leaf × IsFirstOf (IsUnlike (V.state volume.old).holds x) one.unlike × IfNone one.unlike (ShowsItsNode (V.state volume.old).holds x)) }
    ensures keeps { Keeps (V.state volume.old) (V.state volume.new) }
    ensures shape { SameShape (V.state volume.old) (V.state volume.new) }
    ensures cause { HasAreaCause (V.state volume.old).faults (V.state volume.new).faults result }
    ensures sure { StaysSureArea (V.state volume.old) (V.state volume.new) result }
{
    match known_in_place(leaf) {
        Some(known) => Ok(judged(leaf, known_shown(known), true)),
        None => judge_unknown(alloc, volume, leaf, buffer),
    }
}

// One that is read: once if it stands where its node was read.
fn judge_unknown<V: Volume>(
    alloc: Global,
    volume: &mut V,
    leaf: &SourcedLeaf,
    buffer: &mut [u8],
) -> Result<JudgedLeaf, AreaFault>
    requires room { length buffer.old ≡ 4256 }
    ensures len { length buffer.new ≡ length buffer.old }
    ensures judged { IfOk result (λ one. (x : Kept) → IsSourced (V.state volume.old).holds x leaf.now → IsShownBy x one.leaf × IsFirstOf (IsUnlike (V.state volume.old).holds x) one.unlike × IfNone one.unlike (ShowsItsNode (V.state volume.old).holds x)) }
    ensures keeps { Keeps (V.state volume.old) (V.state volume.new) }
    ensures shape { SameShape (V.state volume.old) (V.state volume.new) }
    ensures cause { HasAreaCause (V.state volume.old).faults (V.state volume.new).faults result }
    ensures sure { StaysSureArea (V.state volume.old) (V.state volume.new) result }
{
    let Some(source) = source_in_place(leaf) else {
        return judge_read(alloc, volume, leaf);
    };
    let shown = read_standing(alloc, volume, source, buffer)?;
    Ok(judged(leaf, shown, true))
}

// One that stands elsewhere.
fn judge_read<V: Volume>(
    alloc: Global,
    volume: &mut V,
    leaf: &SourcedLeaf,
) -> Result<JudgedLeaf, AreaFault>
    ensures judged { IfOk result (λ one. (x : Kept) → IsSourced (V.state volume.old).holds x leaf.now → IsShownBy x one.leaf × IsFirstOf (IsUnlike (V.state volume.old).holds x) one.unlike × IfNone one.unlike (ShowsItsNode (V.state volume.old).holds x)) }
    ensures keeps { Keeps (V.state volume.old) (V.state volume.new) }
    ensures shape { SameShape (V.state volume.old) (V.state volume.new) }
    ensures cause { HasAreaCause (V.state volume.old).faults (V.state volume.new).faults result }
    ensures sure { StaysSureArea (V.state volume.old) (V.state volume.new) result }
{
    let Some(node) = source_node(alloc, volume, leaf)? else {
        return Ok(judged(leaf, Shown::Nothing, false));
    };
    let stands = stands_there(alloc, volume, leaf, &node)?;
    Ok(judged(leaf, shown_of(node), stands))
}

// The node of a leaf, from where it was read, or what stands in for it.
fn source_node<V: Volume>(
    alloc: Global,
    volume: &mut V,
    leaf: &SourcedLeaf,
) -> Result<Option<StoredNode>, AreaFault>
    ensures node { IfOk result (λ found. (x : Kept) → IsSourced (V.state volume.old).holds x leaf.now → option_map leaf_node found ≡ Some x.node) }
    ensures keeps { Keeps (V.state volume.old) (V.state volume.new) }
    ensures shape { SameShape (V.state volume.old) (V.state volume.new) }
    ensures cause { HasAreaCause (V.state volume.old).faults (V.state volume.new).faults result }
    ensures sure { StaysSureArea (V.state volume.old) (V.state volume.new) result }
{
    one_node();
    let Some(source) = leaf.source else {
        return Ok(stand_in(alloc, &leaf.leaf.key));
    };
    read_node(alloc, volume, source.lnum, source.offs, source.len)
}

// Whether a leaf's node stands at the leaf's place.
fn stands_there<V: Volume>(
    alloc: Global,
    volume: &mut V,
    leaf: &SourcedLeaf,
    node: &StoredNode,
) -> Result<bool, AreaFault>
    ensures stands { IfOk result (λ stands. (x : Kept) → IsSourced (V.state volume.old).holds x leaf.now → leaf_node node.now ≡ x.node → IsTrue stands ↔ StandsAtLeaf (V.state volume.old).holds x.leaf x.node) }
    ensures keeps { Keeps (V.state volume.old) (V.state volume.new) }
    ensures shape { SameShape (V.state volume.old) (V.state volume.new) }
    ensures cause { HasAreaCause (V.state volume.old).faults (V.state volume.new).faults result }
    ensures sure { StaysSureArea (V.state volume.old) (V.state volume.new) result }
{
    one_node();
    if is_at_source(leaf) {
        return Ok(true);
    }
    let Some(there) = read_node(alloc, volume, leaf.leaf.lnum, leaf.leaf.offs, leaf.leaf.len)?
    else {
        return Ok(false);
    };
    Ok(is_same_node(&there, node))
}

// Whether a leaf stands where its node was read.
fn is_at_source(leaf: &SourcedLeaf) -> bool
    ensures { result ≡ is_at_source leaf.now }
{
    match &leaf.source {
        Some(source) => {
            source.lnum == leaf.leaf.lnum
                && source.offs == leaf.leaf.offs
                && source.len == leaf.leaf.len
        }
        None => false,
    }
}

// Where a leaf stands, if its node was read there.
fn source_in_place(leaf: &SourcedLeaf) -> Option<Source>
    ensures { result ≡ source_in_place leaf.now }
{
    if is_at_source(leaf) {
        leaf.source
    } else {
        None
    }
}

// The block that a leaf is known to be, if it stands where its node was read.
fn known_in_place(leaf: &SourcedLeaf) -> Option<KnownBlock>
    ensures { result ≡ known_in_place leaf.now }
{
    if !is_at_source(leaf) {
        return None;
    }
    leaf.block
}

// What a block shows.
fn known_shown(known: KnownBlock) -> Shown
    ensures { result ≡ Block known.ino known.number }
{
    Shown::Block {
        ino: known.ino,
        block: known.number,
    }
}

// What a leaf shows, whose node shows this and stands at its place or doesn't.
fn judged(leaf: &SourcedLeaf, shown: Shown, stands: bool) -> JudgedLeaf
    ensures { result ≡ judged_of leaf.now shown stands }
{
    let number = number_of(&leaf.leaf.key);
    let unlike = if stands && is_leaf_shown(&shown) {
        None
    } else {
        Some(WrongValue {
            lnum: leaf.leaf.lnum,
            offs: leaf.leaf.offs,
            wanted: number_shown(number, &shown) as u64,
            found: 0,
        })
    };
    JudgedLeaf {
        leaf: ShownLeaf {
            lnum: leaf.leaf.lnum,
            offs: leaf.leaf.offs,
            number,
            shown,
        },
        unlike,
    }
}
