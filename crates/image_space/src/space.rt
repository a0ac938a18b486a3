// The space of an image.

ghost use Rattle.std.specs.Prelude.{◌≡◌, IfOk};
ghost use Rattle.ubifs_base.specs.RawOf.{raw_of};
ghost use Rattle.sound_image.specs.Image.{Image};
ghost use Rattle.sound_image.specs.Summary.{space_of_image};
ghost use Rattle.image_space.specs.Told.{IsToldOf};

use crate::counting::{empty_lebs, index_lebs};
use crate::marking::uses_of;
use crate::sums::{bytes_used, weight_of};
use crate::weight_law::lengths_tell_the_weight;
use fs_model::Space;
use index_tree::Leaf;
use media_sys::{Branch, RefNode};
use std::alloc::Global;
use ubifs_base::{Geometry, Memory};

/// The numbers that admission reckons with once an image is recovered, before any commit (`space_of_image` of crate sound_image; the
/// `empty_lebs`, `idx_lebs` and `total_used` of `struct ubifs_lp_stats` of Linux fs/ubifs are of their kind): the bytes of the
/// recovered leaves, each rounded up to 8; the empty LEBs, those with nodes of the index, and all of the main area; and the committed
/// index's weight with a node for each one that was applied. Nothing is held, and no credit is granted. It is told of the branches to all
/// nodes of the committed index, of the log's references, of the recovered leaves and of how many nodes were applied, each list in
/// the image's order. Takes memory for four marks a main LEB. Want of memory is also told of bytes or of a weight that pass 64 bits.
pub fn space_of(
    alloc: Global,
    geometry: &Geometry,
    nodes: &[Branch],
    references: &[RefNode],
    leaves: &[Leaf],
    applied: u64,
) -> Result<Space, Memory>
    ensures space { (image : Image) → IsToldOf (raw_of geometry.now) nodes.now references.now leaves.now applied image
        → IfOk result (λ space. space ≡ space_of_image image) }
{
    lengths_tell_the_weight();
    let first = geometry.main_first();
    let uses = uses_of(
        alloc,
        first,
        geometry.main_lebs(),
        nodes,
        references,
        leaves,
    )?;
    let used = bytes_used(leaves)?;
    let weight = weight_of(geometry.fanout, nodes, applied)?;
    let empty = empty_lebs(first, &uses);
    let index = index_lebs(first, &uses);
    Ok(Space {
        used,
        held: 0,
        credits: 0,
        empty,
        index,
        weight,
        main: geometry.main_lebs(),
    })
}
