// The volume that a tree's image takes with no LEB to spare.

ghost use Rattle.std.specs.Prelude.{◌≡◌, ◌≤◌, ◌^◌, IfOk};
ghost use Rattle.ubifs_base.specs.RawOf.{raw_of};
ghost use Rattle.fs_model.specs.Proper.{IsProper};
ghost use Rattle.whole_image.specs.Made.{packed_geometry, packed_lebs};

use image_maker::leaves_of_a_tree_are_few;
use laid_index::index_lebs;
use plain_backing::Tree;
use std::alloc::Global;
use tree_space::count_leaves;
use ubifs_base::{Geometry, Memory, RawGeometry};

// No memory holds a tree that takes so many LEBs.
const TOO_MANY_LEBS: u64 = 1 << 30;

/// The geometry of a volume like this one that has just as many main LEBs as an image of the tree takes: those of its leaves, those of their index,
/// and one that stays empty. It is not tested: the volume may be greater than it may ever be. The error is want of memory.
pub fn packed_geometry(
    alloc: Global,
    geometry: &Geometry,
    tree: &Tree,
) -> Result<RawGeometry, Memory>
    requires { IsProper tree.now }
    ensures { IfOk result (λ raw. raw ≡ packed_geometry (raw_of geometry.now) tree.now) }
{
    let lebs = packed_lebs(alloc, geometry, tree)?;
    Ok(RawGeometry {
        leb_cnt: geometry.main_first() + lebs,
        ..geometry.raw()
    })
}

// How many main LEBs that are.
fn packed_lebs(alloc: Global, geometry: &Geometry, tree: &Tree) -> Result<u32, Memory>
    requires { IsProper tree.now }
    ensures lebs { IfOk result (λ lebs. lebs ≡ packed_lebs (raw_of geometry.now) tree.now) }
    ensures few { IfOk result (λ lebs. lebs ≤ 2 ^ 31) }
{
    leaves_of_a_tree_are_few();
    let count = count_leaves(alloc, geometry, tree)?;
    let index = index_lebs(geometry, count.leaves as usize);
    if count.lebs >= TOO_MANY_LEBS {
        return Err(Memory);
    }
    if index >= TOO_MANY_LEBS {
        return Err(Memory);
    }
    Ok((count.lebs + index + 1) as u32)
}
