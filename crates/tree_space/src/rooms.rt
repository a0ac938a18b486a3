// Whether a tree has room.

ghost use Rattle.std.specs.Prelude.{◌≡◌, IfOk};
ghost use Rattle.ubifs_base.specs.RawOf.{raw_of};
ghost use Rattle.fs_model.specs.Proper.{IsProper};
ghost use Rattle.tree_space.specs.Laid.{bytes_needed, bytes_of_room};

use crate::counting::count_leaves;
use fs_model::{Class, Need, Space};
use image_maker::leaves_of_a_tree_are_few;
use plain_backing::{Tree, full_index_weight};
use space_sums::{Room, room};
use std::alloc::Global;
use ubifs_base::{Geometry, Memory};

/// The two sides of the test that admission makes of a volume with an image of this tree alone, in bytes: what its leaves take, and
/// what there is room for beside their index and a reserve of ten LEBs. The error is want of memory.
pub fn tree_room(alloc: Global, geometry: &Geometry, tree: &Tree) -> Result<Room, Memory>
    requires { IsProper tree.now }
    ensures need { IfOk result (λ room. room.need ≡ bytes_needed (raw_of geometry.now) tree.now) }
    ensures limit { IfOk result (λ room. room.limit ≡ bytes_of_room (raw_of geometry.now) tree.now) }
{
    leaves_of_a_tree_are_few();
    let count = count_leaves(alloc, geometry, tree)?;
    // An index takes no more LEBs than its weight asks for, and three times these are kept; so the sum doesn't ask how many it takes.
    let space = Space {
        used: tree.bytes(),
        held: 0,
        credits: 0,
        empty: 0,
        index: 0,
        weight: full_index_weight(geometry, count.leaves),
        main: geometry.main_lebs(),
    };
    let need = Need {
        credits: 0,
        bytes: 0,
        nodes: 0,
        class: Class::Ordinary,
    };
    Ok(room(geometry, &space, &need))
}
