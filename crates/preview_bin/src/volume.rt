// The volume of a manifest, as the image that `mkfs` makes of it would be.

ghost use Rattle.std.specs.Prelude.{◌<◌, ◌^◌, IfOk};
ghost use Rattle.fs_model.specs.Proper.{IsProper};

use crate::lines::{Told, bad_geometry, full, small};
use fs_model::Space;
use image_maker::leaves_of_a_tree_are_few;
use laid_index::index_lebs;
use plain_backing::{Tree, full_index_weight};
use script_text::Manifest;
use std::alloc::Global;
use tree_space::{count_leaves, tree_room};
use ubifs_base::{Geometry, Memory, RawGeometry};

// No memory holds a tree that takes so many LEBs.
const TOO_MANY_LEBS: u64 = 1 << 30;

// Nor one of more leaves.
const MOST_LEAVES: u64 = 1 << 40;

/// A volume with the numbers of its image, or why there is none.
#[derive(Drop)]
pub(crate) enum Volume {
    Refused { told: Told },
    Ready { geometry: Geometry, space: Space },
}

// What a tree's image takes: the LEBs of its leaves, those of its index, and what that weighs.
#[derive(Drop)]
struct Taken {
    leaves: u32,
    index: u32,
    weight: u64,
}

/// The volume of a manifest with this tree.
pub(crate) fn volume_of(alloc: Global, manifest: &Manifest, tree: &Tree) -> Result<Volume, Memory>
    requires proper { IsProper tree.now }
    requires main { manifest.now.main < 2147483648 }
{
    let raw = RawGeometry::plain(
        manifest.leb_size,
        manifest.min_io,
        manifest.main,
        manifest.fanout,
    );
    let geometry = match Geometry::new(&raw) {
        Ok(geometry) => geometry,
        Err(fault) => {
            let told = bad_geometry(alloc, fault)?;
            return Ok(Volume::Refused { told });
        }
    };
    if manifest.packed {
        return packed_volume(alloc, &geometry, tree);
    }
    if manifest.main < 24 {
        let told = small(alloc, manifest.main)?;
        return Ok(Volume::Refused { told });
    }
    let room = tree_room(alloc, &geometry, tree)?;
    if room.need > room.limit {
        let told = full(alloc, room.need, room.limit)?;
        return Ok(Volume::Refused { told });
    }
    let taken = taken_by(alloc, &geometry, tree)?;
    Ok(ready(geometry, tree, &taken))
}

// The volume with just the main LEBs that the tree takes, and an empty one.
fn packed_volume(alloc: Global, geometry: &Geometry, tree: &Tree) -> Result<Volume, Memory>
    requires { IsProper tree.now }
{
    let taken = taken_by(alloc, geometry, tree)?;
    let raw = RawGeometry {
        leb_cnt: geometry.main_first() + taken.leaves + taken.index + 1,
        ..geometry.raw()
    };
    match Geometry::new(&raw) {
        Ok(packed) => Ok(ready(packed, tree, &taken)),
        Err(fault) => {
            let told = bad_geometry(alloc, fault)?;
            Ok(Volume::Refused { told })
        }
    }
}

// What the image of a tree takes.
fn taken_by(alloc: Global, geometry: &Geometry, tree: &Tree) -> Result<Taken, Memory>
    requires { IsProper tree.now }
    ensures leaves { IfOk result (λ taken. taken.leaves < 2 ^ 30) }
    ensures index { IfOk result (λ taken. taken.index < 2 ^ 30) }
{
    leaves_of_a_tree_are_few();
    let count = count_leaves(alloc, geometry, tree)?;
    let index = index_lebs(geometry, count.leaves as usize);
    if count.lebs >= TOO_MANY_LEBS {
        return Err(Memory);
    }
    if index >= TOO_MANY_LEBS {
        return Err(Memory);
    }
    if count.leaves > MOST_LEAVES {
        return Err(Memory);
    }
    Ok(Taken {
        leaves: count.lebs as u32,
        index: index as u32,
        weight: full_index_weight(geometry, count.leaves),
    })
}

// A volume of which the image of a tree takes so much.
fn ready(geometry: Geometry, tree: &Tree, taken: &Taken) -> Volume {
    let main = geometry.main_lebs();
    Volume::Ready {
        geometry,
        space: Space {
            used: tree.bytes(),
            held: 0,
            credits: 0,
            empty: main
                .saturating_sub(taken.leaves)
                .saturating_sub(taken.index),
            index: taken.index,
            weight: taken.weight,
            main,
        },
    }
}
