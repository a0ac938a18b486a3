// The main LEBs of a tree's image.

ghost use Rattle.std.specs.Prelude.{◌≡◌, ◌≤◌, ◌<◌, ◌^◌, ℕ, length, IfOk, IfErr, OnOk};
ghost use Rattle.ubifs_base.specs.Areas.{main_lebs};
ghost use Rattle.ubifs_base.specs.RawOf.{raw_of};
ghost use Rattle.ubi_volume.specs.MemVolume.{IsBlank, state_of};
ghost use Rattle.ubi_volume.specs.Volume.{SameShape};
ghost use Rattle.fs_model.specs.Cover.{tree_bytes};
ghost use Rattle.fs_model.specs.Proper.{IsProper};
ghost use Rattle.image_maker.specs.Image.{shape_for};
ghost use Rattle.image_maker.specs.Leaves.{live_leaves};
ghost use Rattle.image_maker.specs.Packed.{packed_leaves};
ghost use Rattle.ubi_volume.specs.Frame.{IsSameLeb};
ghost use Rattle.small_areas.specs.Copies.{IsMasterLeb};
ghost use Rattle.made_image.specs.Around.{IsUnwrittenLeb};
ghost use Rattle.whole_image.specs.Made.{HoldsTree, IsOutOfLebs, IsPlainTree};

use crate::make_fault::MakeFault;
use image_maker::{LaidLeaves, lay_tree};
use laid_index::{index_lebs, lay_index};
use laid_main::laid_lebs_have_their_properties;
use laid_tree::{
    laid_leaves_are_in_order, laid_leaves_stand, live_nodes_are_laid_as_their_tree,
    nodes_in_order_are_apart,
};
use made_image::FilledMain;
use plain_backing::Tree;
use std::alloc::Global;
use ubi_volume::{MemVolume, VolFault, Volume};
use ubifs_base::Geometry;

// The areas take numbers below this.
const LAST_NUMBER: u64 = 1 << 62;

// What was laid into the main LEBs, and the last sequence number that was taken.
#[derive(Drop)]
pub(crate) struct Filling {
    pub(crate) main: FilledMain,
    pub(crate) sqnum: u64,
}

// Lays the leaves of a tree, and their index behind them.
pub(crate) fn fill_main(
    alloc: Global,
    volume: &mut MemVolume,
    geometry: &Geometry,
    tree: &Tree,
) -> Result<Filling, MakeFault>
    requires volume { IsBlank (shape_for (raw_of geometry.now)) (state_of volume.old) }
    requires proper { IsProper tree.now }
    requires plain { IsPlainTree tree.now }
    requires few { tree_bytes tree.now ≤ 2 ^ 30 }
    requires room { length (packed_leaves geometry.now.leb_size 0 (live_leaves tree.now)) < main_lebs (raw_of geometry.now) }
    ensures laid { IfOk result (λ filling. HoldsTree (raw_of geometry.now) (state_of volume.new) tree.now filling.main) }
    ensures number { IfOk result (λ filling. filling.sqnum < 2 ^ 63) }
    ensures refused { IfErr result (IsOutOfLebs (raw_of geometry.now) tree.now) }
    ensures shape { SameShape (state_of volume.old) (state_of volume.new) }
{
    laid_leaves_stand();
    laid_leaves_are_in_order();
    nodes_in_order_are_apart();
    live_nodes_are_laid_as_their_tree();
    laid_lebs_have_their_properties();
    let LaidLeaves {
        leaves,
        used,
        sqnum,
    } = lay_tree(alloc, volume, geometry, tree)?;
    open_masters(volume)?;
    let lebs = used.len() as u64;
    let need = index_lebs(geometry, leaves.len());
    let room = geometry.main_lebs() as u64 - lebs - 1;
    if need > room {
        return Err(MakeFault::Crowded { need, room });
    }
    let first = geometry.main_first() + lebs as u32;
    let index = lay_index(alloc, volume, geometry, &leaves, first, sqnum)?;
    // An index has fewer nodes than leaves, so this isn't met; its contract leaves open how many it has.
    if index.sqnum >= LAST_NUMBER {
        return Err(MakeFault::Memory);
    }
    Ok(Filling {
        main: FilledMain {
            leaves: used,
            index: index.used,
            root: index.root,
            highest: tree.highest(),
        },
        sqnum: index.sqnum.saturating_sub(1),
    })
}

// Makes sure that the LEBs of both masters, in which nothing is written, are open for writing.
fn open_masters<V: Volume>(volume: &mut V) -> Result<(), VolFault>
    requires lebs { 2 < (V.state volume.old).leb_cnt }
    ensures opened { OnOk result ((lnum : ℕ) → IsMasterLeb lnum → IsUnwrittenLeb (V.state volume.new) lnum) }
    ensures others { (lnum : ℕ) → (IsMasterLeb lnum → ⊥) → IsSameLeb (V.state volume.old) (V.state volume.new) lnum }
    ensures shape { SameShape (V.state volume.old) (V.state volume.new) }
{
    volume.unmap(1)?;
    volume.unmap(2)
}
