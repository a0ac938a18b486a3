// A tree, laid into the main LEBs of a fresh volume.

ghost use Rattle.std.specs.Prelude.{◌≡◌, ◌^◌, ◌<◌, ◌≤◌, ◌==◌, length, map, filter, OnOk, IfOk};
ghost use Rattle.ubifs_base.specs.Areas.{main_lebs};
ghost use Rattle.ubifs_base.specs.RawOf.{raw_of};
ghost use Rattle.ubi_volume.specs.MemVolume.{state_of, IsBlank};
ghost use Rattle.ubi_volume.specs.Volume.{SameShape};
ghost use Rattle.fs_model.specs.Cover.{tree_bytes};
ghost use Rattle.fs_model.specs.Proper.{IsProper};
ghost use Rattle.image_maker.specs.Leaves.{block_leaf, entry_leaf, leaf_nodes_of, live_leaves};
ghost use Rattle.image_maker.specs.Image.{IsImage, shape_for};
ghost use Rattle.image_maker.specs.Packed.{packed_leaves};
ghost use Rattle.image_maker.specs.Places.{AreLaid};
ghost use Rattle.image_maker.specs.Laying.{HasVolumeGeometry, AreLeavesReady, LaysLeaves, HavePlainModes};

use crate::laid_leaves::LaidLeaves;
use crate::open_leb::OpenLeb;
use crate::tree_leaves::{block_leaf, entry_leaf, inode_leaf};
use fs_model::{Inode, Rows};
use op_groups::by_hash;
use plain_backing::Tree;
use std::alloc::Global;
use ubi_volume::MemVolume;
use ubifs_base::{Geometry, Memory};

/// Lays the nodes of a tree into the main LEBs of a fresh volume: inode by inode in order of number, behind each inode's
/// node those of its blocks in order of number, and then those of the entries in it in order of hash and name (the node
/// table of ubifs-media.h). A directory's links and size are reckoned. A LEB takes nodes while they fit; a main LEB at least is
/// left behind them, and no other LEB is written. Answers where each node stands, how many bytes nodes take of each LEB, and the next sequence number.
/// The error is want of memory, and some LEBs may be written then.
pub fn lay_tree(
    alloc: Global,
    volume: &mut MemVolume,
    geometry: &Geometry,
    tree: &Tree,
) -> Result<LaidLeaves, Memory>
    requires volume { IsBlank (shape_for (raw_of geometry.now)) (state_of volume.old) }
    requires proper { IsProper tree.now }
    requires few { tree_bytes tree.now ≤ 2 ^ 30 }
    requires room { length (packed_leaves geometry.now.leb_size 0 (live_leaves tree.now)) < main_lebs (raw_of geometry.now) }
    ensures image { OnOk result (IsImage (raw_of geometry.now) (live_leaves tree.now) (state_of volume.new).holds) }
    ensures laid { IfOk result (λ laid. AreLaid (raw_of geometry.now) (live_leaves tree.now) (state_of volume.new).holds laid) }
    ensures shape { SameShape (state_of volume.old) (state_of volume.new) }
{
    let mut open_leb = OpenLeb::new(alloc, geometry)?;
    lay_inodes(alloc, volume, geometry, &mut open_leb, tree)?;
    open_leb.close(geometry, volume)?;
    Ok(LaidLeaves {
        leaves: open_leb.leaves,
        used: open_leb.used,
        sqnum: open_leb.sqnum,
    })
}

// Lays the nodes of all inodes.
fn lay_inodes(
    alloc: Global,
    volume: &mut MemVolume,
    geometry: &Geometry,
    open_leb: &mut OpenLeb,
    tree: &Tree,
) -> Result<(), Memory>
    requires ready { AreLeavesReady (raw_of geometry.now) (live_leaves tree.now) open_leb.old (state_of volume.old) }
    requires modes { HavePlainModes tree.now.inodes }
    requires few { tree_bytes tree.now ≤ 2 ^ 30 }
    ensures laid { OnOk result (LaysLeaves (raw_of geometry.now) (live_leaves tree.now) open_leb.old (state_of volume.old) open_leb.new (state_of volume.new)) }
    ensures geometry { HasVolumeGeometry (raw_of geometry.now) (state_of volume.new) }
{
    let mut rest = tree.inodes();
    'laying: while let Some((ino, inode)) = rest.next() {
        lay_inode(alloc, volume, geometry, open_leb, tree, ino, inode)?;
    }
    Ok(())
}

// Lays an inode's node, those of its blocks, and those of the entries in it.
fn lay_inode(
    alloc: Global,
    volume: &mut MemVolume,
    geometry: &Geometry,
    open_leb: &mut OpenLeb,
    tree: &Tree,
    ino: u32,
    inode: &Inode,
) -> Result<(), Memory>
    requires ready { AreLeavesReady (raw_of geometry.now) (leaf_nodes_of tree.now (ino, inode.now)) open_leb.old (state_of volume.old) }
    requires mode { inode.now.mode < 4096 }
    requires few { tree_bytes tree.now ≤ 2 ^ 30 }
    ensures laid { OnOk result (LaysLeaves (raw_of geometry.now) (leaf_nodes_of tree.now (ino, inode.now)) open_leb.old (state_of volume.old) open_leb.new (state_of volume.new)) }
    ensures geometry { HasVolumeGeometry (raw_of geometry.now) (state_of volume.new) }
{
    let entries = tree.entries_in(alloc, ino)?;
    let leaf = inode_leaf(ino, inode, entries.as_slice())?;
    open_leb.lay(alloc, geometry, volume, &leaf)?;
    lay_blocks(alloc, volume, geometry, open_leb, tree, ino)?;
    let rows = by_hash(alloc, entries)?;
    lay_entries(alloc, volume, geometry, open_leb, rows)?;
    Ok(())
}

// Lays the nodes of an inode's blocks.
fn lay_blocks(
    alloc: Global,
    volume: &mut MemVolume,
    geometry: &Geometry,
    open_leb: &mut OpenLeb,
    tree: &Tree,
    ino: u32,
) -> Result<(), Memory>
    requires ready { AreLeavesReady (raw_of geometry.now) (map block_leaf (filter (λ stored. stored.0.0 == ino) tree.now.blocks)) open_leb.old (state_of volume.old) }
    ensures laid { OnOk result (LaysLeaves (raw_of geometry.now) (map block_leaf (filter (λ stored. stored.0.0 == ino) tree.now.blocks)) open_leb.old (state_of volume.old) open_leb.new (state_of volume.new)) }
    ensures geometry { HasVolumeGeometry (raw_of geometry.now) (state_of volume.new) }
{
    let mut rest = tree.blocks_of(ino);
    'laying: while let Some((key, bytes)) = rest.next() {
        let leaf = block_leaf(alloc, key, bytes)?;
        open_leb.lay(alloc, geometry, volume, &leaf)?;
    }
    Ok(())
}

// Lays the nodes of entries, in this order.
fn lay_entries(
    alloc: Global,
    volume: &mut MemVolume,
    geometry: &Geometry,
    open_leb: &mut OpenLeb,
    rows: Rows,
) -> Result<(), Memory>
    requires ready { AreLeavesReady (raw_of geometry.now) (map entry_leaf rows) open_leb.old (state_of volume.old) }
    ensures laid { OnOk result (LaysLeaves (raw_of geometry.now) (map entry_leaf rows) open_leb.old (state_of volume.old) open_leb.new (state_of volume.new)) }
    ensures geometry { HasVolumeGeometry (raw_of geometry.now) (state_of volume.new) }
{
    'laying: for entry in rows.into_vec() {
        let leaf = entry_leaf(entry);
        open_leb.lay(alloc, geometry, volume, &leaf)?;
    }
    Ok(())
}
