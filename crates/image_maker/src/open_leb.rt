// The LEB that takes the next nodes.

ghost use Rattle.std.specs.Prelude.{◌≡◌, ◌+◌, ◌^◌, ◌<◌, ◌≤◌, ◌++◌, ◌∷◌, [], List, length, OnOk, IfOk};
ghost use Rattle.ubifs_base.specs.Areas.{main_first};
ghost use Rattle.ubifs_base.specs.RawOf.{raw_of};
ghost use Rattle.ubi_volume.specs.MemVolume.{state_of};
ghost use Rattle.media_leaf.specs.LeafNode.{LeafNode, IsLeaf};
ghost use Rattle.group_nodes.specs.Nodes.{node_of, HasPlainMode};
ghost use Rattle.group_nodes.specs.Texts.{padded_leaf_bytes, leaf_text};
ghost use Rattle.image_maker.specs.Image.{to_unit, round_up};
ghost use Rattle.image_maker.specs.Packed.{packed_after};
ghost use Rattle.image_maker.specs.Laying.{HasVolumeGeometry, TakesLeaf, AreLeafNodesLaid, AreLeavesReady, LaysLeaves, IsLeafLebClosed};

use crate::tree_leaves::leaf_at;
use fs_model::Change;
use group_nodes::{text_len, write_text};
use index_tree::Leaf;
use std::alloc::Global;
use ubi_volume::{MemVolume, Volume};
use ubifs_base::{Geometry, Memory, fill_gap};

// The number of the LEB, the sequence number of the next node, and the bytes of the nodes that it took. Then all leaves that were laid,
// and of each LEB before it the bytes that nodes take.
#[derive(Drop)]
pub(crate) struct OpenLeb {
    pub(crate) lnum: u32,
    pub(crate) sqnum: u64,
    pub(crate) bytes: Vec<u8>,
    pub(crate) leaves: Vec<Leaf>,
    pub(crate) used: Vec<u32>,
}

impl OpenLeb {
    // The first main LEB, which took none.
    pub(crate) fn new(alloc: Global, geometry: &Geometry) -> Result<OpenLeb, Memory>
        ensures lnum { IfOk result (λ leb. leb.lnum ≡ main_first (raw_of geometry.now)) }
        ensures sqnum { IfOk result (λ leb. leb.sqnum ≡ 1) }
        ensures bytes { IfOk result (λ leb. leb.bytes.items ≡ []) }
        ensures leaves { IfOk result (λ leb. leb.leaves.items ≡ []) }
        ensures used { IfOk result (λ leb. leb.used.items ≡ []) }
    {
        Ok(OpenLeb {
            lnum: geometry.main_first(),
            sqnum: 1,
            bytes: Vec::with_capacity(alloc, geometry.leb_size as usize)?,
            leaves: Vec::new(alloc),
            used: Vec::new(alloc),
        })
    }

    // Lays one more node.
    pub(crate) fn lay(
        &mut self,
        alloc: Global,
        geometry: &Geometry,
        volume: &mut MemVolume,
        leaf: &Change,
    ) -> Result<(), Memory>
        requires ready { AreLeavesReady (raw_of geometry.now) (node_of leaf.now ∷ []) self.old (state_of volume.old) }
        requires mode { HasPlainMode leaf.now }
        ensures laid { OnOk result (LaysLeaves (raw_of geometry.now) (node_of leaf.now ∷ []) self.old (state_of volume.old) self.new (state_of volume.new)) }
        ensures geometry { HasVolumeGeometry (raw_of geometry.now) (state_of volume.new) }
    {
        self.take_node(alloc, geometry, volume, leaf)?;
        Ok(())
    }

    // Takes one more node: into this LEB where it fits, and else into the next.
    fn take_node(
        &mut self,
        alloc: Global,
        geometry: &Geometry,
        volume: &mut MemVolume,
        leaf: &Change,
    ) -> Result<(), Memory>
        requires geometry { HasVolumeGeometry (raw_of geometry.now) (state_of volume.old) }
        requires node { IsLeaf (node_of leaf.now) }
        requires mode { HasPlainMode leaf.now }
        requires room { self.old.lnum + 2 ≤ geometry.now.leb_cnt }
        requires number { self.old.sqnum < 2 ^ 63 }
        requires fits { length self.old.bytes.items ≤ geometry.now.leb_size }
        ensures laid { OnOk result ((leaves : List LeafNode) → AreLeafNodesLaid (raw_of geometry.now) leaves self.old (state_of volume.old).holds
            → AreLeafNodesLaid (raw_of geometry.now) (leaves ++ node_of leaf.now ∷ []) self.new (state_of volume.new).holds) }
        ensures packed { OnOk result ((leaves : List LeafNode) → packed_after (raw_of geometry.now) self.new leaves ≡ packed_after (raw_of geometry.now) self.old (node_of leaf.now ∷ leaves)) }
        ensures some { OnOk result (0 < length self.new.bytes.items) }
        ensures fits { OnOk result (length self.new.bytes.items ≤ geometry.now.leb_size) }
        ensures geometry { HasVolumeGeometry (raw_of geometry.now) (state_of volume.new) }
    {
        let len = text_len(leaf);
        self.make_room(geometry, volume, len)?;
        self.append(alloc, leaf)?;
        Ok(())
    }

    // Goes on to the next LEB where so many bytes don't fit.
    fn make_room(
        &mut self,
        geometry: &Geometry,
        volume: &mut MemVolume,
        len: usize,
    ) -> Result<(), Memory>
        requires geometry { HasVolumeGeometry (raw_of geometry.now) (state_of volume.old) }
        requires most { len ≤ 4256 }
        requires room { self.old.lnum + 2 ≤ geometry.now.leb_cnt }
        requires fits { length self.old.bytes.items ≤ geometry.now.leb_size }
        ensures laid { OnOk result ((leaves : List LeafNode) → AreLeafNodesLaid (raw_of geometry.now) leaves self.old (state_of volume.old).holds
            → AreLeafNodesLaid (raw_of geometry.now) leaves self.new (state_of volume.new).holds) }
        ensures packed { OnOk result ((next : LeafNode) (leaves : List LeafNode) → padded_leaf_bytes next ≡ len
            → packed_after (raw_of geometry.now) self.new (next ∷ leaves) ≡ packed_after (raw_of geometry.now) self.old (next ∷ leaves)) }
        ensures sqnum { OnOk result (self.new.sqnum ≡ self.old.sqnum) }
        ensures fits { OnOk result (length self.new.bytes.items + len ≤ geometry.now.leb_size) }
        ensures geometry { HasVolumeGeometry (raw_of geometry.now) (state_of volume.new) }
    {
        if self.bytes.len() + len <= geometry.leb_size as usize {
            return Ok(());
        }
        self.close(geometry, volume)?;
        Ok(())
    }

    // Writes the LEB, and goes on to the next.
    pub(crate) fn close(
        &mut self,
        geometry: &Geometry,
        volume: &mut MemVolume,
    ) -> Result<(), Memory>
        requires geometry { HasVolumeGeometry (raw_of geometry.now) (state_of volume.old) }
        requires room { self.old.lnum + 1 ≤ geometry.now.leb_cnt }
        requires some { 0 < length self.old.bytes.items }
        requires fits { length self.old.bytes.items ≤ geometry.now.leb_size }
        ensures closed { OnOk result (IsLeafLebClosed (raw_of geometry.now) self.old self.new (state_of volume.old).holds (state_of volume.new).holds) }
        ensures geometry { HasVolumeGeometry (raw_of geometry.now) (state_of volume.new) }
    {
        self.used.push(self.bytes.len() as u32)?;
        fill_unit(&mut self.bytes, geometry.min_io as usize)?;
        volume.change(self.lnum, &self.bytes).unwrap();
        self.bytes.clear();
        self.lnum += 1;
        Ok(())
    }

    // Takes a node behind those that are here.
    fn append(&mut self, alloc: Global, leaf: &Change) -> Result<(), Memory>
        requires node { IsLeaf (node_of leaf.now) }
        requires mode { HasPlainMode leaf.now }
        requires number { self.old.sqnum < 2 ^ 63 }
        requires fits { length self.old.bytes.items ≤ 2097152 }
        ensures { OnOk result (TakesLeaf (node_of leaf.now) self.old self.new) }
    {
        let offs = self.bytes.len() as u32;
        append_text(alloc, &mut self.bytes, leaf, self.sqnum)?;
        self.leaves.push(leaf_at(leaf, self.lnum, offs))?;
        self.sqnum += 1;
        Ok(())
    }
}

// Appends a node, and 0xCE up to a multiple of 8.
fn append_text(alloc: Global, bytes: &mut Vec<u8>, leaf: &Change, sqnum: u64) -> Result<(), Memory>
    requires node { IsLeaf (node_of leaf.now) }
    requires mode { HasPlainMode leaf.now }
    requires fits { length bytes.old.items ≤ 2097152 }
    ensures bytes { OnOk result (bytes.new.items ≡ bytes.old.items ++ leaf_text sqnum 0 (node_of leaf.now)) }
    ensures len { OnOk result (length bytes.new.items ≡ length bytes.old.items + padded_leaf_bytes (node_of leaf.now)) }
{
    let mut text = vec![in alloc; 0; text_len(leaf)]?;
    write_text(alloc, leaf, sqnum, 0, &mut text);
    bytes.extend_from_slice(&text)?;
    Ok(())
}

// Fills the gap up to the unit.
fn fill_unit(bytes: &mut Vec<u8>, unit: usize) -> Result<(), Memory>
    requires unit { 0 < unit }
    requires small { unit ≤ 16384 }
    requires fits { length bytes.old.items ≤ 2097152 }
    ensures bytes { OnOk result (bytes.new.items ≡ to_unit unit bytes.old.items) }
    ensures len { OnOk result (length bytes.new.items ≡ round_up unit (length bytes.old.items)) }
{
    let start = bytes.len();
    bytes.resize(start.div_ceil(unit) * unit, 0)?;
    fill_gap(bytes.split_at_mut(start).1);
    Ok(())
}
