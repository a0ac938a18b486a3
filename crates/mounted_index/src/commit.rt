// A commit, which lets all nodes go.

ghost use Rattle.std.specs.Prelude.{◌≡◌, ◌<◌, ◌≤◌, ◌+◌, ◌-◌, ◌*◌, ◌^◌, ◌++◌, ℕ, List, IfOk, is_some, length};
ghost use Rattle.std.specs.Int.{div_ceil};
ghost use Rattle.ubifs_base.specs.Geometry.{index_nodes_per_leb};
ghost use Rattle.ubifs_base.specs.RawOf.{raw_of};
ghost use Rattle.index_media.specs.KeyedRow.{KeyedRow};
ghost use Rattle.node_table.specs.Dirty.{dirty_below};
ghost use Rattle.node_table.specs.Placing.{KeepsPlaces};
ghost use Rattle.ubi_volume.specs.Geometry.{IsGeometryOf};
ghost use Rattle.ubi_volume.specs.Volume.{Keeps};
ghost use Rattle.index_cache.specs.Paged.{fanout_of, keyed_tree_of, DoesIndexStand};
ghost use Rattle.index_commit.specs.Answers.{IsIndexAnswered, IsIndexNotFailed};
ghost use Rattle.index_commit.specs.Lebs.{AreLebsApart, AreGivable};
ghost use Rattle.index_commit.specs.Ordered.{AreKeysInOrder, IsNotEqualKeys};
ghost use Rattle.index_commit.specs.Written.{KeepsOtherIndexes, WorksInLebs};
ghost use Rattle.mounted_index.specs.Committed.{AreNodesWritten, HasNodesFrom, IsBeside, IsCommit, IsShortOf, IsWrittenAt, OnWant, nodes_to_write};
ghost use Rattle.mounted_index.specs.Shown.{StandsIn, on_volume_alone};

use crate::mounted::{IndexNodes, MountedIndex};
use index_cache::PagedIndex;
use index_commit::{IndexAt, IndexFault, dirty_nodes_are_distinct, write_index};
use index_media::an_index_depends_on_its_lebs_alone;
use media_sys::Branch;
use node_table::places_are_kept;
use std::alloc::Global;
use ubi_volume::Volume;
use ubifs_base::Geometry;

// More dirty nodes than this don't fit into memory.
const MOST_NODES: u64 = 1 << 62;

impl MountedIndex {
    /// Writes the dirty nodes of the index to these LEBs, children before their parent, and lets all nodes go. Unless it is empty, the index
    /// is on the volume alone then, from the answered root on (`root_lnum`, `root_offs` and `root_len` of `struct ubifs_mst_node`). An
    /// empty index is written nowhere, and has no root. Each node has as much room as a full one takes. Each LEB is replaced by one change,
    /// whatever it held, and clean nodes stay where they are: no clean node may stand in these LEBs.
    ///
    /// `Memory` and `Full` come before anything is written. They leave the volume and the number as they were, and what is shown or staged.
    /// After `Volume` the index is shown as before, but nodes of it may have places where nothing stands. `EqualKeys` comes only if the
    /// keys of some node's branches aren't in order. No more sequence numbers are taken than there are dirty nodes.
    pub fn commit<V: Volume>(
        &mut self,
        alloc: Global,
        volume: &mut V,
        lebs: &[u32],
        sqnum: &mut u64,
    ) -> Result<IndexAt, IndexFault>
        requires volume { IsGeometryOf (raw_of self.old.geometry) (V.state volume.old) × AreGivable (V.state volume.old).leb_cnt lebs.now }
        requires shown { (row : KeyedRow) × (kept : List ℕ) × IsBeside (V.state volume.old) lebs.now kept self.old row }
        requires number { sqnum.old < 2 ^ 63 }
        ensures committed { (row : KeyedRow) (kept : List ℕ) → IsBeside (V.state volume.old) lebs.now kept self.old row
            → IsCommit (V.state volume.old) (V.state volume.new) lebs.now kept sqnum.old sqnum.new self.old self.new row result }
        ensures index { IfOk result (λ at. on_volume_alone self.new ≡ is_some at.root) × (self.new.geometry ≡ self.old.geometry) }
        ensures works { WorksInLebs (V.state volume.old) (V.state volume.new) lebs.now
            × AreNodesWritten (raw_of self.old.geometry) (V.state volume.old) (V.state volume.new) lebs.now sqnum.old sqnum.new result }
        ensures old_stays { KeepsOtherIndexes (V.state volume.old) (V.state volume.new) lebs.now }
        ensures answer { IsIndexAnswered (V.state volume.old) (V.state volume.new) result }
        ensures number { (sqnum.old ≤ sqnum.new) × (sqnum.new ≤ sqnum.old + index_nodes_per_leb (raw_of self.old.geometry) * length lebs.now)
            × (sqnum.new ≤ sqnum.old + nodes_to_write self.old.nodes) }
    {
        an_index_depends_on_its_lebs_alone();
        places_are_kept();
        match &mut self.nodes {
            IndexNodes::OnMedium(root) => Ok(IndexAt {
                root: Some(*root),
                head: None,
            }),
            IndexNodes::InMemory(index) => {
                self.cache.clear();
                let written = write_seen(alloc, volume, &self.geometry, index, lebs, sqnum);
                if let Ok(at) = &written {
                    self.nodes = nodes_of(alloc, self.geometry.fanout, at.root);
                }
                written
            }
        }
    }
}

// The nodes of an index that is on the volume alone, from this root on; without a root it is empty.
pub(crate) fn nodes_of(alloc: Global, fanout: u32, root: Option<Branch>) -> IndexNodes
    requires least { 3 ≤ fanout }
    requires most { fanout ≤ 256 }
    ensures { HasNodesFrom fanout root result }
{
    match root {
        None => IndexNodes::InMemory(PagedIndex::new(alloc, fanout)),
        Some(root) => IndexNodes::OnMedium(root),
    }
}

// Freezes the index that is seen, and writes its dirty nodes to these LEBs.
fn write_seen<V: Volume>(
    alloc: Global,
    volume: &mut V,
    geometry: &Geometry,
    index: &mut PagedIndex,
    lebs: &[u32],
    sqnum: &mut u64,
) -> Result<IndexAt, IndexFault>
    requires geometry { IsGeometryOf (raw_of geometry.now) (V.state volume.old) }
    requires fanout { fanout_of index.old ≡ geometry.now.fanout }
    requires lebs { AreGivable (V.state volume.old).leb_cnt lebs.now }
    requires stands { (kept : List ℕ) × StandsIn (V.state volume.old) kept (keyed_tree_of index.old) × AreLebsApart kept lebs.now }
    requires number { sqnum.old < 2 ^ 63 }
    ensures at { IfOk result (IsWrittenAt (V.state volume.new) (raw_of geometry.now) lebs.now (sqnum.new - sqnum.old) (keyed_tree_of index.old) (keyed_tree_of index.new)) }
    ensures tree { KeepsPlaces (keyed_tree_of index.old) (keyed_tree_of index.new) }
    ensures index { DoesIndexStand (V.state volume.new) index.new }
    ensures want { OnWant (Keeps (V.state volume.old) (V.state volume.new) × (keyed_tree_of index.new ≡ keyed_tree_of index.old) × (sqnum.new ≡ sqnum.old)) result }
    ensures same { OnWant ((index.new.table.nodes.items ≡ index.old.table.nodes.items) × (index.new.root ≡ index.old.root)) result }
    ensures stands { (kept : List ℕ) → StandsIn (V.state volume.old) kept (keyed_tree_of index.old) → AreLebsApart kept lebs.now → IsIndexNotFailed result → StandsIn (V.state volume.new) (lebs.now ++ kept) (keyed_tree_of index.new) }
    ensures full { IsShortOf (div_ceil (length (dirty_below index.old.table.nodes.items index.old.root)) (index_nodes_per_leb (raw_of geometry.now))) (length lebs.now) result }
    ensures order { AreKeysInOrder (keyed_tree_of index.old) → IsNotEqualKeys result }
    ensures works { WorksInLebs (V.state volume.old) (V.state volume.new) lebs.now }
    ensures nodes { AreNodesWritten (raw_of geometry.now) (V.state volume.old) (V.state volume.new) lebs.now sqnum.old sqnum.new result }
    ensures old_stays { KeepsOtherIndexes (V.state volume.old) (V.state volume.new) lebs.now }
    ensures answer { IsIndexAnswered (V.state volume.old) (V.state volume.new) result }
    ensures number { (sqnum.old ≤ sqnum.new) × (sqnum.new ≤ sqnum.old + index_nodes_per_leb (raw_of geometry.now) * length lebs.now)
        × (sqnum.new ≤ sqnum.old + length (dirty_below index.old.table.nodes.items index.old.root)) }
    ensures fanout { fanout_of index.new ≡ fanout_of index.old }
{
    an_index_depends_on_its_lebs_alone();
    dirty_nodes_are_distinct();
    places_are_kept();
    index.freeze();
    index.trees_are_sound();
    if index.dirty_nodes() > MOST_NODES {
        return Err(IndexFault::Memory);
    }
    write_index(alloc, volume, geometry, index, lebs, sqnum)
}
