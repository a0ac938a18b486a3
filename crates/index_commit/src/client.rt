// A client of a commit, proved from the contracts of the calls alone.

ghost use Rattle.std.specs.Prelude.{◌≡◌, ◌<◌, ◌≤◌, ◌+◌, ◌^◌, ◌++◌, ℕ, List, true, All, IfOk, OnOk};
ghost use Rattle.ubifs_base.specs.Key.{IsKey};
ghost use Rattle.ubifs_base.specs.RawOf.{raw_of};
ghost use Rattle.index_tree.specs.Order.{placed};
ghost use Rattle.index_tree.specs.Shape.{contents, fits};
ghost use Rattle.index_media.specs.Clean.{placed_of};
ghost use Rattle.index_media.specs.KeyedRow.{KeyedRow, bare};
ghost use Rattle.index_media.specs.PlacedRow.{PlacedRow, lebs_of, plain};
ghost use Rattle.node_table.specs.Placing.{KeepsPlaces};
ghost use Rattle.table_nodes.specs.Stubs.{unplaced};
ghost use Rattle.ubi_volume.specs.Geometry.{IsGeometryOf};
ghost use Rattle.ubi_volume.specs.Volume.{SameShape};
ghost use Rattle.node_cache.specs.Loaded.{IsIndexOn};
ghost use Rattle.index_cache.specs.Paged.{fanout_of, frozen_of, leaves_of, keyed_tree_of, DoesIndexStand};
ghost use Rattle.index_commit.specs.Lebs.{AreLebsApart, AreGivable, IsGiven};
ghost use Rattle.index_commit.specs.Standing.{AreOutside};
ghost use Rattle.index_commit.specs.Written.{AreLebsSettled, IsRootOf, KeepsOtherIndexes};

use crate::index_at::IndexAt;
use crate::index_fault::IndexFault;
use crate::laws::changes_keep_what_stands;
use crate::writing::write_index;
use index_cache::PagedIndex;
use index_media::{an_index_depends_on_its_lebs_alone, an_insertion_goes_by_the_keys_of_branches};
use index_tree::Leaf;
use media_sys::Branch;
use node_cache::NodeCache;
use node_table::places_are_kept;
use std::alloc::Global;
use ubi_volume::Volume;
use ubifs_base::Geometry;

// More dirty nodes than this don't fit into memory.
const MOST_NODES: u64 = 1 << 62;

/// Loads the index that stands on a volume, puts a leaf, and writes the index to these LEBs, in which no node of the loaded one
/// stands. After Ok the index with the leaf stands on the volume, and of these LEBs, where they have a node of it, a cut leaves
/// what they hold. The index before stands in what a cut at any moment leaves, if a cut before left nothing else of its LEBs.
pub fn put_and_commit<V: Volume>(
    alloc: Global,
    volume: &mut V,
    geometry: &Geometry,
    root: &Branch,
    leaf: Leaf,
    lebs: &[u32],
    sqnum: &mut u64,
) -> Result<IndexAt, IndexFault>
    requires geometry { IsGeometryOf (raw_of geometry.now) (V.state volume.old) }
    requires index { (row : PlacedRow) × IsIndexOn (V.state volume.old) geometry.now.fanout root.now row × All (λ k. IsGiven lebs.now k → ⊥) (lebs_of row) }
    requires lebs { AreGivable (V.state volume.old).leb_cnt lebs.now }
    requires key { IsKey leaf.key }
    requires number { sqnum.old < 2 ^ 63 }
    ensures leaves { (row : PlacedRow) → IsIndexOn (V.state volume.old) geometry.now.fanout root.now row
        → IfOk result (λ at. (now : KeyedRow) × (contents (bare now) ≡ placed leaf (contents (plain row))) × IsRootOf (V.state volume.new).holds geometry.now.fanout now at.root
        × AreLebsSettled (V.state volume.new) lebs.now (placed_of now)) }
    ensures old_stays { KeepsOtherIndexes (V.state volume.old) (V.state volume.new) lebs.now }
{
    an_index_depends_on_its_lebs_alone();
    an_insertion_goes_by_the_keys_of_branches();
    changes_keep_what_stands();
    places_are_kept();
    let mut cache = NodeCache::new(alloc)?;
    let mut index = PagedIndex::at_root(alloc, volume, geometry, root)?;
    index.insert(alloc, volume, &mut cache, leaf)?;
    index.freeze();
    if index.dirty_nodes() > MOST_NODES {
        return Err(IndexFault::Memory);
    }
    write_index(alloc, volume, geometry, &mut index, lebs, sqnum)
}

// Writes the index that is seen to these LEBs. After Ok each clean node stands outside of all others that none stood in.
fn write_seen<V: Volume>(
    alloc: Global,
    volume: &mut V,
    geometry: &Geometry,
    index: &mut PagedIndex,
    lebs: &[u32],
    sqnum: &mut u64,
) -> Result<IndexAt, IndexFault>
    requires geometry { IsGeometryOf (raw_of geometry.now) (V.state volume.old) }
    requires fanout { fanout_of index.old ≡ geometry.now.fanout }
    requires lebs { AreGivable (V.state volume.old).leb_cnt lebs.now }
    requires outside { AreOutside (V.state volume.old).holds lebs.now (keyed_tree_of index.old) }
    requires number { sqnum.old < 2 ^ 63 }
    ensures root { IfOk result (λ at. IsRootOf (V.state volume.new).holds geometry.now.fanout (frozen_of index.new) at.root) }
    ensures frozen { OnOk result (KeepsPlaces (keyed_tree_of index.old) (frozen_of index.new)) }
    ensures tree { OnOk result (KeepsPlaces (keyed_tree_of index.old) (keyed_tree_of index.new)) }
    ensures outside { OnOk result ((others : List ℕ) → AreLebsApart lebs.now others → AreOutside (V.state volume.old).holds (lebs.now ++ others) (keyed_tree_of index.old)
        → AreOutside (V.state volume.new).holds others (keyed_tree_of index.new)) }
    ensures nodes { (unplaced index.new.table.nodes.items ≡ unplaced index.old.table.nodes.items) × (index.new.root ≡ index.old.root) }
    ensures fanout { fanout_of index.new ≡ fanout_of index.old }
    ensures shape { SameShape (V.state volume.old) (V.state volume.new) }
    ensures number { sqnum.new ≤ sqnum.old + 2 ^ 62 }
{
    index.freeze();
    if index.dirty_nodes() > MOST_NODES {
        return Err(IndexFault::Memory);
    }
    write_index(alloc, volume, geometry, index, lebs, sqnum)
}

/// Commits an index, puts a leaf, and commits again, to LEBs other than the first commit's. No node of the index stands in any of
/// them. Nodes of it may be on the volume alone. After Ok the index with the leaf stands on the volume.
pub fn commit_twice<V: Volume>(
    alloc: Global,
    volume: &mut V,
    geometry: &Geometry,
    index: &mut PagedIndex,
    leaf: Leaf,
    lebs: &[u32],
    others: &[u32],
    sqnum: &mut u64,
) -> Result<IndexAt, IndexFault>
    requires geometry { IsGeometryOf (raw_of geometry.now) (V.state volume.old) }
    requires fanout { fanout_of index.old ≡ geometry.now.fanout }
    requires fits { fits (fanout_of index.old) (bare (keyed_tree_of index.old)) ≡ true }
    requires lebs { AreGivable (V.state volume.old).leb_cnt lebs.now × AreGivable (V.state volume.old).leb_cnt others.now × AreLebsApart lebs.now others.now }
    requires outside { AreOutside (V.state volume.old).holds (lebs.now ++ others.now) (keyed_tree_of index.old) }
    requires stands { DoesIndexStand (V.state volume.old) index.old }
    requires key { IsKey leaf.key }
    requires number { sqnum.old < 2 ^ 62 }
    ensures leaves { OnOk result (contents (bare (frozen_of index.new)) ≡ placed leaf (leaves_of index.old)) }
    ensures root { IfOk result (λ at. IsRootOf (V.state volume.new).holds geometry.now.fanout (frozen_of index.new) at.root) }
{
    changes_keep_what_stands();
    places_are_kept();
    let _first = write_seen(alloc, volume, geometry, index, lebs, sqnum)?;
    let mut cache = NodeCache::new(alloc)?;
    index.insert(alloc, volume, &mut cache, leaf)?;
    write_seen(alloc, volume, geometry, index, others, sqnum)
}
