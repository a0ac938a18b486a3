// The index, on the volume alone or in memory.

ghost use Rattle.std.specs.Prelude.{◌≡◌, ◌≢◌, ◌≤◌, ℕ, List, true, IfOk};
ghost use Rattle.index_media.specs.KeyedRow.{KeyedRow, all_clean, no_more};
ghost use Rattle.index_media.specs.PlacedRow.{PlacedRow};
ghost use Rattle.node_cache.specs.Kept.{AreKept};
ghost use Rattle.node_cache.specs.Loaded.{IsIndexOn};
ghost use Rattle.index_cache.specs.declared.calls.Staged.{Staged as AStaged};
ghost use Rattle.mounted_index.specs.Shown.{IsStagedRow, IsTakenUp, Shows, ShowsStaged, on_volume_alone};

use index_cache::PagedIndex;
use media_sys::Branch;
use node_cache::NodeCache;
use std::alloc::Global;
use ubi_volume::Volume;
use ubifs_base::{Geometry, Memory};

/// Where the nodes of an index are: on the volume alone, from the branch of the root on, or in memory, those that changes met.
#[derive(Drop)]
pub(crate) enum IndexNodes {
    OnMedium(Branch),
    InMemory(PagedIndex),
}

/// The index of a mounted volume.
///
/// Over a volume it shows a row of siblings, with keys of branches, and with places where nodes are clean: contracts say it by `Shows`.
/// `on_volume_alone` tells whether none of its nodes is in memory, but those that look-ups keep.
#[derive(Drop)]
pub struct MountedIndex {
    pub(crate) geometry: Geometry,
    pub(crate) nodes: IndexNodes,
    pub(crate) cache: NodeCache,
}

impl MountedIndex {
    /// The empty index of a volume. No node of it stands there.
    pub fn new<V: Volume>(
        alloc: Global,
        volume: &V,
        geometry: &Geometry,
    ) -> Result<MountedIndex, Memory>
        ensures shown { IfOk result (λ made. Shows (V.state volume.now) made no_more) }
        ensures geometry { IfOk result (λ made. made.geometry ≡ geometry.now) }
    {
        let _ = volume;
        let cache = NodeCache::new(alloc)?;
        Ok(MountedIndex {
            geometry: *geometry,
            nodes: IndexNodes::InMemory(PagedIndex::new(alloc, geometry.fanout)),
            cache,
        })
    }

    /// Takes up the index that stands on a volume from the branch of its root on. It reads nothing.
    pub fn at_root<V: Volume>(
        alloc: Global,
        volume: &V,
        geometry: &Geometry,
        root: &Branch,
    ) -> Result<MountedIndex, Memory>
        ensures shown { (placed : PlacedRow) → IsIndexOn (V.state volume.now) geometry.now.fanout root.now placed
            → IfOk result (λ made. Shows (V.state volume.now) made (all_clean placed)) }
        ensures geometry { IfOk result (λ made. made.geometry ≡ geometry.now) }
        ensures alone { IfOk result (λ made. on_volume_alone made ≡ true) }
    {
        let _ = volume;
        let cache = NodeCache::new(alloc)?;
        Ok(MountedIndex {
            geometry: *geometry,
            nodes: IndexNodes::OnMedium(*root),
            cache,
        })
    }

    /// Whether none of its nodes is in memory, but those that look-ups keep.
    pub fn is_on_volume_alone(&self) -> bool
        ensures { result ≡ on_volume_alone self.now }
    {
        match &self.nodes {
            IndexNodes::OnMedium(_) => true,
            IndexNodes::InMemory(_) => false,
        }
    }

    /// How many nodes look-ups keep in memory.
    pub fn cached_nodes(&self) -> usize
        ensures most { result ≤ 256 }
    {
        self.cache.len()
    }

    /// Lets the nodes go that are kept of a LEB. Whoever has written to it, while no node of the index stands there, calls this before any
    /// other call. Those of other LEBs stay.
    pub fn forget<V: Volume>(&mut self, volume: &V, lnum: u32)
        ensures shown { (before : ℕ → List ℕ) (row : KeyedRow) → ((k : ℕ) → k ≢ lnum → (V.state volume.now).holds k ≡ before k) → AreKept before self.old.cache
            → IsTakenUp (V.state volume.now) self.old row → Shows (V.state volume.now) self.new row }
        ensures staged { (before : ℕ → List ℕ) (staged : AStaged) (row : KeyedRow) → ((k : ℕ) → k ≢ lnum → (V.state volume.now).holds k ≡ before k) → AreKept before self.old.cache
            → IsStagedRow (V.state volume.now) self.old.geometry.fanout row staged self.old.nodes → ShowsStaged (V.state volume.now) self.new staged row }
        ensures geometry { self.new.geometry ≡ self.old.geometry }
        ensures nodes { self.new.nodes ≡ self.old.nodes }
    {
        let _ = volume;
        self.cache.forget(lnum);
    }

    /// Lets all nodes go that are kept of the volume. Whoever has written to LEBs in which no node of the index stands calls this before
    /// any other call: what is kept might be of these LEBs.
    pub fn clear_cache<V: Volume>(&mut self, volume: &V)
        ensures shown { (row : KeyedRow) → IsTakenUp (V.state volume.now) self.old row → Shows (V.state volume.now) self.new row }
        ensures staged { (staged : AStaged) (row : KeyedRow) → IsStagedRow (V.state volume.now) self.old.geometry.fanout row staged self.old.nodes → ShowsStaged (V.state volume.now) self.new staged row }
        ensures geometry { self.new.geometry ≡ self.old.geometry }
        ensures nodes { self.new.nodes ≡ self.old.nodes }
        ensures alone { on_volume_alone self.new ≡ on_volume_alone self.old }
    {
        let _ = volume;
        self.cache.clear();
    }
}
