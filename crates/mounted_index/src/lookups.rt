// Look-ups.

ghost use Rattle.std.specs.Prelude.{◌≡◌, ◌==◌, IfOk, filter, slice_get};
ghost use Rattle.index_media.specs.KeyedRow.{KeyedRow, bare};
ghost use Rattle.index_tree.specs.LastBlock.{last_block};
ghost use Rattle.index_tree.specs.Order.{key_rank, of_rank, first_after};
ghost use Rattle.index_tree.specs.RangeRemoval.{within_range};
ghost use Rattle.index_tree.specs.Removal.{holds};
ghost use Rattle.index_tree.specs.Shape.{contents};
ghost use Rattle.node_cache.specs.Loaded.{IsReadOnlyCall};
ghost use Rattle.mounted_index.specs.Shown.{KeepsShown, Shows};

use crate::mounted::{IndexNodes, MountedIndex};
use index_media::an_insertion_goes_by_the_keys_of_branches;
use index_tree::Leaf;
use std::alloc::Global;
use ubi_volume::{AreaFault, Volume};
use ubifs_base::Key;

impl MountedIndex {
    /// The leaf of this key behind `nth` others of the same key; none where there are too few. Nothing is loaded, and the volume is as
    /// it was.
    ///
    /// `Memory` and `Volume` are the faults.
    pub fn find<V: Volume>(
        &mut self,
        alloc: Global,
        volume: &mut V,
        key: &Key,
        nth: u32,
    ) -> Result<Option<Leaf>, AreaFault>
        requires shown { (row : KeyedRow) × Shows (V.state volume.old) self.old row }
        ensures found { (row : KeyedRow) → Shows (V.state volume.old) self.old row
            → IfOk result (λ found. found ≡ slice_get (of_rank (key_rank key.now) (contents (bare row))) nth) }
        ensures reads { IsReadOnlyCall (V.state volume.old) (V.state volume.new) result }
        ensures kept { KeepsShown (V.state volume.old) (V.state volume.new) self.old self.new }
        ensures nodes { self.new.nodes ≡ self.old.nodes }
    {
        an_insertion_goes_by_the_keys_of_branches();
        match &self.nodes {
            IndexNodes::OnMedium(root) => self.cache.find(alloc, volume, root, key, nth),
            IndexNodes::InMemory(index) => index.find(alloc, volume, &mut self.cache, key, nth),
        }
    }

    /// The first leaf of a greater key; none where there is none. Nothing is loaded, and the volume is as it was.
    ///
    /// `Memory` and `Volume` are the faults.
    pub fn after<V: Volume>(
        &mut self,
        alloc: Global,
        volume: &mut V,
        key: &Key,
    ) -> Result<Option<Leaf>, AreaFault>
        requires shown { (row : KeyedRow) × Shows (V.state volume.old) self.old row }
        ensures found { (row : KeyedRow) → Shows (V.state volume.old) self.old row
            → IfOk result (λ found. found ≡ first_after (key_rank key.now) (contents (bare row))) }
        ensures reads { IsReadOnlyCall (V.state volume.old) (V.state volume.new) result }
        ensures kept { KeepsShown (V.state volume.old) (V.state volume.new) self.old self.new }
        ensures nodes { self.new.nodes ≡ self.old.nodes }
    {
        an_insertion_goes_by_the_keys_of_branches();
        match &self.nodes {
            IndexNodes::OnMedium(root) => self.cache.after(alloc, volume, root, key),
            IndexNodes::InMemory(index) => index.after(alloc, volume, &mut self.cache, key),
        }
    }

    /// The greatest block leaf of this inode, the last one of equals; none where it has no block. Nothing is loaded, and the volume is
    /// as it was.
    ///
    /// `Memory` and `Volume` are the faults.
    pub fn last_of<V: Volume>(
        &mut self,
        alloc: Global,
        volume: &mut V,
        ino: u32,
    ) -> Result<Option<Leaf>, AreaFault>
        requires shown { (row : KeyedRow) × Shows (V.state volume.old) self.old row }
        ensures found { (row : KeyedRow) → Shows (V.state volume.old) self.old row → IfOk result (λ found. found ≡ last_block ino (contents (bare row))) }
        ensures reads { IsReadOnlyCall (V.state volume.old) (V.state volume.new) result }
        ensures kept { KeepsShown (V.state volume.old) (V.state volume.new) self.old self.new }
        ensures nodes { self.new.nodes ≡ self.old.nodes }
    {
        an_insertion_goes_by_the_keys_of_branches();
        match &self.nodes {
            IndexNodes::OnMedium(root) => self.cache.last_of(alloc, volume, root, ino),
            IndexNodes::InMemory(index) => index.last_of(alloc, volume, &mut self.cache, ino),
        }
    }

    /// Whether this leaf, with its key and its place, is there. Nothing is loaded, and the volume is as it was.
    ///
    /// `Memory` and `Volume` are the faults.
    pub fn holds<V: Volume>(
        &mut self,
        alloc: Global,
        volume: &mut V,
        leaf: &Leaf,
    ) -> Result<bool, AreaFault>
        requires shown { (row : KeyedRow) × Shows (V.state volume.old) self.old row }
        ensures found { (row : KeyedRow) → Shows (V.state volume.old) self.old row → IfOk result (λ found. found ≡ holds leaf.now (contents (bare row))) }
        ensures reads { IsReadOnlyCall (V.state volume.old) (V.state volume.new) result }
        ensures kept { KeepsShown (V.state volume.old) (V.state volume.new) self.old self.new }
        ensures nodes { self.new.nodes ≡ self.old.nodes }
    {
        an_insertion_goes_by_the_keys_of_branches();
        match &self.nodes {
            IndexNodes::OnMedium(root) => self.cache.holds(alloc, volume, root, leaf),
            IndexNodes::InMemory(index) => index.holds(alloc, volume, &mut self.cache, leaf),
        }
    }

    /// The leaves with keys from `from` to `to`, both included, in the order of the index. Nothing is loaded, and the volume is as it
    /// was.
    ///
    /// `Memory` and `Volume` are the faults.
    pub fn leaves_between<V: Volume>(
        &mut self,
        alloc: Global,
        volume: &mut V,
        from: &Key,
        to: &Key,
    ) -> Result<Vec<Leaf>, AreaFault>
        requires shown { (row : KeyedRow) × Shows (V.state volume.old) self.old row }
        ensures leaves { (row : KeyedRow) → Shows (V.state volume.old) self.old row
            → IfOk result (λ leaves. leaves.items ≡ within_range (key_rank from.now) (key_rank to.now) (contents (bare row))) }
        ensures reads { IsReadOnlyCall (V.state volume.old) (V.state volume.new) result }
        ensures kept { KeepsShown (V.state volume.old) (V.state volume.new) self.old self.new }
        ensures nodes { self.new.nodes ≡ self.old.nodes }
    {
        an_insertion_goes_by_the_keys_of_branches();
        match &self.nodes {
            IndexNodes::OnMedium(root) => {
                self.cache.leaves_between(alloc, volume, root, from, to)
            }
            IndexNodes::InMemory(index) => {
                index.leaves_between(alloc, volume, &mut self.cache, from, to)
            }
        }
    }

    /// The leaves that stand in this LEB, in the order of the index. It looks at all nodes, loads nothing, and the volume is as it was.
    ///
    /// `Memory` and `Volume` are the faults.
    pub fn leaves_in<V: Volume>(
        &mut self,
        alloc: Global,
        volume: &mut V,
        lnum: u32,
    ) -> Result<Vec<Leaf>, AreaFault>
        requires shown { (row : KeyedRow) × Shows (V.state volume.old) self.old row }
        ensures leaves { (row : KeyedRow) → Shows (V.state volume.old) self.old row
            → IfOk result (λ leaves. leaves.items ≡ filter (λ x. x.lnum == lnum) (contents (bare row))) }
        ensures reads { IsReadOnlyCall (V.state volume.old) (V.state volume.new) result }
        ensures kept { KeepsShown (V.state volume.old) (V.state volume.new) self.old self.new }
        ensures nodes { self.new.nodes ≡ self.old.nodes }
    {
        an_insertion_goes_by_the_keys_of_branches();
        match &self.nodes {
            IndexNodes::OnMedium(root) => self.cache.leaves_in(alloc, volume, root, lnum),
            IndexNodes::InMemory(index) => index.leaves_in(alloc, volume, &mut self.cache, lnum),
        }
    }
}
