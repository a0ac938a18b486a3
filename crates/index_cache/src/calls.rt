// Look-ups and changes.

ghost use Rattle.std.specs.Prelude.{◌≡◌, ◌≤◌, true, ◌==◌, ◌-◌, ◌^◌, min, IfOk, OnOk, OnErr, filter, length, slice_get};
ghost use Rattle.index_media.specs.Insertion.{with_leaf_by_keys};
ghost use Rattle.index_media.specs.KeyedRange.{without_range_by_keys};
ghost use Rattle.index_media.specs.KeyedRemoval.{replaced_by_keys};
ghost use Rattle.index_media.specs.KeyedRow.{no_more, bare};
ghost use Rattle.index_tree.specs.LastBlock.{last_block};
ghost use Rattle.index_tree.specs.Order.{key_rank, leaf_rank, of_rank, first_after, placed};
ghost use Rattle.index_tree.specs.RangeRemoval.{within_range, outside_range};
ghost use Rattle.index_tree.specs.Removal.{holds, without};
ghost use Rattle.index_tree.specs.Replacement.{swapped};
ghost use Rattle.index_tree.specs.Shape.{fits, node_count, shape_weight};
ghost use Rattle.node_cache.specs.Kept.{AreKept};
ghost use Rattle.node_cache.specs.Loaded.{IsReadOnlyCall};
ghost use Rattle.node_table.specs.Changing.{IsChange, AreChanges, changed_row, changed_by, leaves_after_change, leaves_after_all};
ghost use Rattle.node_table.specs.Exchange.{tree_without};
ghost use Rattle.table_nodes.specs.NodeView.{tree_at, leaves_at};
ghost use Rattle.node_table.specs.Staging.{IsSoundRoot};
ghost use Rattle.node_table.specs.Unloaded.{DoesRootStand};
ghost use Rattle.ubifs_base.specs.Key.{IsKey};
ghost use Rattle.index_cache.specs.Paged.{keyed_tree_of, leaves_of, frozen_of, fanout_of, DoesIndexStand, KeepsNodes};

use crate::paged::PagedIndex;
use index_media::a_range_removal_leaves_the_keys_of_branches;
use index_tree::Leaf;
use node_cache::NodeCache;
use node_table::{Change, NodeTable, TreeCounts, roots_stay};
use std::alloc::Global;
use table_nodes::Root;
use ubi_volume::{AreaFault, Volume};
use ubifs_base::Key;

/// Changes that are made and not yet seen: the root that they make.
#[derive(Clone, Copy, Debug, PartialEq, Eq)]
pub struct Staged {
    pub(crate) root: Option<Root>,
}

impl PagedIndex {
    /// The empty index, of nodes with 1 to `fanout` children.
    pub fn new(alloc: Global, fanout: u32) -> PagedIndex
        requires least { 3 ≤ fanout }
        requires most { fanout ≤ 256 }
        ensures tree { keyed_tree_of result ≡ no_more }
        ensures frozen { frozen_of result ≡ no_more }
        ensures fanout { fanout_of result ≡ fanout }
    {
        PagedIndex {
            table: NodeTable::new(alloc, fanout),
            root: None,
            frozen: None,
        }
    }

    /// The leaf of this key behind `nth` others of the same key; none where there are too few.
    ///
    /// It goes down loaded nodes in memory, and below a node that isn't loaded on the volume, by the nodes that are kept of it. Nothing is
    /// loaded, and the volume is as it was. It asks that what isn't loaded still stands where it was met (`stands`). `Memory` and `Volume`
    /// are the faults. All of this holds of each look-up that takes a cache.
    pub fn find<V: Volume>(
        &self,
        alloc: Global,
        volume: &mut V,
        cache: &mut NodeCache,
        key: &Key,
        nth: u32,
    ) -> Result<Option<Leaf>, AreaFault>
        requires stands { DoesIndexStand (V.state volume.old) self.now }
        requires kept { AreKept (V.state volume.old).holds cache.old }
        ensures found { IfOk result (λ found. found ≡ slice_get (of_rank (key_rank key.now) (leaves_of self.now)) nth) }
        ensures reads { IsReadOnlyCall (V.state volume.old) (V.state volume.new) result }
        ensures kept { AreKept (V.state volume.new).holds cache.new }
    {
        self.table.find(alloc, volume, cache, self.root, key, nth)
    }

    /// The first leaf of a greater key; none where there is none.
    pub fn after<V: Volume>(
        &self,
        alloc: Global,
        volume: &mut V,
        cache: &mut NodeCache,
        key: &Key,
    ) -> Result<Option<Leaf>, AreaFault>
        requires stands { DoesIndexStand (V.state volume.old) self.now }
        requires kept { AreKept (V.state volume.old).holds cache.old }
        ensures found { IfOk result (λ found. found ≡ first_after (key_rank key.now) (leaves_of self.now)) }
        ensures reads { IsReadOnlyCall (V.state volume.old) (V.state volume.new) result }
        ensures kept { AreKept (V.state volume.new).holds cache.new }
    {
        self.table.after(alloc, volume, cache, self.root, key)
    }

    /// The greatest block leaf of this inode, the last one of equals; none where it has no block.
    pub fn last_of<V: Volume>(
        &self,
        alloc: Global,
        volume: &mut V,
        cache: &mut NodeCache,
        ino: u32,
    ) -> Result<Option<Leaf>, AreaFault>
        requires stands { DoesIndexStand (V.state volume.old) self.now }
        requires kept { AreKept (V.state volume.old).holds cache.old }
        ensures found { IfOk result (λ found. found ≡ last_block ino (leaves_of self.now)) }
        ensures reads { IsReadOnlyCall (V.state volume.old) (V.state volume.new) result }
        ensures kept { AreKept (V.state volume.new).holds cache.new }
    {
        self.table.last_of(alloc, volume, cache, self.root, ino)
    }

    /// Whether this leaf, with its key and its place, is there.
    pub fn holds<V: Volume>(
        &self,
        alloc: Global,
        volume: &mut V,
        cache: &mut NodeCache,
        leaf: &Leaf,
    ) -> Result<bool, AreaFault>
        requires stands { DoesIndexStand (V.state volume.old) self.now }
        requires kept { AreKept (V.state volume.old).holds cache.old }
        ensures found { IfOk result (λ found. found ≡ holds leaf.now (leaves_of self.now)) }
        ensures reads { IsReadOnlyCall (V.state volume.old) (V.state volume.new) result }
        ensures kept { AreKept (V.state volume.new).holds cache.new }
    {
        self.table.holds(alloc, volume, cache, self.root, leaf)
    }

    /// The leaves that stand in this LEB, in the order of the index. It looks at all leaves.
    pub fn leaves_in<V: Volume>(
        &self,
        alloc: Global,
        volume: &mut V,
        cache: &mut NodeCache,
        lnum: u32,
    ) -> Result<Vec<Leaf>, AreaFault>
        requires stands { DoesIndexStand (V.state volume.old) self.now }
        requires kept { AreKept (V.state volume.old).holds cache.old }
        ensures leaves { IfOk result (λ leaves. leaves.items ≡ filter (λ x. x.lnum == lnum) (leaves_of self.now)) }
        ensures reads { IsReadOnlyCall (V.state volume.old) (V.state volume.new) result }
        ensures kept { AreKept (V.state volume.new).holds cache.new }
    {
        self.table.leaves_in(alloc, volume, cache, self.root, lnum)
    }

    /// The leaves with keys from `from` to `to`, both included, in the order of the index.
    pub fn leaves_between<V: Volume>(
        &self,
        alloc: Global,
        volume: &mut V,
        cache: &mut NodeCache,
        from: &Key,
        to: &Key,
    ) -> Result<Vec<Leaf>, AreaFault>
        requires stands { DoesIndexStand (V.state volume.old) self.now }
        requires kept { AreKept (V.state volume.old).holds cache.old }
        ensures leaves { IfOk result (λ leaves. leaves.items ≡ within_range (key_rank from.now) (key_rank to.now) (leaves_of self.now)) }
        ensures reads { IsReadOnlyCall (V.state volume.old) (V.state volume.new) result }
        ensures kept { AreKept (V.state volume.new).holds cache.new }
    {
        self.table
            .leaves_between(alloc, volume, cache, self.root, from, to)
    }

    /// The index that is seen and the frozen one are indexes: their nodes have 1 to `fanout` children, and their keys are keys and lie
    /// between those of branches.
    pub fn trees_are_sound(&self)
        ensures seen { IsSoundRoot self.now.table.nodes.items self.now.root }
        ensures frozen { IsSoundRoot self.now.table.nodes.items self.now.frozen }
        ensures fits { fits (fanout_of self.now) (bare (keyed_tree_of self.now)) ≡ true }
        ensures least { 3 ≤ fanout_of self.now }
    {
        self.table.trees_fit();
    }

    /// The number of nodes, and the weight: that number plus the number of full ones. It looks at all nodes, and reads those that aren't
    /// loaded. The volume is as it was.
    ///
    /// `Memory` and `Volume` are the faults. Numbers past 64 bits are answered as want of memory.
    pub fn size<V: Volume>(&self, alloc: Global, volume: &mut V) -> Result<TreeCounts, AreaFault>
        requires stands { DoesIndexStand (V.state volume.old) self.now }
        ensures nodes { IfOk result (λ size. size.nodes ≡ node_count (bare (keyed_tree_of self.now))) }
        ensures weight { IfOk result (λ size. size.weight ≡ shape_weight (fanout_of self.now) (bare (keyed_tree_of self.now))) }
        ensures reads { IsReadOnlyCall (V.state volume.old) (V.state volume.new) result }
    {
        self.table.size(alloc, volume, self.root)
    }

    /// Puts the leaf after all leaves whose key isn't greater. Nodes on its way are dirty, and all others keep their places. One that isn't loaded
    /// is read, unless it is kept. The volume is as it was.
    ///
    /// `Memory` and `Volume` are the faults, and the index is as before then. All of this holds of each change.
    pub fn insert<V: Volume>(
        &mut self,
        alloc: Global,
        volume: &mut V,
        cache: &mut NodeCache,
        leaf: Leaf,
    ) -> Result<(), AreaFault>
        requires key { IsKey leaf.key }
        requires stands { DoesIndexStand (V.state volume.old) self.old }
        requires kept { AreKept (V.state volume.old).holds cache.old }
        ensures tree { OnOk result (keyed_tree_of self.new ≡ with_leaf_by_keys (fanout_of self.old) leaf (keyed_tree_of self.old)) }
        ensures leaves { OnOk result (leaves_of self.new ≡ placed leaf (leaves_of self.old)) }
        ensures err { OnErr result (keyed_tree_of self.new ≡ keyed_tree_of self.old) }
        ensures keeps { KeepsNodes self.old self.new }
        ensures stands { DoesIndexStand (V.state volume.new) self.new }
        ensures reads { IsReadOnlyCall (V.state volume.old) (V.state volume.new) result }
        ensures kept { AreKept (V.state volume.new).holds cache.new }
    {
        self.make(alloc, volume, cache, Change::Insert(leaf))
    }

    /// Takes the leaf out, with the nodes that this empties; false exactly where it isn't there. Nodes on its way are dirty,
    /// and all others keep their places. The leaf is looked up first.
    pub fn remove<V: Volume>(
        &mut self,
        alloc: Global,
        volume: &mut V,
        cache: &mut NodeCache,
        leaf: &Leaf,
    ) -> Result<bool, AreaFault>
        requires stands { DoesIndexStand (V.state volume.old) self.old }
        requires kept { AreKept (V.state volume.old).holds cache.old }
        ensures found { IfOk result (λ found. found ≡ holds leaf.now (leaves_of self.old)) }
        ensures tree { OnOk result (keyed_tree_of self.new ≡ tree_without leaf.now (keyed_tree_of self.old)) }
        ensures leaves { OnOk result (leaves_of self.new ≡ without leaf.now (leaves_of self.old)) }
        ensures err { OnErr result (keyed_tree_of self.new ≡ keyed_tree_of self.old) }
        ensures keeps { KeepsNodes self.old self.new }
        ensures stands { DoesIndexStand (V.state volume.new) self.new }
        ensures reads { IsReadOnlyCall (V.state volume.old) (V.state volume.new) result }
        ensures kept { AreKept (V.state volume.new).holds cache.new }
    {
        let found = self.holds(alloc, volume, cache, leaf)?;
        self.make(alloc, volume, cache, Change::Remove(*leaf))?;
        Ok(found)
    }

    /// Puts a leaf at the place of another of its key; false exactly where that one isn't there. Nodes on its way are dirty,
    /// and all others keep their places. The other one is looked up first.
    pub fn replace<V: Volume>(
        &mut self,
        alloc: Global,
        volume: &mut V,
        cache: &mut NodeCache,
        old: &Leaf,
        new: Leaf,
    ) -> Result<bool, AreaFault>
        requires key { (leaf_rank new ≡ leaf_rank old.now) × IsKey new.key }
        requires stands { DoesIndexStand (V.state volume.old) self.old }
        requires kept { AreKept (V.state volume.old).holds cache.old }
        ensures found { IfOk result (λ found. found ≡ holds old.now (leaves_of self.old)) }
        ensures tree { OnOk result (keyed_tree_of self.new ≡ replaced_by_keys old.now new (keyed_tree_of self.old)) }
        ensures leaves { OnOk result (leaves_of self.new ≡ swapped old.now new (leaves_of self.old)) }
        ensures err { OnErr result (keyed_tree_of self.new ≡ keyed_tree_of self.old) }
        ensures keeps { KeepsNodes self.old self.new }
        ensures stands { DoesIndexStand (V.state volume.new) self.new }
        ensures reads { IsReadOnlyCall (V.state volume.old) (V.state volume.new) result }
        ensures kept { AreKept (V.state volume.new).holds cache.new }
    {
        let found = self.holds(alloc, volume, cache, old)?;
        let change = Change::Replace {
            gone: *old,
            come: new,
        };
        self.make(alloc, volume, cache, change)?;
        Ok(found)
    }

    /// Takes out the leaves with keys from `from` to `to`, both included, with the nodes that this empties, and answers how
    /// many leaves went: `u64::MAX` stands for more as well. Nodes on the ways to them are dirty, and all others keep their
    /// places. A root with one child gives way to it, even if no leaf went. The nodes of the whole range are read, to count. What was
    /// opened below those that go isn't kept. After a fault the table of nodes is as before too.
    pub fn remove_range<V: Volume>(
        &mut self,
        alloc: Global,
        volume: &mut V,
        cache: &mut NodeCache,
        from: &Key,
        to: &Key,
    ) -> Result<u64, AreaFault>
        requires stands { DoesIndexStand (V.state volume.old) self.old }
        requires kept { AreKept (V.state volume.old).holds cache.old }
        ensures number { IfOk result (λ number. number ≡ min (length (within_range (key_rank from.now) (key_rank to.now) (leaves_of self.old))) (2 ^ 64 - 1)) }
        ensures tree { OnOk result (keyed_tree_of self.new ≡ without_range_by_keys (key_rank from.now) (key_rank to.now) (keyed_tree_of self.old)) }
        ensures leaves { OnOk result (leaves_of self.new ≡ outside_range (key_rank from.now) (key_rank to.now) (leaves_of self.old)) }
        ensures err { OnErr result (keyed_tree_of self.new ≡ keyed_tree_of self.old) }
        ensures nodes { OnErr result (self.new.table.nodes.items ≡ self.old.table.nodes.items) }
        ensures keeps { KeepsNodes self.old self.new }
        ensures stands { DoesIndexStand (V.state volume.new) self.new }
        ensures reads { IsReadOnlyCall (V.state volume.old) (V.state volume.new) result }
        ensures kept { AreKept (V.state volume.new).holds cache.new }
    {
        roots_stay();
        a_range_removal_leaves_the_keys_of_branches();
        let left = self
            .table
            .remove_range(alloc, volume, cache, self.root, from, to)?;
        self.root = left.root;
        Ok(left.number)
    }

    /// Makes changes beside the index, each over what the ones before it make. The index is as before until they are adopted. What isn't loaded
    /// below the root that they make stands too, so they may be adopted later.
    ///
    /// After a fault the table of nodes is as before too.
    pub fn stage<V: Volume>(
        &mut self,
        alloc: Global,
        volume: &mut V,
        cache: &mut NodeCache,
        changes: &[Change],
    ) -> Result<Staged, AreaFault>
        requires changes { AreChanges changes.now }
        requires stands { DoesIndexStand (V.state volume.old) self.old }
        requires kept { AreKept (V.state volume.old).holds cache.old }
        ensures made { IfOk result (λ staged. tree_at self.new.table.nodes.items staged.root ≡ changed_by (fanout_of self.old) changes.now (keyed_tree_of self.old)) }
        ensures leaves { IfOk result (λ staged. leaves_at self.new.table.nodes.items staged.root ≡ leaves_after_all changes.now (leaves_of self.old)) }
        ensures root { IfOk result (λ staged. IsSoundRoot self.new.table.nodes.items staged.root) }
        ensures staged { IfOk result (λ staged. DoesRootStand (V.state volume.new) self.new.table.nodes.items staged.root) }
        ensures tree { keyed_tree_of self.new ≡ keyed_tree_of self.old }
        ensures seen { self.new.root ≡ self.old.root }
        ensures keeps { KeepsNodes self.old self.new }
        ensures err { OnErr result (self.new.table.nodes.items ≡ self.old.table.nodes.items) }
        ensures stands { DoesIndexStand (V.state volume.new) self.new }
        ensures reads { IsReadOnlyCall (V.state volume.old) (V.state volume.new) result }
        ensures kept { AreKept (V.state volume.new).holds cache.new }
    {
        roots_stay();
        let root = self.table.stage(alloc, volume, cache, self.root, changes)?;
        Ok(Staged { root })
    }

    // Makes one change.
    fn make<V: Volume>(
        &mut self,
        alloc: Global,
        volume: &mut V,
        cache: &mut NodeCache,
        change: Change,
    ) -> Result<(), AreaFault>
        requires change { IsChange change }
        requires stands { DoesIndexStand (V.state volume.old) self.old }
        requires kept { AreKept (V.state volume.old).holds cache.old }
        ensures tree { OnOk result (keyed_tree_of self.new ≡ changed_row (fanout_of self.old) change (keyed_tree_of self.old)) }
        ensures leaves { OnOk result (leaves_of self.new ≡ leaves_after_change change (leaves_of self.old)) }
        ensures err { OnErr result (keyed_tree_of self.new ≡ keyed_tree_of self.old) }
        ensures keeps { KeepsNodes self.old self.new }
        ensures stands { DoesIndexStand (V.state volume.new) self.new }
        ensures reads { IsReadOnlyCall (V.state volume.old) (V.state volume.new) result }
        ensures kept { AreKept (V.state volume.new).holds cache.new }
    {
        let changes: &[Change] = &[change];
        let staged = self.stage(alloc, volume, cache, changes)?;
        self.adopt(staged);
        Ok(())
    }

    /// Shows changes that were staged. It takes no memory, and can't fail.
    pub fn adopt(&mut self, staged: Staged)
        requires root { IsSoundRoot self.old.table.nodes.items staged.root }
        ensures tree { keyed_tree_of self.new ≡ tree_at self.old.table.nodes.items staged.root }
        ensures nodes { self.new.table.nodes.items ≡ self.old.table.nodes.items }
        ensures fanout { fanout_of self.new ≡ fanout_of self.old }
        ensures root { self.new.root ≡ staged.root }
        ensures frozen { self.new.frozen ≡ self.old.frozen }
        ensures keeps { KeepsNodes self.old self.new }
    {
        self.root = staged.root;
    }
}
