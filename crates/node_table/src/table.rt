// The table.

ghost use Rattle.std.specs.Prelude.{◌≡◌, ◌≤◌, true, IfOk, OnOk, OnErr, Option, Some, [], ◌∷◌, ◌++◌, filter, ◌==◌, length, slice_get};
ghost use Rattle.index_tree.specs.LastBlock.{last_block};
ghost use Rattle.index_tree.specs.Order.{key_rank, of_rank, first_after};
ghost use Rattle.index_tree.specs.RangeRemoval.{within_range};
ghost use Rattle.index_tree.specs.Removal.{holds};
ghost use Rattle.index_media.specs.KeyedRow.{no_more, node_in};
ghost use Rattle.node_cache.specs.Kept.{AreKept};
ghost use Rattle.node_cache.specs.Loaded.{IsReadOnlyCall};
ghost use Rattle.table_nodes.specs.Clean.{is_clean_below, are_clean_below};
ghost use Rattle.node_table.specs.Bounds.{AreNoLonger, no_longer-prop};
ghost use Rattle.node_table.specs.Dirty.{dirty_lists};
ghost use Rattle.node_table.specs.Unloaded.{is_loaded_if_dirty, are_loaded_if_dirty, DoesRootStand};
ghost use Rattle.table_nodes.specs.NodeView.{node_views, node_view_of, stretch_at, tree_at, leaves_at, IsRootIn};
ghost use Rattle.table_nodes.specs.Sound.{IsSoundView, AreSoundViews, sound_views-prop};
ghost use Rattle.table_nodes.specs.declared.node.Root.{Root as ARoot};
ghost use Rattle.ubifs_base.specs.declared.key.Key.{Key as AKey};

use crate::bounds::push_both;
use index_tree::Leaf;
use node_cache::{NodeCache, rank};
use std::alloc::Global;
use table_nodes::{Root, TableNode};
use ubi_volume::{AreaFault, Volume};
use ubifs_base::{Key, Memory};

/// Nodes, named by the order in which they were added, from 0 on.
///
/// Contracts see the index below a root as `tree_at self.nodes.items root`, and its leaves as `leaves_at`.
#[derive(Drop)]
pub struct NodeTable {
    pub(crate) nodes: Vec<TableNode>,
    pub(crate) most_dirty: Vec<u64>,
    pub(crate) fanout: u32,
    ghost least: { 3 ≤ fanout },
    ghost most: { fanout ≤ 256 },
    ghost sound: { AreSoundViews fanout (node_views nodes.items) } by { sound_views-prop fanout (node_views nodes.items) },
    ghost clean: { are_clean_below (node_views nodes.items) ≡ true },
    ghost dirty: { are_loaded_if_dirty nodes.items ≡ true },
    ghost few: { AreNoLonger (dirty_lists nodes.items) most_dirty.items } by { no_longer-prop (dirty_lists nodes.items) most_dirty.items },
}

impl NodeTable {
    /// The table without nodes, for an index whose nodes have 1 to `fanout` children.
    pub fn new(alloc: Global, fanout: u32) -> NodeTable
        requires least { 3 ≤ fanout }
        requires most { fanout ≤ 256 }
        ensures empty { result.nodes.items ≡ [] }
        ensures fanout { result.fanout ≡ fanout }
    {
        NodeTable {
            nodes: Vec::new(alloc),
            most_dirty: Vec::new(alloc),
            fanout,
        }
    }

    /// Adds a node, and answers its number. Its links lead to leaves or to nodes of the table, or it isn't loaded: then it has a place, and
    /// shows what it tells. If the node is clean, all nodes below it are. Below each root stands what stood there.
    ///
    /// After `Memory` the table is as before.
    #[tactic(auto, using(crate::proofs::Adding::adding))]
    pub fn add(&mut self, node: TableNode) -> Result<u64, Memory>
        requires sound { IsSoundView self.old.fanout (node_view_of (node_views self.old.nodes.items) node) }
        requires clean { is_clean_below (node_view_of (node_views self.old.nodes.items) node) ≡ true }
        requires dirty { is_loaded_if_dirty node ≡ true }
        ensures made { IfOk result (λ number. (key : AKey) → tree_at self.new.nodes.items (Some (record { key = key; number = number })) ≡ node_in key (stretch_at node.place) (node_view_of (node_views self.old.nodes.items) node).children no_more) }
        ensures added { OnOk result (self.new.nodes.items ≡ self.old.nodes.items ++ node ∷ []) }
        ensures number { IfOk result (λ number. number ≡ length self.old.nodes.items) }
        ensures kept { (root : Option ARoot) → IsRootIn self.old.nodes.items root → tree_at self.new.nodes.items root ≡ tree_at self.old.nodes.items root }
        ensures fanout { self.new.fanout ≡ self.old.fanout }
        ensures err { OnErr result (self.new.nodes.items ≡ self.old.nodes.items) }
    {
        let most = self.most_dirty_with(&node)?;
        let number = self.nodes.len() as u64;
        push_both(&mut self.nodes, &mut self.most_dirty, node, most)?;
        Ok(number)
    }

    /// The leaf of this key behind `nth` others of the same key, below a root; none where there are too few.
    ///
    /// It goes down one path, and where leaves of the key stand in several nodes, on to the next of them. Below a node that isn't loaded
    /// it goes on on the volume, by the nodes that are kept of it. Nothing is added to the table, and the volume is as it was. It asks that
    /// what isn't loaded still stands where it was met (`stands`). `Memory` and `Volume` are the faults. All of this holds of each look-up
    /// that takes a cache.
    pub fn find<V: Volume>(
        &self,
        alloc: Global,
        volume: &mut V,
        cache: &mut NodeCache,
        root: Option<Root>,
        key: &Key,
        nth: u32,
    ) -> Result<Option<Leaf>, AreaFault>
        requires stands { DoesRootStand (V.state volume.old) self.now.nodes.items root }
        requires kept { AreKept (V.state volume.old).holds cache.old }
        ensures found { IfOk result (λ found. found ≡ slice_get (of_rank (key_rank key.now) (leaves_at self.now.nodes.items root)) nth) }
        ensures reads { IsReadOnlyCall (V.state volume.old) (V.state volume.new) result }
        ensures kept { AreKept (V.state volume.new).holds cache.new }
    {
        match root {
            None => Ok(None),
            Some(top) => self.nth_below(alloc, volume, cache, top.number, rank(key), nth),
        }
    }

    /// The first leaf of a greater key below a root; none where there is none.
    ///
    /// It goes down one path, and at most one more.
    pub fn after<V: Volume>(
        &self,
        alloc: Global,
        volume: &mut V,
        cache: &mut NodeCache,
        root: Option<Root>,
        key: &Key,
    ) -> Result<Option<Leaf>, AreaFault>
        requires stands { DoesRootStand (V.state volume.old) self.now.nodes.items root }
        requires kept { AreKept (V.state volume.old).holds cache.old }
        ensures found { IfOk result (λ found. found ≡ first_after (key_rank key.now) (leaves_at self.now.nodes.items root)) }
        ensures reads { IsReadOnlyCall (V.state volume.old) (V.state volume.new) result }
        ensures kept { AreKept (V.state volume.new).holds cache.new }
    {
        match root {
            None => Ok(None),
            Some(top) => self.after_below(alloc, volume, cache, top.number, rank(key)),
        }
    }

    /// The greatest block leaf of this inode below a root, the last one of equals; none where it has no block.
    ///
    /// It goes down one path, and at most one more.
    pub fn last_of<V: Volume>(
        &self,
        alloc: Global,
        volume: &mut V,
        cache: &mut NodeCache,
        root: Option<Root>,
        ino: u32,
    ) -> Result<Option<Leaf>, AreaFault>
        requires stands { DoesRootStand (V.state volume.old) self.now.nodes.items root }
        requires kept { AreKept (V.state volume.old).holds cache.old }
        ensures found { IfOk result (λ found. found ≡ last_block ino (leaves_at self.now.nodes.items root)) }
        ensures reads { IsReadOnlyCall (V.state volume.old) (V.state volume.new) result }
        ensures kept { AreKept (V.state volume.new).holds cache.new }
    {
        match root {
            None => Ok(None),
            Some(top) => self.last_block_below(alloc, volume, cache, top.number, ino),
        }
    }

    /// Whether this leaf, with its key and its place, stands below a root.
    ///
    /// It goes down one path, and where leaves of the key stand in several nodes, on to the next of them.
    pub fn holds<V: Volume>(
        &self,
        alloc: Global,
        volume: &mut V,
        cache: &mut NodeCache,
        root: Option<Root>,
        leaf: &Leaf,
    ) -> Result<bool, AreaFault>
        requires stands { DoesRootStand (V.state volume.old) self.now.nodes.items root }
        requires kept { AreKept (V.state volume.old).holds cache.old }
        ensures found { IfOk result (λ found. found ≡ holds leaf.now (leaves_at self.now.nodes.items root)) }
        ensures reads { IsReadOnlyCall (V.state volume.old) (V.state volume.new) result }
        ensures kept { AreKept (V.state volume.new).holds cache.new }
    {
        match root {
            None => Ok(false),
            Some(top) => self.holds_below(alloc, volume, cache, top.number, leaf),
        }
    }

    /// The leaves below a root that stand in this LEB, in the order of the index. It looks at all leaves.
    pub fn leaves_in<V: Volume>(
        &self,
        alloc: Global,
        volume: &mut V,
        cache: &mut NodeCache,
        root: Option<Root>,
        lnum: u32,
    ) -> Result<Vec<Leaf>, AreaFault>
        requires stands { DoesRootStand (V.state volume.old) self.now.nodes.items root }
        requires kept { AreKept (V.state volume.old).holds cache.old }
        ensures leaves { IfOk result (λ leaves. leaves.items ≡ filter (λ x. x.lnum == lnum) (leaves_at self.now.nodes.items root)) }
        ensures reads { IsReadOnlyCall (V.state volume.old) (V.state volume.new) result }
        ensures kept { AreKept (V.state volume.new).holds cache.new }
    {
        let mut leaves = Vec::new(alloc);
        match root {
            None => Ok(leaves),
            Some(top) => {
                self.push_below(alloc, volume, cache, top.number, lnum, &mut leaves)?;
                Ok(leaves)
            }
        }
    }

    /// The leaves below a root with keys from `from` to `to`, both included, in the order of the index.
    ///
    /// It goes down the paths to these leaves alone.
    pub fn leaves_between<V: Volume>(
        &self,
        alloc: Global,
        volume: &mut V,
        cache: &mut NodeCache,
        root: Option<Root>,
        from: &Key,
        to: &Key,
    ) -> Result<Vec<Leaf>, AreaFault>
        requires stands { DoesRootStand (V.state volume.old) self.now.nodes.items root }
        requires kept { AreKept (V.state volume.old).holds cache.old }
        ensures leaves { IfOk result (λ leaves. leaves.items ≡ within_range (key_rank from.now) (key_rank to.now) (leaves_at self.now.nodes.items root)) }
        ensures reads { IsReadOnlyCall (V.state volume.old) (V.state volume.new) result }
        ensures kept { AreKept (V.state volume.new).holds cache.new }
    {
        let mut leaves = Vec::new(alloc);
        match root {
            None => Ok(leaves),
            Some(top) => {
                self.push_range_below(
                    alloc,
                    volume,
                    cache,
                    top.number,
                    rank(from),
                    rank(to),
                    &mut leaves,
                )?;
                Ok(leaves)
            }
        }
    }
}
