// A removal of a range of keys answers another root, and the old one goes on showing the old index.

ghost use Rattle.std.specs.Prelude.{◌≡◌, ◌-◌, ◌^◌, min, IfOk, OnErr, length};
ghost use Rattle.index_tree.specs.Order.{key_rank};
ghost use Rattle.index_tree.specs.RangeRemoval.{within_range};
ghost use Rattle.index_media.specs.KeyedRange.{without_range_by_keys};
ghost use Rattle.node_cache.specs.Kept.{AreKept};
ghost use Rattle.node_cache.specs.Loaded.{IsReadOnlyCall};
ghost use Rattle.node_table.specs.Unloaded.{DoesRootStand};
ghost use Rattle.table_nodes.specs.NodeView.{tree_at, leaves_at};
ghost use Rattle.table_nodes.specs.Links.{AreNodesAdded};
ghost use Rattle.node_table.specs.Staging.{IsSoundRoot};

use crate::rooting::only_node;
use crate::table::NodeTable;
use index_media::{
    a_range_removal_keeps_what_nodes_are, a_range_removal_leaves_the_keys_of_branches,
};
use node_cache::{NodeCache, rank};
use std::alloc::Global;
use table_nodes::Root;
use ubi_volume::{AreaFault, Volume};
use ubifs_base::Key;

/// What a removal of a range makes: the root of what is left, and how many leaves went (`u64::MAX` stands for more as well).
#[derive(Clone, Copy, Debug, PartialEq, Eq)]
pub struct RangeRemoved {
    pub root: Option<Root>,
    pub number: u64,
}

impl NodeTable {
    /// Stages a removal of a range: takes out the leaves with keys from `from` to `to`, both included, with the nodes that this
    /// empties. All nodes stay where they stood, and below each root stands what stood there. After a fault the table is as before.
    pub fn remove_range<V: Volume>(
        &mut self,
        alloc: Global,
        volume: &mut V,
        cache: &mut NodeCache,
        root: Option<Root>,
        from: &Key,
        to: &Key,
    ) -> Result<RangeRemoved, AreaFault>
        requires root { IsSoundRoot self.old.nodes.items root }
        requires stands { DoesRootStand (V.state volume.old) self.old.nodes.items root }
        requires kept { AreKept (V.state volume.old).holds cache.old }
        ensures made { IfOk result (λ made. tree_at self.new.nodes.items made.root ≡ without_range_by_keys (key_rank from.now) (key_rank to.now) (tree_at self.old.nodes.items root)) }
        ensures number { IfOk result (λ made. made.number ≡ min (length (within_range (key_rank from.now) (key_rank to.now) (leaves_at self.old.nodes.items root))) (2 ^ 64 - 1)) }
        ensures root { IfOk result (λ made. IsSoundRoot self.new.nodes.items made.root) }
        ensures added { AreNodesAdded self.old.nodes.items self.new.nodes.items }
        ensures err { OnErr result (self.new.nodes.items ≡ self.old.nodes.items) }
        ensures stands { IfOk result (λ made. DoesRootStand (V.state volume.new) self.new.nodes.items made.root) }
        ensures fanout { self.new.fanout ≡ self.old.fanout }
        ensures reads { IsReadOnlyCall (V.state volume.old) (V.state volume.new) result }
        ensures kept { AreKept (V.state volume.new).holds cache.new }
    {
        let number = self.nodes.len();
        match self.prune_root(alloc, volume, cache, root, from, to) {
            Ok(left) => Ok(left),
            Err(fault) => {
                self.take_back(number);
                Err(fault)
            }
        }
    }

    /// The same; after a fault some nodes may have been added.
    fn prune_root<V: Volume>(
        &mut self,
        alloc: Global,
        volume: &mut V,
        cache: &mut NodeCache,
        root: Option<Root>,
        from: &Key,
        to: &Key,
    ) -> Result<RangeRemoved, AreaFault>
        requires root { IsSoundRoot self.old.nodes.items root }
        requires stands { DoesRootStand (V.state volume.old) self.old.nodes.items root }
        requires kept { AreKept (V.state volume.old).holds cache.old }
        ensures made { IfOk result (λ made. tree_at self.new.nodes.items made.root ≡ without_range_by_keys (key_rank from.now) (key_rank to.now) (tree_at self.old.nodes.items root)) }
        ensures number { IfOk result (λ made. made.number ≡ min (length (within_range (key_rank from.now) (key_rank to.now) (leaves_at self.old.nodes.items root))) (2 ^ 64 - 1)) }
        ensures root { IfOk result (λ made. IsSoundRoot self.new.nodes.items made.root) }
        ensures added { AreNodesAdded self.old.nodes.items self.new.nodes.items }
        ensures stands { IfOk result (λ made. DoesRootStand (V.state volume.new) self.new.nodes.items made.root) }
        ensures fanout { self.new.fanout ≡ self.old.fanout }
        ensures reads { IsReadOnlyCall (V.state volume.old) (V.state volume.new) result }
        ensures kept { AreKept (V.state volume.new).holds cache.new }
    {
        a_range_removal_keeps_what_nodes_are();
        a_range_removal_leaves_the_keys_of_branches();
        let low = rank(from);
        let high = rank(to);
        match root {
            None => Ok(RangeRemoved {
                root: None,
                number: 0,
            }),
            Some(top) => {
                let mut made = Vec::new(alloc);
                let number = self.prune_below(alloc, volume, cache, top, low, high, &mut made)?;
                match only_node(made.as_slice()) {
                    None => Ok(RangeRemoved { root: None, number }),
                    Some(left) => {
                        let sunk = self.sink_root(alloc, volume, cache, left)?;
                        Ok(RangeRemoved {
                            root: Some(sunk),
                            number,
                        })
                    }
                }
            }
        }
    }
}
