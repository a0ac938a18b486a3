// A removal and a replacement answer another root, and the old one goes on showing the old index.

ghost use Rattle.std.specs.Prelude.{◌≡◌, ◌<◌, false, IfOk, Some, length};
ghost use Rattle.index_tree.specs.Order.{leaf_rank};
ghost use Rattle.index_tree.specs.Removal.{holds};
ghost use Rattle.index_media.specs.KeyedRemoval.{keyed_collapsed, replaced_by_keys};
ghost use Rattle.node_table.specs.Exchange.{tree_without};
ghost use Rattle.node_cache.specs.Kept.{AreKept};
ghost use Rattle.node_cache.specs.Loaded.{IsReadOnlyCall};
ghost use Rattle.node_table.specs.Unloaded.{DoesRootStand};
ghost use Rattle.table_nodes.specs.NodeView.{tree_at, leaves_at};
ghost use Rattle.table_nodes.specs.Links.{AreNodesAdded};
ghost use Rattle.node_table.specs.Staging.{IsSoundRoot};
ghost use Rattle.ubifs_base.specs.Key.{IsKey};

use crate::rooting::only_node;
use crate::table::NodeTable;
use index_media::{
    a_removal_keeps_what_nodes_are, a_removal_leaves_the_keys_of_branches,
    a_replacement_keeps_what_nodes_are, a_replacement_leaves_the_keys_of_branches,
};
use index_tree::Leaf;
use node_cache::NodeCache;
use std::alloc::Global;
use table_nodes::Root;
use ubi_volume::{AreaFault, Volume};

impl NodeTable {
    /// The root that is left of one: while a root leads to one node alone, that node takes its place. A root that isn't loaded is read for that.
    pub(crate) fn sink_root<V: Volume>(
        &mut self,
        alloc: Global,
        volume: &mut V,
        cache: &mut NodeCache,
        root: Root,
    ) -> Result<Root, AreaFault>
        requires there { root.number < length self.old.nodes.items }
        requires stands { DoesRootStand (V.state volume.old) self.old.nodes.items (Some root) }
        requires kept { AreKept (V.state volume.old).holds cache.old }
        ensures made { IfOk result (λ sunk. tree_at self.new.nodes.items (Some sunk) ≡ keyed_collapsed (tree_at self.old.nodes.items (Some root))) }
        ensures there { IfOk result (λ sunk. sunk.number < length self.new.nodes.items) }
        ensures stands { IfOk result (λ sunk. DoesRootStand (V.state volume.new) self.new.nodes.items (Some sunk)) }
        ensures added { AreNodesAdded self.old.nodes.items self.new.nodes.items }
        ensures fanout { self.new.fanout ≡ self.old.fanout }
        ensures reads { IsReadOnlyCall (V.state volume.old) (V.state volume.new) result }
        ensures kept { AreKept (V.state volume.new).holds cache.new }
    {
        let number = self.nodes.len();
        let links = self.opened_links(alloc, volume, cache, root.number)?;
        match only_node(links.as_slice()) {
            None => {
                self.take_back(number);
                Ok(root)
            }
            Some(child) => self.sink_root(alloc, volume, cache, child),
        }
    }

    /// Stages a removal: takes the leaf out, with the nodes that this empties, and answers the new root. Where the leaf isn't there, it is the
    /// old one, and the table is as before. All nodes stay where they stood, and below each root stands what stood there, after a fault too.
    pub fn remove<V: Volume>(
        &mut self,
        alloc: Global,
        volume: &mut V,
        cache: &mut NodeCache,
        root: Option<Root>,
        leaf: &Leaf,
    ) -> Result<Option<Root>, AreaFault>
        requires root { IsSoundRoot self.old.nodes.items root }
        requires stands { DoesRootStand (V.state volume.old) self.old.nodes.items root }
        requires kept { AreKept (V.state volume.old).holds cache.old }
        ensures made { IfOk result (λ made. tree_at self.new.nodes.items made ≡ tree_without leaf.now (tree_at self.old.nodes.items root)) }
        ensures root { IfOk result (λ made. IsSoundRoot self.new.nodes.items made) }
        ensures stands { IfOk result (λ made. DoesRootStand (V.state volume.new) self.new.nodes.items made) }
        ensures added { AreNodesAdded self.old.nodes.items self.new.nodes.items }
        ensures same { IfOk result (λ made. holds leaf.now (leaves_at self.old.nodes.items root) ≡ false → (made ≡ root) × (self.new.nodes.items ≡ self.old.nodes.items)) }
        ensures fanout { self.new.fanout ≡ self.old.fanout }
        ensures reads { IsReadOnlyCall (V.state volume.old) (V.state volume.new) result }
        ensures kept { AreKept (V.state volume.new).holds cache.new }
    {
        a_removal_keeps_what_nodes_are();
        a_removal_leaves_the_keys_of_branches();
        match root {
            None => Ok(None),
            Some(top) => {
                let mut made = Vec::new(alloc);
                if !self.exchange_below(alloc, volume, cache, top, leaf, None, &mut made)? {
                    return Ok(root);
                }
                match only_node(made.as_slice()) {
                    None => Ok(None),
                    Some(left) => {
                        let sunk = self.sink_root(alloc, volume, cache, left)?;
                        Ok(Some(sunk))
                    }
                }
            }
        }
    }

    /// Stages a replacement: puts a leaf at the place of another of its key, and answers the new root. Where that leaf isn't there, it is the
    /// old one, and the table is as before. All nodes stay where they stood, and below each root stands what stood there, after a fault too.
    pub fn replace<V: Volume>(
        &mut self,
        alloc: Global,
        volume: &mut V,
        cache: &mut NodeCache,
        root: Option<Root>,
        leaf: &Leaf,
        new: Leaf,
    ) -> Result<Option<Root>, AreaFault>
        requires root { IsSoundRoot self.old.nodes.items root }
        requires key { (leaf_rank new ≡ leaf_rank leaf.now) × IsKey new.key }
        requires stands { DoesRootStand (V.state volume.old) self.old.nodes.items root }
        requires kept { AreKept (V.state volume.old).holds cache.old }
        ensures made { IfOk result (λ made. tree_at self.new.nodes.items made ≡ replaced_by_keys leaf.now new (tree_at self.old.nodes.items root)) }
        ensures root { IfOk result (λ made. IsSoundRoot self.new.nodes.items made) }
        ensures stands { IfOk result (λ made. DoesRootStand (V.state volume.new) self.new.nodes.items made) }
        ensures added { AreNodesAdded self.old.nodes.items self.new.nodes.items }
        ensures same { IfOk result (λ made. holds leaf.now (leaves_at self.old.nodes.items root) ≡ false → (made ≡ root) × (self.new.nodes.items ≡ self.old.nodes.items)) }
        ensures fanout { self.new.fanout ≡ self.old.fanout }
        ensures reads { IsReadOnlyCall (V.state volume.old) (V.state volume.new) result }
        ensures kept { AreKept (V.state volume.new).holds cache.new }
    {
        a_replacement_keeps_what_nodes_are();
        a_replacement_leaves_the_keys_of_branches();
        match root {
            None => Ok(None),
            Some(top) => {
                let mut made = Vec::new(alloc);
                if !self.exchange_below(alloc, volume, cache, top, leaf, Some(new), &mut made)? {
                    return Ok(root);
                }
                Ok(only_node(made.as_slice()))
            }
        }
    }
}
