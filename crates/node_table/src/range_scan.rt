// The leaves of a range of keys.

ghost use Rattle.std.specs.Prelude.{◌≡◌, ◌++◌, OnOk, None, slice_get};
ghost use Rattle.index_tree.specs.RangeRemoval.{within_range};
ghost use Rattle.index_tree.specs.Shape.{contents};
ghost use Rattle.index_media.specs.KeyedKeys.{AreKeysBounded};
ghost use Rattle.index_media.specs.KeyedRow.{bare};
ghost use Rattle.node_cache.specs.Kept.{AreKept};
ghost use Rattle.node_cache.specs.Loaded.{IsReadOnlyCall};
ghost use Rattle.table_nodes.specs.NodeView.{node_views, row_of, children_in};
ghost use Rattle.node_table.specs.Unloaded.{DoesLinkStand, DoesNodeStand, DoLinksStand};
ghost use Rattle.node_table.specs.Walk.{inside};

use crate::pruning::is_in_range;
use crate::table::NodeTable;
use index_tree::Leaf;
use node_cache::NodeCache;
use std::alloc::Global;
use table_nodes::{Link, begin_below, begin_within, lower_links_passed};
use ubi_volume::{AreaFault, Volume};

impl NodeTable {
    /// Pushes the leaves of these ranks below a node, both ends included.
    #[cycle(ranging)]
    pub(crate) fn push_range_below<V: Volume>(
        &self,
        alloc: Global,
        volume: &mut V,
        cache: &mut NodeCache,
        number: u64,
        from: u128,
        to: u128,
        leaves: &mut Vec<Leaf>,
    ) -> Result<(), AreaFault>
        requires stands { DoesNodeStand (V.state volume.old) self.now.nodes.items number }
        requires kept { AreKept (V.state volume.old).holds cache.old }
        ensures pushed { OnOk result (leaves.new.items ≡ leaves.old.items ++ within_range from to (contents (bare (children_in (slice_get (node_views self.now.nodes.items) number))))) }
        ensures reads { IsReadOnlyCall (V.state volume.old) (V.state volume.new) result }
        ensures kept { AreKept (V.state volume.new).holds cache.new }
    {
        if let Some(found) = self.unloaded(number) {
            return cache.push_range_below(
                alloc,
                volume,
                &found.branch,
                found.level,
                from,
                to,
                leaves,
            );
        }
        match self.loaded_links(number) {
            None => Ok(()),
            Some(links) => {
                let (_, rest) = links.split_at(lower_links_passed(links, from));
                self.push_range_among(alloc, volume, cache, rest, from, to, leaves)
            }
        }
    }

    /// The same of these links.
    #[cycle(ranging)]
    fn push_range_among<V: Volume>(
        &self,
        alloc: Global,
        volume: &mut V,
        cache: &mut NodeCache,
        links: &[Link],
        from: u128,
        to: u128,
        leaves: &mut Vec<Leaf>,
    ) -> Result<(), AreaFault>
        requires bounded { AreKeysBounded 0 None (row_of (node_views self.now.nodes.items) links.now) }
        requires stands { DoLinksStand (V.state volume.old) self.now.nodes.items links.now }
        requires kept { AreKept (V.state volume.old).holds cache.old }
        ensures pushed { OnOk result (leaves.new.items ≡ leaves.old.items ++ within_range from to (contents (bare (row_of (node_views self.now.nodes.items) links.now)))) }
        ensures reads { IsReadOnlyCall (V.state volume.old) (V.state volume.new) result }
        ensures kept { AreKept (V.state volume.new).holds cache.new }
    {
        match links.split_first() {
            None => Ok(()),
            Some((link, rest)) => {
                if begin_below(rest, from) {
                    return self.push_range_among(alloc, volume, cache, rest, from, to, leaves);
                }
                self.push_range_link(alloc, volume, cache, link, from, to, leaves)?;
                if begin_within(rest, to) {
                    return self.push_range_among(alloc, volume, cache, rest, from, to, leaves);
                }
                Ok(())
            }
        }
    }

    /// The same of one link.
    #[cycle(ranging)]
    fn push_range_link<V: Volume>(
        &self,
        alloc: Global,
        volume: &mut V,
        cache: &mut NodeCache,
        link: &Link,
        from: u128,
        to: u128,
        leaves: &mut Vec<Leaf>,
    ) -> Result<(), AreaFault>
        requires stands { DoesLinkStand (V.state volume.old) self.now.nodes.items link.now }
        requires kept { AreKept (V.state volume.old).holds cache.old }
        ensures pushed { OnOk result (leaves.new.items ≡ leaves.old.items ++ within_range from to (contents (bare (inside (node_views self.now.nodes.items) link.now)))) }
        ensures reads { IsReadOnlyCall (V.state volume.old) (V.state volume.new) result }
        ensures kept { AreKept (V.state volume.new).holds cache.new }
    {
        match *link {
            Link::ToLeaf(leaf) => {
                if is_in_range(&leaf, from, to) {
                    leaves.push(leaf)?;
                }
                Ok(())
            }
            Link::ToNode { number, .. } => {
                self.push_range_below(alloc, volume, cache, number, from, to, leaves)
            }
        }
    }
}
