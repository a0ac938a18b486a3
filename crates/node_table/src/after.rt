// The walk to the first leaf behind a rank: down to where the rank would stand, and where no greater leaf follows there,
// to the first leaf of the next node.

ghost use Rattle.std.specs.Prelude.{◌≡◌, None, IfOk, slice_get};
ghost use Rattle.index_tree.specs.Order.{first_after};
ghost use Rattle.index_tree.specs.Shape.{contents};
ghost use Rattle.index_media.specs.KeyedKeys.{AreKeysBounded};
ghost use Rattle.index_media.specs.KeyedRow.{bare};
ghost use Rattle.node_cache.specs.Kept.{AreKept};
ghost use Rattle.node_cache.specs.Loaded.{IsReadOnlyCall};
ghost use Rattle.table_nodes.specs.NodeView.{node_views, row_of, children_in};
ghost use Rattle.node_table.specs.Unloaded.{DoesLinkStand, DoesNodeStand, DoLinksStand};
ghost use Rattle.node_table.specs.Walk.{inside};

use crate::table::NodeTable;
use index_tree::Leaf;
use node_cache::{NodeCache, rank};
use std::alloc::Global;
use table_nodes::{Link, begin_within, links_passed};
use ubi_volume::{AreaFault, Volume};

impl NodeTable {
    /// The first leaf of a greater rank below a node.
    #[cycle(following)]
    pub(crate) fn after_below<V: Volume>(
        &self,
        alloc: Global,
        volume: &mut V,
        cache: &mut NodeCache,
        number: u64,
        at: u128,
    ) -> Result<Option<Leaf>, AreaFault>
        requires stands { DoesNodeStand (V.state volume.old) self.now.nodes.items number }
        requires kept { AreKept (V.state volume.old).holds cache.old }
        ensures found { IfOk result (λ found. found ≡ first_after at (contents (bare (children_in (slice_get (node_views self.now.nodes.items) number))))) }
        ensures reads { IsReadOnlyCall (V.state volume.old) (V.state volume.new) result }
        ensures kept { AreKept (V.state volume.new).holds cache.new }
    {
        if let Some(found) = self.unloaded(number) {
            return cache.after_below(alloc, volume, &found.branch, found.level, at);
        }
        match self.loaded_links(number) {
            None => Ok(None),
            Some(links) => {
                let (_, rest) = links.split_at(links_passed(links, at));
                self.after_among(alloc, volume, cache, rest, at)
            }
        }
    }

    /// The same of these links.
    #[cycle(following)]
    fn after_among<V: Volume>(
        &self,
        alloc: Global,
        volume: &mut V,
        cache: &mut NodeCache,
        links: &[Link],
        at: u128,
    ) -> Result<Option<Leaf>, AreaFault>
        requires bounded { AreKeysBounded 0 None (row_of (node_views self.now.nodes.items) links.now) }
        requires stands { DoLinksStand (V.state volume.old) self.now.nodes.items links.now }
        requires kept { AreKept (V.state volume.old).holds cache.old }
        ensures found { IfOk result (λ found. found ≡ first_after at (contents (bare (row_of (node_views self.now.nodes.items) links.now)))) }
        ensures reads { IsReadOnlyCall (V.state volume.old) (V.state volume.new) result }
        ensures kept { AreKept (V.state volume.new).holds cache.new }
    {
        match links.split_first() {
            None => Ok(None),
            Some((link, rest)) => {
                if begin_within(rest, at) {
                    return self.after_among(alloc, volume, cache, rest, at);
                }
                match self.after_link(alloc, volume, cache, link, at)? {
                    Some(leaf) => Ok(Some(leaf)),
                    None => self.after_among(alloc, volume, cache, rest, at),
                }
            }
        }
    }

    /// The same of one link.
    #[cycle(following)]
    fn after_link<V: Volume>(
        &self,
        alloc: Global,
        volume: &mut V,
        cache: &mut NodeCache,
        link: &Link,
        at: u128,
    ) -> Result<Option<Leaf>, AreaFault>
        requires stands { DoesLinkStand (V.state volume.old) self.now.nodes.items link.now }
        requires kept { AreKept (V.state volume.old).holds cache.old }
        ensures found { IfOk result (λ found. found ≡ first_after at (contents (bare (inside (node_views self.now.nodes.items) link.now)))) }
        ensures reads { IsReadOnlyCall (V.state volume.old) (V.state volume.new) result }
        ensures kept { AreKept (V.state volume.new).holds cache.new }
    {
        match *link {
            Link::ToLeaf(leaf) => {
                if rank(&leaf.key) > at {
                    return Ok(Some(leaf));
                }
                Ok(None)
            }
            Link::ToNode { number, .. } => self.after_below(alloc, volume, cache, number, at),
        }
    }
}
