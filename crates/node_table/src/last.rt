// The walk to the last leaf up to a rank: down to the last link that doesn't begin above the rank, and where all leaves
// there are above it, to the links before.

ghost use Rattle.std.specs.List.{last_or};
ghost use Rattle.std.specs.Prelude.{◌≡◌, None, IfOk, slice_get};
ghost use Rattle.index_tree.specs.LastBlock.{last_block, up_to};
ghost use Rattle.index_tree.specs.Shape.{contents};
ghost use Rattle.index_media.specs.KeyedKeys.{AreKeysBounded};
ghost use Rattle.index_media.specs.KeyedRow.{bare};
ghost use Rattle.node_cache.specs.Kept.{AreKept};
ghost use Rattle.node_cache.specs.Loaded.{IsReadOnlyCall};
ghost use Rattle.table_nodes.specs.NodeView.{node_views, row_of, children_in};
ghost use Rattle.node_table.specs.Unloaded.{DoesLinkStand, DoesNodeStand, DoLinksStand};
ghost use Rattle.node_table.specs.Walk.{inside};

use crate::table::NodeTable;
use index_tree::Leaf;
use node_cache::{NodeCache, is_block_of, last_rank, rank};
use std::alloc::Global;
use table_nodes::{Link, begin_within, links_passed};
use ubi_volume::{AreaFault, Volume};

impl NodeTable {
    /// The greatest block leaf of this inode below a node, the last one of equals.
    pub(crate) fn last_block_below<V: Volume>(
        &self,
        alloc: Global,
        volume: &mut V,
        cache: &mut NodeCache,
        number: u64,
        ino: u32,
    ) -> Result<Option<Leaf>, AreaFault>
        requires stands { DoesNodeStand (V.state volume.old) self.now.nodes.items number }
        requires kept { AreKept (V.state volume.old).holds cache.old }
        ensures found { IfOk result (λ found. found ≡ last_block ino (contents (bare (children_in (slice_get (node_views self.now.nodes.items) number))))) }
        ensures reads { IsReadOnlyCall (V.state volume.old) (V.state volume.new) result }
        ensures kept { AreKept (V.state volume.new).holds cache.new }
    {
        match self.last_below(alloc, volume, cache, number, last_rank(ino))? {
            None => Ok(None),
            Some(leaf) => {
                if is_block_of(&leaf.key, ino) {
                    return Ok(Some(leaf));
                }
                Ok(None)
            }
        }
    }

    /// The last leaf of this rank or a lower one below a node.
    #[cycle(ending)]
    fn last_below<V: Volume>(
        &self,
        alloc: Global,
        volume: &mut V,
        cache: &mut NodeCache,
        number: u64,
        at: u128,
    ) -> Result<Option<Leaf>, AreaFault>
        requires stands { DoesNodeStand (V.state volume.old) self.now.nodes.items number }
        requires kept { AreKept (V.state volume.old).holds cache.old }
        ensures found { IfOk result (λ found. found ≡ last_or None (up_to at (contents (bare (children_in (slice_get (node_views self.now.nodes.items) number)))))) }
        ensures reads { IsReadOnlyCall (V.state volume.old) (V.state volume.new) result }
        ensures kept { AreKept (V.state volume.new).holds cache.new }
    {
        if let Some(found) = self.unloaded(number) {
            return cache.last_below(alloc, volume, &found.branch, found.level, at);
        }
        match self.loaded_links(number) {
            None => Ok(None),
            Some(links) => {
                let (front, back) = links.split_at(links_passed(links, at));
                match self.last_among(alloc, volume, cache, back, at)? {
                    Some(leaf) => Ok(Some(leaf)),
                    None => self.last_among(alloc, volume, cache, front, at),
                }
            }
        }
    }

    /// The same of these links.
    #[cycle(ending)]
    fn last_among<V: Volume>(
        &self,
        alloc: Global,
        volume: &mut V,
        cache: &mut NodeCache,
        links: &[Link],
        at: u128,
    ) -> Result<Option<Leaf>, AreaFault>
        requires bounded { AreKeysBounded 0 None (row_of (node_views self.now.nodes.items) links.now) }
        requires stands { DoLinksStand (V.state volume.old) self.now.nodes.items links.now }
        requires kept { AreKept (V.state volume.old).holds cache.old }
        ensures found { IfOk result (λ found. found ≡ last_or None (up_to at (contents (bare (row_of (node_views self.now.nodes.items) links.now))))) }
        ensures reads { IsReadOnlyCall (V.state volume.old) (V.state volume.new) result }
        ensures kept { AreKept (V.state volume.new).holds cache.new }
    {
        match links.split_first() {
            None => Ok(None),
            Some((link, rest)) => {
                if !begin_within(rest, at) {
                    return self.last_link(alloc, volume, cache, link, at);
                }
                match self.last_among(alloc, volume, cache, rest, at)? {
                    Some(leaf) => Ok(Some(leaf)),
                    None => self.last_link(alloc, volume, cache, link, at),
                }
            }
        }
    }

    /// The same of one link.
    #[cycle(ending)]
    fn last_link<V: Volume>(
        &self,
        alloc: Global,
        volume: &mut V,
        cache: &mut NodeCache,
        link: &Link,
        at: u128,
    ) -> Result<Option<Leaf>, AreaFault>
        requires stands { DoesLinkStand (V.state volume.old) self.now.nodes.items link.now }
        requires kept { AreKept (V.state volume.old).holds cache.old }
        ensures found { IfOk result (λ found. found ≡ last_or None (up_to at (contents (bare (inside (node_views self.now.nodes.items) link.now))))) }
        ensures reads { IsReadOnlyCall (V.state volume.old) (V.state volume.new) result }
        ensures kept { AreKept (V.state volume.new).holds cache.new }
    {
        match *link {
            Link::ToLeaf(leaf) => {
                if rank(&leaf.key) <= at {
                    return Ok(Some(leaf));
                }
                Ok(None)
            }
            Link::ToNode { number, .. } => self.last_below(alloc, volume, cache, number, at),
        }
    }
}
