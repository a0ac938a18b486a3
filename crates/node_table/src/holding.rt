// The walk to a leaf itself.

ghost use Rattle.std.specs.Prelude.{◌≡◌, None, IfOk, slice_get};
ghost use Rattle.index_tree.specs.Order.{leaf_rank};
ghost use Rattle.index_tree.specs.Removal.{holds};
ghost use Rattle.index_tree.specs.Shape.{contents};
ghost use Rattle.index_media.specs.KeyedKeys.{AreKeysBounded};
ghost use Rattle.index_media.specs.KeyedRow.{bare};
ghost use Rattle.node_cache.specs.Kept.{AreKept};
ghost use Rattle.node_cache.specs.Loaded.{IsReadOnlyCall};
ghost use Rattle.table_nodes.specs.NodeView.{node_views, row_of, children_in};
ghost use Rattle.node_table.specs.Unloaded.{DoesLinkStand, DoesNodeStand, DoLinksStand};
ghost use Rattle.node_table.specs.Walk.{inside};

use crate::table::NodeTable;
use index_tree::Leaf;
use node_cache::{NodeCache, rank, same_leaf};
use std::alloc::Global;
use table_nodes::{Link, begin_below, begin_within, lower_links_passed};
use ubi_volume::{AreaFault, Volume};

impl NodeTable {
    /// Whether a leaf stands below a node.
    #[cycle(holding)]
    pub(crate) fn holds_below<V: Volume>(
        &self,
        alloc: Global,
        volume: &mut V,
        cache: &mut NodeCache,
        number: u64,
        sought: &Leaf,
    ) -> Result<bool, AreaFault>
        requires stands { DoesNodeStand (V.state volume.old) self.now.nodes.items number }
        requires kept { AreKept (V.state volume.old).holds cache.old }
        ensures found { IfOk result (λ found. found ≡ holds sought.now (contents (bare (children_in (slice_get (node_views self.now.nodes.items) number))))) }
        ensures reads { IsReadOnlyCall (V.state volume.old) (V.state volume.new) result }
        ensures kept { AreKept (V.state volume.new).holds cache.new }
    {
        if let Some(found) = self.unloaded(number) {
            return cache.holds_below(alloc, volume, &found.branch, found.level, sought);
        }
        match self.loaded_links(number) {
            None => Ok(false),
            Some(links) => {
                let at = rank(&sought.key);
                let (_, rest) = links.split_at(lower_links_passed(links, at));
                self.holds_among(alloc, volume, cache, rest, at, sought)
            }
        }
    }

    /// The same of these links, for a leaf of this rank.
    #[cycle(holding)]
    fn holds_among<V: Volume>(
        &self,
        alloc: Global,
        volume: &mut V,
        cache: &mut NodeCache,
        links: &[Link],
        at: u128,
        sought: &Leaf,
    ) -> Result<bool, AreaFault>
        requires rank { at ≡ leaf_rank sought.now }
        requires bounded { AreKeysBounded 0 None (row_of (node_views self.now.nodes.items) links.now) }
        requires stands { DoLinksStand (V.state volume.old) self.now.nodes.items links.now }
        requires kept { AreKept (V.state volume.old).holds cache.old }
        ensures found { IfOk result (λ found. found ≡ holds sought.now (contents (bare (row_of (node_views self.now.nodes.items) links.now)))) }
        ensures reads { IsReadOnlyCall (V.state volume.old) (V.state volume.new) result }
        ensures kept { AreKept (V.state volume.new).holds cache.new }
    {
        match links.split_first() {
            None => Ok(false),
            Some((link, rest)) => {
                if begin_below(rest, at) {
                    return self.holds_among(alloc, volume, cache, rest, at, sought);
                }
                let here = self.holds_link(alloc, volume, cache, link, sought)?;
                if here {
                    return Ok(true);
                }
                if begin_within(rest, at) {
                    return self.holds_among(alloc, volume, cache, rest, at, sought);
                }
                Ok(false)
            }
        }
    }

    /// The same of one link.
    #[cycle(holding)]
    fn holds_link<V: Volume>(
        &self,
        alloc: Global,
        volume: &mut V,
        cache: &mut NodeCache,
        link: &Link,
        sought: &Leaf,
    ) -> Result<bool, AreaFault>
        requires stands { DoesLinkStand (V.state volume.old) self.now.nodes.items link.now }
        requires kept { AreKept (V.state volume.old).holds cache.old }
        ensures found { IfOk result (λ found. found ≡ holds sought.now (contents (bare (inside (node_views self.now.nodes.items) link.now)))) }
        ensures reads { IsReadOnlyCall (V.state volume.old) (V.state volume.new) result }
        ensures kept { AreKept (V.state volume.new).holds cache.new }
    {
        match *link {
            Link::ToLeaf(leaf) => {
                if same_leaf(&leaf, sought) {
                    return Ok(true);
                }
                Ok(false)
            }
            Link::ToNode { number, .. } => self.holds_below(alloc, volume, cache, number, sought),
        }
    }
}
