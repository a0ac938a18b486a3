// The leaves of a LEB.

ghost use Rattle.std.specs.Prelude.{◌≡◌, ◌==◌, ◌++◌, OnOk, filter, slice_get};
ghost use Rattle.index_tree.specs.Shape.{contents};
ghost use Rattle.index_media.specs.KeyedRow.{bare};
ghost use Rattle.node_cache.specs.Kept.{AreKept};
ghost use Rattle.node_cache.specs.Loaded.{IsReadOnlyCall};
ghost use Rattle.table_nodes.specs.NodeView.{node_views, row_of, children_in};
ghost use Rattle.node_table.specs.Unloaded.{DoesLinkStand, DoesNodeStand, DoLinksStand};
ghost use Rattle.node_table.specs.Walk.{inside};

use crate::table::NodeTable;
use index_tree::Leaf;
use node_cache::NodeCache;
use std::alloc::Global;
use table_nodes::Link;
use ubi_volume::{AreaFault, Volume};

impl NodeTable {
    /// Pushes the leaves of a LEB below a node.
    #[cycle(scanning)]
    pub(crate) fn push_below<V: Volume>(
        &self,
        alloc: Global,
        volume: &mut V,
        cache: &mut NodeCache,
        number: u64,
        lnum: u32,
        leaves: &mut Vec<Leaf>,
    ) -> Result<(), AreaFault>
        requires stands { DoesNodeStand (V.state volume.old) self.now.nodes.items number }
        requires kept { AreKept (V.state volume.old).holds cache.old }
        ensures pushed { OnOk result (leaves.new.items ≡ leaves.old.items ++ filter (λ x. x.lnum == lnum) (contents (bare (children_in (slice_get (node_views self.now.nodes.items) number))))) }
        ensures reads { IsReadOnlyCall (V.state volume.old) (V.state volume.new) result }
        ensures kept { AreKept (V.state volume.new).holds cache.new }
    {
        if let Some(found) = self.unloaded(number) {
            return cache.push_below(alloc, volume, &found.branch, found.level, lnum, leaves);
        }
        match self.loaded_links(number) {
            None => Ok(()),
            Some(links) => self.push_among(alloc, volume, cache, links, lnum, leaves),
        }
    }

    /// The same of these links.
    #[cycle(scanning)]
    fn push_among<V: Volume>(
        &self,
        alloc: Global,
        volume: &mut V,
        cache: &mut NodeCache,
        links: &[Link],
        lnum: u32,
        leaves: &mut Vec<Leaf>,
    ) -> Result<(), AreaFault>
        requires stands { DoLinksStand (V.state volume.old) self.now.nodes.items links.now }
        requires kept { AreKept (V.state volume.old).holds cache.old }
        ensures pushed { OnOk result (leaves.new.items ≡ leaves.old.items ++ filter (λ x. x.lnum == lnum) (contents (bare (row_of (node_views self.now.nodes.items) links.now)))) }
        ensures reads { IsReadOnlyCall (V.state volume.old) (V.state volume.new) result }
        ensures kept { AreKept (V.state volume.new).holds cache.new }
    {
        match links.split_first() {
            None => Ok(()),
            Some((link, rest)) => {
                self.push_link(alloc, volume, cache, link, lnum, leaves)?;
                self.push_among(alloc, volume, cache, rest, lnum, leaves)
            }
        }
    }

    /// The same of one link.
    #[cycle(scanning)]
    fn push_link<V: Volume>(
        &self,
        alloc: Global,
        volume: &mut V,
        cache: &mut NodeCache,
        link: &Link,
        lnum: u32,
        leaves: &mut Vec<Leaf>,
    ) -> Result<(), AreaFault>
        requires stands { DoesLinkStand (V.state volume.old) self.now.nodes.items link.now }
        requires kept { AreKept (V.state volume.old).holds cache.old }
        ensures pushed { OnOk result (leaves.new.items ≡ leaves.old.items ++ filter (λ x. x.lnum == lnum) (contents (bare (inside (node_views self.now.nodes.items) link.now)))) }
        ensures reads { IsReadOnlyCall (V.state volume.old) (V.state volume.new) result }
        ensures kept { AreKept (V.state volume.new).holds cache.new }
    {
        match *link {
            Link::ToLeaf(leaf) => {
                if leaf.lnum == lnum {
                    leaves.push(leaf)?;
                }
                Ok(())
            }
            Link::ToNode { number, .. } => {
                self.push_below(alloc, volume, cache, number, lnum, leaves)
            }
        }
    }
}
