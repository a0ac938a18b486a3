// The walk to a leaf by its key.

ghost use Rattle.std.specs.Prelude.{◌≡◌, None, [], ◌∷◌, IfOk, slice_get};
ghost use Rattle.index_tree.specs.Order.{of_rank};
ghost use Rattle.index_tree.specs.Shape.{contents};
ghost use Rattle.index_media.specs.KeyedKeys.{AreKeysBounded};
ghost use Rattle.index_media.specs.KeyedRow.{bare};
ghost use Rattle.node_cache.specs.Branches.{IsNth};
ghost use Rattle.node_cache.specs.Kept.{AreKept};
ghost use Rattle.node_cache.specs.Loaded.{IsReadOnlyCall};
ghost use Rattle.table_nodes.specs.NodeView.{node_views, row_of, children_in};
ghost use Rattle.node_table.specs.Unloaded.{DoesLinkStand, DoesNodeStand, DoLinksStand};
ghost use Rattle.node_table.specs.Walk.{inside};

use crate::table::NodeTable;
use index_tree::Leaf;
use node_cache::{NodeCache, Nth, rank};
use std::alloc::Global;
use table_nodes::{Link, begin_below, begin_within, lower_links_passed};
use ubi_volume::{AreaFault, Volume};

impl NodeTable {
    /// The leaf of this rank behind `nth` others of the same below a node; none where there are too few of them.
    pub(crate) fn nth_below<V: Volume>(
        &self,
        alloc: Global,
        volume: &mut V,
        cache: &mut NodeCache,
        number: u64,
        at: u128,
        nth: u32,
    ) -> Result<Option<Leaf>, AreaFault>
        requires stands { DoesNodeStand (V.state volume.old) self.now.nodes.items number }
        requires kept { AreKept (V.state volume.old).holds cache.old }
        ensures found { IfOk result (λ found. found ≡ slice_get (of_rank at (contents (bare (children_in (slice_get (node_views self.now.nodes.items) number))))) nth) }
        ensures reads { IsReadOnlyCall (V.state volume.old) (V.state volume.new) result }
        ensures kept { AreKept (V.state volume.new).holds cache.new }
    {
        match self.find_below(alloc, volume, cache, number, at, nth)? {
            Nth::Found(leaf) => Ok(Some(leaf)),
            Nth::Fewer(_) => Ok(None),
        }
    }

    /// The leaf of this rank behind `nth` others of the same below a node; where there are too few of them, how many of
    /// `nth` they leave.
    #[cycle(finding)]
    fn find_below<V: Volume>(
        &self,
        alloc: Global,
        volume: &mut V,
        cache: &mut NodeCache,
        number: u64,
        at: u128,
        nth: u32,
    ) -> Result<Nth, AreaFault>
        requires stands { DoesNodeStand (V.state volume.old) self.now.nodes.items number }
        requires kept { AreKept (V.state volume.old).holds cache.old }
        ensures found { IfOk result (IsNth (of_rank at (contents (bare (children_in (slice_get (node_views self.now.nodes.items) number))))) nth) }
        ensures reads { IsReadOnlyCall (V.state volume.old) (V.state volume.new) result }
        ensures kept { AreKept (V.state volume.new).holds cache.new }
    {
        if let Some(found) = self.unloaded(number) {
            return cache.find_below(alloc, volume, &found.branch, found.level, at, nth);
        }
        match self.loaded_links(number) {
            None => Ok(Nth::Fewer(nth)),
            Some(links) => {
                let (_, rest) = links.split_at(lower_links_passed(links, at));
                self.find_among(alloc, volume, cache, rest, at, nth)
            }
        }
    }

    /// The same of these links.
    #[cycle(finding)]
    fn find_among<V: Volume>(
        &self,
        alloc: Global,
        volume: &mut V,
        cache: &mut NodeCache,
        links: &[Link],
        at: u128,
        nth: u32,
    ) -> Result<Nth, AreaFault>
        requires bounded { AreKeysBounded 0 None (row_of (node_views self.now.nodes.items) links.now) }
        requires stands { DoLinksStand (V.state volume.old) self.now.nodes.items links.now }
        requires kept { AreKept (V.state volume.old).holds cache.old }
        ensures found { IfOk result (IsNth (of_rank at (contents (bare (row_of (node_views self.now.nodes.items) links.now)))) nth) }
        ensures reads { IsReadOnlyCall (V.state volume.old) (V.state volume.new) result }
        ensures kept { AreKept (V.state volume.new).holds cache.new }
    {
        match links.split_first() {
            None => Ok(Nth::Fewer(nth)),
            Some((link, rest)) => {
                if begin_below(rest, at) {
                    return self.find_among(alloc, volume, cache, rest, at, nth);
                }
                match self.find_link(alloc, volume, cache, link, at, nth)? {
                    Nth::Found(leaf) => Ok(Nth::Found(leaf)),
                    Nth::Fewer(left) => {
                        if begin_within(rest, at) {
                            return self.find_among(alloc, volume, cache, rest, at, left);
                        }
                        Ok(Nth::Fewer(left))
                    }
                }
            }
        }
    }

    /// The same of one link.
    #[cycle(finding)]
    fn find_link<V: Volume>(
        &self,
        alloc: Global,
        volume: &mut V,
        cache: &mut NodeCache,
        link: &Link,
        at: u128,
        nth: u32,
    ) -> Result<Nth, AreaFault>
        requires stands { DoesLinkStand (V.state volume.old) self.now.nodes.items link.now }
        requires kept { AreKept (V.state volume.old).holds cache.old }
        ensures found { IfOk result (IsNth (of_rank at (contents (bare (inside (node_views self.now.nodes.items) link.now)))) nth) }
        ensures reads { IsReadOnlyCall (V.state volume.old) (V.state volume.new) result }
        ensures kept { AreKept (V.state volume.new).holds cache.new }
    {
        match *link {
            Link::ToLeaf(leaf) => Ok(one_of_rank(leaf, at, nth)),
            Link::ToNode { number, .. } => self.find_below(alloc, volume, cache, number, at, nth),
        }
    }
}

/// The same of one leaf.
fn one_of_rank(leaf: Leaf, at: u128, nth: u32) -> Nth
    ensures { IsNth (of_rank at (leaf ∷ [])) nth result }
{
    if rank(&leaf.key) != at {
        return Nth::Fewer(nth);
    }
    if nth == 0 {
        return Nth::Found(leaf);
    }
    Nth::Fewer(nth - 1)
}
