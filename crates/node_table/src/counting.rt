// The nodes below a root, and their weight.

ghost use Rattle.std.specs.Prelude.{◌≡◌, ◌∷◌, [], IfOk, slice_get};
ghost use Rattle.index_tree.specs.Shape.{node_count, shape_weight};
ghost use Rattle.index_media.specs.KeyedRow.{bare};
ghost use Rattle.node_cache.specs.Loaded.{IsReadOnlyCall};
ghost use Rattle.node_table.specs.Counting.{counts_of};
ghost use Rattle.node_table.specs.Unloaded.{DoesLinkStand, DoesNodeStand, DoesRootStand, DoLinksStand};
ghost use Rattle.table_nodes.specs.NodeView.{node_views, row_of, children_in, tree_at};

use crate::counts::TreeCounts;
use crate::table::NodeTable;
use crate::volume_counting::{both, count_below, counts_alone};
use std::alloc::Global;
use table_nodes::{Link, Root};
use ubi_volume::{AreaFault, Volume};

impl NodeTable {
    /// The numbers of the tree of a node; a node that isn't there has no children.
    #[cycle(sizing)]
    fn size_at<V: Volume>(
        &self,
        alloc: Global,
        volume: &mut V,
        number: u64,
    ) -> Result<TreeCounts, AreaFault>
        requires stands { DoesNodeStand (V.state volume.old) self.now.nodes.items number }
        ensures counted { IfOk result (λ own. own ≡ counts_of self.now.fanout (children_in (slice_get (node_views self.now.nodes.items) number))) }
        ensures reads { IsReadOnlyCall (V.state volume.old) (V.state volume.new) result }
    {
        if let Some(found) = self.unloaded(number) {
            return count_below(alloc, volume, &found.branch, found.level, self.fanout);
        }
        match self.loaded_links(number) {
            None => Ok(TreeCounts {
                nodes: 1,
                weight: 1,
            }),
            Some(links) => {
                let below = self.size_among(alloc, volume, links)?;
                let own = both(counts_alone(links.len(), self.fanout), below)?;
                Ok(own)
            }
        }
    }

    /// The numbers of the trees to which these links lead, all together.
    #[cycle(sizing)]
    fn size_among<V: Volume>(
        &self,
        alloc: Global,
        volume: &mut V,
        links: &[Link],
    ) -> Result<TreeCounts, AreaFault>
        requires stands { DoLinksStand (V.state volume.old) self.now.nodes.items links.now }
        ensures nodes { IfOk result (λ sum. sum.nodes ≡ node_count (bare (row_of (node_views self.now.nodes.items) links.now))) }
        ensures weight { IfOk result (λ sum. sum.weight ≡ shape_weight self.now.fanout (bare (row_of (node_views self.now.nodes.items) links.now))) }
        ensures reads { IsReadOnlyCall (V.state volume.old) (V.state volume.new) result }
    {
        match links.split_first() {
            None => Ok(TreeCounts {
                nodes: 0,
                weight: 0,
            }),
            Some((link, rest)) => {
                let own = self.size_link(alloc, volume, link)?;
                let others = self.size_among(alloc, volume, rest)?;
                let sum = both(own, others)?;
                Ok(sum)
            }
        }
    }

    /// Those of what one link leads to; of a leaf there are none.
    #[cycle(sizing)]
    #[tactic(auto, using(crate::proofs::Counted::link_sizes))]
    fn size_link<V: Volume>(
        &self,
        alloc: Global,
        volume: &mut V,
        link: &Link,
    ) -> Result<TreeCounts, AreaFault>
        requires stands { DoesLinkStand (V.state volume.old) self.now.nodes.items link.now }
        ensures nodes { IfOk result (λ own. own.nodes ≡ node_count (bare (row_of (node_views self.now.nodes.items) (link.now ∷ [])))) }
        ensures weight { IfOk result (λ own. own.weight ≡ shape_weight self.now.fanout (bare (row_of (node_views self.now.nodes.items) (link.now ∷ [])))) }
        ensures reads { IsReadOnlyCall (V.state volume.old) (V.state volume.new) result }
    {
        match *link {
            Link::ToLeaf(_) => Ok(TreeCounts {
                nodes: 0,
                weight: 0,
            }),
            Link::ToNode { number, .. } => self.size_at(alloc, volume, number),
        }
    }

    /// The number of nodes below a root, the topmost one included, and the weight of the index there: that number plus the number of full nodes.
    /// It looks at all nodes below the root: it reads those that aren't loaded, with the nodes of one path in memory. Nothing is added to the
    /// table, and the volume is as it was.
    ///
    /// `Memory` and `Volume` are the faults. Numbers past 64 bits are answered as want of memory.
    #[tactic(auto, using(crate::proofs::Counted::link_sizes))]
    pub fn size<V: Volume>(
        &self,
        alloc: Global,
        volume: &mut V,
        root: Option<Root>,
    ) -> Result<TreeCounts, AreaFault>
        requires stands { DoesRootStand (V.state volume.old) self.now.nodes.items root }
        ensures nodes { IfOk result (λ size. size.nodes ≡ node_count (bare (tree_at self.now.nodes.items root))) }
        ensures weight { IfOk result (λ size. size.weight ≡ shape_weight self.now.fanout (bare (tree_at self.now.nodes.items root))) }
        ensures reads { IsReadOnlyCall (V.state volume.old) (V.state volume.new) result }
    {
        match root {
            None => Ok(TreeCounts {
                nodes: 0,
                weight: 0,
            }),
            Some(top) => self.size_at(alloc, volume, top.number),
        }
    }
}
