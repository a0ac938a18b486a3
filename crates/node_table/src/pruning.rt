// The leaves of a range of keys go: this adds what is left of the nodes on the ways to them.

ghost use Rattle.std.specs.Prelude.{◌≡◌, ◌-◌, ◌^◌, ◌<◌, ℕ, [], min, true, IfOk, OnOk, None, Some, length, slice_get};
ghost use Rattle.index_tree.specs.RangeRemoval.{in_range, within_range};
ghost use Rattle.index_tree.specs.Shape.{contents, count, fits};
ghost use Rattle.index_media.specs.KeyedKeys.{AreKeysBounded};
ghost use Rattle.index_media.specs.KeyedRange.{pruned_by_keys};
ghost use Rattle.index_media.specs.KeyedRow.{KeyedRow, no_more, bare};
ghost use Rattle.node_cache.specs.Kept.{AreKept};
ghost use Rattle.node_cache.specs.Loaded.{IsReadOnlyCall};
ghost use Rattle.node_table.specs.Unloaded.{AreStandingLinks, DoesLinkStand, DoesRootStand, DoLinksStand};
ghost use Rattle.table_nodes.specs.NodeView.{node_views, row_of, children_in};
ghost use Rattle.node_table.specs.Pruning.{pruned_link, pruned_node};
ghost use Rattle.table_nodes.specs.Sound.{IsSoundView};
ghost use Rattle.table_nodes.specs.Links.{row_before, IsLinkIn, AreNodesAdded};
ghost use Rattle.node_table.specs.Walk.{inside};

use crate::table::NodeTable;
use index_media::{
    a_range_removal_keeps_what_nodes_are, a_range_removal_leaves_the_keys_of_branches,
};
use index_tree::Leaf;
use node_cache::{NodeCache, rank};
use std::alloc::Global;
use table_nodes::{Link, Root, begin_below, begin_within};
use ubi_volume::{AreaFault, Volume};

/// What is left of a node's children may be a node's, if any are left; where none is of the range, all stay.
fn pruning_keeps_nodes()
    ensures sound { (fanout level from to : ℕ) (row : KeyedRow) → IsSoundView fanout (record { level = level; place = None; children = row })
        → 0 < count (bare (pruned_by_keys from to row)) → IsSoundView fanout (record { level = level; place = None; children = pruned_by_keys from to row }) }
    ensures same { (fanout from to : ℕ) (row : KeyedRow) → fits fanout (bare row) ≡ true → within_range from to (contents (bare row)) ≡ []
        → pruned_by_keys from to row ≡ row }
{
    a_range_removal_keeps_what_nodes_are();
    a_range_removal_leaves_the_keys_of_branches();
}

/// Whether a leaf's rank lies in a range, both ends included.
pub fn is_in_range(leaf: &Leaf, from: u128, to: u128) -> bool
    ensures { result ≡ in_range from to leaf.now }
{
    let here = rank(&leaf.key);
    if from <= here {
        return here <= to;
    }
    false
}

impl NodeTable {
    /// Adds what is left of a node without the leaves of the range, pushes a link to it, if it has children left, and answers how
    /// many leaves went. Where none did, the node's own link is pushed. Where none went, or none is left, no node stays that this added.
    #[cycle(pruning)]
    pub(crate) fn prune_below<V: Volume>(
        &mut self,
        alloc: Global,
        volume: &mut V,
        cache: &mut NodeCache,
        top: Root,
        from: u128,
        to: u128,
        made: &mut Vec<Link>,
    ) -> Result<u64, AreaFault>
        requires top { top.number < length self.old.nodes.items }
        requires there { AreStandingLinks (V.state volume.old) self.old.nodes.items made.old.items }
        requires stands { DoesRootStand (V.state volume.old) self.old.nodes.items (Some top) }
        requires kept { AreKept (V.state volume.old).holds cache.old }
        ensures gone { IfOk result (λ gone. gone ≡ min (length (within_range from to (contents (bare (children_in (slice_get (node_views self.old.nodes.items) top.number)))))) (2 ^ 64 - 1)) }
        ensures made { (rest : KeyedRow) → OnOk result (row_before (node_views self.new.nodes.items) made.new.items rest ≡ row_before (node_views self.old.nodes.items) made.old.items (pruned_node from to top.key (slice_get (node_views self.old.nodes.items) top.number) rest)) }
        ensures there { OnOk result (AreStandingLinks (V.state volume.new) self.new.nodes.items made.new.items) }
        ensures added { AreNodesAdded self.old.nodes.items self.new.nodes.items }
        ensures same { IfOk result (λ gone. gone ≡ 0 → self.new.nodes.items ≡ self.old.nodes.items) }
        ensures fanout { self.new.fanout ≡ self.old.fanout }
        ensures reads { IsReadOnlyCall (V.state volume.old) (V.state volume.new) result }
        ensures kept { AreKept (V.state volume.new).holds cache.new }
    {
        pruning_keeps_nodes();
        let number = self.nodes.len();
        let node = self.opened_copy(alloc, volume, cache, top.number)?;
        let mut links = Vec::new(alloc);
        let gone = self.prune_among(
            alloc,
            volume,
            cache,
            node.links.as_slice(),
            from,
            to,
            &mut links,
        )?;
        if gone == 0 {
            self.take_back(number);
            made.push(Link::ToNode {
                key: top.key,
                number: top.number,
            })?;
            return Ok(gone);
        }
        if links.is_empty() {
            self.take_back(number);
            return Ok(gone);
        }
        self.push_node(volume, node.level, top.key, links, made)?;
        Ok(gone)
    }

    /// The same among these links, and pushes all that are left.
    #[cycle(pruning)]
    fn prune_among<V: Volume>(
        &mut self,
        alloc: Global,
        volume: &mut V,
        cache: &mut NodeCache,
        links: &[Link],
        from: u128,
        to: u128,
        made: &mut Vec<Link>,
    ) -> Result<u64, AreaFault>
        requires sound { fits self.old.fanout (bare (row_of (node_views self.old.nodes.items) links.now)) ≡ true }
        requires bounded { AreKeysBounded 0 None (row_of (node_views self.old.nodes.items) links.now) }
        requires there { AreStandingLinks (V.state volume.old) self.old.nodes.items made.old.items }
        requires stands { DoLinksStand (V.state volume.old) self.old.nodes.items links.now }
        requires kept { AreKept (V.state volume.old).holds cache.old }
        ensures gone { IfOk result (λ gone. gone ≡ min (length (within_range from to (contents (bare (row_of (node_views self.old.nodes.items) links.now))))) (2 ^ 64 - 1)) }
        ensures made { OnOk result (row_before (node_views self.new.nodes.items) made.new.items no_more ≡ row_before (node_views self.old.nodes.items) made.old.items (pruned_by_keys from to (row_of (node_views self.old.nodes.items) links.now))) }
        ensures there { OnOk result (AreStandingLinks (V.state volume.new) self.new.nodes.items made.new.items) }
        ensures added { AreNodesAdded self.old.nodes.items self.new.nodes.items }
        ensures fanout { self.new.fanout ≡ self.old.fanout }
        ensures reads { IsReadOnlyCall (V.state volume.old) (V.state volume.new) result }
        ensures kept { AreKept (V.state volume.new).holds cache.new }
    {
        pruning_keeps_nodes();
        match links.split_first() {
            None => Ok(0),
            Some((link, rest)) => {
                if begin_below(rest, from) {
                    made.push(*link)?;
                    return self.prune_among(alloc, volume, cache, rest, from, to, made);
                }
                let here = self.prune_link(alloc, volume, cache, link, from, to, made)?;
                if !begin_within(rest, to) {
                    made.extend_from_slice(rest)?;
                    return Ok(here);
                }
                let behind = self.prune_among(alloc, volume, cache, rest, from, to, made)?;
                Ok(here.saturating_add(behind))
            }
        }
    }

    /// The same of one link.
    #[cycle(pruning)]
    fn prune_link<V: Volume>(
        &mut self,
        alloc: Global,
        volume: &mut V,
        cache: &mut NodeCache,
        link: &Link,
        from: u128,
        to: u128,
        made: &mut Vec<Link>,
    ) -> Result<u64, AreaFault>
        requires link { IsLinkIn (length self.old.nodes.items) link.now }
        requires there { AreStandingLinks (V.state volume.old) self.old.nodes.items made.old.items }
        requires stands { DoesLinkStand (V.state volume.old) self.old.nodes.items link.now }
        requires kept { AreKept (V.state volume.old).holds cache.old }
        ensures gone { IfOk result (λ gone. gone ≡ min (length (within_range from to (contents (bare (inside (node_views self.old.nodes.items) link.now))))) (2 ^ 64 - 1)) }
        ensures made { (rest : KeyedRow) → OnOk result (row_before (node_views self.new.nodes.items) made.new.items rest ≡ row_before (node_views self.old.nodes.items) made.old.items (pruned_link from to (node_views self.old.nodes.items) link.now rest)) }
        ensures there { OnOk result (AreStandingLinks (V.state volume.new) self.new.nodes.items made.new.items) }
        ensures added { AreNodesAdded self.old.nodes.items self.new.nodes.items }
        ensures fanout { self.new.fanout ≡ self.old.fanout }
        ensures reads { IsReadOnlyCall (V.state volume.old) (V.state volume.new) result }
        ensures kept { AreKept (V.state volume.new).holds cache.new }
    {
        match *link {
            Link::ToLeaf(leaf) => {
                if is_in_range(&leaf, from, to) {
                    return Ok(1);
                }
                made.push(*link)?;
                Ok(0)
            }
            Link::ToNode { key, number } => {
                self.prune_below(alloc, volume, cache, Root { key, number }, from, to, made)
            }
        }
    }
}
