// A leaf gives way to another of its key, or to none: this adds the nodes of one path.

ghost use Rattle.std.specs.Prelude.{◌≡◌, ◌<◌, ◌++◌, ℕ, true, false, IfOk, OnOk, Option, None, Some, length, slice_get};
ghost use Rattle.index_tree.specs.Removal.{holds};
ghost use Rattle.index_tree.specs.Shape.{contents, count, fits};
ghost use Rattle.index_tree.specs.declared.leaf.Leaf.{Leaf as ALeaf};
ghost use Rattle.index_media.specs.KeyedKeys.{AreKeysBounded};
ghost use Rattle.index_media.specs.KeyedRemoval.{replaced_by_keys};
ghost use Rattle.index_media.specs.KeyedRow.{KeyedRow, no_more, bare};
ghost use Rattle.node_cache.specs.Kept.{AreKept};
ghost use Rattle.node_cache.specs.Loaded.{IsReadOnlyCall};
ghost use Rattle.node_table.specs.Exchange.{IsExchange, exchanged_row, exchanged_node, links_to};
ghost use Rattle.node_table.specs.Unloaded.{AreStandingLinks, DoesRootStand, DoLinksStand};
ghost use Rattle.table_nodes.specs.NodeView.{node_views, row_of, children_in};
ghost use Rattle.table_nodes.specs.Sound.{IsSoundView};
ghost use Rattle.table_nodes.specs.Links.{row_before, AreNodesAdded};

use crate::table::NodeTable;
use index_media::{
    a_removal_keeps_what_nodes_are, a_replacement_keeps_what_nodes_are,
    a_replacement_leaves_the_keys_of_branches,
};
use index_tree::Leaf;
use node_cache::{NodeCache, rank, same_leaf};
use std::alloc::{AllocError, Global};
use table_nodes::{Link, Root, begin_below, begin_within};
use ubi_volume::{AreaFault, Volume};

/// What is left of a node's children may be a node's, if any are left; a replacement leaves as many.
fn exchange_keeps_nodes()
    ensures sound { (fanout level : ℕ) (gone : ALeaf) (come : Option ALeaf) (row : KeyedRow) → IsExchange gone come
        → IsSoundView fanout (record { level = level; place = None; children = row }) → 0 < count (bare (exchanged_row gone come row))
        → IsSoundView fanout (record { level = level; place = None; children = exchanged_row gone come row }) }
    ensures number { (gone come : ALeaf) (row : KeyedRow) → count (bare (replaced_by_keys gone come row)) ≡ count (bare row) }
{
    a_removal_keeps_what_nodes_are();
    a_replacement_keeps_what_nodes_are();
    a_replacement_leaves_the_keys_of_branches();
}

/// Pushes a link to a leaf, if there is one.
fn push_leaf(come: Option<Leaf>, made: &mut Vec<Link>) -> Result<(), AllocError>
    ensures { OnOk result (made.new.items ≡ made.old.items ++ links_to come) }
{
    match come {
        None => Ok(()),
        Some(leaf) => {
            made.push(Link::ToLeaf(leaf))?;
            Ok(())
        }
    }
}

impl NodeTable {
    /// Adds the nodes of one path below a node, where a leaf gives way, and pushes a link to what stands for the node, if it has
    /// children left. False where the leaf isn't there: then the node's own link is pushed, and no node stays that this added.
    #[cycle(exchanging)]
    pub(crate) fn exchange_below<V: Volume>(
        &mut self,
        alloc: Global,
        volume: &mut V,
        cache: &mut NodeCache,
        top: Root,
        gone: &Leaf,
        come: Option<Leaf>,
        made: &mut Vec<Link>,
    ) -> Result<bool, AreaFault>
        requires top { top.number < length self.old.nodes.items }
        requires there { AreStandingLinks (V.state volume.old) self.old.nodes.items made.old.items }
        requires key { IsExchange gone.now come }
        requires stands { DoesRootStand (V.state volume.old) self.old.nodes.items (Some top) }
        requires kept { AreKept (V.state volume.old).holds cache.old }
        ensures found { IfOk result (λ found. found ≡ holds gone.now (contents (bare (children_in (slice_get (node_views self.old.nodes.items) top.number))))) }
        ensures made { (rest : KeyedRow) → OnOk result (row_before (node_views self.new.nodes.items) made.new.items rest ≡ row_before (node_views self.old.nodes.items) made.old.items (exchanged_node gone.now come top.key (slice_get (node_views self.old.nodes.items) top.number) rest)) }
        ensures there { OnOk result (AreStandingLinks (V.state volume.new) self.new.nodes.items made.new.items) }
        ensures added { AreNodesAdded self.old.nodes.items self.new.nodes.items }
        ensures same { IfOk result (λ found. found ≡ false → self.new.nodes.items ≡ self.old.nodes.items) }
        ensures fanout { self.new.fanout ≡ self.old.fanout }
        ensures reads { IsReadOnlyCall (V.state volume.old) (V.state volume.new) result }
        ensures kept { AreKept (V.state volume.new).holds cache.new }
    {
        exchange_keeps_nodes();
        let number = self.nodes.len();
        let node = self.opened_copy(alloc, volume, cache, top.number)?;
        let mut links = Vec::new(alloc);
        if self.exchange_among(
            alloc,
            volume,
            cache,
            node.links.as_slice(),
            gone,
            come,
            &mut links,
        )? {
            if links.is_empty() {
                self.take_back(number);
                return Ok(true);
            }
            self.push_node(volume, node.level, top.key, links, made)?;
            return Ok(true);
        }
        self.take_back(number);
        made.push(Link::ToNode {
            key: top.key,
            number: top.number,
        })?;
        Ok(false)
    }

    /// The same among these links, and pushes all of them.
    #[cycle(exchanging)]
    fn exchange_among<V: Volume>(
        &mut self,
        alloc: Global,
        volume: &mut V,
        cache: &mut NodeCache,
        links: &[Link],
        gone: &Leaf,
        come: Option<Leaf>,
        made: &mut Vec<Link>,
    ) -> Result<bool, AreaFault>
        requires sound { fits self.old.fanout (bare (row_of (node_views self.old.nodes.items) links.now)) ≡ true }
        requires bounded { AreKeysBounded 0 None (row_of (node_views self.old.nodes.items) links.now) }
        requires there { AreStandingLinks (V.state volume.old) self.old.nodes.items made.old.items }
        requires key { IsExchange gone.now come }
        requires stands { DoLinksStand (V.state volume.old) self.old.nodes.items links.now }
        requires kept { AreKept (V.state volume.old).holds cache.old }
        ensures found { IfOk result (λ found. found ≡ holds gone.now (contents (bare (row_of (node_views self.old.nodes.items) links.now)))) }
        ensures made { OnOk result (row_before (node_views self.new.nodes.items) made.new.items no_more ≡ row_before (node_views self.old.nodes.items) made.old.items (exchanged_row gone.now come (row_of (node_views self.old.nodes.items) links.now))) }
        ensures there { OnOk result (AreStandingLinks (V.state volume.new) self.new.nodes.items made.new.items) }
        ensures added { AreNodesAdded self.old.nodes.items self.new.nodes.items }
        ensures fanout { self.new.fanout ≡ self.old.fanout }
        ensures reads { IsReadOnlyCall (V.state volume.old) (V.state volume.new) result }
        ensures kept { AreKept (V.state volume.new).holds cache.new }
    {
        match links.split_first() {
            None => Ok(false),
            Some((link, rest)) => {
                if begin_below(rest, rank(&gone.key)) {
                    made.push(*link)?;
                    return self.exchange_among(alloc, volume, cache, rest, gone, come, made);
                }
                match *link {
                    Link::ToLeaf(leaf) => {
                        if same_leaf(&leaf, gone) {
                            push_leaf(come, made)?;
                            made.extend_from_slice(rest)?;
                            return Ok(true);
                        }
                        made.push(*link)?;
                        self.exchange_among(alloc, volume, cache, rest, gone, come, made)
                    }
                    Link::ToNode { key, number } => {
                        if self.exchange_below(
                            alloc,
                            volume,
                            cache,
                            Root { key, number },
                            gone,
                            come,
                            made,
                        )? {
                            made.extend_from_slice(rest)?;
                            return Ok(true);
                        }
                        if begin_within(rest, rank(&gone.key)) {
                            return self.exchange_among(
                                alloc, volume, cache, rest, gone, come, made,
                            );
                        }
                        made.extend_from_slice(rest)?;
                        Ok(false)
                    }
                }
            }
        }
    }
}
