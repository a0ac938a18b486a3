// An insertion adds the nodes of one path.

ghost use Rattle.std.specs.Prelude.{◌≡◌, ◌<◌, true, IfOk, OnOk, Option, None, Some, length, slice_get, List};
ghost use Rattle.index_tree.specs.Shape.{fits};
ghost use Rattle.index_media.specs.Insertion.{first_key, inserted_by_keys, keyed_parted, lowered};
ghost use Rattle.index_media.specs.KeyedRow.{KeyedRow, no_more, node_in, bare};
ghost use Rattle.node_cache.specs.Kept.{AreKept};
ghost use Rattle.node_cache.specs.Loaded.{IsReadOnlyCall};
ghost use Rattle.node_table.specs.Unloaded.{AreStandingLinks, DoesRootStand, DoLinksStand};
ghost use Rattle.table_nodes.specs.NodeView.{NodeView, link_key, node_views, row_of, children_in, tree_at};
ghost use Rattle.table_nodes.specs.Sound.{IsSoundView};
ghost use Rattle.table_nodes.specs.Links.{row_before, AreLinksIn, AreNodesAdded};
ghost use Rattle.node_table.specs.Staging.{IsGrownRow, insertion_passes};
ghost use Rattle.ubifs_base.specs.Key.{IsKey};

use crate::table::NodeTable;
use index_tree::Leaf;
use node_cache::{NodeCache, rank};
use std::alloc::{AllocError, Global};
use table_nodes::{Link, Root, TableNode, begin_within};
use ubi_volume::{AreaFault, Volume};
use ubifs_base::{Key, Memory};

/// A copy of some links.
fn copied(alloc: Global, links: &[Link]) -> Result<Vec<Link>, AllocError>
    ensures { IfOk result (λ made. made.items ≡ links.now) }
{
    let mut made = Vec::new(alloc);
    made.extend_from_slice(links)?;
    Ok(made)
}

impl NodeTable {
    /// Adds a node, and pushes a link to it.
    pub(crate) fn push_node<V: Volume>(
        &mut self,
        volume: &V,
        level: u16,
        key: Key,
        links: Vec<Link>,
        made: &mut Vec<Link>,
    ) -> Result<(), Memory>
        requires sound { IsSoundView self.old.fanout (record { level = level; place = None; children = row_of (node_views self.old.nodes.items) links.items }) }
        requires there { AreLinksIn (length self.old.nodes.items) made.old.items }
        ensures made { (rest : KeyedRow) → OnOk result (row_before (node_views self.new.nodes.items) made.new.items rest ≡ row_before (node_views self.old.nodes.items) made.old.items (node_in key None (row_of (node_views self.old.nodes.items) links.items) rest)) }
        ensures there { OnOk result (AreLinksIn (length self.new.nodes.items) made.new.items) }
        ensures added { AreNodesAdded self.old.nodes.items self.new.nodes.items }
        ensures stands { AreStandingLinks (V.state volume.now) self.old.nodes.items made.old.items → AreStandingLinks (V.state volume.now) self.old.nodes.items links.items
            → OnOk result (AreStandingLinks (V.state volume.now) self.new.nodes.items made.new.items) }
        ensures fanout { self.new.fanout ≡ self.old.fanout }
    {
        let _ = volume;
        let number = self.add(TableNode {
            level,
            place: None,
            links,
            beyond: None,
        })?;
        made.push(Link::ToNode { key, number })?;
        Ok(())
    }

    /// Adds a node, or its halves if it has too many children, and pushes links to them.
    fn push_parted<V: Volume>(
        &mut self,
        alloc: Global,
        volume: &V,
        level: u16,
        key: Key,
        links: &[Link],
        made: &mut Vec<Link>,
    ) -> Result<(), Memory>
        requires grown { IsGrownRow self.old.fanout level (row_of (node_views self.old.nodes.items) links.now) }
        requires there { AreLinksIn (length self.old.nodes.items) made.old.items }
        ensures made { (rest : KeyedRow) → OnOk result (row_before (node_views self.new.nodes.items) made.new.items rest ≡ row_before (node_views self.old.nodes.items) made.old.items (keyed_parted self.old.fanout key (row_of (node_views self.old.nodes.items) links.now) rest)) }
        ensures there { OnOk result (AreLinksIn (length self.new.nodes.items) made.new.items) }
        ensures added { AreNodesAdded self.old.nodes.items self.new.nodes.items }
        ensures stands { AreStandingLinks (V.state volume.now) self.old.nodes.items made.old.items → AreStandingLinks (V.state volume.now) self.old.nodes.items links.now
            → OnOk result (AreStandingLinks (V.state volume.now) self.new.nodes.items made.new.items) }
        ensures fanout { self.new.fanout ≡ self.old.fanout }
    {
        if links.len() <= self.fanout as usize {
            let whole = copied(alloc, links)?;
            return self.push_node(volume, level, key, whole, made);
        }
        let (left, right) = links.split_at((self.fanout as usize + 2) / 2);
        let front = copied(alloc, left)?;
        let back = copied(alloc, right)?;
        self.push_node(volume, level, key, front, made)?;
        self.push_node(volume, level, first_key(key, right), back, made)
    }
}

/// A link's key.
fn link_key(link: &Link) -> Key
    ensures { result ≡ link_key link.now }
{
    match *link {
        Link::ToLeaf(leaf) => leaf.key,
        Link::ToNode { key, .. } => key,
    }
}

/// The key of the first link, or this one where there is none.
pub fn first_key(key: Key, links: &[Link]) -> Key
    ensures { (seen : List NodeView) → result ≡ first_key key (row_of seen links.now) }
{
    match links.split_first() {
        None => key,
        Some((link, _)) => link_key(link),
    }
}

/// The key of a branch below which a leaf comes: a lower leaf's key takes its place.
fn lower_key(key: Key, leaf: &Leaf) -> Key
    ensures { result ≡ lowered leaf.now key }
{
    if rank(&leaf.key) < rank(&key) {
        return leaf.key;
    }
    key
}

/// Whether an insertion goes on behind the first link: a leaf of its key or a lower one, or a node before a link of
/// such a key.
fn goes_on(link: &Link, rest: &[Link], leaf: &Leaf) -> bool
    ensures { result ≡ insertion_passes leaf.now link.now rest.now }
{
    match link {
        Link::ToLeaf(own) => rank(&own.key) <= rank(&leaf.key),
        Link::ToNode { .. } => begin_within(rest, rank(&leaf.key)),
    }
}

impl NodeTable {
    /// Adds the nodes of one path below a node, with one more leaf there, and pushes links to what stands for the node.
    #[cycle(inserting)]
    pub(crate) fn insert_below<V: Volume>(
        &mut self,
        alloc: Global,
        volume: &mut V,
        cache: &mut NodeCache,
        top: Root,
        leaf: Leaf,
        made: &mut Vec<Link>,
    ) -> Result<(), AreaFault>
        requires there { AreStandingLinks (V.state volume.old) self.old.nodes.items made.old.items }
        requires key { IsKey leaf.key }
        requires stands { DoesRootStand (V.state volume.old) self.old.nodes.items (Some top) }
        requires kept { AreKept (V.state volume.old).holds cache.old }
        ensures made { (rest : KeyedRow) → OnOk result (row_before (node_views self.new.nodes.items) made.new.items rest ≡ row_before (node_views self.old.nodes.items) made.old.items (keyed_parted self.old.fanout (lowered leaf top.key) (inserted_by_keys self.old.fanout leaf (children_in (slice_get (node_views self.old.nodes.items) top.number))) rest)) }
        ensures there { OnOk result (AreStandingLinks (V.state volume.new) self.new.nodes.items made.new.items) }
        ensures added { AreNodesAdded self.old.nodes.items self.new.nodes.items }
        ensures fanout { self.new.fanout ≡ self.old.fanout }
        ensures reads { IsReadOnlyCall (V.state volume.old) (V.state volume.new) result }
        ensures kept { AreKept (V.state volume.new).holds cache.new }
    {
        let node = self.opened_copy(alloc, volume, cache, top.number)?;
        let mut links = Vec::new(alloc);
        self.insert_among(
            alloc,
            volume,
            cache,
            node.links.as_slice(),
            leaf,
            &mut links,
        )?;
        self.push_parted(
            alloc,
            volume,
            node.level,
            lower_key(top.key, &leaf),
            links.as_slice(),
            made,
        )?;
        Ok(())
    }

    /// The same among these links, and pushes all of them.
    #[cycle(inserting)]
    pub(crate) fn insert_among<V: Volume>(
        &mut self,
        alloc: Global,
        volume: &mut V,
        cache: &mut NodeCache,
        links: &[Link],
        leaf: Leaf,
        made: &mut Vec<Link>,
    ) -> Result<(), AreaFault>
        requires sound { fits self.old.fanout (bare (row_of (node_views self.old.nodes.items) links.now)) ≡ true }
        requires there { AreStandingLinks (V.state volume.old) self.old.nodes.items made.old.items }
        requires key { IsKey leaf.key }
        requires stands { DoLinksStand (V.state volume.old) self.old.nodes.items links.now }
        requires kept { AreKept (V.state volume.old).holds cache.old }
        ensures made { OnOk result (row_before (node_views self.new.nodes.items) made.new.items no_more ≡ row_before (node_views self.old.nodes.items) made.old.items (inserted_by_keys self.old.fanout leaf (row_of (node_views self.old.nodes.items) links.now))) }
        ensures there { OnOk result (AreStandingLinks (V.state volume.new) self.new.nodes.items made.new.items) }
        ensures added { AreNodesAdded self.old.nodes.items self.new.nodes.items }
        ensures fanout { self.new.fanout ≡ self.old.fanout }
        ensures reads { IsReadOnlyCall (V.state volume.old) (V.state volume.new) result }
        ensures kept { AreKept (V.state volume.new).holds cache.new }
    {
        match links.split_first() {
            None => {
                made.push(Link::ToLeaf(leaf))?;
                Ok(())
            }
            Some((link, rest)) => {
                if goes_on(link, rest, &leaf) {
                    made.push(*link)?;
                    return self.insert_among(alloc, volume, cache, rest, leaf, made);
                }
                match *link {
                    Link::ToLeaf(_) => {
                        made.push(Link::ToLeaf(leaf))?;
                        made.extend_from_slice(links)?;
                        Ok(())
                    }
                    Link::ToNode { key, number } => {
                        self.insert_below(alloc, volume, cache, Root { key, number }, leaf, made)?;
                        made.extend_from_slice(rest)?;
                        Ok(())
                    }
                }
            }
        }
    }

    /// Stages an insertion: adds the nodes of one path, and answers links to the topmost row that it makes, which are a leaf, a
    /// node, or the halves of one. Below each root stands what stood there, after a fault too.
    pub fn insert_row<V: Volume>(
        &mut self,
        alloc: Global,
        volume: &mut V,
        cache: &mut NodeCache,
        root: Option<Root>,
        leaf: Leaf,
    ) -> Result<Vec<Link>, AreaFault>
        requires key { IsKey leaf.key }
        requires stands { DoesRootStand (V.state volume.old) self.old.nodes.items root }
        requires kept { AreKept (V.state volume.old).holds cache.old }
        ensures made { IfOk result (λ links. row_of (node_views self.new.nodes.items) links.items ≡ inserted_by_keys self.old.fanout leaf (tree_at self.old.nodes.items root)) }
        ensures there { IfOk result (λ links. AreStandingLinks (V.state volume.new) self.new.nodes.items links.items) }
        ensures added { AreNodesAdded self.old.nodes.items self.new.nodes.items }
        ensures fanout { self.new.fanout ≡ self.old.fanout }
        ensures reads { IsReadOnlyCall (V.state volume.old) (V.state volume.new) result }
        ensures kept { AreKept (V.state volume.new).holds cache.new }
    {
        let mut made = Vec::new(alloc);
        match root {
            None => {
                made.push(Link::ToLeaf(leaf))?;
                Ok(made)
            }
            Some(top) => {
                self.insert_below(alloc, volume, cache, top, leaf, &mut made)?;
                Ok(made)
            }
        }
    }
}
