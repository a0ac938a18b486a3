// A table is made anew of what is below a root: of dirty nodes, and of the clean ones to which they lead, which aren't loaded.

ghost use Rattle.std.specs.Prelude.{◌≡◌, ◌<◌, ◌≤◌, ◌+◌, ◌*◌, ◌∷◌, [], true, IfOk, OnOk, length, slice_get};
ghost use Rattle.index_media.specs.KeyedRow.{KeyedRow, no_more};
ghost use Rattle.node_cache.specs.OnVolume.{IsOnVolume};
ghost use Rattle.node_table.specs.Dirty.{dirty_among, dirty_below, dirty_from, dirty_lists};
ghost use Rattle.node_table.specs.Staging.{IsSoundRoot};
ghost use Rattle.node_table.specs.Unloaded.{are_unloaded_if_clean, AreStandingLinks, DoesRootStand};
ghost use Rattle.table_nodes.specs.Beyond.{branch_at_place};
ghost use Rattle.table_nodes.specs.Links.{row_before, AreLinksIn, AreNodesAdded};
ghost use Rattle.table_nodes.specs.NodeView.{linked_before, node_before, node_views, row_of, tree_at};
ghost use Rattle.table_nodes.specs.declared.link.Link.TheVariants.{ToNode};
ghost use Rattle.ubifs_base.specs.declared.key.Key.{Key as AKey};

use crate::table::NodeTable;
use media_sys::Branch;
use std::alloc::Global;
use table_nodes::{Link, NodePlace, Root, TableNode};
use ubi_volume::Volume;
use ubifs_base::{Key, Memory};

/// A table that was made anew, and the root that shows there what the other one showed.
#[derive(Drop)]
pub struct Compacted {
    pub table: NodeTable,
    pub root: Option<Root>,
}

/// A branch to a place. No key is looked at there.
fn branch_to_place(place: &NodePlace) -> Branch
    ensures { result ≡ branch_at_place place.now }
{
    Branch {
        lnum: place.lnum,
        offs: place.offs,
        len: place.len,
        key: Key::Ino { ino: 0 },
    }
}

impl NodeTable {
    /// Adds a node of this table to another one, and answers its number there. A dirty one leads there to what is below it, added before it. A clean
    /// one isn't loaded.
    #[cycle(compacting)]
    fn copy_below<V: Volume>(
        &self,
        alloc: Global,
        volume: &V,
        made: &mut NodeTable,
        number: u64,
    ) -> Result<u64, Memory>
        requires stands { (key : AKey) × IsOnVolume (V.state volume.now) (node_before key (slice_get (node_views self.now.nodes.items) number) no_more) }
        requires fanout { made.old.fanout ≡ self.now.fanout }
        requires clean { are_unloaded_if_clean made.old.nodes.items ≡ true }
        ensures copied { IfOk result (λ copy. (key : AKey) (rest : KeyedRow) → linked_before (node_views made.new.nodes.items) (ToNode key copy) rest ≡ node_before key (slice_get (node_views self.now.nodes.items) number) rest) }
        ensures there { IfOk result (λ copy. (key : AKey) → AreStandingLinks (V.state volume.now) made.new.nodes.items (ToNode key copy ∷ [])) }
        ensures added { AreNodesAdded made.old.nodes.items made.new.nodes.items }
        ensures clean { are_unloaded_if_clean made.new.nodes.items ≡ true }
        ensures few { OnOk result (length made.new.nodes.items ≤ length made.old.nodes.items + self.now.fanout * length (dirty_from self.now.nodes.items number) + 1) }
        ensures fanout { made.new.fanout ≡ made.old.fanout }
    {
        match self.node_at(number) {
            None => Err(Memory),
            Some(node) => match &node.place {
                Some(place) => {
                    let copy = made.add_unloaded(
                        alloc,
                        volume,
                        &branch_to_place(place),
                        node.level,
                    )?;
                    Ok(copy)
                }
                None => {
                    let mut copies = Vec::new(alloc);
                    self.copy_among(alloc, volume, made, node.links.as_slice(), &mut copies)?;
                    let copy = made.add(TableNode {
                        level: node.level,
                        place: None,
                        links: copies,
                        beyond: None,
                    })?;
                    Ok(copy)
                }
            },
        }
    }

    /// The same of what these links lead to, and pushes links to it.
    #[cycle(compacting)]
    fn copy_among<V: Volume>(
        &self,
        alloc: Global,
        volume: &V,
        made: &mut NodeTable,
        links: &[Link],
        copies: &mut Vec<Link>,
    ) -> Result<(), Memory>
        requires within { AreLinksIn (length self.now.nodes.items) links.now }
        requires stands { IsOnVolume (V.state volume.now) (row_of (node_views self.now.nodes.items) links.now) }
        requires there { AreStandingLinks (V.state volume.now) made.old.nodes.items copies.old.items }
        requires fanout { made.old.fanout ≡ self.now.fanout }
        requires clean { are_unloaded_if_clean made.old.nodes.items ≡ true }
        ensures copied { OnOk result (row_before (node_views made.new.nodes.items) copies.new.items no_more ≡ row_before (node_views made.old.nodes.items) copies.old.items (row_of (node_views self.now.nodes.items) links.now)) }
        ensures there { OnOk result (AreStandingLinks (V.state volume.now) made.new.nodes.items copies.new.items) }
        ensures added { AreNodesAdded made.old.nodes.items made.new.nodes.items }
        ensures clean { are_unloaded_if_clean made.new.nodes.items ≡ true }
        ensures few { OnOk result (length made.new.nodes.items ≤ length made.old.nodes.items + self.now.fanout * length (dirty_among (dirty_lists self.now.nodes.items) links.now) + length links.now) }
        ensures fanout { made.new.fanout ≡ made.old.fanout }
    {
        match links.split_first() {
            None => Ok(()),
            Some((link, rest)) => {
                match *link {
                    Link::ToLeaf(leaf) => copies.push(Link::ToLeaf(leaf))?,
                    Link::ToNode { key, number } => {
                        let copy = self.copy_below(alloc, volume, made, number)?;
                        copies.push(Link::ToNode { key, number: copy })?;
                    }
                }
                self.copy_among(alloc, volume, made, rest, copies)
            }
        }
    }

    /// Makes a table anew of what is below a root. Its dirty nodes are there, and the clean ones to which they lead, not loaded: at most the fanout
    /// for each dirty node, and one more. One to which two links lead is there twice. It shows the same, with the same places. Nothing is read. It
    /// asks that all clean nodes below the root stand on the volume.
    pub fn without_clean<V: Volume>(
        &self,
        alloc: Global,
        volume: &V,
        root: Option<Root>,
    ) -> Result<Compacted, Memory>
        requires root { IsSoundRoot self.now.nodes.items root }
        requires stands { IsOnVolume (V.state volume.now) (tree_at self.now.nodes.items root) }
        ensures tree { IfOk result (λ made. tree_at made.table.nodes.items made.root ≡ tree_at self.now.nodes.items root) }
        ensures root { IfOk result (λ made. IsSoundRoot made.table.nodes.items made.root) }
        ensures stands { IfOk result (λ made. DoesRootStand (V.state volume.now) made.table.nodes.items made.root) }
        ensures clean { IfOk result (λ made. are_unloaded_if_clean made.table.nodes.items ≡ true) }
        ensures few { IfOk result (λ made. length made.table.nodes.items ≤ self.now.fanout * length (dirty_below self.now.nodes.items root) + 1) }
        ensures fanout { IfOk result (λ made. made.table.fanout ≡ self.now.fanout) }
    {
        let mut table = NodeTable::new(alloc, self.fanout);
        match root {
            None => Ok(Compacted { table, root: None }),
            Some(top) => {
                let number = self.copy_below(alloc, volume, &mut table, top.number)?;
                let root = Some(Root {
                    key: top.key,
                    number,
                });
                Ok(Compacted { table, root })
            }
        }
    }
}
