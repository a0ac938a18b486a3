// An insertion answers another root, and the old one goes on showing the old index.

ghost use Rattle.std.specs.Prelude.{◌≡◌, ◌+◌, IfOk, Some};
ghost use Rattle.index_media.specs.Insertion.{with_leaf_by_keys};
ghost use Rattle.node_cache.specs.Kept.{AreKept};
ghost use Rattle.node_cache.specs.Loaded.{IsReadOnlyCall};
ghost use Rattle.node_table.specs.Unloaded.{DoesRootStand};
ghost use Rattle.table_nodes.specs.NodeView.{tree_at};
ghost use Rattle.table_nodes.specs.Links.{AreNodesAdded};
ghost use Rattle.node_table.specs.Staging.{only_root, IsSoundRoot, IsTopRow};
ghost use Rattle.ubifs_base.specs.Key.{IsKey};

use crate::insertion::first_key;
use crate::table::NodeTable;
use index_tree::Leaf;
use node_cache::NodeCache;
use std::alloc::Global;
use table_nodes::{Link, Root, TableNode};
use ubi_volume::{AreaFault, Volume};
use ubifs_base::Memory;

/// The node that links lead to, if they are one link to a node.
pub fn only_node(links: &[Link]) -> Option<Root>
    ensures { result ≡ only_root links.now }
{
    match links.split_first() {
        None => None,
        Some((link, rest)) => {
            if !rest.is_empty() {
                return None;
            }
            match *link {
                Link::ToLeaf(_) => None,
                Link::ToNode { key, number } => Some(Root { key, number }),
            }
        }
    }
}

/// The level over this one; no level is above 65,535.
fn level_over(level: u16) -> Result<u16, Memory>
    ensures { IfOk result (λ above. above ≡ level + 1) }
{
    if level == u16::MAX {
        return Err(Memory);
    }
    Ok(level + 1)
}

impl NodeTable {
    /// The level of a node above a root.
    fn level_above(&self, root: Option<Root>) -> Result<u16, Memory>
        requires root { IsSoundRoot self.now.nodes.items root }
        ensures { IfOk result (λ level. IsTopRow self.now.fanout level (tree_at self.now.nodes.items root)) }
    {
        match root {
            None => Ok(0),
            Some(top) => match self.node_at(top.number) {
                None => Err(Memory),
                Some(node) => level_over(node.level),
            },
        }
    }

    /// Stages an insertion: puts the leaf after all leaves whose key isn't greater, by the keys of branches, and answers the
    /// new root. All nodes stay where they stood, and below each root stands what stood there, after a fault too.
    pub fn insert<V: Volume>(
        &mut self,
        alloc: Global,
        volume: &mut V,
        cache: &mut NodeCache,
        root: Option<Root>,
        leaf: Leaf,
    ) -> Result<Root, AreaFault>
        requires root { IsSoundRoot self.old.nodes.items root }
        requires key { IsKey leaf.key }
        requires stands { DoesRootStand (V.state volume.old) self.old.nodes.items root }
        requires kept { AreKept (V.state volume.old).holds cache.old }
        ensures made { IfOk result (λ made. tree_at self.new.nodes.items (Some made) ≡ with_leaf_by_keys self.old.fanout leaf (tree_at self.old.nodes.items root)) }
        ensures root { IfOk result (λ made. IsSoundRoot self.new.nodes.items (Some made)) }
        ensures stands { IfOk result (λ made. DoesRootStand (V.state volume.new) self.new.nodes.items (Some made)) }
        ensures added { AreNodesAdded self.old.nodes.items self.new.nodes.items }
        ensures fanout { self.new.fanout ≡ self.old.fanout }
        ensures reads { IsReadOnlyCall (V.state volume.old) (V.state volume.new) result }
        ensures kept { AreKept (V.state volume.new).holds cache.new }
    {
        let level = self.level_above(root)?;
        let links = self.insert_row(alloc, volume, cache, root, leaf)?;
        match only_node(links.as_slice()) {
            Some(top) => Ok(top),
            None => {
                let key = first_key(leaf.key, links.as_slice());
                let number = self.add(TableNode {
                    level,
                    place: None,
                    links,
                    beyond: None,
                })?;
                Ok(Root { key, number })
            }
        }
    }
}
