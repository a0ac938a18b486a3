// A copy of a node, for a change: its children are there, loaded or not.

ghost use Rattle.std.specs.Prelude.{◌≡◌, ℕ, List, IfOk, OnOk, OnErr, None, ◌++◌, length, slice_get};
ghost use Rattle.index_media.specs.KeyedRow.{no_more};
ghost use Rattle.node_cache.specs.Kept.{AreKept};
ghost use Rattle.node_cache.specs.Loaded.{IsReadOnlyCall};
ghost use Rattle.node_cache.specs.OnVolume.{IsOnVolume};
ghost use Rattle.node_table.specs.Bounds.{AreNoLonger};
ghost use Rattle.node_table.specs.Dirty.{dirty_lists};
ghost use Rattle.node_table.specs.Unloaded.{AreStandingLinks, DoesNodeStand};
ghost use Rattle.table_nodes.specs.Links.{row_before, AreLinksIn, AreNodesAdded};
ghost use Rattle.table_nodes.specs.NodeView.{children_in, node_before, node_views, row_of};
ghost use Rattle.table_nodes.specs.Sound.{IsSoundView, AreSoundViews};
ghost use Rattle.table_nodes.specs.Stubs.{unplaced, AreOpened};
ghost use Rattle.ubifs_base.specs.declared.key.Key.{Key as AKey};

use crate::table::NodeTable;
use node_cache::NodeCache;
use std::alloc::Global;
use table_nodes::{Link, TableNode, push_children};
use ubi_volume::{AreaFault, Volume};
use ubifs_base::Memory;

/// Pushes so many bounds of 0, or none.
fn push_zeros(alloc: Global, most_dirty: &mut Vec<u64>, number: usize) -> Result<(), Memory>
    ensures pushed { OnOk result ((zeros : List ℕ) × (length zeros ≡ number) × (most_dirty.new.items ≡ most_dirty.old.items ++ zeros)) }
    ensures err { OnErr result (most_dirty.new.items ≡ most_dirty.old.items) }
{
    let zeros = vec![in alloc; 0; number]?;
    most_dirty.extend_from_slice(zeros.as_slice())?;
    Ok(())
}

/// Pushes links to the children of a node, and adds those that are nodes, if the node isn't loaded. Each node that is added has a bound of 0, since
/// it is clean. After a fault no node is added, and links that were pushed may stay.
pub fn push_opened<V: Volume>(
    alloc: Global,
    volume: &mut V,
    cache: &mut NodeCache,
    nodes: &mut Vec<TableNode>,
    most_dirty: &mut Vec<u64>,
    number: u64,
    links: &mut Vec<Link>,
) -> Result<(), AreaFault>
    requires sound { (fanout : ℕ) × AreSoundViews fanout (node_views nodes.old.items) }
    requires row { (key : AKey) × IsOnVolume (V.state volume.old) (node_before key (slice_get (node_views (unplaced nodes.old.items)) number) no_more) }
    requires kept { AreKept (V.state volume.old).holds cache.old }
    requires there { AreLinksIn (length nodes.old.items) links.old.items }
    ensures pushed { OnOk result (row_before (node_views nodes.new.items) links.new.items no_more ≡ row_before (node_views nodes.old.items) links.old.items (children_in (slice_get (node_views nodes.old.items) number))) }
    ensures opened { AreOpened nodes.old.items nodes.new.items }
    ensures there { OnOk result (AreLinksIn (length nodes.new.items) links.new.items) }
    ensures few { AreNoLonger (dirty_lists nodes.old.items) most_dirty.old.items → AreNoLonger (dirty_lists nodes.new.items) most_dirty.new.items }
    ensures reads { IsReadOnlyCall (V.state volume.old) (V.state volume.new) result }
    ensures kept { AreKept (V.state volume.new).holds cache.new }
{
    let before = nodes.len();
    match push_children(alloc, volume, cache, nodes, number, links) {
        Err(fault) => {
            nodes.truncate(before);
            Err(fault)
        }
        Ok(()) => match push_zeros(alloc, most_dirty, nodes.len() - before) {
            Err(_) => {
                nodes.truncate(before);
                Err(AreaFault::Memory)
            }
            Ok(()) => Ok(()),
        },
    }
}

impl NodeTable {
    /// Links to the children of a node; none where there is no such node. If it isn't loaded, it is read, unless it is kept, and its children that
    /// are nodes are added, none of them loaded. Below each link that isn't loaded all stands, if it stands below the node.
    pub(crate) fn opened_links<V: Volume>(
        &mut self,
        alloc: Global,
        volume: &mut V,
        cache: &mut NodeCache,
        number: u64,
    ) -> Result<Vec<Link>, AreaFault>
        requires stands { DoesNodeStand (V.state volume.old) self.old.nodes.items number }
        requires kept { AreKept (V.state volume.old).holds cache.old }
        ensures children { IfOk result (λ links. children_in (slice_get (node_views self.old.nodes.items) number) ≡ row_of (node_views self.new.nodes.items) links.items) }
        ensures links { IfOk result (λ links. AreStandingLinks (V.state volume.new) self.new.nodes.items links.items) }
        ensures added { AreNodesAdded self.old.nodes.items self.new.nodes.items }
        ensures fanout { self.new.fanout ≡ self.old.fanout }
        ensures reads { IsReadOnlyCall (V.state volume.old) (V.state volume.new) result }
        ensures kept { AreKept (V.state volume.new).holds cache.new }
    {
        let mut links = Vec::new(alloc);
        if let Some(_) = self.unloaded(number) {
            push_opened(
                alloc,
                volume,
                cache,
                &mut self.nodes,
                &mut self.most_dirty,
                number,
                &mut links,
            )?;
            return Ok(links);
        }
        match self.loaded_links(number) {
            None => Ok(links),
            Some(own) => {
                links.extend_from_slice(own)?;
                Ok(links)
            }
        }
    }

    /// The level of a node.
    fn level_of(&self, number: u64) -> Result<u16, Memory>
        ensures { IfOk result (λ level. IsSoundView self.now.fanout (record { level = level; place = None; children = children_in (slice_get (node_views self.now.nodes.items) number) })) }
    {
        match self.node_at(number) {
            None => Err(Memory),
            Some(node) => Ok(node.level),
        }
    }

    /// A copy of a node, without its place. If it isn't loaded, its children are added.
    pub(crate) fn opened_copy<V: Volume>(
        &mut self,
        alloc: Global,
        volume: &mut V,
        cache: &mut NodeCache,
        number: u64,
    ) -> Result<TableNode, AreaFault>
        requires stands { DoesNodeStand (V.state volume.old) self.old.nodes.items number }
        requires kept { AreKept (V.state volume.old).holds cache.old }
        ensures children { IfOk result (λ node. children_in (slice_get (node_views self.old.nodes.items) number) ≡ row_of (node_views self.new.nodes.items) node.links.items) }
        ensures sound { IfOk result (λ node. IsSoundView self.old.fanout (record { level = node.level; place = None; children = row_of (node_views self.new.nodes.items) node.links.items })) }
        ensures links { IfOk result (λ node. AreStandingLinks (V.state volume.new) self.new.nodes.items node.links.items) }
        ensures added { AreNodesAdded self.old.nodes.items self.new.nodes.items }
        ensures fanout { self.new.fanout ≡ self.old.fanout }
        ensures reads { IsReadOnlyCall (V.state volume.old) (V.state volume.new) result }
        ensures kept { AreKept (V.state volume.new).holds cache.new }
    {
        let level = self.level_of(number)?;
        let links = self.opened_links(alloc, volume, cache, number)?;
        Ok(TableNode {
            level,
            place: None,
            links,
            beyond: None,
        })
    }
}
