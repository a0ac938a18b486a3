// Clients, from the clauses alone.

ghost use Rattle.std.specs.Prelude.{◌≡◌, ◌+◌, ◌<◌, ℕ, IfOk, length, slice_get};
ghost use Rattle.index_media.specs.KeyedRow.{no_more, all_clean};
ghost use Rattle.index_media.specs.PlacedRow.{PlacedRow, ended, node_at};
ghost use Rattle.node_cache.specs.Kept.{AreKept};
ghost use Rattle.node_cache.specs.Loaded.{IsReadOnlyCall, IsRowOn};
ghost use Rattle.node_cache.specs.OnVolume.{IsOnVolume};
ghost use Rattle.table_nodes.specs.Links.{row_before};
ghost use Rattle.table_nodes.specs.NodeView.{children_in, node_before, node_views};
ghost use Rattle.table_nodes.specs.Sound.{AreSoundViews};
ghost use Rattle.table_nodes.specs.Stubs.{unplaced, AreOpened};
ghost use Rattle.ubifs_base.specs.declared.key.Key.{Key as AKey};

use crate::child_links::push_children;
use crate::link::Link;
use crate::node::{NodePlace, TableNode};
use crate::seen::see_medium;
use crate::stub_reading::open_node;
use media_sys::Branch;
use node_cache::NodeCache;
use std::alloc::Global;
use ubi_volume::{AreaFault, Volume};

/// The children of a node: links to them, and a node for each that is no leaf.
pub struct OpenedNode {
    pub nodes: Vec<TableNode>,
    pub links: Vec<Link>,
}

/// Tells what a volume holds, and opens the node to which a branch leads. Its level is given. The links show all that stands below
/// it, and one node alone was read.
pub fn open_on<V: Volume>(
    alloc: Global,
    volume: &mut V,
    cache: &mut NodeCache,
    branch: &Branch,
    level: u16,
) -> Result<OpenedNode, AreaFault>
    requires row { (fanout : ℕ) × (row : PlacedRow) × IsRowOn (V.state volume.old) fanout (level + 1) (node_at branch.now row ended) }
    requires kept { AreKept (V.state volume.old).holds cache.old }
    ensures shown { (fanout : ℕ) (row : PlacedRow) → IsRowOn (V.state volume.old) fanout (level + 1) (node_at branch.now row ended)
        → IfOk result (λ opened. row_before (node_views opened.nodes.items) opened.links.items no_more ≡ all_clean row) }
    ensures reads { IsReadOnlyCall (V.state volume.old) (V.state volume.new) result }
    ensures kept { AreKept (V.state volume.new).holds cache.new }
{
    let told = see_medium(volume);
    let place = NodePlace {
        lnum: branch.lnum,
        offs: branch.offs,
        len: branch.len,
    };
    let mut nodes = Vec::new(alloc);
    let mut links = Vec::new(alloc);
    open_node(
        alloc, volume, cache, &mut nodes, &told, &place, level, &mut links,
    )?;
    Ok(OpenedNode { nodes, links })
}

/// Opens a node of a table, and another one behind it, and answers links to the children of the latter: they show what they showed before.
pub fn open_second<V: Volume>(
    alloc: Global,
    volume: &mut V,
    cache: &mut NodeCache,
    nodes: &mut Vec<TableNode>,
    first: u64,
    second: u64,
) -> Result<Vec<Link>, AreaFault>
    requires sound { (fanout : ℕ) × AreSoundViews fanout (node_views nodes.old.items) }
    requires first { (key : AKey) × IsOnVolume (V.state volume.old) (node_before key (slice_get (node_views (unplaced nodes.old.items)) first) no_more) }
    requires second { (key : AKey) × IsOnVolume (V.state volume.old) (node_before key (slice_get (node_views (unplaced nodes.old.items)) second) no_more) }
    requires there { second < length nodes.old.items }
    requires kept { AreKept (V.state volume.old).holds cache.old }
    ensures shown { IfOk result (λ links. row_before (node_views nodes.new.items) links.items no_more ≡ children_in (slice_get (node_views nodes.old.items) second)) }
    ensures opened { AreOpened nodes.old.items nodes.new.items }
    ensures reads { IsReadOnlyCall (V.state volume.old) (V.state volume.new) result }
    ensures kept { AreKept (V.state volume.new).holds cache.new }
{
    let mut links = Vec::new(alloc);
    push_children(alloc, volume, cache, nodes, first, &mut links)?;
    let mut made = Vec::new(alloc);
    push_children(alloc, volume, cache, nodes, second, &mut made)?;
    Ok(made)
}
