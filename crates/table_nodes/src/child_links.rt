// Links to the children of a node, loaded or not.

ghost use Rattle.std.specs.Prelude.{◌≡◌, ℕ, OnOk, Some, false, length, slice_get};
ghost use Rattle.index_media.specs.KeyedRow.{no_more};
ghost use Rattle.node_cache.specs.Kept.{AreKept};
ghost use Rattle.node_cache.specs.Loaded.{IsReadOnlyCall};
ghost use Rattle.node_cache.specs.OnVolume.{IsOnVolume};
ghost use Rattle.table_nodes.specs.Links.{row_before, AreLinksIn};
ghost use Rattle.table_nodes.specs.NodeView.{children_in, node_before, node_views};
ghost use Rattle.table_nodes.specs.Sound.{AreSoundViews};
ghost use Rattle.table_nodes.specs.Stubs.{is_stub, unplaced, AreOpened};
ghost use Rattle.table_nodes.specs.declared.node.TableNode.{TableNode as ANode};
ghost use Rattle.ubifs_base.specs.declared.key.Key.{Key as AKey};

use crate::link::Link;
use crate::node::TableNode;
use crate::stub_node::{stored_at, stub_at};
use crate::stub_reading::open_node;
use node_cache::NodeCache;
use std::alloc::Global;
use ubi_volume::{AreaFault, Volume};
use ubifs_base::Memory;

/// Pushes the links of a node that is loaded; none where there is no such node.
fn push_links(nodes: &[TableNode], number: u64, links: &mut Vec<Link>) -> Result<(), Memory>
    requires sound { (fanout : ℕ) × AreSoundViews fanout (node_views nodes.now) }
    requires loaded { (node : ANode) → slice_get nodes.now number ≡ Some node → is_stub node ≡ false }
    requires there { AreLinksIn (length nodes.now) links.old.items }
    ensures pushed { OnOk result (row_before (node_views nodes.now) links.new.items no_more ≡ row_before (node_views nodes.now) links.old.items (children_in (slice_get (node_views nodes.now) number))) }
    ensures there { OnOk result (AreLinksIn (length nodes.now) links.new.items) }
{
    match stored_at(nodes, number) {
        None => Ok(()),
        Some(node) => {
            links.extend_from_slice(node.links.as_slice())?;
            Ok(())
        }
    }
}

/// Pushes links to the children of the node of this number, from left to right; none where there is no such node. If the node isn't loaded, it is
/// read, unless it is kept, and its children that are nodes are added, none of them loaded. It still stands where it was met, if it isn't loaded.
///
/// `Memory` and `Volume` are the faults. Nodes that were added and links that were pushed stay then.
pub fn push_children<V: Volume>(
    alloc: Global,
    volume: &mut V,
    cache: &mut NodeCache,
    nodes: &mut Vec<TableNode>,
    number: u64,
    links: &mut Vec<Link>,
) -> Result<(), AreaFault>
    requires sound { (fanout : ℕ) × AreSoundViews fanout (node_views nodes.old.items) }
    requires row { (key : AKey) × IsOnVolume (V.state volume.old) (node_before key (slice_get (node_views (unplaced nodes.old.items)) number) no_more) }
    requires kept { AreKept (V.state volume.old).holds cache.old }
    requires there { AreLinksIn (length nodes.old.items) links.old.items }
    ensures pushed { OnOk result (row_before (node_views nodes.new.items) links.new.items no_more ≡ row_before (node_views nodes.old.items) links.old.items (children_in (slice_get (node_views nodes.old.items) number))) }
    ensures opened { AreOpened nodes.old.items nodes.new.items }
    ensures there { OnOk result (AreLinksIn (length nodes.new.items) links.new.items) }
    ensures reads { IsReadOnlyCall (V.state volume.old) (V.state volume.new) result }
    ensures kept { AreKept (V.state volume.new).holds cache.new }
{
    match stub_at(nodes.as_slice(), number) {
        None => {
            push_links(nodes.as_slice(), number, links)?;
            Ok(())
        }
        Some(stub) => open_node(
            alloc,
            volume,
            cache,
            nodes,
            &stub.told,
            &stub.place,
            stub.level,
            links,
        ),
    }
}
