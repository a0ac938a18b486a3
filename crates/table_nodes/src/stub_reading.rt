// A node that isn't loaded is read from a volume.

ghost use Rattle.std.specs.Prelude.{◌≡◌, ◌<◌, OnOk, length};
ghost use Rattle.index_media.specs.KeyedRow.{no_more};
ghost use Rattle.node_cache.specs.Kept.{AreKept};
ghost use Rattle.node_cache.specs.Loaded.{IsReadOnlyCall};
ghost use Rattle.rows_below.specs.NodeSaid.{node_said_at};
ghost use Rattle.table_nodes.specs.Beyond.{branch_at_place, contents_told, row_told};
ghost use Rattle.table_nodes.specs.NodeView.{node_views};
ghost use Rattle.table_nodes.specs.Links.{row_before, AreLinksIn};
ghost use Rattle.table_nodes.specs.StubRows.{StandsAsTold};
ghost use Rattle.table_nodes.specs.Stubs.{AreStubs};

use crate::link::Link;
use crate::node::{NodePlace, TableNode};
use crate::seen::MediumSeen;
use crate::stubs::open_branches;
use media_sys::Branch;
use node_cache::NodeCache;
use std::alloc::Global;
use told_value::Told;
use ubi_volume::{AreaFault, Volume};
use ubifs_base::Key;

/// Reads a node that isn't loaded, if it isn't kept, and opens it: pushes links to its children, which are leaves, or nodes that are added and aren't
/// loaded. An index node still stands at its place, with the branches that were told.
///
/// `Memory` and `Volume` are the faults. Nodes that were added and links that were pushed stay then.
pub fn open_node<V: Volume>(
    alloc: Global,
    volume: &mut V,
    cache: &mut NodeCache,
    nodes: &mut Vec<TableNode>,
    told: &Told<MediumSeen>,
    place: &NodePlace,
    level: u16,
    links: &mut Vec<Link>,
) -> Result<(), AreaFault>
    requires lnum { place.now.lnum < (V.state volume.old).leb_cnt }
    requires stands { StandsAsTold (V.state volume.old).holds told.now.value (branch_at_place place.now) }
    requires kept { AreKept (V.state volume.old).holds cache.old }
    requires there { AreLinksIn (length nodes.old.items) links.old.items }
    ensures opened { OnOk result (row_before (node_views nodes.new.items) links.new.items no_more ≡ row_before (node_views nodes.old.items) links.old.items (row_told told.now.value level (branch_at_place place.now))) }
    ensures there { OnOk result (AreLinksIn (length nodes.new.items) links.new.items) }
    ensures stubs { AreStubs told.now.value level (node_said_at (contents_told told.now.value) (branch_at_place place.now)).branches nodes.old.items nodes.new.items }
    ensures reads { IsReadOnlyCall (V.state volume.old) (V.state volume.new) result }
    ensures kept { AreKept (V.state volume.new).holds cache.new }
{
    let branch = Branch {
        lnum: place.lnum,
        offs: place.offs,
        len: place.len,
        key: Key::Ino { ino: 0 },
    };
    let node = cache.node(alloc, volume, &branch)?;
    open_branches(alloc, nodes, told, node.branches.as_slice(), level, links)?;
    Ok(())
}
