// A node is given its place on the medium: the one change that is made of a node where it stands.

ghost use Rattle.std.specs.Prelude.{◌≡◌, Option, slice_get};
ghost use Rattle.node_table.specs.Clean.{IsReadyNode};
ghost use Rattle.node_table.specs.Dirty.{dirty_below};
ghost use Rattle.table_nodes.specs.NodeView.{node_views, children_in, tree_at};
ghost use Rattle.node_table.specs.Placing.{with_place, IsPlacedRow, without_number};
ghost use Rattle.node_table.specs.Staging.{IsSoundRoot};
ghost use Rattle.table_nodes.specs.Stubs.{unplaced};
ghost use Rattle.table_nodes.specs.declared.node.Root.{Root as ARoot};

use crate::table::NodeTable;
use table_nodes::{NodePlace, TableNode};

/// Gives a node a place, if it is there.
fn put_place(nodes: &mut Vec<TableNode>, number: u64, place: NodePlace)
    ensures { nodes.new.items ≡ with_place number place nodes.old.items }
{
    if let Some(node) = nodes.get_mut(number as usize) {
        node.place = Some(place);
    }
}

impl NodeTable {
    /// Gives a dirty node, below which all nodes are clean, its place on the medium. Below each root stands what stood
    /// there, but that this node has its place. No clean node's place changes.
    pub fn set_place(&mut self, number: u64, place: NodePlace)
        requires ready { IsReadyNode self.old.nodes.items number }
        ensures nodes { self.new.nodes.items ≡ with_place number place self.old.nodes.items }
        ensures trees { (root : Option ARoot) → IsPlacedRow place (children_in (slice_get (node_views self.old.nodes.items) number)) (tree_at self.old.nodes.items root) (tree_at self.new.nodes.items root) }
        ensures dirty { (root : Option ARoot) → dirty_below self.new.nodes.items root ≡ without_number number (dirty_below self.old.nodes.items root) }
        ensures roots { (root : Option ARoot) → IsSoundRoot self.old.nodes.items root → IsSoundRoot self.new.nodes.items root }
        ensures unplaced { unplaced self.new.nodes.items ≡ unplaced self.old.nodes.items }
        ensures fanout { self.new.fanout ≡ self.old.fanout }
    {
        put_place(&mut self.nodes, number, place);
    }
}
