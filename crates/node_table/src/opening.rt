// A node is opened by its number.

ghost use Rattle.std.specs.Prelude.{◌≡◌, ◌≤◌, IfSome, IfNone, Option, None, Some, true, false, length, slice_get};
ghost use Rattle.index_media.specs.KeyedKeys.{AreKeysBounded};
ghost use Rattle.index_media.specs.KeyedRow.{no_more, bare};
ghost use Rattle.index_tree.specs.Shape.{fits};
ghost use Rattle.node_table.specs.Unloaded.{IsUnloaded};
ghost use Rattle.table_nodes.specs.NodeView.{node_views, node_view_of, row_of, children_in, tree_at, IsRootIn};
ghost use Rattle.table_nodes.specs.Sound.{IsSoundView};
ghost use Rattle.table_nodes.specs.Stubs.{is_stub, unplaced};
ghost use Rattle.table_nodes.specs.declared.node.Root.{Root as ARoot};
ghost use Rattle.table_nodes.specs.declared.node.TableNode.{TableNode as ANode};

use crate::table::NodeTable;
use media_sys::Branch;
use table_nodes::{Link, TableNode, stub_at};
use ubifs_base::Key;

/// A node that isn't loaded: a branch to it, without its key, and how far it stands above the lowest level.
#[derive(Clone, Copy)]
pub(crate) struct Unloaded {
    pub(crate) branch: Branch,
    pub(crate) level: u16,
}

impl NodeTable {
    /// The node that stands at this number; none where there is no such node.
    fn stored_at(&self, number: u64) -> Option<&TableNode>
        ensures some { IfSome result (λ node. slice_get self.now.nodes.items number ≡ Some node.now) }
        ensures none { IfNone result (length self.now.nodes.items ≤ number) }
    {
        self.nodes.get(number as usize)
    }

    /// The node of this number, with its level, its place and its links; none where there is no such node.
    pub fn node_at(&self, number: u64) -> Option<&TableNode>
        ensures some { IfSome result (λ node. slice_get self.now.nodes.items number ≡ Some node.now) }
        ensures seen { IfSome result (λ node. slice_get (node_views self.now.nodes.items) number ≡ Some (node_view_of (node_views self.now.nodes.items) node.now)) }
        ensures sound { IfSome result (λ node. IsSoundView self.now.fanout (node_view_of (node_views self.now.nodes.items) node.now)) }
        ensures linked { IfSome result (λ node. is_stub node.now ≡ false → children_in (slice_get (node_views self.now.nodes.items) number) ≡ row_of (node_views self.now.nodes.items) node.now.links.items) }
        ensures none { IfNone result (length self.now.nodes.items ≤ number) }
        ensures unseen { IfNone result (slice_get (node_views self.now.nodes.items) number ≡ None) }
    {
        match self.stored_at(number) {
            None => None,
            Some(node) => Some(node),
        }
    }

    /// The branch to the node of this number, and its level, if it isn't loaded.
    pub(crate) fn unloaded(&self, number: u64) -> Option<Unloaded>
        ensures some { IfSome result (IsUnloaded self.now.nodes.items number) }
        ensures none { IfNone result ((node : ANode) → slice_get self.now.nodes.items number ≡ Some node → is_stub node ≡ false) }
    {
        match stub_at(self.nodes.as_slice(), number) {
            None => None,
            Some(stub) => Some(Unloaded {
                branch: Branch {
                    lnum: stub.place.lnum,
                    offs: stub.place.offs,
                    len: stub.place.len,
                    key: Key::Ino { ino: 0 },
                },
                level: stub.level,
            }),
        }
    }

    /// The links of a node that is loaded; none where there is no such node.
    pub(crate) fn loaded_links(&self, number: u64) -> Option<&[Link]>
        requires loaded { (node : ANode) → slice_get self.now.nodes.items number ≡ Some node → is_stub node ≡ false }
        ensures some { IfSome result (λ links. children_in (slice_get (node_views self.now.nodes.items) number) ≡ row_of (node_views self.now.nodes.items) links.now) }
        ensures bounded { IfSome result (λ links. AreKeysBounded 0 None (row_of (node_views self.now.nodes.items) links.now)) }
        ensures unplaced { IfSome result (λ links. children_in (slice_get (node_views (unplaced self.now.nodes.items)) number) ≡ row_of (node_views (unplaced self.now.nodes.items)) links.now) }
        ensures none { IfNone result (children_in (slice_get (node_views self.now.nodes.items) number) ≡ no_more) }
    {
        match self.stored_at(number) {
            None => None,
            Some(node) => Some(node.links.as_slice()),
        }
    }

    /// Each node below a root has 1 to `fanout` children.
    pub fn trees_fit(&self)
        ensures { (root : Option ARoot) → IsRootIn self.now.nodes.items root → fits self.now.fanout (bare (tree_at self.now.nodes.items root)) ≡ true }
    {}
}
