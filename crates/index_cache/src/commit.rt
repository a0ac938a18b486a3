// What a commit does with an index: it freezes it, and writes its dirty nodes, children before their parent.

ghost use Rattle.std.specs.Prelude.{◌≡◌, ◌≤◌, ℕ, true, IfOk, IfSome, IfNone, IsTrue, None, Option, length, option_map, slice_get};
ghost use Rattle.index_media.specs.Clean.{placed_of};
ghost use Rattle.index_media.specs.KeyedRow.{all_clean, bare};
ghost use Rattle.index_media.specs.PlacedRow.{branches_of};
ghost use Rattle.index_tree.specs.Levels.{levelled};
ghost use Rattle.index_tree.specs.Shape.{fits, is_whole};
ghost use Rattle.media_sys.specs.Index.{in_order};
ghost use Rattle.media_sys.specs.SystemNode.{IsSystemNode, index, written};
ghost use Rattle.table_nodes.specs.NodeView.{tree_at};
ghost use Rattle.table_nodes.specs.Stubs.{unplaced};
ghost use Rattle.node_table.specs.Clean.{IsReadyNode};
ghost use Rattle.node_table.specs.Placing.{with_place, IsPlacedRow, without_number};
ghost use Rattle.node_table.specs.Staging.{IsSoundRoot};
ghost use Rattle.table_nodes.specs.declared.node.Root.{Root as ARoot};
ghost use Rattle.index_cache.specs.Commit.{IsNextNode, said_of, below_node, node_length, place_for};
ghost use Rattle.index_cache.specs.Paged.{keyed_tree_of, frozen_of, dirty_of, fanout_of, KeepsRoots};

use crate::buffer::NodeBuffer;
use crate::paged::PagedIndex;
use crate::writing::{are_in_order, branch_to_node, tell_node};
use media_sys::Branch;
use node_table::clean_rows_are_placed;
use table_nodes::NodePlace;

/// A dirty node: its number, its level, and its length on the medium in bytes.
#[derive(Clone, Copy, Debug, PartialEq, Eq)]
pub struct DirtyNode {
    pub node: u64,
    pub level: u16,
    pub len: u32,
}

impl PagedIndex {
    /// Freezes the index that is seen, for a commit to write it. Changes that are made after it add nodes, and leave what is
    /// frozen. What was frozen before is frozen no more.
    pub fn freeze(&mut self)
        ensures frozen { frozen_of self.new ≡ keyed_tree_of self.old }
        ensures tree { keyed_tree_of self.new ≡ keyed_tree_of self.old }
        ensures nodes { self.new.table.nodes.items ≡ self.old.table.nodes.items }
        ensures root { self.new.frozen ≡ self.old.root }
        ensures seen { self.new.root ≡ self.old.root }
        ensures fanout { fanout_of self.new ≡ fanout_of self.old }
    {
        self.frozen = self.root;
    }

    /// The first dirty node of the frozen index, children before their parent. None exactly where all of the frozen index is
    /// clean: then it is a placed row, and stands on a medium if the bytes of each node were written there.
    ///
    /// Leaves stand as many levels below a node's children as its level says.
    pub fn next_dirty(&self) -> Option<DirtyNode>
        ensures first { option_map (λ found. found.node) result ≡ slice_get (dirty_of self.now) 0 }
        ensures next { IfSome result (λ found. IsNextNode self.now found.node) }
        ensures level { IfSome result (λ found. found.level ≡ (said_of self.now found.node).level) }
        ensures levels { IfSome result (λ found. levelled found.level (bare (below_node self.now found.node)) ≡ true) }
        ensures len { IfSome result (λ found. found.len ≡ node_length (said_of self.now found.node)) }
        ensures most { IfSome result (λ found. length (said_of self.now found.node).branches ≤ fanout_of self.now) }
        ensures none { IfNone result (frozen_of self.now ≡ all_clean (placed_of (frozen_of self.now))) }
    {
        clean_rows_are_placed();
        match self.table.next_dirty(self.frozen) {
            None => None,
            Some(node) => Some(DirtyNode {
                node,
                level: self.level_of(node),
                len: self.len_of(node),
            }),
        }
    }

    /// The level of a node, as high as it stands above the leaves below it; 0 where it isn't there.
    fn level_of(&self, node: u64) -> u16
        ensures level { result ≡ (said_of self.now node).level }
        ensures levels { levelled result (bare (below_node self.now node)) ≡ true }
        ensures most { length (said_of self.now node).branches ≤ fanout_of self.now }
    {
        match self.table.node_at(node) {
            None => 0,
            Some(found) => found.level,
        }
    }

    /// The length of a dirty node on the medium; that of one without children where it isn't there.
    fn len_of(&self, node: u64) -> u32
        requires ready { IsReadyNode self.now.table.nodes.items node }
        ensures { result ≡ node_length (said_of self.now node) }
    {
        match self.table.node_at(node) {
            None => 28,
            Some(found) => 28 + 20 * found.links.len() as u32,
        }
    }

    /// Writes the bytes of the next dirty node over all of `out`: an index node with this sequence number, in no group. It takes no
    /// memory but the buffer's.
    ///
    /// False exactly where two of its branches have one key that isn't an entry's. No index node says such, and nothing is
    /// said of `out` then.
    pub fn write_node(&self, node: u64, sqnum: u64, buffer: &mut NodeBuffer, out: &mut [u8]) -> bool
        requires next { IsNextNode self.now node }
        requires room { length out.old ≡ node_length (said_of self.now node) }
        ensures order { result ≡ in_order None (said_of self.now node).branches }
        ensures spelling { IsTrue result → out.new ≡ written sqnum 0 (index (said_of self.now node)) }
        ensures grammar { IsTrue result → IsSystemNode out.new sqnum 0 (index (said_of self.now node)) }
    {
        let Some(found) = self.table.node_at(node) else {
            return false;
        };
        tell_node(&self.table, found, &mut buffer.node);
        if !are_in_order(None, buffer.node.branches.as_slice()) {
            return false;
        }
        buffer.node.encode(sqnum, 0, out);
        true
    }

    /// Gives the next dirty node its place on the medium: in this LEB, from this offset on, as long as it is. Below each root
    /// stands what stood there, but that this node has its place: so does the frozen index, the one that is seen, and what is
    /// staged, which may be adopted then. No other node's place changes.
    pub fn place(&mut self, node: u64, lnum: u32, offs: u32)
        requires next { IsNextNode self.old node }
        ensures nodes { self.new.table.nodes.items ≡ with_place node (place_for lnum offs (said_of self.old node)) self.old.table.nodes.items }
        ensures frozen { IsPlacedRow (place_for lnum offs (said_of self.old node)) (below_node self.old node) (frozen_of self.old) (frozen_of self.new) }
        ensures tree { IsPlacedRow (place_for lnum offs (said_of self.old node)) (below_node self.old node) (keyed_tree_of self.old) (keyed_tree_of self.new) }
        ensures trees { (root : Option ARoot) → IsPlacedRow (place_for lnum offs (said_of self.old node)) (below_node self.old node) (tree_at self.old.table.nodes.items root) (tree_at self.new.table.nodes.items root) }
        ensures dirty { dirty_of self.new ≡ without_number node (dirty_of self.old) }
        ensures keeps { KeepsRoots self.old self.new }
        ensures unplaced { unplaced self.new.table.nodes.items ≡ unplaced self.old.table.nodes.items }
    {
        let len = self.len_of(node);
        self.table.set_place(node, NodePlace { lnum, offs, len });
    }

    /// The branch to the root of the frozen index; none where that is empty. While the root is dirty, it leads nowhere. The
    /// frozen index is one: a root alone or nothing, of nodes with 1 to `fanout` children, with all leaves on one level.
    pub fn frozen_branch(&self) -> Option<Branch>
        ensures first { result ≡ slice_get (branches_of (placed_of (frozen_of self.now))) 0 }
        ensures sound { IsSoundRoot self.now.table.nodes.items self.now.frozen }
        ensures fits { fits (fanout_of self.now) (bare (frozen_of self.now)) ≡ true }
        ensures whole { is_whole (bare (frozen_of self.now)) ≡ true }
        ensures levels { (level : ℕ) × (levelled level (bare (frozen_of self.now)) ≡ true) }
    {
        self.table.trees_fit();
        match self.frozen {
            None => None,
            Some(root) => Some(branch_to_node(&self.table, root.key, root.number)),
        }
    }
}
