// The index that is kept.

ghost use Rattle.table_nodes.specs.NodeView.{tree_at, IsRootIn};
ghost use Rattle.index_media.specs.InsertionSound.{AreKeys};
ghost use Rattle.index_media.specs.KeyedKeys.{AreKeysBounded};
ghost use Rattle.std.specs.Prelude.{None};
ghost use Rattle.index_cache.specs.Props.{root_in-prop, keys-prop, bounded-prop};

use node_table::NodeTable;
use table_nodes::Root;

/// An index: nodes in a table, loaded or not, the root of those that are seen (none: the index is empty), and the root of those that a commit
/// writes (none: there are none).
///
/// Contracts see its shape, with keys of branches and places, as `keyed_tree_of self`, its leaves as `leaves_of self`, and what a
/// commit writes as `frozen_of self`.
#[derive(Drop)]
pub struct PagedIndex {
    pub(crate) table: NodeTable,
    pub(crate) root: Option<Root>,
    pub(crate) frozen: Option<Root>,
    ghost there: { IsRootIn table.nodes.items root } by { root_in-prop table.nodes.items root },
    ghost bounded: { AreKeysBounded 0 None (tree_at table.nodes.items root) } by { bounded-prop 0 None (tree_at table.nodes.items root) },
    ghost keys: { AreKeys (tree_at table.nodes.items root) } by { keys-prop (tree_at table.nodes.items root) },
    ghost frozen_there: { IsRootIn table.nodes.items frozen } by { root_in-prop table.nodes.items frozen },
    ghost frozen_bounded: { AreKeysBounded 0 None (tree_at table.nodes.items frozen) } by { bounded-prop 0 None (tree_at table.nodes.items frozen) },
    ghost frozen_keys: { AreKeys (tree_at table.nodes.items frozen) } by { keys-prop (tree_at table.nodes.items frozen) },
}
