// An index that stands on a volume is taken up: its root is added without being loaded.

ghost use Rattle.std.specs.Prelude.{◌≡◌, true, IfOk};
ghost use Rattle.index_media.specs.KeyedRow.{no_more, all_clean};
ghost use Rattle.index_media.specs.PlacedRow.{PlacedRow};
ghost use Rattle.node_cache.specs.Loaded.{IsReadOnlyCall, IsIndexOn};
ghost use Rattle.node_table.specs.Unloaded.{are_unloaded_if_clean};
ghost use Rattle.index_cache.specs.Paged.{keyed_tree_of, frozen_of, fanout_of, DoesIndexStand};

use crate::paged::PagedIndex;
use media_sys::Branch;
use node_cache::read_node;
use node_table::NodeTable;
use std::alloc::Global;
use table_nodes::Root;
use ubi_volume::{AreaFault, Volume};
use ubifs_base::Geometry;

impl PagedIndex {
    /// Takes up the index that stands on a volume, from the branch of its root on (`root_lnum`, `root_offs` and `root_len` of
    /// `struct ubifs_mst_node`; its key is that of its first branch). The root is read, for its level, and no other node. All nodes are clean at
    /// their places, none is loaded, and nothing is frozen. The volume is as it was.
    ///
    /// `Memory` and `Volume` are the faults.
    pub fn at_root<V: Volume>(
        alloc: Global,
        volume: &mut V,
        geo: &Geometry,
        root: &Branch,
    ) -> Result<PagedIndex, AreaFault>
        requires index { (placed : PlacedRow) × IsIndexOn (V.state volume.old) geo.now.fanout root.now placed }
        ensures loaded { (placed : PlacedRow) → IsIndexOn (V.state volume.old) geo.now.fanout root.now placed → IfOk result (λ made. keyed_tree_of made ≡ all_clean placed) }
        ensures stands { IfOk result (λ made. DoesIndexStand (V.state volume.new) made) }
        ensures clean { IfOk result (λ made. are_unloaded_if_clean made.table.nodes.items ≡ true) }
        ensures frozen { IfOk result (λ made. frozen_of made ≡ no_more) }
        ensures fanout { IfOk result (λ made. fanout_of made ≡ geo.now.fanout) }
        ensures reads { IsReadOnlyCall (V.state volume.old) (V.state volume.new) result }
    {
        let mut table = NodeTable::new(alloc, geo.fanout);
        let node = read_node(alloc, volume, root)?;
        let number = table.add_unloaded(alloc, volume, root, node.level)?;
        Ok(PagedIndex {
            table,
            root: Some(Root {
                key: root.key,
                number,
            }),
            frozen: None,
        })
    }
}
