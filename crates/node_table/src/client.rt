// A client of several calls, proved from their contracts alone.

ghost use Rattle.std.specs.Prelude.{◌≡◌, ◌+◌, IfOk, slice_get};
ghost use Rattle.index_media.specs.PlacedRow.{PlacedRow, ended, node_at, plain};
ghost use Rattle.index_tree.specs.Order.{key_rank, of_rank};
ghost use Rattle.index_tree.specs.Shape.{contents};
ghost use Rattle.node_cache.specs.Kept.{AreKept};
ghost use Rattle.node_cache.specs.Loaded.{IsReadOnlyCall, IsRowOn};

use crate::table::NodeTable;
use index_tree::Leaf;
use media_sys::Branch;
use node_cache::NodeCache;
use std::alloc::Global;
use table_nodes::Root;
use ubi_volume::{AreaFault, Volume};
use ubifs_base::Key;

/// Adds the node to which a branch leads without loading it, and finds a leaf below it: the one that stands there on the volume.
pub fn find_below_unloaded<V: Volume>(
    alloc: Global,
    volume: &mut V,
    cache: &mut NodeCache,
    table: &mut NodeTable,
    branch: &Branch,
    level: u16,
    key: &Key,
    nth: u32,
) -> Result<Option<Leaf>, AreaFault>
    requires row { (row : PlacedRow) × IsRowOn (V.state volume.old) table.old.fanout (level + 1) (node_at branch.now row ended) }
    requires kept { AreKept (V.state volume.old).holds cache.old }
    ensures found { (row : PlacedRow) → IsRowOn (V.state volume.old) table.old.fanout (level + 1) (node_at branch.now row ended)
        → IfOk result (λ found. found ≡ slice_get (of_rank (key_rank key.now) (contents (plain (node_at branch.now row ended)))) nth) }
    ensures reads { IsReadOnlyCall (V.state volume.old) (V.state volume.new) result }
    ensures kept { AreKept (V.state volume.new).holds cache.new }
{
    let number = table.add_unloaded(alloc, volume, branch, level)?;
    let root = Root {
        key: branch.key,
        number,
    };
    table.find(alloc, volume, cache, Some(root), key, nth)
}
