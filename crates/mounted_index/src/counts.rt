// How many nodes an index has, and what it weighs.

ghost use Rattle.std.specs.Prelude.{◌≡◌, IfOk};
ghost use Rattle.index_media.specs.KeyedRow.{KeyedRow, bare};
ghost use Rattle.index_media.specs.PlacedRow.{PlacedRow, plain};
ghost use Rattle.node_cache.specs.Loaded.{IsIndexOn, IsReadOnlyCall};
ghost use Rattle.mounted_index.specs.Shown.{KeepsShown, Shows};
ghost use Rattle.mounted_index.specs.Sizes.{IsSizeOf};

use crate::mounted::{IndexNodes, MountedIndex};
use index_media::an_insertion_goes_by_the_keys_of_branches;
use media_sys::Branch;
use node_cache::{kept_nodes_stay, read_node};
use node_table::count_below;
use std::alloc::Global;
use ubi_volume::{AreaFault, Volume};

/// What an index takes: its nodes, and its weight, which is the nodes and the full ones among them once more.
#[derive(Clone, Copy, Debug, PartialEq, Eq)]
pub struct IndexSize {
    pub nodes: u64,
    pub weight: u64,
}

// The size of an index that stands on a volume from the branch of its root on.
fn size_from<V: Volume>(
    alloc: Global,
    volume: &mut V,
    root: &Branch,
    fanout: u32,
) -> Result<IndexSize, AreaFault>
    requires index { (placed : PlacedRow) × IsIndexOn (V.state volume.old) fanout root.now placed }
    ensures counted { (placed : PlacedRow) → IsIndexOn (V.state volume.old) fanout root.now placed → IfOk result (λ size. IsSizeOf fanout (plain placed) size) }
    ensures reads { IsReadOnlyCall (V.state volume.old) (V.state volume.new) result }
{
    let node = read_node(alloc, volume, root)?;
    let counts = count_below(alloc, volume, root, node.level, fanout)?;
    Ok(IndexSize {
        nodes: counts.nodes,
        weight: counts.weight,
    })
}

impl MountedIndex {
    /// How many nodes the index has, and what it weighs. It looks at all nodes: if the index is on the volume alone, it reads them, and
    /// those of one path are in memory at a time. The volume is as it was.
    ///
    /// `Memory` and `Volume` are the faults. A size past 64 bits is answered as want of memory.
    pub fn size<V: Volume>(&mut self, alloc: Global, volume: &mut V) -> Result<IndexSize, AreaFault>
        requires shown { (row : KeyedRow) × Shows (V.state volume.old) self.old row }
        ensures size { (row : KeyedRow) → Shows (V.state volume.old) self.old row
            → IfOk result (λ size. IsSizeOf self.old.geometry.fanout (bare row) size) }
        ensures reads { IsReadOnlyCall (V.state volume.old) (V.state volume.new) result }
        ensures kept { KeepsShown (V.state volume.old) (V.state volume.new) self.old self.new }
        ensures nodes { self.new.nodes ≡ self.old.nodes }
    {
        an_insertion_goes_by_the_keys_of_branches();
        kept_nodes_stay();
        match &self.nodes {
            IndexNodes::OnMedium(root) => {
                let size = size_from(alloc, volume, root, self.geometry.fanout)?;
                Ok(size)
            }
            IndexNodes::InMemory(index) => {
                let size = index.size(alloc, volume)?;
                Ok(IndexSize {
                    nodes: size.nodes,
                    weight: size.weight,
                })
            }
        }
    }
}
