// The numbers of a tree that stands on a volume.

ghost use Rattle.std.specs.Prelude.{◌≡◌, ◌+◌, IfOk, if◌then◌else◌, nat_le};
ghost use Rattle.index_media.specs.PlacedRow.{PlacedRow, branches_of, ended, node_at, plain};
ghost use Rattle.node_cache.specs.Loaded.{IsReadOnlyCall, IsRowOn};
ghost use Rattle.node_table.specs.Counting.{AreCountsOf};

use crate::counts::TreeCounts;
use media_sys::Branch;
use node_cache::read_node;
use std::alloc::Global;
use ubi_volume::{AreaFault, Volume};
use ubifs_base::Memory;

/// The numbers of two trees together. Where they pass 64 bits, it answers `Memory`.
pub(crate) fn both(x: TreeCounts, y: TreeCounts) -> Result<TreeCounts, Memory>
    ensures nodes { IfOk result (λ sum. sum.nodes ≡ x.nodes + y.nodes) }
    ensures weight { IfOk result (λ sum. sum.weight ≡ x.weight + y.weight) }
{
    match x.nodes.checked_add(y.nodes) {
        None => Err(Memory),
        Some(nodes) => match x.weight.checked_add(y.weight) {
            None => Err(Memory),
            Some(weight) => Ok(TreeCounts { nodes, weight }),
        },
    }
}

/// Those of a node with so many children alone: a full one weighs 2, any other 1.
pub(crate) fn counts_alone(children: usize, fanout: u32) -> TreeCounts
    ensures nodes { result.nodes ≡ 1 }
    ensures weight { result.weight ≡ 1 + (if nat_le fanout children then 1 else 0) }
{
    if fanout as usize <= children {
        return TreeCounts {
            nodes: 1,
            weight: 2,
        };
    }
    TreeCounts {
        nodes: 1,
        weight: 1,
    }
}

/// The numbers of the tree of the node to which a branch leads, on a volume. The node stands `level` levels above the lowest one, and a
/// full node has `fanout` children. It keeps the nodes of one path in memory. The volume is as it was.
///
/// `Memory` and `Volume` are the faults. Numbers past 64 bits are answered as want of memory.
#[cycle(walking)]
pub fn count_below<V: Volume>(
    alloc: Global,
    volume: &mut V,
    branch: &Branch,
    level: u16,
    fanout: u32,
) -> Result<TreeCounts, AreaFault>
    requires row { (row : PlacedRow) × IsRowOn (V.state volume.old) fanout (level + 1) (node_at branch.now row ended) }
    ensures counted { (row : PlacedRow) → IsRowOn (V.state volume.old) fanout (level + 1) (node_at branch.now row ended)
        → IfOk result (λ counts. AreCountsOf fanout (plain (node_at branch.now row ended)) counts) }
    ensures reads { IsReadOnlyCall (V.state volume.old) (V.state volume.new) result }
{
    let node = read_node(alloc, volume, branch)?;
    let branches = node.branches.as_slice();
    let below = count_among(alloc, volume, branches, level, fanout)?;
    let counts = both(counts_alone(branches.len(), fanout), below)?;
    Ok(counts)
}

/// The same of what these branches lead to, all together. With no level of nodes they lead to leaves.
#[cycle(walking)]
fn count_among<V: Volume>(
    alloc: Global,
    volume: &mut V,
    branches: &[Branch],
    levels: u16,
    fanout: u32,
) -> Result<TreeCounts, AreaFault>
    requires row { (row : PlacedRow) × (branches_of row ≡ branches.now) × IsRowOn (V.state volume.old) fanout levels row }
    ensures counted { (row : PlacedRow) → branches_of row ≡ branches.now → IsRowOn (V.state volume.old) fanout levels row
        → IfOk result (λ counts. AreCountsOf fanout (plain row) counts) }
    ensures reads { IsReadOnlyCall (V.state volume.old) (V.state volume.new) result }
{
    if levels == 0 {
        return Ok(TreeCounts {
            nodes: 0,
            weight: 0,
        });
    }
    match branches.split_first() {
        None => Ok(TreeCounts {
            nodes: 0,
            weight: 0,
        }),
        Some((branch, rest)) => {
            let first = count_below(alloc, volume, branch, levels - 1, fanout)?;
            let others = count_among(alloc, volume, rest, levels, fanout)?;
            let counts = both(first, others)?;
            Ok(counts)
        }
    }
}
