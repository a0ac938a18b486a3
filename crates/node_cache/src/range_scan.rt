// The leaves of a range of keys.

ghost use Rattle.std.specs.Prelude.{◌≡◌, ◌+◌, ◌++◌, ◌∷◌, [], ℕ, IfOk, OnOk};
ghost use Rattle.index_tree.specs.Order.{key_rank};
ghost use Rattle.index_tree.specs.RangeRemoval.{within_range};
ghost use Rattle.index_tree.specs.Shape.{contents};
ghost use Rattle.index_media.specs.PlacedRow.{PlacedRow, ended, node_at, branches_of, plain};
ghost use Rattle.node_cache.specs.Kept.{AreKept};
ghost use Rattle.node_cache.specs.Loaded.{IsIndexOn, IsReadOnlyCall, IsRowOn};

use crate::bisect::lower_branches_passed;
use crate::branches::{begin_below, begin_within, leaf_to};
use crate::cache::NodeCache;
use crate::ranks::rank;
use index_tree::Leaf;
use media_sys::Branch;
use std::alloc::Global;
use ubi_volume::{AreaFault, Volume};
use ubifs_base::{Key, Memory};

/// Pushes a leaf, if its rank lies in a range, both ends included.
fn push_in_range(leaf: Leaf, from: u128, to: u128, leaves: &mut Vec<Leaf>) -> Result<(), Memory>
    ensures { OnOk result (leaves.new.items ≡ leaves.old.items ++ within_range from to (leaf ∷ [])) }
{
    let at = rank(&leaf.key);
    if at < from {
        return Ok(());
    }
    if at > to {
        return Ok(());
    }
    leaves.push(leaf)?;
    Ok(())
}

impl NodeCache {
    /// The leaves with keys from `from` to `to`, both included, in the order of the index that stands on a volume from the branch of
    /// its root on. It goes down the paths to these leaves alone. The volume is as it was.
    ///
    /// `Memory` and `Volume` are the faults.
    pub fn leaves_between<V: Volume>(
        &mut self,
        alloc: Global,
        volume: &mut V,
        root: &Branch,
        from: &Key,
        to: &Key,
    ) -> Result<Vec<Leaf>, AreaFault>
        requires index { (fanout : ℕ) × (placed : PlacedRow) × IsIndexOn (V.state volume.old) fanout root.now placed }
        requires kept { AreKept (V.state volume.old).holds self.old }
        ensures leaves { (fanout : ℕ) (placed : PlacedRow) → IsIndexOn (V.state volume.old) fanout root.now placed
            → IfOk result (λ leaves. leaves.items ≡ within_range (key_rank from.now) (key_rank to.now) (contents (plain placed))) }
        ensures reads { IsReadOnlyCall (V.state volume.old) (V.state volume.new) result }
        ensures kept { AreKept (V.state volume.new).holds self.new }
    {
        let level = self.level_at(alloc, volume, root)?;
        let mut leaves = Vec::new(alloc);
        self.push_range_below(
            alloc,
            volume,
            root,
            level,
            rank(from),
            rank(to),
            &mut leaves,
        )?;
        Ok(leaves)
    }

    /// Pushes the leaves of these ranks below the node to which a branch leads, both ends included.
    #[cycle(ranging)]
    pub fn push_range_below<V: Volume>(
        &mut self,
        alloc: Global,
        volume: &mut V,
        branch: &Branch,
        level: u16,
        from: u128,
        to: u128,
        leaves: &mut Vec<Leaf>,
    ) -> Result<(), AreaFault>
        requires row { (fanout : ℕ) × (row : PlacedRow) × IsRowOn (V.state volume.old) fanout (level + 1) (node_at branch.now row ended) }
        requires kept { AreKept (V.state volume.old).holds self.old }
        ensures pushed { (fanout : ℕ) (row : PlacedRow) → IsRowOn (V.state volume.old) fanout (level + 1) (node_at branch.now row ended)
            → OnOk result (leaves.new.items ≡ leaves.old.items ++ within_range from to (contents (plain row))) }
        ensures reads { IsReadOnlyCall (V.state volume.old) (V.state volume.new) result }
        ensures kept { AreKept (V.state volume.new).holds self.new }
    {
        let node = self.take(alloc, volume, branch)?;
        let branches = node.branches.as_slice();
        let (_, rest) = branches.split_at(lower_branches_passed(branches, from));
        let pushed = self.push_range_among(alloc, volume, rest, level, from, to, leaves);
        self.keep(branch, node);
        pushed
    }

    /// The same among these branches. With no level of nodes they lead to leaves.
    #[cycle(ranging)]
    fn push_range_among<V: Volume>(
        &mut self,
        alloc: Global,
        volume: &mut V,
        branches: &[Branch],
        levels: u16,
        from: u128,
        to: u128,
        leaves: &mut Vec<Leaf>,
    ) -> Result<(), AreaFault>
        requires row { (fanout : ℕ) × (row : PlacedRow) × (branches_of row ≡ branches.now) × IsRowOn (V.state volume.old) fanout levels row }
        requires kept { AreKept (V.state volume.old).holds self.old }
        ensures pushed { (fanout : ℕ) (row : PlacedRow) → branches_of row ≡ branches.now → IsRowOn (V.state volume.old) fanout levels row
            → OnOk result (leaves.new.items ≡ leaves.old.items ++ within_range from to (contents (plain row))) }
        ensures reads { IsReadOnlyCall (V.state volume.old) (V.state volume.new) result }
        ensures kept { AreKept (V.state volume.new).holds self.new }
    {
        match branches.split_first() {
            None => Ok(()),
            Some((branch, rest)) => {
                if begin_below(rest, from) {
                    return self.push_range_among(alloc, volume, rest, levels, from, to, leaves);
                }
                self.push_range_at(alloc, volume, branch, levels, from, to, leaves)?;
                if begin_within(rest, to) {
                    return self.push_range_among(alloc, volume, rest, levels, from, to, leaves);
                }
                Ok(())
            }
        }
    }

    /// The same at one branch.
    #[cycle(ranging)]
    fn push_range_at<V: Volume>(
        &mut self,
        alloc: Global,
        volume: &mut V,
        branch: &Branch,
        levels: u16,
        from: u128,
        to: u128,
        leaves: &mut Vec<Leaf>,
    ) -> Result<(), AreaFault>
        requires row { (fanout : ℕ) × (row : PlacedRow) × (branches_of row ≡ branch.now ∷ []) × IsRowOn (V.state volume.old) fanout levels row }
        requires kept { AreKept (V.state volume.old).holds self.old }
        ensures pushed { (fanout : ℕ) (row : PlacedRow) → branches_of row ≡ branch.now ∷ [] → IsRowOn (V.state volume.old) fanout levels row
            → OnOk result (leaves.new.items ≡ leaves.old.items ++ within_range from to (contents (plain row))) }
        ensures reads { IsReadOnlyCall (V.state volume.old) (V.state volume.new) result }
        ensures kept { AreKept (V.state volume.new).holds self.new }
    {
        if levels == 0 {
            push_in_range(leaf_to(branch), from, to, leaves)?;
            return Ok(());
        }
        self.push_range_below(alloc, volume, branch, levels - 1, from, to, leaves)
    }
}
