// The walk to the first leaf behind a rank: down to where the rank would stand, and where no greater leaf follows there,
// to the first leaf of the next node.

ghost use Rattle.std.specs.Prelude.{◌≡◌, ◌+◌, ◌∷◌, [], ℕ, IfOk};
ghost use Rattle.index_tree.specs.Order.{key_rank, first_after};
ghost use Rattle.index_tree.specs.Shape.{contents};
ghost use Rattle.index_media.specs.PlacedRow.{PlacedRow, ended, node_at, branches_of, plain};
ghost use Rattle.node_cache.specs.Kept.{AreKept};
ghost use Rattle.node_cache.specs.Loaded.{IsIndexOn, IsReadOnlyCall, IsRowOn};

use crate::bisect::branches_passed;
use crate::branches::{begin_within, leaf_to};
use crate::cache::NodeCache;
use crate::ranks::rank;
use index_tree::Leaf;
use media_sys::Branch;
use std::alloc::Global;
use ubi_volume::{AreaFault, Volume};
use ubifs_base::Key;

impl NodeCache {
    /// The first leaf of a greater key, in the index that stands on a volume from the branch of its root on; none where there is
    /// none. The volume is as it was.
    ///
    /// `Memory` and `Volume` are the faults.
    pub fn after<V: Volume>(
        &mut self,
        alloc: Global,
        volume: &mut V,
        root: &Branch,
        key: &Key,
    ) -> Result<Option<Leaf>, AreaFault>
        requires index { (fanout : ℕ) × (placed : PlacedRow) × IsIndexOn (V.state volume.old) fanout root.now placed }
        requires kept { AreKept (V.state volume.old).holds self.old }
        ensures found { (fanout : ℕ) (placed : PlacedRow) → IsIndexOn (V.state volume.old) fanout root.now placed
            → IfOk result (λ found. found ≡ first_after (key_rank key.now) (contents (plain placed))) }
        ensures reads { IsReadOnlyCall (V.state volume.old) (V.state volume.new) result }
        ensures kept { AreKept (V.state volume.new).holds self.new }
    {
        let level = self.level_at(alloc, volume, root)?;
        self.after_below(alloc, volume, root, level, rank(key))
    }

    /// The first leaf of a greater rank below the node to which a branch leads.
    #[cycle(following)]
    pub fn after_below<V: Volume>(
        &mut self,
        alloc: Global,
        volume: &mut V,
        branch: &Branch,
        level: u16,
        at: u128,
    ) -> Result<Option<Leaf>, AreaFault>
        requires row { (fanout : ℕ) × (row : PlacedRow) × IsRowOn (V.state volume.old) fanout (level + 1) (node_at branch.now row ended) }
        requires kept { AreKept (V.state volume.old).holds self.old }
        ensures found { (fanout : ℕ) (row : PlacedRow) → IsRowOn (V.state volume.old) fanout (level + 1) (node_at branch.now row ended)
            → IfOk result (λ found. found ≡ first_after at (contents (plain row))) }
        ensures reads { IsReadOnlyCall (V.state volume.old) (V.state volume.new) result }
        ensures kept { AreKept (V.state volume.new).holds self.new }
    {
        let node = self.take(alloc, volume, branch)?;
        let branches = node.branches.as_slice();
        let (_, rest) = branches.split_at(branches_passed(branches, at));
        let found = self.after_among(alloc, volume, rest, level, at);
        self.keep(branch, node);
        found
    }

    /// The same among these branches. With no level of nodes they lead to leaves.
    #[cycle(following)]
    fn after_among<V: Volume>(
        &mut self,
        alloc: Global,
        volume: &mut V,
        branches: &[Branch],
        levels: u16,
        at: u128,
    ) -> Result<Option<Leaf>, AreaFault>
        requires row { (fanout : ℕ) × (row : PlacedRow) × (branches_of row ≡ branches.now) × IsRowOn (V.state volume.old) fanout levels row }
        requires kept { AreKept (V.state volume.old).holds self.old }
        ensures found { (fanout : ℕ) (row : PlacedRow) → branches_of row ≡ branches.now → IsRowOn (V.state volume.old) fanout levels row
            → IfOk result (λ found. found ≡ first_after at (contents (plain row))) }
        ensures reads { IsReadOnlyCall (V.state volume.old) (V.state volume.new) result }
        ensures kept { AreKept (V.state volume.new).holds self.new }
    {
        match branches.split_first() {
            None => Ok(None),
            Some((branch, rest)) => {
                if begin_within(rest, at) {
                    return self.after_among(alloc, volume, rest, levels, at);
                }
                match self.after_at(alloc, volume, branch, levels, at)? {
                    Some(leaf) => Ok(Some(leaf)),
                    None => self.after_among(alloc, volume, rest, levels, at),
                }
            }
        }
    }

    /// The same at one branch.
    #[cycle(following)]
    fn after_at<V: Volume>(
        &mut self,
        alloc: Global,
        volume: &mut V,
        branch: &Branch,
        levels: u16,
        at: u128,
    ) -> Result<Option<Leaf>, AreaFault>
        requires row { (fanout : ℕ) × (row : PlacedRow) × (branches_of row ≡ branch.now ∷ []) × IsRowOn (V.state volume.old) fanout levels row }
        requires kept { AreKept (V.state volume.old).holds self.old }
        ensures found { (fanout : ℕ) (row : PlacedRow) → branches_of row ≡ branch.now ∷ [] → IsRowOn (V.state volume.old) fanout levels row
            → IfOk result (λ found. found ≡ first_after at (contents (plain row))) }
        ensures reads { IsReadOnlyCall (V.state volume.old) (V.state volume.new) result }
        ensures kept { AreKept (V.state volume.new).holds self.new }
    {
        if levels == 0 {
            return Ok(one_after(leaf_to(branch), at));
        }
        self.after_below(alloc, volume, branch, levels - 1, at)
    }
}

/// The same of one leaf.
fn one_after(leaf: Leaf, at: u128) -> Option<Leaf>
    ensures { result ≡ first_after at (leaf ∷ []) }
{
    if rank(&leaf.key) > at {
        return Some(leaf);
    }
    None
}
