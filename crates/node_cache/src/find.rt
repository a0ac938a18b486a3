// The walk to a leaf by its key: down one path, and where leaves of the key stand in several nodes, on to the next of them.

ghost use Rattle.std.specs.Prelude.{◌≡◌, ◌+◌, ◌∷◌, [], ℕ, IfOk, slice_get};
ghost use Rattle.index_tree.specs.Order.{key_rank, of_rank};
ghost use Rattle.index_tree.specs.Shape.{contents};
ghost use Rattle.index_media.specs.PlacedRow.{PlacedRow, ended, node_at, branches_of, plain};
ghost use Rattle.node_cache.specs.Branches.{IsNth};
ghost use Rattle.node_cache.specs.Kept.{AreKept};
ghost use Rattle.node_cache.specs.Loaded.{IsIndexOn, IsReadOnlyCall, IsRowOn};

use crate::bisect::lower_branches_passed;
use crate::branches::{begin_below, begin_within, leaf_to};
use crate::cache::NodeCache;
use crate::nth::Nth;
use crate::ranks::rank;
use index_tree::Leaf;
use media_sys::Branch;
use std::alloc::Global;
use ubi_volume::{AreaFault, Volume};
use ubifs_base::Key;

impl NodeCache {
    /// The leaf of this key behind `nth` others of the same key, in the index that stands on a volume from the branch of its root
    /// on; none where there are too few. The volume is as it was.
    ///
    /// `Memory` and `Volume` are the faults.
    pub fn find<V: Volume>(
        &mut self,
        alloc: Global,
        volume: &mut V,
        root: &Branch,
        key: &Key,
        nth: u32,
    ) -> Result<Option<Leaf>, AreaFault>
        requires index { (fanout : ℕ) × (placed : PlacedRow) × IsIndexOn (V.state volume.old) fanout root.now placed }
        requires kept { AreKept (V.state volume.old).holds self.old }
        ensures found { (fanout : ℕ) (placed : PlacedRow) → IsIndexOn (V.state volume.old) fanout root.now placed
            → IfOk result (λ found. found ≡ slice_get (of_rank (key_rank key.now) (contents (plain placed))) nth) }
        ensures reads { IsReadOnlyCall (V.state volume.old) (V.state volume.new) result }
        ensures kept { AreKept (V.state volume.new).holds self.new }
    {
        let level = self.level_at(alloc, volume, root)?;
        match self.find_below(alloc, volume, root, level, rank(key), nth)? {
            Nth::Found(leaf) => Ok(Some(leaf)),
            Nth::Fewer(_) => Ok(None),
        }
    }

    /// The leaf of this rank behind `nth` others of the same below the node to which a branch leads; where there are too few of them,
    /// how many of `nth` they leave.
    #[cycle(finding)]
    pub fn find_below<V: Volume>(
        &mut self,
        alloc: Global,
        volume: &mut V,
        branch: &Branch,
        level: u16,
        at: u128,
        nth: u32,
    ) -> Result<Nth, AreaFault>
        requires row { (fanout : ℕ) × (row : PlacedRow) × IsRowOn (V.state volume.old) fanout (level + 1) (node_at branch.now row ended) }
        requires kept { AreKept (V.state volume.old).holds self.old }
        ensures found { (fanout : ℕ) (row : PlacedRow) → IsRowOn (V.state volume.old) fanout (level + 1) (node_at branch.now row ended)
            → IfOk result (IsNth (of_rank at (contents (plain row))) nth) }
        ensures reads { IsReadOnlyCall (V.state volume.old) (V.state volume.new) result }
        ensures kept { AreKept (V.state volume.new).holds self.new }
    {
        let node = self.take(alloc, volume, branch)?;
        let branches = node.branches.as_slice();
        let (_, rest) = branches.split_at(lower_branches_passed(branches, at));
        let found = self.find_among(alloc, volume, rest, level, at, nth);
        self.keep(branch, node);
        found
    }

    /// The same among these branches. With no level of nodes they lead to leaves.
    #[cycle(finding)]
    fn find_among<V: Volume>(
        &mut self,
        alloc: Global,
        volume: &mut V,
        branches: &[Branch],
        levels: u16,
        at: u128,
        nth: u32,
    ) -> Result<Nth, AreaFault>
        requires row { (fanout : ℕ) × (row : PlacedRow) × (branches_of row ≡ branches.now) × IsRowOn (V.state volume.old) fanout levels row }
        requires kept { AreKept (V.state volume.old).holds self.old }
        ensures found { (fanout : ℕ) (row : PlacedRow) → branches_of row ≡ branches.now → IsRowOn (V.state volume.old) fanout levels row
            → IfOk result (IsNth (of_rank at (contents (plain row))) nth) }
        ensures reads { IsReadOnlyCall (V.state volume.old) (V.state volume.new) result }
        ensures kept { AreKept (V.state volume.new).holds self.new }
    {
        match branches.split_first() {
            None => Ok(Nth::Fewer(nth)),
            Some((branch, rest)) => {
                if begin_below(rest, at) {
                    return self.find_among(alloc, volume, rest, levels, at, nth);
                }
                match self.find_at(alloc, volume, branch, levels, at, nth)? {
                    Nth::Found(leaf) => Ok(Nth::Found(leaf)),
                    Nth::Fewer(left) => {
                        if begin_within(rest, at) {
                            return self.find_among(alloc, volume, rest, levels, at, left);
                        }
                        Ok(Nth::Fewer(left))
                    }
                }
            }
        }
    }

    /// The same at one branch.
    #[cycle(finding)]
    fn find_at<V: Volume>(
        &mut self,
        alloc: Global,
        volume: &mut V,
        branch: &Branch,
        levels: u16,
        at: u128,
        nth: u32,
    ) -> Result<Nth, AreaFault>
        requires row { (fanout : ℕ) × (row : PlacedRow) × (branches_of row ≡ branch.now ∷ []) × IsRowOn (V.state volume.old) fanout levels row }
        requires kept { AreKept (V.state volume.old).holds self.old }
        ensures found { (fanout : ℕ) (row : PlacedRow) → branches_of row ≡ branch.now ∷ [] → IsRowOn (V.state volume.old) fanout levels row
            → IfOk result (IsNth (of_rank at (contents (plain row))) nth) }
        ensures reads { IsReadOnlyCall (V.state volume.old) (V.state volume.new) result }
        ensures kept { AreKept (V.state volume.new).holds self.new }
    {
        if levels == 0 {
            return Ok(one_of_rank(leaf_to(branch), at, nth));
        }
        self.find_below(alloc, volume, branch, levels - 1, at, nth)
    }
}

/// The same of one leaf.
fn one_of_rank(leaf: Leaf, at: u128, nth: u32) -> Nth
    ensures { IsNth (of_rank at (leaf ∷ [])) nth result }
{
    if rank(&leaf.key) != at {
        return Nth::Fewer(nth);
    }
    if nth == 0 {
        return Nth::Found(leaf);
    }
    Nth::Fewer(nth - 1)
}
