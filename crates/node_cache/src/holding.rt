// The walk to a leaf itself: to where leaves of its key stand, in whichever nodes they do.

ghost use Rattle.std.specs.Prelude.{◌≡◌, ◌+◌, ◌∷◌, [], ℕ, IfOk};
ghost use Rattle.index_tree.specs.Order.{leaf_rank};
ghost use Rattle.index_tree.specs.Removal.{holds, same_leaf};
ghost use Rattle.index_tree.specs.Shape.{contents};
ghost use Rattle.index_media.specs.PlacedRow.{PlacedRow, ended, node_at, branches_of, plain};
ghost use Rattle.node_cache.specs.Kept.{AreKept};
ghost use Rattle.node_cache.specs.Loaded.{IsIndexOn, IsReadOnlyCall, IsRowOn};

use crate::bisect::lower_branches_passed;
use crate::branches::{begin_below, begin_within, leaf_to};
use crate::cache::NodeCache;
use crate::ranks::rank;
use index_tree::Leaf;
use media_sys::Branch;
use std::alloc::Global;
use ubi_volume::{AreaFault, Volume};

/// Whether two leaves have the same key and the same place.
#[tactic(auto, unfolding(index_tree::specs::Removal::same_leaf))]
pub fn same_leaf(x: &Leaf, y: &Leaf) -> bool
    ensures { result ≡ same_leaf x.now y.now }
{
    if rank(&x.key) != rank(&y.key) {
        return false;
    }
    if x.lnum != y.lnum {
        return false;
    }
    if x.offs != y.offs {
        return false;
    }
    x.len == y.len
}

/// Whether a leaf is the one that is sought.
fn one_held(leaf: Leaf, sought: &Leaf) -> bool
    ensures { result ≡ holds sought.now (leaf ∷ []) }
{
    if same_leaf(&leaf, sought) {
        return true;
    }
    false
}

impl NodeCache {
    /// Whether this leaf, with its key and its place, is there, in the index that stands on a volume from the branch of its root on.
    /// The volume is as it was.
    ///
    /// `Memory` and `Volume` are the faults.
    pub fn holds<V: Volume>(
        &mut self,
        alloc: Global,
        volume: &mut V,
        root: &Branch,
        leaf: &Leaf,
    ) -> Result<bool, AreaFault>
        requires index { (fanout : ℕ) × (placed : PlacedRow) × IsIndexOn (V.state volume.old) fanout root.now placed }
        requires kept { AreKept (V.state volume.old).holds self.old }
        ensures found { (fanout : ℕ) (placed : PlacedRow) → IsIndexOn (V.state volume.old) fanout root.now placed
            → IfOk result (λ found. found ≡ holds leaf.now (contents (plain placed))) }
        ensures reads { IsReadOnlyCall (V.state volume.old) (V.state volume.new) result }
        ensures kept { AreKept (V.state volume.new).holds self.new }
    {
        let level = self.level_at(alloc, volume, root)?;
        self.holds_below(alloc, volume, root, level, leaf)
    }

    /// Whether a leaf stands below the node to which a branch leads.
    #[cycle(holding)]
    pub fn holds_below<V: Volume>(
        &mut self,
        alloc: Global,
        volume: &mut V,
        branch: &Branch,
        level: u16,
        sought: &Leaf,
    ) -> Result<bool, AreaFault>
        requires row { (fanout : ℕ) × (row : PlacedRow) × IsRowOn (V.state volume.old) fanout (level + 1) (node_at branch.now row ended) }
        requires kept { AreKept (V.state volume.old).holds self.old }
        ensures found { (fanout : ℕ) (row : PlacedRow) → IsRowOn (V.state volume.old) fanout (level + 1) (node_at branch.now row ended)
            → IfOk result (λ found. found ≡ holds sought.now (contents (plain row))) }
        ensures reads { IsReadOnlyCall (V.state volume.old) (V.state volume.new) result }
        ensures kept { AreKept (V.state volume.new).holds self.new }
    {
        let node = self.take(alloc, volume, branch)?;
        let at = rank(&sought.key);
        let branches = node.branches.as_slice();
        let (_, rest) = branches.split_at(lower_branches_passed(branches, at));
        let found = self.holds_among(alloc, volume, rest, level, at, sought);
        self.keep(branch, node);
        found
    }

    /// The same among these branches, for a leaf of this rank. With no level of nodes they lead to leaves.
    #[cycle(holding)]
    fn holds_among<V: Volume>(
        &mut self,
        alloc: Global,
        volume: &mut V,
        branches: &[Branch],
        levels: u16,
        at: u128,
        sought: &Leaf,
    ) -> Result<bool, AreaFault>
        requires rank { at ≡ leaf_rank sought.now }
        requires row { (fanout : ℕ) × (row : PlacedRow) × (branches_of row ≡ branches.now) × IsRowOn (V.state volume.old) fanout levels row }
        requires kept { AreKept (V.state volume.old).holds self.old }
        ensures found { (fanout : ℕ) (row : PlacedRow) → branches_of row ≡ branches.now → IsRowOn (V.state volume.old) fanout levels row
            → IfOk result (λ found. found ≡ holds sought.now (contents (plain row))) }
        ensures reads { IsReadOnlyCall (V.state volume.old) (V.state volume.new) result }
        ensures kept { AreKept (V.state volume.new).holds self.new }
    {
        match branches.split_first() {
            None => Ok(false),
            Some((branch, rest)) => {
                if begin_below(rest, at) {
                    return self.holds_among(alloc, volume, rest, levels, at, sought);
                }
                if self.holds_at(alloc, volume, branch, levels, sought)? {
                    return Ok(true);
                }
                if begin_within(rest, at) {
                    return self.holds_among(alloc, volume, rest, levels, at, sought);
                }
                Ok(false)
            }
        }
    }

    /// The same at one branch.
    #[cycle(holding)]
    fn holds_at<V: Volume>(
        &mut self,
        alloc: Global,
        volume: &mut V,
        branch: &Branch,
        levels: u16,
        sought: &Leaf,
    ) -> Result<bool, AreaFault>
        requires row { (fanout : ℕ) × (row : PlacedRow) × (branches_of row ≡ branch.now ∷ []) × IsRowOn (V.state volume.old) fanout levels row }
        requires kept { AreKept (V.state volume.old).holds self.old }
        ensures found { (fanout : ℕ) (row : PlacedRow) → branches_of row ≡ branch.now ∷ [] → IsRowOn (V.state volume.old) fanout levels row
            → IfOk result (λ found. found ≡ holds sought.now (contents (plain row))) }
        ensures reads { IsReadOnlyCall (V.state volume.old) (V.state volume.new) result }
        ensures kept { AreKept (V.state volume.new).holds self.new }
    {
        if levels == 0 {
            return Ok(one_held(leaf_to(branch), sought));
        }
        self.holds_below(alloc, volume, branch, levels - 1, sought)
    }
}
