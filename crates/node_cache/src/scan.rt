// The leaves of a LEB.

ghost use Rattle.std.specs.Prelude.{◌≡◌, ◌==◌, ◌+◌, ◌++◌, ◌∷◌, [], ℕ, IfOk, OnOk, filter};
ghost use Rattle.index_tree.specs.Shape.{contents};
ghost use Rattle.index_media.specs.PlacedRow.{PlacedRow, ended, node_at, branches_of, plain};
ghost use Rattle.node_cache.specs.Kept.{AreKept};
ghost use Rattle.node_cache.specs.Loaded.{IsIndexOn, IsReadOnlyCall, IsRowOn};

use crate::branches::leaf_to;
use crate::cache::NodeCache;
use index_tree::Leaf;
use media_sys::Branch;
use std::alloc::Global;
use ubi_volume::{AreaFault, Volume};
use ubifs_base::Memory;

/// Pushes a leaf, if it stands in this LEB.
fn push_one(leaf: Leaf, lnum: u32, leaves: &mut Vec<Leaf>) -> Result<(), Memory>
    ensures { OnOk result (leaves.new.items ≡ leaves.old.items ++ filter (λ x. x.lnum == lnum) (leaf ∷ [])) }
{
    if leaf.lnum == lnum {
        leaves.push(leaf)?;
    }
    Ok(())
}

impl NodeCache {
    /// The leaves that stand in this LEB, in the order of the index that stands on a volume from the branch of its root on. It reads
    /// all nodes of the index that aren't kept. The volume is as it was.
    ///
    /// `Memory` and `Volume` are the faults.
    pub fn leaves_in<V: Volume>(
        &mut self,
        alloc: Global,
        volume: &mut V,
        root: &Branch,
        lnum: u32,
    ) -> Result<Vec<Leaf>, AreaFault>
        requires index { (fanout : ℕ) × (placed : PlacedRow) × IsIndexOn (V.state volume.old) fanout root.now placed }
        requires kept { AreKept (V.state volume.old).holds self.old }
        ensures leaves { (fanout : ℕ) (placed : PlacedRow) → IsIndexOn (V.state volume.old) fanout root.now placed
            → IfOk result (λ leaves. leaves.items ≡ filter (λ x. x.lnum == lnum) (contents (plain placed))) }
        ensures reads { IsReadOnlyCall (V.state volume.old) (V.state volume.new) result }
        ensures kept { AreKept (V.state volume.new).holds self.new }
    {
        let level = self.level_at(alloc, volume, root)?;
        let mut leaves = Vec::new(alloc);
        self.push_below(alloc, volume, root, level, lnum, &mut leaves)?;
        Ok(leaves)
    }

    /// Pushes the leaves of a LEB below the node to which a branch leads.
    #[cycle(scanning)]
    pub fn push_below<V: Volume>(
        &mut self,
        alloc: Global,
        volume: &mut V,
        branch: &Branch,
        level: u16,
        lnum: u32,
        leaves: &mut Vec<Leaf>,
    ) -> Result<(), AreaFault>
        requires row { (fanout : ℕ) × (row : PlacedRow) × IsRowOn (V.state volume.old) fanout (level + 1) (node_at branch.now row ended) }
        requires kept { AreKept (V.state volume.old).holds self.old }
        ensures pushed { (fanout : ℕ) (row : PlacedRow) → IsRowOn (V.state volume.old) fanout (level + 1) (node_at branch.now row ended)
            → OnOk result (leaves.new.items ≡ leaves.old.items ++ filter (λ x. x.lnum == lnum) (contents (plain row))) }
        ensures reads { IsReadOnlyCall (V.state volume.old) (V.state volume.new) result }
        ensures kept { AreKept (V.state volume.new).holds self.new }
    {
        let node = self.take(alloc, volume, branch)?;
        let pushed = self.push_among(alloc, volume, node.branches.as_slice(), level, lnum, leaves);
        self.keep(branch, node);
        pushed
    }

    /// The same among these branches. With no level of nodes they lead to leaves.
    #[cycle(scanning)]
    fn push_among<V: Volume>(
        &mut self,
        alloc: Global,
        volume: &mut V,
        branches: &[Branch],
        levels: u16,
        lnum: u32,
        leaves: &mut Vec<Leaf>,
    ) -> Result<(), AreaFault>
        requires row { (fanout : ℕ) × (row : PlacedRow) × (branches_of row ≡ branches.now) × IsRowOn (V.state volume.old) fanout levels row }
        requires kept { AreKept (V.state volume.old).holds self.old }
        ensures pushed { (fanout : ℕ) (row : PlacedRow) → branches_of row ≡ branches.now → IsRowOn (V.state volume.old) fanout levels row
            → OnOk result (leaves.new.items ≡ leaves.old.items ++ filter (λ x. x.lnum == lnum) (contents (plain row))) }
        ensures reads { IsReadOnlyCall (V.state volume.old) (V.state volume.new) result }
        ensures kept { AreKept (V.state volume.new).holds self.new }
    {
        match branches.split_first() {
            None => Ok(()),
            Some((branch, rest)) => {
                self.push_at(alloc, volume, branch, levels, lnum, leaves)?;
                self.push_among(alloc, volume, rest, levels, lnum, leaves)
            }
        }
    }

    /// The same at one branch.
    #[cycle(scanning)]
    fn push_at<V: Volume>(
        &mut self,
        alloc: Global,
        volume: &mut V,
        branch: &Branch,
        levels: u16,
        lnum: u32,
        leaves: &mut Vec<Leaf>,
    ) -> Result<(), AreaFault>
        requires row { (fanout : ℕ) × (row : PlacedRow) × (branches_of row ≡ branch.now ∷ []) × IsRowOn (V.state volume.old) fanout levels row }
        requires kept { AreKept (V.state volume.old).holds self.old }
        ensures pushed { (fanout : ℕ) (row : PlacedRow) → branches_of row ≡ branch.now ∷ [] → IsRowOn (V.state volume.old) fanout levels row
            → OnOk result (leaves.new.items ≡ leaves.old.items ++ filter (λ x. x.lnum == lnum) (contents (plain row))) }
        ensures reads { IsReadOnlyCall (V.state volume.old) (V.state volume.new) result }
        ensures kept { AreKept (V.state volume.new).holds self.new }
    {
        if levels == 0 {
            push_one(leaf_to(branch), lnum, leaves)?;
            return Ok(());
        }
        self.push_below(alloc, volume, branch, levels - 1, lnum, leaves)
    }
}
