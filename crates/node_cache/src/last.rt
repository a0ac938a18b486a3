// The walk to the last leaf up to a rank: down to the last branch that doesn't begin above the rank, and where all leaves there
// are above it, to the branches before.

ghost use Rattle.std.specs.List.{last_or};
ghost use Rattle.std.specs.Prelude.{◌≡◌, ◌+◌, ◌∷◌, [], ℕ, IfOk, None};
ghost use Rattle.index_tree.specs.LastBlock.{is_block_of, last_block, up_to};
ghost use Rattle.index_tree.specs.Shape.{contents};
ghost use Rattle.index_media.specs.PlacedRow.{PlacedRow, ended, node_at, branches_of, plain};
ghost use Rattle.node_cache.specs.Kept.{AreKept};
ghost use Rattle.node_cache.specs.Loaded.{IsIndexOn, IsReadOnlyCall, IsRowOn};

use crate::bisect::branches_passed;
use crate::branches::{begin_within, leaf_to};
use crate::cache::NodeCache;
use crate::ranks::{last_rank, rank};
use index_tree::Leaf;
use media_sys::Branch;
use std::alloc::Global;
use ubi_volume::{AreaFault, Volume};
use ubifs_base::Key;

/// Whether a key is that of a block of this inode.
pub fn is_block_of(key: &Key, ino: u32) -> bool
    ensures { result ≡ is_block_of ino key.now }
{
    match *key {
        Key::Block { ino: owner, .. } => owner == ino,
        _ => false,
    }
}

/// A leaf, if its rank isn't greater.
fn one_up_to(leaf: Leaf, at: u128) -> Option<Leaf>
    ensures { result ≡ last_or None (up_to at (leaf ∷ [])) }
{
    if rank(&leaf.key) <= at {
        return Some(leaf);
    }
    None
}

impl NodeCache {
    /// The greatest block leaf of this inode, the last one of equals, in the index that stands on a volume from the branch of its root
    /// on; none where it has no block. The volume is as it was.
    ///
    /// `Memory` and `Volume` are the faults.
    pub fn last_of<V: Volume>(
        &mut self,
        alloc: Global,
        volume: &mut V,
        root: &Branch,
        ino: u32,
    ) -> Result<Option<Leaf>, AreaFault>
        requires index { (fanout : ℕ) × (placed : PlacedRow) × IsIndexOn (V.state volume.old) fanout root.now placed }
        requires kept { AreKept (V.state volume.old).holds self.old }
        ensures found { (fanout : ℕ) (placed : PlacedRow) → IsIndexOn (V.state volume.old) fanout root.now placed
            → IfOk result (λ found. found ≡ last_block ino (contents (plain placed))) }
        ensures reads { IsReadOnlyCall (V.state volume.old) (V.state volume.new) result }
        ensures kept { AreKept (V.state volume.new).holds self.new }
    {
        let level = self.level_at(alloc, volume, root)?;
        match self.last_below(alloc, volume, root, level, last_rank(ino))? {
            None => Ok(None),
            Some(leaf) => {
                if is_block_of(&leaf.key, ino) {
                    return Ok(Some(leaf));
                }
                Ok(None)
            }
        }
    }

    /// The last leaf of this rank or a lower one below the node to which a branch leads.
    #[cycle(ending)]
    pub fn last_below<V: Volume>(
        &mut self,
        alloc: Global,
        volume: &mut V,
        branch: &Branch,
        level: u16,
        at: u128,
    ) -> Result<Option<Leaf>, AreaFault>
        requires row { (fanout : ℕ) × (row : PlacedRow) × IsRowOn (V.state volume.old) fanout (level + 1) (node_at branch.now row ended) }
        requires kept { AreKept (V.state volume.old).holds self.old }
        ensures found { (fanout : ℕ) (row : PlacedRow) → IsRowOn (V.state volume.old) fanout (level + 1) (node_at branch.now row ended)
            → IfOk result (λ found. found ≡ last_or None (up_to at (contents (plain row)))) }
        ensures reads { IsReadOnlyCall (V.state volume.old) (V.state volume.new) result }
        ensures kept { AreKept (V.state volume.new).holds self.new }
    {
        let node = self.take(alloc, volume, branch)?;
        let found = self.last_behind(alloc, volume, node.branches.as_slice(), level, at);
        self.keep(branch, node);
        found
    }

    /// The same among all branches of a node: among the last few that can lead to it, and if none of these does, among all.
    #[cycle(ending)]
    fn last_behind<V: Volume>(
        &mut self,
        alloc: Global,
        volume: &mut V,
        branches: &[Branch],
        levels: u16,
        at: u128,
    ) -> Result<Option<Leaf>, AreaFault>
        requires row { (fanout : ℕ) × (row : PlacedRow) × (branches_of row ≡ branches.now) × IsRowOn (V.state volume.old) fanout levels row }
        requires kept { AreKept (V.state volume.old).holds self.old }
        ensures found { (fanout : ℕ) (row : PlacedRow) → branches_of row ≡ branches.now → IsRowOn (V.state volume.old) fanout levels row
            → IfOk result (λ found. found ≡ last_or None (up_to at (contents (plain row)))) }
        ensures reads { IsReadOnlyCall (V.state volume.old) (V.state volume.new) result }
        ensures kept { AreKept (V.state volume.new).holds self.new }
    {
        let passed = branches_passed(branches, at);
        if passed == 0 {
            return self.last_among(alloc, volume, branches, levels, at);
        }
        let (_, back) = branches.split_at(passed);
        match self.last_among(alloc, volume, back, levels, at)? {
            Some(leaf) => Ok(Some(leaf)),
            None => self.last_among(alloc, volume, branches, levels, at),
        }
    }

    /// The same among these branches. With no level of nodes they lead to leaves.
    #[cycle(ending)]
    fn last_among<V: Volume>(
        &mut self,
        alloc: Global,
        volume: &mut V,
        branches: &[Branch],
        levels: u16,
        at: u128,
    ) -> Result<Option<Leaf>, AreaFault>
        requires row { (fanout : ℕ) × (row : PlacedRow) × (branches_of row ≡ branches.now) × IsRowOn (V.state volume.old) fanout levels row }
        requires kept { AreKept (V.state volume.old).holds self.old }
        ensures found { (fanout : ℕ) (row : PlacedRow) → branches_of row ≡ branches.now → IsRowOn (V.state volume.old) fanout levels row
            → IfOk result (λ found. found ≡ last_or None (up_to at (contents (plain row)))) }
        ensures reads { IsReadOnlyCall (V.state volume.old) (V.state volume.new) result }
        ensures kept { AreKept (V.state volume.new).holds self.new }
    {
        match branches.split_first() {
            None => Ok(None),
            Some((branch, rest)) => {
                if !begin_within(rest, at) {
                    return self.last_at(alloc, volume, branch, levels, at);
                }
                match self.last_among(alloc, volume, rest, levels, at)? {
                    Some(leaf) => Ok(Some(leaf)),
                    None => self.last_at(alloc, volume, branch, levels, at),
                }
            }
        }
    }

    /// The same at one branch.
    #[cycle(ending)]
    fn last_at<V: Volume>(
        &mut self,
        alloc: Global,
        volume: &mut V,
        branch: &Branch,
        levels: u16,
        at: u128,
    ) -> Result<Option<Leaf>, AreaFault>
        requires row { (fanout : ℕ) × (row : PlacedRow) × (branches_of row ≡ branch.now ∷ []) × IsRowOn (V.state volume.old) fanout levels row }
        requires kept { AreKept (V.state volume.old).holds self.old }
        ensures found { (fanout : ℕ) (row : PlacedRow) → branches_of row ≡ branch.now ∷ [] → IsRowOn (V.state volume.old) fanout levels row
            → IfOk result (λ found. found ≡ last_or None (up_to at (contents (plain row)))) }
        ensures reads { IsReadOnlyCall (V.state volume.old) (V.state volume.new) result }
        ensures kept { AreKept (V.state volume.new).holds self.new }
    {
        if levels == 0 {
            return Ok(one_up_to(leaf_to(branch), at));
        }
        self.last_below(alloc, volume, branch, levels - 1, at)
    }
}
