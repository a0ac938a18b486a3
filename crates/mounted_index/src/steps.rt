// A commit in steps, between which look-ups and changes go on.

ghost use Rattle.std.specs.Prelude.{◌≡◌, ◌<◌, ◌≤◌, ◌+◌, ◌-◌, ◌^◌, ◌++◌, ◌∷◌, [], ℕ, List, Option, None, IfOk, IsTrue, false, length};
ghost use Rattle.ubifs_base.specs.RawOf.{raw_of};
ghost use Rattle.commit_steps.specs.UnderWay.{AreSettledLebs};
ghost use Rattle.index_media.specs.KeyedRow.{KeyedRow};
ghost use Rattle.media_sys.specs.declared.branch.Branch.{Branch as ABranch};
ghost use Rattle.ubi_volume.specs.Geometry.{IsGeometryOf};
ghost use Rattle.ubi_volume.specs.Volume.{Keeps};
ghost use Rattle.index_commit.specs.Answers.{IsIndexAnswered, IsNotFull, OnMemory};
ghost use Rattle.index_commit.specs.LebTexts.{IsNextLeb};
ghost use Rattle.index_commit.specs.KeysApart.{AreKeysApart};
ghost use Rattle.index_commit.specs.Lebs.{IsGiven};
ghost use Rattle.index_commit.specs.Ordered.{AreKeysInOrder, IsNotEqualKeys};
ghost use Rattle.index_commit.specs.Written.{KeepsOtherIndexes};
ghost use Rattle.mounted_index.specs.Committed.{HasNodesFrom, nodes_to_write};
ghost use Rattle.mounted_index.specs.Running.{IsCommitEnded, IsCommitRunning, IsCommitStep, IsStepWritten, dirty_left};
ghost use Rattle.mounted_index.specs.Shown.{KeepsShown, Shows, StandsIn};

use crate::commit::nodes_of;
use crate::mounted::{IndexNodes, MountedIndex};
use index_commit::{
    IndexFault, WrittenLeb, changes_keep_keys_apart, changes_keep_what_stands, committed_root,
    write_next_leb,
};
use index_media::an_index_depends_on_its_lebs_alone;
use media_sys::Branch;
use node_table::places_are_kept;
use std::alloc::Global;
use ubi_volume::Volume;

// More dirty nodes than this don't fit into memory.
const MOST_NODES: u64 = 1 << 62;

impl MountedIndex {
    /// Begins a commit in steps of the index as it is now, and answers how many nodes it has to write. A commit that ran before ends
    /// without its root. The volume is as it was.
    ///
    /// The clean nodes of the index stand in LEBs of which a cut leaves what they hold. Until a master names the root of this commit, nobody
    /// else writes to these or to those of its steps.
    pub fn begin_commit<V: Volume>(&mut self, volume: &V) -> u64
        ensures begun { (row : KeyedRow) (kept : List ℕ) → Shows (V.state volume.now) self.old row → StandsIn (V.state volume.now) kept row → AreSettledLebs (V.state volume.now) kept
            → IsCommitRunning (V.state volume.now) kept [] row self.new row }
        ensures nodes { (result ≡ nodes_to_write self.old.nodes) × (length (dirty_left self.new.nodes) ≡ result) }
        ensures kept { KeepsShown (V.state volume.now) (V.state volume.now) self.old self.new }
    {
        places_are_kept();
        let _ = volume;
        match &mut self.nodes {
            IndexNodes::OnMedium(_) => 0,
            IndexNodes::InMemory(index) => {
                index.freeze();
                index.dirty_nodes()
            }
        }
    }

    /// Whether the commit that runs has nodes left to write.
    pub fn has_nodes_left(&self) -> bool
        ensures some { IsTrue result → 0 < length (dirty_left self.now.nodes) }
        ensures none { result ≡ false → dirty_left self.now.nodes ≡ [] }
    {
        match &self.nodes {
            IndexNodes::OnMedium(_) => false,
            IndexNodes::InMemory(index) => match index.next_dirty() {
                None => false,
                Some(_) => true,
            },
        }
    }

    /// A step of the commit that runs: writes its next nodes to this LEB, all that are left, or as many as the LEB has rooms for. It answers
    /// where its nodes end, and how many bytes they take, each rounded up to 8. The LEB is replaced by one change, whatever it held. It is
    /// none of those that were kept when the commit began, or given since.
    ///
    /// `Memory` comes before anything is written, and leaves what is shown or staged. `Full` never comes. `EqualKeys` comes only if the keys
    /// of the index as it was when the commit began were neither in order in each node nor apart. After `Volume` the index is shown as
    /// before, and this commit is of no use, nor is a later one in steps.
    pub fn write_step<V: Volume>(
        &mut self,
        alloc: Global,
        volume: &mut V,
        lnum: u32,
        sqnum: &mut u64,
    ) -> Result<WrittenLeb, IndexFault>
        requires volume { IsGeometryOf (raw_of self.old.geometry) (V.state volume.old) × (lnum < (V.state volume.old).leb_cnt) }
        requires running { (row : KeyedRow) × (begun : KeyedRow) × (kept : List ℕ) × (given : List ℕ) × IsCommitRunning (V.state volume.old) kept given begun self.old row × (IsGiven (given ++ kept) lnum → ⊥) }
        requires some { 0 < length (dirty_left self.old.nodes) }
        requires number { sqnum.old < 2 ^ 63 }
        ensures step { (row begun : KeyedRow) (kept given : List ℕ) → IsCommitRunning (V.state volume.old) kept given begun self.old row → (IsGiven (given ++ kept) lnum → ⊥)
            → IsCommitStep (V.state volume.old) (V.state volume.new) lnum kept given begun self.old self.new row result
            × (AreKeysApart None begun → IsNotEqualKeys result) × (AreKeysInOrder begun → IsNotEqualKeys result) }
        ensures written { IsStepWritten (raw_of self.old.geometry) (V.state volume.old) (V.state volume.new) lnum sqnum.old sqnum.new result }
        ensures next { IfOk result (λ done. IsNextLeb (raw_of self.old.geometry) lnum (sqnum.new - sqnum.old) (dirty_left self.new.nodes) done.head) × (self.new.geometry ≡ self.old.geometry) }
        ensures old_stays { KeepsOtherIndexes (V.state volume.old) (V.state volume.new) (lnum ∷ []) }
        ensures answer { IsIndexAnswered (V.state volume.old) (V.state volume.new) result × IsNotFull result × OnMemory (Keeps (V.state volume.old) (V.state volume.new) × (sqnum.new ≡ sqnum.old)) result }
        ensures number { sqnum.new + length (dirty_left self.new.nodes) ≤ sqnum.old + length (dirty_left self.old.nodes) }
    {
        an_index_depends_on_its_lebs_alone();
        changes_keep_keys_apart();
        places_are_kept();
        match &mut self.nodes {
            IndexNodes::OnMedium(_) => Err(IndexFault::Memory),
            IndexNodes::InMemory(index) => {
                self.cache.forget(lnum);
                index.trees_are_sound();
                if index.dirty_nodes() > MOST_NODES {
                    return Err(IndexFault::Memory);
                }
                write_next_leb(alloc, volume, &self.geometry, index, lnum, sqnum)
            }
        }
    }

    /// Ends the commit that runs, which has no node left to write, and answers the root of what it wrote. An empty index has none. Linux has it as
    /// `root_lnum`, `root_offs` and `root_len` of `struct ubifs_mst_node`. Nothing is written. If no node of the index that is shown is dirty, all
    /// nodes go, and else all clean ones, if there is memory for that. What was staged is of no use any more. Other LEBs in which nodes stood are free
    /// once a master names this root.
    pub fn end_commit<V: Volume>(&mut self, alloc: Global, volume: &V) -> Option<Branch>
        requires none { dirty_left self.old.nodes ≡ [] }
        requires running { (row : KeyedRow) × (begun : KeyedRow) × (kept : List ℕ) × (given : List ℕ) × IsCommitRunning (V.state volume.now) kept given begun self.old row }
        ensures ended { (row begun : KeyedRow) (kept given : List ℕ) → IsCommitRunning (V.state volume.now) kept given begun self.old row → IsCommitEnded (V.state volume.now) kept given begun row self.new result }
        ensures gone { dirty_left self.new.nodes ≡ [] → (root : Option ABranch) × HasNodesFrom self.old.geometry.fanout root self.new.nodes }
        ensures geometry { self.new.geometry ≡ self.old.geometry }
    {
        changes_keep_what_stands();
        places_are_kept();
        let _ = volume;
        match &mut self.nodes {
            IndexNodes::OnMedium(root) => Some(*root),
            IndexNodes::InMemory(index) => {
                index.trees_are_sound();
                let root = committed_root(index);
                index.freeze();
                match index.next_dirty() {
                    None => {
                        self.nodes = nodes_of(alloc, self.geometry.fanout, committed_root(index));
                    }
                    Some(_) => {
                        let _ = index.evict(alloc, volume);
                    }
                }
                root
            }
        }
    }
}
