// A client of several calls, proved from their contracts alone.

ghost use Rattle.std.specs.Prelude.{◌≡◌, ◌<◌, ◌≤◌, ◌+◌, ◌*◌, ◌^◌, ◌++◌, ◌∷◌, [], ℕ, All, List, IfOk, OnOk, length, slice_get};
ghost use Rattle.ubifs_base.specs.Geometry.{index_nodes_per_leb};
ghost use Rattle.ubifs_base.specs.Key.{IsKey};
ghost use Rattle.ubifs_base.specs.RawOf.{raw_of};
ghost use Rattle.ubi_volume.specs.Geometry.{IsGeometryOf};
ghost use Rattle.commit_steps.specs.UnderWay.{AreSettledLebs, WorksBeside};
ghost use Rattle.index_commit.specs.Lebs.{AreLebsApart, AreGivable, IsGiven};
ghost use Rattle.index_media.specs.KeyedRow.{KeyedRow};
ghost use Rattle.index_media.specs.Stored.{IsStoredIndex};
ghost use Rattle.media_sys.specs.declared.branch.Branch.{Branch as ABranch};
ghost use Rattle.mounted_index.specs.Running.{AreStepsTaken, IsCommitEnded, IsCommitRunning, IsPutMeanwhile};
ghost use Rattle.mounted_index.specs.Shown.{Shows, StandsIn};
ghost use Rattle.ubi_volume.specs.Volume.{AreUnits, Leaves, SameShape};
ghost use Rattle.node_table.specs.Changing.{AreChanges, changed_by};
ghost use Rattle.index_tree.specs.Order.{leaf_rank, of_rank, placed};
ghost use Rattle.index_tree.specs.Shape.{contents};
ghost use Rattle.index_media.specs.PlacedRow.{PlacedRow, lebs_of, plain};
ghost use Rattle.node_cache.specs.Loaded.{IsIndexOn};

use crate::mounted::MountedIndex;
use index_commit::{IndexFault, changes_keep_what_stands};
use index_media::{an_index_depends_on_its_lebs_alone, an_insertion_goes_by_the_keys_of_branches};
use index_tree::Leaf;
use media_sys::Branch;
use node_table::{Change, places_are_kept};
use std::alloc::Global;
use ubi_volume::{AreaFault, Volume};
use ubifs_base::{Geometry, Key};

/// Takes up the index that stands on a volume, puts a leaf, and looks the leaf's key up. It answers the first leaf of that key, of the leaves of
/// before and the one that came.
pub fn put_and_find<V: Volume>(
    alloc: Global,
    volume: &mut V,
    geometry: &Geometry,
    root: &Branch,
    leaf: Leaf,
) -> Result<Option<Leaf>, AreaFault>
    requires index { (row : PlacedRow) × IsIndexOn (V.state volume.old) geometry.now.fanout root.now row }
    requires key { IsKey leaf.key }
    ensures found { (row : PlacedRow) → IsIndexOn (V.state volume.old) geometry.now.fanout root.now row
        → IfOk result (λ found. found ≡ slice_get (of_rank (leaf_rank leaf) (placed leaf (contents (plain row)))) 0) }
{
    an_insertion_goes_by_the_keys_of_branches();
    let mut index = MountedIndex::at_root(alloc, volume, geometry, root)?;
    let changes: &[Change] = &[Change::Insert(leaf)];
    index.change(alloc, volume, changes)?;
    index.find(alloc, volume, &leaf.key, 0)
}

/// Stages changes, looks a key up, lets the nodes go that look-ups keep, and adopts what was staged.
pub fn stage_look_adopt<V: Volume>(
    alloc: Global,
    volume: &mut V,
    index: &mut MountedIndex,
    changes: &[Change],
    key: &Key,
) -> Result<(), AreaFault>
    requires shown { (row : KeyedRow) × Shows (V.state volume.old) index.old row }
    requires changes { AreChanges changes.now }
    ensures adopted { (row : KeyedRow) → Shows (V.state volume.old) index.old row
        → OnOk result (Shows (V.state volume.new) index.new (changed_by index.old.geometry.fanout changes.now row)) }
{
    let staged = index.stage(alloc, volume, changes)?;
    let _ = index.find(alloc, volume, key, 0);
    index.clear_cache(volume);
    index.adopt(volume, staged);
    Ok(())
}

/// Takes up the index that stands on a volume, puts a leaf, commits to LEBs in which no node of it stands, and looks the leaf's key up on the volume.
/// It answers the first leaf of that key, of the leaves of before and the one that came.
pub fn put_commit_and_find<V: Volume>(
    alloc: Global,
    volume: &mut V,
    geometry: &Geometry,
    root: &Branch,
    leaf: Leaf,
    lebs: &[u32],
    sqnum: &mut u64,
) -> Result<Option<Leaf>, IndexFault>
    requires geometry { IsGeometryOf (raw_of geometry.now) (V.state volume.old) }
    requires index { (row : PlacedRow) × IsIndexOn (V.state volume.old) geometry.now.fanout root.now row × AreLebsApart (lebs_of row) lebs.now }
    requires lebs { AreGivable (V.state volume.old).leb_cnt lebs.now }
    requires key { IsKey leaf.key }
    requires number { sqnum.old < 2 ^ 63 }
    ensures found { (row : PlacedRow) → IsIndexOn (V.state volume.old) geometry.now.fanout root.now row → AreLebsApart (lebs_of row) lebs.now
        → IfOk result (λ found. found ≡ slice_get (of_rank (leaf_rank leaf) (placed leaf (contents (plain row)))) 0) }
{
    an_insertion_goes_by_the_keys_of_branches();
    changes_keep_what_stands();
    places_are_kept();
    let mut index = MountedIndex::at_root(alloc, volume, geometry, root)?;
    let changes: &[Change] = &[Change::Insert(leaf)];
    index.change(alloc, volume, changes)?;
    index.commit(alloc, volume, lebs, sqnum)?;
    let found = index.find(alloc, volume, &leaf.key, 0)?;
    Ok(found)
}

// Takes a step of the commit that runs for each of these LEBs, as long as nodes are left.
fn take_steps<V: Volume>(
    alloc: Global,
    volume: &mut V,
    index: &mut MountedIndex,
    lebs: &[u32],
    sqnum: &mut u64,
) -> Result<(), IndexFault>
    requires volume { IsGeometryOf (raw_of index.old.geometry) (V.state volume.old) × AreGivable (V.state volume.old).leb_cnt lebs.now }
    requires running { (row : KeyedRow) × (begun : KeyedRow) × (kept : List ℕ) × (given : List ℕ) × IsCommitRunning (V.state volume.old) kept given begun index.old row × AreLebsApart (given ++ kept) lebs.now }
    requires number { sqnum.old + index_nodes_per_leb (raw_of index.old.geometry) * length lebs.now < 2 ^ 63 }
    ensures taken { (row begun : KeyedRow) (kept given : List ℕ) → IsCommitRunning (V.state volume.old) kept given begun index.old row → AreLebsApart (given ++ kept) lebs.now
        → OnOk result (AreStepsTaken (V.state volume.new) lebs.now kept given begun row index.new) }
    ensures beside { (others : List ℕ) → AreLebsApart others lebs.now → WorksBeside (V.state volume.old) (V.state volume.new) others }
    ensures shape { SameShape (V.state volume.old) (V.state volume.new) }
    ensures geometry { index.new.geometry ≡ index.old.geometry }
    ensures number { OnOk result (sqnum.new ≤ sqnum.old + index_nodes_per_leb (raw_of index.old.geometry) * length lebs.now) }
{
    places_are_kept();
    let Some((lnum, rest)) = lebs.split_first() else {
        return Ok(());
    };
    if !index.has_nodes_left() {
        return Ok(());
    }
    index.write_step(alloc, volume, *lnum, sqnum)?;
    take_steps(alloc, volume, index, rest, sqnum)
}

// Takes a step of the commit that runs, puts a leaf, looks its key up, and takes the other steps.
fn put_between_steps<V: Volume>(
    alloc: Global,
    volume: &mut V,
    index: &mut MountedIndex,
    first: u32,
    rest: &[u32],
    leaf: Leaf,
    sqnum: &mut u64,
) -> Result<Option<Leaf>, IndexFault>
    requires volume { IsGeometryOf (raw_of index.old.geometry) (V.state volume.old) × AreGivable (V.state volume.old).leb_cnt (first ∷ rest.now) }
    requires running { (row : KeyedRow) × (begun : KeyedRow) × (kept : List ℕ) × (given : List ℕ) × IsCommitRunning (V.state volume.old) kept given begun index.old row × AreLebsApart (given ++ kept) (first ∷ rest.now) }
    requires key { IsKey leaf.key }
    requires number { sqnum.old + index_nodes_per_leb (raw_of index.old.geometry) * length (first ∷ rest.now) < 2 ^ 63 }
    ensures put { (row begun : KeyedRow) (kept given : List ℕ) → IsCommitRunning (V.state volume.old) kept given begun index.old row → AreLebsApart (given ++ kept) (first ∷ rest.now)
        → IfOk result (λ found. (put : IsPutMeanwhile (first ∷ rest.now) given row leaf found) × IsCommitRunning (V.state volume.new) kept put.since begun index.new put.now) }
    ensures beside { (others : List ℕ) → AreLebsApart others (first ∷ rest.now) → WorksBeside (V.state volume.old) (V.state volume.new) others }
{
    an_insertion_goes_by_the_keys_of_branches();
    places_are_kept();
    let lebs: &[u32] = &[first];
    take_steps(alloc, volume, index, lebs, sqnum)?;
    let changes: &[Change] = &[Change::Insert(leaf)];
    index.change(alloc, volume, changes)?;
    let found = index.find(alloc, volume, &leaf.key, 0)?;
    take_steps(alloc, volume, index, rest, sqnum)?;
    Ok(found)
}

/// The root that a commit in steps wrote, and what was found while it ran.
#[derive(Clone, Copy, Debug, PartialEq, Eq)]
pub struct CommitBesidePut {
    pub root: Option<Branch>,
    pub found: Option<Leaf>,
}

/// Commits an index in steps, to LEBs in which no node of it stands. Behind the first step it puts a leaf, and looks the leaf's key up. It
/// answers the root of the index as it was before the leaf came, and what it found. Where keys are in order, that is the first leaf of that
/// key, of the leaves of before and the one that came.
///
/// `Full` comes if nodes are left behind the last LEB. It says that one LEB more is needed; it may be several.
pub fn commit_beside_put<V: Volume>(
    alloc: Global,
    volume: &mut V,
    index: &mut MountedIndex,
    first: u32,
    rest: &[u32],
    leaf: Leaf,
    sqnum: &mut u64,
) -> Result<CommitBesidePut, IndexFault>
    requires volume { IsGeometryOf (raw_of index.old.geometry) (V.state volume.old) × AreGivable (V.state volume.old).leb_cnt (first ∷ rest.now) }
    requires shown { (row : KeyedRow) × (kept : List ℕ) × Shows (V.state volume.old) index.old row × StandsIn (V.state volume.old) kept row × AreSettledLebs (V.state volume.old) kept × AreLebsApart kept (first ∷ rest.now) }
    requires key { IsKey leaf.key }
    requires number { sqnum.old + index_nodes_per_leb (raw_of index.old.geometry) * length (first ∷ rest.now) < 2 ^ 63 }
    ensures committed { (row : KeyedRow) (kept : List ℕ) → Shows (V.state volume.old) index.old row → StandsIn (V.state volume.old) kept row → AreSettledLebs (V.state volume.old) kept → AreLebsApart kept (first ∷ rest.now)
        → IfOk result (λ done. (put : IsPutMeanwhile (first ∷ rest.now) [] row leaf done.found) × IsCommitEnded (V.state volume.new) kept put.since row put.now index.new done.root) }
    ensures old_stays { (kept : List ℕ) (fanout : ℕ) (root : ABranch) (row : PlacedRow) → AreSettledLebs (V.state volume.old) kept → AreLebsApart kept (first ∷ rest.now) → All (IsGiven kept) (lebs_of row)
        → IsStoredIndex (V.state volume.old).holds fanout root row → Leaves (V.state volume.old) (V.state volume.new) (λ c. IsStoredIndex c fanout root row) }
{
    an_index_depends_on_its_lebs_alone();
    index.begin_commit(volume);
    let found = put_between_steps(alloc, volume, index, first, rest, leaf, sqnum)?;
    if index.has_nodes_left() {
        let given = (rest.len() as u64).saturating_add(1);
        return Err(IndexFault::Full {
            need: given.saturating_add(1),
            given,
        });
    }
    let root = index.end_commit(alloc, volume);
    Ok(CommitBesidePut { root, found })
}

/// While a commit in steps runs: stages changes, replaces a LEB beside the commit's by these bytes, as a store does with its journal, and adopts the
/// changes. The commit runs on.
pub fn write_and_adopt<V: Volume>(
    alloc: Global,
    volume: &mut V,
    index: &mut MountedIndex,
    changes: &[Change],
    lnum: u32,
    bytes: &[u8],
) -> Result<(), AreaFault>
    requires running { (row : KeyedRow) × (begun : KeyedRow) × (kept : List ℕ) × (given : List ℕ) × IsCommitRunning (V.state volume.old) kept given begun index.old row × (IsGiven (given ++ kept) lnum → ⊥) }
    requires changes { AreChanges changes.now }
    requires bytes { (lnum < (V.state volume.old).leb_cnt) × (length bytes.now ≤ (V.state volume.old).leb_size) × AreUnits (V.state volume.old).min_io 0 (length bytes.now) }
    ensures adopted { (row begun : KeyedRow) (kept given : List ℕ) → IsCommitRunning (V.state volume.old) kept given begun index.old row → (IsGiven (given ++ kept) lnum → ⊥)
        → OnOk result (IsCommitRunning (V.state volume.new) kept given begun index.new (changed_by index.old.geometry.fanout changes.now row)) }
{
    an_index_depends_on_its_lebs_alone();
    let staged = index.stage(alloc, volume, changes)?;
    volume.change(lnum, bytes)?;
    index.clear_cache(volume);
    index.adopt(volume, staged);
    Ok(())
}
