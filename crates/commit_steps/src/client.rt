// Clients of several steps, proved from the contracts of the calls alone.

ghost use Rattle.std.specs.Prelude.{◌≡◌, ◌<◌, ◌≤◌, ◌+◌, ◌-◌, ◌^◌, ◌++◌, ◌∷◌, [], ℕ, List, All, IfOk, OnOk, length};
ghost use Rattle.ubifs_base.specs.Key.{IsKey};
ghost use Rattle.ubifs_base.specs.RawOf.{raw_of};
ghost use Rattle.index_tree.specs.Order.{placed};
ghost use Rattle.index_tree.specs.Shape.{contents};
ghost use Rattle.index_media.specs.Clean.{placed_of};
ghost use Rattle.index_media.specs.KeyedRow.{KeyedRow, bare};
ghost use Rattle.index_media.specs.PlacedRow.{PlacedRow, lebs_of, plain};
ghost use Rattle.index_media.specs.Stored.{IsStoredIndex};
ghost use Rattle.media_sys.specs.declared.branch.Branch.{Branch as ABranch};
ghost use Rattle.node_table.specs.Placing.{KeepsPlaces};
ghost use Rattle.ubi_volume.specs.Geometry.{IsGeometryOf};
ghost use Rattle.ubi_volume.specs.Volume.{AreUnits, Leaves, Only, SameShape, filled};
ghost use Rattle.node_cache.specs.Loaded.{IsIndexOn};
ghost use Rattle.index_cache.specs.Paged.{dirty_of, fanout_of, frozen_of, leaves_of, keyed_tree_of, DoesIndexStand};
ghost use Rattle.index_commit.specs.Lebs.{AreLebsApart, AreGivable, IsGiven};
ghost use Rattle.index_commit.specs.Written.{IsRootOf};
ghost use Rattle.commit_steps.specs.UnderWay.{AreSettledLebs, AreWithinLebs, IsCommitUnderWay, IsSeenWithin, WorksBeside};

use index_cache::PagedIndex;
use index_commit::{IndexFault, changes_keep_what_stands, committed_root, write_next_leb};
use index_media::{an_index_depends_on_its_lebs_alone, an_insertion_goes_by_the_keys_of_branches};
use index_tree::Leaf;
use media_sys::Branch;
use node_cache::NodeCache;
use node_table::{Change, places_are_kept};
use std::alloc::Global;
use ubi_volume::Volume;
use ubifs_base::Geometry;

// More dirty nodes than this don't fit into memory.
const MOST_NODES: u64 = 1 << 62;

// Puts a leaf, and writes its node: the put is staged before the node is written, and adopted then, so it can't fail behind it.
fn put_leaf<V: Volume>(
    alloc: Global,
    volume: &mut V,
    index: &mut PagedIndex,
    leaf: Leaf,
    bud: u32,
    node: &[u8],
    sqnum: &mut u64,
) -> Result<(), IndexFault>
    requires lnum { bud < (V.state volume.old).leb_cnt }
    requires range { length node.now ≤ (V.state volume.old).leb_size }
    requires units { AreUnits (V.state volume.old).min_io 0 (length node.now) }
    requires key { IsKey leaf.key }
    requires number { sqnum.old < 2 ^ 64 - 1 }
    requires stands { DoesIndexStand (V.state volume.old) index.old }
    ensures stands { (lebs : List ℕ) → (IsGiven lebs bud → ⊥) → AreWithinLebs (V.state volume.old).holds lebs (keyed_tree_of index.old) → OnOk result (DoesIndexStand (V.state volume.new) index.new) }
    ensures kept { (kept given : List ℕ) → (IsGiven (given ++ kept) bud → ⊥) → IsCommitUnderWay (V.state volume.old) kept given index.old
        → OnOk result (IsCommitUnderWay (V.state volume.new) kept given index.new) }
    ensures seen { (lebs : List ℕ) → (IsGiven lebs bud → ⊥) → IsSeenWithin (V.state volume.old) lebs index.old → OnOk result (IsSeenWithin (V.state volume.new) lebs index.new) }
    ensures leaves { OnOk result (leaves_of index.new ≡ placed leaf (leaves_of index.old)) }
    ensures written { OnOk result ((V.state volume.new).holds bud ≡ filled (V.state volume.old).leb_size node.now) }
    ensures beside { (lebs : List ℕ) → (IsGiven lebs bud → ⊥) → WorksBeside (V.state volume.old) (V.state volume.new) lebs }
    ensures nodes { frozen_of index.new ≡ frozen_of index.old × (dirty_of index.new ≡ dirty_of index.old) × (fanout_of index.new ≡ fanout_of index.old) }
    ensures shape { SameShape (V.state volume.old) (V.state volume.new) }
    ensures number { sqnum.new ≤ sqnum.old + 1 }
{
    changes_keep_what_stands();
    index.trees_are_sound();
    let mut cache = NodeCache::new(alloc)?;
    let changes: &[Change] = &[Change::Insert(leaf)];
    let staged = index.stage(alloc, volume, &mut cache, changes)?;
    volume.change(bud, node)?;
    *sqnum += 1;
    index.adopt(staged);
    Ok(())
}

// Writes what is frozen to these LEBs, one a step, and puts the leaf behind each step.
fn take_steps<V: Volume>(
    alloc: Global,
    volume: &mut V,
    geometry: &Geometry,
    index: &mut PagedIndex,
    lebs: &[u32],
    leaf: Leaf,
    bud: u32,
    node: &[u8],
    sqnum: &mut u64,
) -> Result<(), IndexFault>
    requires geometry { IsGeometryOf (raw_of geometry.now) (V.state volume.old) }
    requires fanout { fanout_of index.old ≡ geometry.now.fanout }
    requires lebs { AreGivable (V.state volume.old).leb_cnt (bud ∷ lebs.now) }
    requires range { length node.now ≤ (V.state volume.old).leb_size }
    requires units { AreUnits (V.state volume.old).min_io 0 (length node.now) }
    requires key { IsKey leaf.key }
    requires number { sqnum.old + length (dirty_of index.old) + length lebs.now < 2 ^ 64 - 1 }
    requires stands { DoesIndexStand (V.state volume.old) index.old }
    requires way { (kept : List ℕ) × (given : List ℕ) × AreLebsApart (given ++ kept) (bud ∷ lebs.now) × IsCommitUnderWay (V.state volume.old) kept given index.old }
    ensures done { (kept given : List ℕ) → AreLebsApart (given ++ kept) (bud ∷ lebs.now) → IsCommitUnderWay (V.state volume.old) kept given index.old
        → OnOk result ((now : List ℕ) × All (IsGiven (lebs.now ++ given)) now × IsCommitUnderWay (V.state volume.new) kept now index.new) }
    ensures none { OnOk result (dirty_of index.new ≡ []) }
    ensures stands { OnOk result (DoesIndexStand (V.state volume.new) index.new) }
    ensures written { (V.state volume.old).holds bud ≡ filled (V.state volume.old).leb_size node.now
        → OnOk result ((V.state volume.new).holds bud ≡ filled (V.state volume.old).leb_size node.now) }
    ensures beside { (others : List ℕ) → AreLebsApart others (bud ∷ lebs.now) → WorksBeside (V.state volume.old) (V.state volume.new) others }
    ensures frozen { KeepsPlaces (frozen_of index.old) (frozen_of index.new) }
    ensures fanout { fanout_of index.new ≡ fanout_of index.old }
{
    places_are_kept();
    if index.next_dirty().is_none() {
        return Ok(());
    }
    let Some((lnum, rest)) = lebs.split_first() else {
        return Err(IndexFault::Full { need: 1, given: 0 });
    };
    write_next_leb(alloc, volume, geometry, index, *lnum, sqnum)?;
    put_leaf(alloc, volume, index, leaf, bud, node, sqnum)?;
    take_steps(alloc, volume, geometry, index, rest, leaf, bud, node, sqnum)
}

/// Commits the index that is seen in steps, one of these LEBs each, and puts a leaf between the steps. It writes the leaf's node to the LEB `bud`,
/// and puts the leaf into the index. The index stands in settled LEBs that are none of all these. After Ok the index of before the puts stands on the
/// volume, in settled LEBs. An index that stood in such LEBs before stands in what a cut at any moment leaves.
pub fn commit_beside_puts<V: Volume>(
    alloc: Global,
    volume: &mut V,
    geometry: &Geometry,
    index: &mut PagedIndex,
    lebs: &[u32],
    leaf: Leaf,
    bud: u32,
    node: &[u8],
    sqnum: &mut u64,
) -> Result<Option<Branch>, IndexFault>
    requires geometry { IsGeometryOf (raw_of geometry.now) (V.state volume.old) }
    requires fanout { fanout_of index.old ≡ geometry.now.fanout }
    requires lebs { AreGivable (V.state volume.old).leb_cnt (bud ∷ lebs.now) }
    requires node { (length node.now ≤ (V.state volume.old).leb_size) × AreUnits (V.state volume.old).min_io 0 (length node.now) }
    requires key { IsKey leaf.key }
    requires number { sqnum.old + length lebs.now < 2 ^ 63 }
    requires seen { (kept : List ℕ) × AreLebsApart kept (bud ∷ lebs.now) × IsSeenWithin (V.state volume.old) kept index.old × DoesIndexStand (V.state volume.old) index.old }
    ensures stands { (kept : List ℕ) → AreLebsApart kept (bud ∷ lebs.now) → IsSeenWithin (V.state volume.old) kept index.old
        → IfOk result (λ root. IsRootOf (V.state volume.new).holds geometry.now.fanout (frozen_of index.new) root
        × All (λ k. Only ((V.state volume.new).holds k) ((V.state volume.new).left_now k)) (lebs_of (placed_of (frozen_of index.new)))) }
    ensures next { (kept : List ℕ) → AreLebsApart kept (bud ∷ lebs.now) → IsSeenWithin (V.state volume.old) kept index.old
        → OnOk result ((given : List ℕ) × All (IsGiven lebs.now) given × IsSeenWithin (V.state volume.new) (given ++ lebs_of (placed_of (frozen_of index.new))) index.new × DoesIndexStand (V.state volume.new) index.new) }
    ensures frozen { OnOk result (KeepsPlaces (keyed_tree_of index.old) (frozen_of index.new)) }
    ensures written { (V.state volume.old).holds bud ≡ filled (V.state volume.old).leb_size node.now
        → OnOk result ((V.state volume.new).holds bud ≡ filled (V.state volume.old).leb_size node.now) }
    ensures beside { (others : List ℕ) → AreLebsApart others (bud ∷ lebs.now) → WorksBeside (V.state volume.old) (V.state volume.new) others }
    ensures old_stays { (kept : List ℕ) (fanout : ℕ) (root : ABranch) (placed : PlacedRow) → AreLebsApart kept (bud ∷ lebs.now) → IsSeenWithin (V.state volume.old) kept index.old
        → All (IsGiven kept) (lebs_of placed) → IsStoredIndex (V.state volume.old).holds fanout root placed
        → Leaves (V.state volume.old) (V.state volume.new) (λ c. IsStoredIndex c fanout root placed) }
{
    an_index_depends_on_its_lebs_alone();
    index.freeze();
    if index.dirty_nodes() > MOST_NODES {
        return Err(IndexFault::Memory);
    }
    take_steps(alloc, volume, geometry, index, lebs, leaf, bud, node, sqnum)?;
    Ok(committed_root(index))
}

/// Loads the index that stands on a volume in settled LEBs, puts a leaf, and commits in steps, with the leaf put once more behind each. After
/// Ok the index with one leaf more stands. The index before stands in what a cut at any moment leaves.
pub fn load_and_commit<V: Volume>(
    alloc: Global,
    volume: &mut V,
    geometry: &Geometry,
    root: &Branch,
    lebs: &[u32],
    leaf: Leaf,
    bud: u32,
    node: &[u8],
    sqnum: &mut u64,
) -> Result<Option<Branch>, IndexFault>
    requires geometry { IsGeometryOf (raw_of geometry.now) (V.state volume.old) }
    requires index { (row : PlacedRow) × IsIndexOn (V.state volume.old) geometry.now.fanout root.now row × AreSettledLebs (V.state volume.old) (lebs_of row) × AreLebsApart (lebs_of row) (bud ∷ lebs.now) }
    requires lebs { AreGivable (V.state volume.old).leb_cnt (bud ∷ lebs.now) }
    requires node { (length node.now ≤ (V.state volume.old).leb_size) × AreUnits (V.state volume.old).min_io 0 (length node.now) }
    requires key { IsKey leaf.key }
    requires number { sqnum.old + 1 + length lebs.now < 2 ^ 63 }
    ensures leaves { (row : PlacedRow) → IsIndexOn (V.state volume.old) geometry.now.fanout root.now row → AreSettledLebs (V.state volume.old) (lebs_of row) → AreLebsApart (lebs_of row) (bud ∷ lebs.now)
        → IfOk result (λ at. (now : KeyedRow) × (contents (bare now) ≡ placed leaf (contents (plain row))) × IsRootOf (V.state volume.new).holds geometry.now.fanout now at) }
    ensures written { OnOk result ((V.state volume.new).holds bud ≡ filled (V.state volume.old).leb_size node.now) }
    ensures beside { (others : List ℕ) → AreLebsApart others (bud ∷ lebs.now) → WorksBeside (V.state volume.old) (V.state volume.new) others }
    ensures old_stays { (row : PlacedRow) → IsIndexOn (V.state volume.old) geometry.now.fanout root.now row → AreSettledLebs (V.state volume.old) (lebs_of row) → AreLebsApart (lebs_of row) (bud ∷ lebs.now)
        → Leaves (V.state volume.old) (V.state volume.new) (λ c. IsStoredIndex c geometry.now.fanout root.now row) }
{
    an_index_depends_on_its_lebs_alone();
    an_insertion_goes_by_the_keys_of_branches();
    changes_keep_what_stands();
    places_are_kept();
    let mut index = PagedIndex::at_root(alloc, volume, geometry, root)?;
    put_leaf(alloc, volume, &mut index, leaf, bud, node, sqnum)?;
    commit_beside_puts(
        alloc, volume, geometry, &mut index, lebs, leaf, bud, node, sqnum,
    )
}
