// What holds of an index that is loaded, and of one that is changed then: each clean node stands, and keys are in order.

ghost use Rattle.std.specs.Prelude.{◌≡◌, ◌≤◌, ◌+◌, ◌*◌, ℕ, All, List, None, Some, slice_get, true};
ghost use Rattle.ubifs_base.specs.Geometry.{index_node_len, index_nodes_per_leb};
ghost use Rattle.ubifs_base.specs.declared.raw_geometry.RawGeometry.{RawGeometry as ARawGeometry};
ghost use Rattle.index_cache.specs.declared.paged.PagedIndex.{PagedIndex as APagedIndex};
ghost use Rattle.index_cache.specs.Paged.{dirty_of, fanout_of, frozen_of};
ghost use Rattle.index_commit.specs.Rooms.{AreDistinctNumbers, room_in, taken_room};
ghost use Rattle.index_commit.specs.Written.{IsIndexTaken};
ghost use Rattle.index_tree.specs.Distinct.{AreDistinct};
ghost use Rattle.index_tree.specs.Shape.{contents, fits};
ghost use Rattle.index_media.specs.KeyedRow.{HaveFirstKeys, KeyedRow, all_clean, bare};
ghost use Rattle.index_media.specs.PlacedRow.{PlacedRow, lebs_of};
ghost use Rattle.index_media.specs.Stored.{IsStoredIndex};
ghost use Rattle.media_sys.specs.declared.branch.Branch.{Branch as ABranch};
ghost use Rattle.node_table.specs.Changing.{IsChange, changed_row};
ghost use Rattle.node_table.specs.Placing.{KeepsPlaces};
ghost use Rattle.index_media.specs.InsertionSound.{AreKeys};
ghost use Rattle.index_media.specs.KeyedKeys.{AreKeysBounded};
ghost use Rattle.index_commit.specs.KeysApart.{AreKeysApart, AreLeavesApart, IsFreeChange};
ghost use Rattle.node_table.specs.declared.change.Change.{Change as AChange};
ghost use Rattle.index_commit.specs.Lebs.{IsGiven};
ghost use Rattle.index_commit.specs.Ordered.{AreKeysInOrder};
ghost use Rattle.index_commit.specs.Standing.{AreOutside};

use index_media::a_range_removal_leaves_the_keys_of_branches;
use node_table::places_are_kept;

/// Each clean node of an index that was loaded stands, outside of all LEBs that no node of it stands in. Each clean node of an
/// index after a change is one of the index before, so it stands where it stood.
pub fn changes_keep_what_stands()
    ensures loaded { (contents : ℕ → List ℕ) (lebs : List ℕ) (fanout : ℕ) (root : ABranch) (placed : PlacedRow) → IsStoredIndex contents fanout root placed
        → All (λ k. IsGiven lebs k → ⊥) (lebs_of placed) → AreOutside contents lebs (all_clean placed) }
    ensures changed { (fanout : ℕ) (change : AChange) (contents : ℕ → List ℕ) (lebs : List ℕ) (row : KeyedRow) → fits fanout (bare row) ≡ true
        → AreOutside contents lebs row → AreOutside contents lebs (changed_row fanout change row) }
{
    a_range_removal_leaves_the_keys_of_branches();
}

/// In each node of an index that was loaded the keys of branches are in order.
pub fn loaded_keys_are_in_order()
    ensures { (contents : ℕ → List ℕ) (fanout : ℕ) (root : ABranch) (placed : PlacedRow) → IsStoredIndex contents fanout root placed → AreKeysInOrder (all_clean placed) }
{}

/// A commit that writes to one LEB after another fills the rooms of all of them in order: where so many LEBs are full, the next one
/// has the next rooms.
pub fn a_leb_follows_those_before_it()
    ensures { (geo : ARawGeometry) (lebs : List ℕ) (full lnum : ℕ) (a b c : APagedIndex) (i j k : ℕ) → slice_get lebs full ≡ Some lnum → j ≡ i + full * index_nodes_per_leb geo → k ≤ j + index_nodes_per_leb geo
        → IsIndexTaken (taken_room geo lebs) a b i j → IsIndexTaken (room_in lnum (index_node_len geo) 0) b c j k → IsIndexTaken (taken_room geo lebs) a c i k }
{
    places_are_kept();
}

/// Where no leaf of the frozen index stands twice, no node of it does, so a commit writes each dirty node once, and counts it once.
pub fn dirty_nodes_are_distinct()
    ensures { (index : APagedIndex) → fits (fanout_of index) (bare (frozen_of index)) ≡ true → AreDistinct (contents (bare (frozen_of index))) → AreDistinctNumbers (dirty_of index) }
{}

/// Keys that are apart are in order, so a commit of an index whose keys are apart never answers `EqualKeys`. A change keeps them apart,
/// if the key of a leaf that it puts is an entry's or none of the leaves has it; and so do places that are given. Keys are apart where
/// each branch has its first leaf's and no leaf's key that isn't an entry's stands twice.
pub fn changes_keep_keys_apart()
    ensures in_order { (row : KeyedRow) → AreKeys row → AreKeysApart None row → AreKeysInOrder row }
    ensures changed { (fanout : ℕ) (change : AChange) (row : KeyedRow) → 1 ≤ fanout → IsChange change → IsFreeChange change row → AreKeysBounded 0 None row
        → AreKeysApart None row → AreKeysApart None (changed_row fanout change row) }
    ensures places { (old new : KeyedRow) → KeepsPlaces old new → AreKeysApart None old → AreKeysApart None new }
    ensures first_keys { (row : KeyedRow) → HaveFirstKeys row → AreLeavesApart None (contents (bare row)) → AreKeysApart None row }
{}
