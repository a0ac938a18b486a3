// Laws over numbers alone: what keeps a store covered and settled.

ghost use Rattle.std.specs.Prelude.{◌≡◌, ◌↔◌, ℕ, ◌+◌, ◌*◌, ◌≤◌, None};
ghost use Rattle.ubifs_base.specs.declared.raw_geometry.RawGeometry.{RawGeometry as Raw};
ghost use Rattle.fs_model.specs.declared.space.Space.{Space as AnySpace};
ghost use Rattle.fs_model.specs.declared.space.Need.{Need as AnyNeed};
ghost use Rattle.fs_model.specs.Cover.{index_lebs, index_room, needed, room_for};
ghost use Rattle.fs_model.specs.Settled.{IsCovered, IsSettled, settled, leaf_room};
ghost use Rattle.space_sums.specs.Spaces.{IsLeftByCut, IsAfterCommit, IsNoMore, AsksNoLess, HasRoom, with_empty, with_lebs};

/// The end of a commit: an index that weighs no more than before, in at most twice the LEBs that the old weight asks for, keeps
/// no more LEBs, however many nodes are written on top, and whatever index was there before. So a need that had room has room,
/// also one that was granted and isn't put yet; a covered store stays covered, and a settled one settled, where as many LEBs as
/// before are empty or the index's.
pub fn a_commit_keeps_what_was_granted()
    ensures index { (geo : Raw) (old_index old_weight new_index new_weight more : ℕ) →
        new_weight ≤ old_weight → new_index ≤ 2 * index_lebs geo old_weight →
        index_room geo new_index (new_weight + more) ≤ index_room geo old_index (old_weight + more) }
    ensures room { (geo : Raw) (old new : AnySpace) (need : AnyNeed) → IsAfterCommit geo old new → HasRoom geo old need → HasRoom geo new need }
    ensures covered { (geo : Raw) (old new : AnySpace) → IsAfterCommit geo old new → IsCovered geo old → IsCovered geo new }
    ensures settled { (geo : Raw) (old new : AnySpace) → IsAfterCommit geo old new → old.empty + old.index ≤ new.empty + new.index →
        IsSettled geo old → IsSettled geo new }
{}

/// A collection, or an inode that is dropped: neither asks for more bytes or more weight. So a need that had room has room, and
/// a covered store stays covered.
pub fn what_takes_no_more_keeps_what_was_granted()
    ensures room { (geo : Raw) (old new : AnySpace) (need : AnyNeed) → IsNoMore old new → HasRoom geo old need → HasRoom geo new need }
    ensures covered { (geo : Raw) (old new : AnySpace) → IsNoMore old new → IsCovered geo old → IsCovered geo new }
{}

/// A cut: what it leaves of a covered store is covered, and settled where the store would be with the LEBs that a commit
/// under way took. Then nothing keeps it from being written.
pub fn a_cut_keeps_what_was_granted()
    ensures covered { (geo : Raw) (old new : AnySpace) (taken : ℕ) → IsLeftByCut taken old new → IsCovered geo old → IsCovered geo new }
    ensures settled { (geo : Raw) (old new : AnySpace) (taken : ℕ) → IsLeftByCut taken old new → IsSettled geo (with_empty taken old) → IsSettled geo new }
    ensures writable { (geo : Raw) (old new : AnySpace) (taken : ℕ) → IsLeftByCut taken old new → IsCovered geo old → IsSettled geo (with_empty taken old) →
        settled geo new ≡ None }
{}

/// More bytes, credits, nodes or weight never lower the need, and never raise the room that there is for it. So where much has
/// room, less has.
pub fn more_never_lowers_the_need()
    ensures need { (less more : AnySpace) (asked asked_more : AnyNeed) → AsksNoLess less asked more asked_more → needed less asked ≤ needed more asked_more }
    ensures room { (geo : Raw) (less more : AnySpace) (asked asked_more : AnyNeed) → AsksNoLess less asked more asked_more →
        room_for geo more asked_more ≤ room_for geo less asked }
    ensures admitted { (geo : Raw) (less more : AnySpace) (asked asked_more : AnyNeed) → AsksNoLess less asked more asked_more →
        HasRoom geo more asked_more → HasRoom geo less asked }
    ensures index { (geo : Raw) (index index_more weight weight_more : ℕ) → index ≤ index_more → weight ≤ weight_more →
        index_room geo index weight ≤ index_room geo index_more weight_more }
{}

/// A store with more main LEBs, all of them empty, is covered and settled where it was before.
pub fn growth_keeps_what_was_granted()
    ensures covered { (geo : Raw) (space : AnySpace) (lebs : ℕ) → IsCovered geo space → IsCovered geo (with_lebs lebs space) }
    ensures settled { (geo : Raw) (space : AnySpace) (lebs : ℕ) → IsSettled geo space → IsSettled geo (with_lebs lebs space) }
    ensures writable { (geo : Raw) (space : AnySpace) (lebs : ℕ) → settled geo space ≡ None → settled geo (with_lebs lebs space) ≡ None }
{}

/// There is no cause exactly where the store is settled and what is used fits; where nothing is granted that is to be covered.
pub fn a_settled_store_has_no_cause()
    ensures exactly { (geo : Raw) (space : AnySpace) →
        (settled geo space ≡ None) ↔ ((space.used + space.held ≤ leaf_room geo space) × IsSettled geo space) }
    ensures covered { (geo : Raw) (space : AnySpace) → space.credits ≡ 0 → (settled geo space ≡ None) ↔ (IsCovered geo space × IsSettled geo space) }
{}
