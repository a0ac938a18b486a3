// A full store still has LEBs for its index.

ghost use Rattle.std.specs.Prelude.{◌≡◌, ◌+◌, ◌*◌, ◌<◌, ◌≤◌, List};
ghost use Rattle.ubifs_base.specs.declared.raw_geometry.RawGeometry.{RawGeometry as Raw};
ghost use Rattle.fs_model.specs.declared.space.Space.{Space as AnySpace};
ghost use Rattle.fs_model.specs.Cover.{index_lebs, index_room};
ghost use Rattle.fs_model.specs.Settled.{IsCovered};
ghost use Rattle.space_sums.specs.MainLebs.{MainLeb, IsPacked, empty_count, index_count};

/// Where no collection gains and no commit runs, four LEBs more than are kept for the index of a covered store are empty or the
/// index's. So there are three empty LEBs more than a settled store needs.
///
/// That some bytes are used is a premise, and always holds: the root directory's inode is a live leaf of every store. A store
/// that used none could be covered with no LEB at all.
pub fn a_packed_store_has_spare_lebs()
    ensures spare { (geo : Raw) (space : AnySpace) (lebs : List MainLeb) →
        0 < space.used → IsCovered geo space → IsPacked geo space lebs →
        index_room geo space.index (space.weight + 2 * space.credits) + 4 ≤ empty_count lebs + index_count lebs }
    ensures settled { (geo : Raw) (space : AnySpace) (lebs : List MainLeb) →
        0 < space.used → IsCovered geo space → IsPacked geo space lebs →
        empty_count lebs ≡ space.empty → index_count lebs ≡ space.index →
        (4 + index_lebs geo space.weight ≤ space.empty) × (4 + 3 * index_lebs geo space.weight ≤ space.empty + space.index) }
{}
