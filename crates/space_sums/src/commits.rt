// A settled store has the LEBs for its next commit, and is settled while that one runs.

ghost use Rattle.std.specs.Prelude.{◌≡◌, ℕ, ◌+◌, ◌*◌, ◌≤◌, ◌<◌, List};
ghost use Rattle.ubifs_base.specs.declared.raw_geometry.RawGeometry.{RawGeometry as Raw};
ghost use Rattle.fs_model.specs.declared.space.Space.{Space as AnySpace};
ghost use Rattle.fs_model.specs.declared.space.Need.{Need as AnyNeed};
ghost use Rattle.fs_model.specs.Settled.{IsSettled};
ghost use Rattle.space_sums.specs.MainLebs.{MainLeb, IsPacked, empty_count, index_count};
ghost use Rattle.space_sums.specs.Spaces.{HasRoom, IsNextIndex, IsSettledTwice, Running, at_cut, taken_lebs, with_heads};

/// A settled store has as many empty LEBs as its next commit takes, and one more. While the commit runs, it is enough that the
/// store is settled as a cut leaves it: then it is settled as the commit's end leaves it, too.
pub fn a_settled_store_can_commit()
    ensures lebs { (geo : Raw) (space : AnySpace) (nodes dirty : ℕ) → IsSettled geo space → nodes ≤ space.weight → dirty ≤ nodes →
        taken_lebs geo space nodes dirty + 1 ≤ space.empty }
    ensures twice { (geo : Raw) (next : Running) (space : AnySpace) → IsNextIndex geo next space → IsSettled geo (at_cut next space) →
        IsSettledTwice geo next space }
{}

/// Where no collection gains, what was admitted can be put, though all three heads go on to empty LEBs: the store is settled
/// afterwards. That some bytes are used is a premise, and always holds: the root directory's inode is a live leaf.
pub fn a_packed_store_takes_what_was_admitted()
    ensures { (geo : Raw) (space : AnySpace) (need : AnyNeed) (lebs : List MainLeb) (opened nodes : ℕ) →
        0 < space.used → HasRoom geo space need → IsPacked geo space lebs →
        empty_count lebs ≡ space.empty → index_count lebs ≡ space.index →
        opened ≤ 3 → nodes ≤ 2 * (space.credits + need.credits) + need.nodes →
        IsSettled geo (with_heads opened nodes space) }
{}
