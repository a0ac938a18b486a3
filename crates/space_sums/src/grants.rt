// What was admitted can be put.

ghost use Rattle.ubifs_base.specs.declared.raw_geometry.RawGeometry.{RawGeometry as Raw};
ghost use Rattle.fs_model.specs.declared.space.Space.{Space as AnySpace};
ghost use Rattle.fs_model.specs.declared.space.Need.{Need as AnyNeed};
ghost use Rattle.fs_model.specs.Settled.{IsCovered};
ghost use Rattle.space_sums.specs.Spaces.{HasRoom, IsAfterPage, IsAfterGroup, with_credits, grant_of};

/// What was admitted can be put: a need that has room leaves a covered store, in which its bytes and nodes still have room once
/// its credits are granted. A page that is put spends a credit, and takes no room from what else was granted; a group that is
/// put spends what was granted for it. Each leaves a covered store.
pub fn what_was_admitted_can_be_put()
    ensures covered { (geo : Raw) (space : AnySpace) (need : AnyNeed) → HasRoom geo space need → IsCovered geo space }
    ensures granted { (geo : Raw) (space : AnySpace) (need : AnyNeed) → HasRoom geo space need → HasRoom geo (with_credits need.credits space) (grant_of need) }
    ensures page { (geo : Raw) (old new : AnySpace) (grant : AnyNeed) → IsAfterPage old new → HasRoom geo old grant → HasRoom geo new grant }
    ensures page_covered { (geo : Raw) (old new : AnySpace) → IsAfterPage old new → IsCovered geo old → IsCovered geo new }
    ensures group { (geo : Raw) (old new : AnySpace) (grant : AnyNeed) → IsAfterGroup grant old new → HasRoom geo old grant → IsCovered geo new }
{}
