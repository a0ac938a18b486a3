// Room is asked for, and made.

ghost use Rattle.std.specs.Prelude.{◌≡◌, ◌⊎◌, ◌+◌, ◌*◌, ◌≤◌, [], length, Some, Ok, OnOk, OnErr, IfErr};
ghost use Rattle.fs_model.specs.Backing.{Goes, HasCause, IsModest, granted};
ghost use Rattle.fs_model.specs.Cover.{needed, room_for};
ghost use Rattle.buffered_files.specs.Alike.{IsAlike};
ghost use Rattle.buffered_files.specs.Calls.{GrowsBy, HasCommitted, HasMadeRoom, IsCoveredAtLast, IsCoveredBy, IsWithoutRoom, SureGoes, TellsMode, WasCovered, added_or_failed, added_or_refused};
ghost use Rattle.buffered_files.specs.Cuts.{PutsSeen};
ghost use Rattle.buffered_files.specs.Present.{IsKept, present};

use crate::commits::commit;
use crate::kept::Kept;
use crate::put::write_back;
use fs_model::{Backing, Need, Refusal, StoreFault};
use std::alloc::Global;

/// Admits a need. Where it isn't covered as the backing is, all dirty pages are put and committed, and it is tested
/// again. What is answered is what the last test says: the need is granted where it holds, and `Enospc` comes where the
/// second one fails, with its two sides. Other refusals are faults of the backing. After a refusal some pages may have
/// been put.
pub fn admit<B: Backing>(
    alloc: Global,
    backing: &mut B,
    kept: &mut Kept,
    need: &Need,
) -> Result<(), Refusal>
    requires modest { IsModest need.now }
    requires kept { IsKept (B.state backing.old).tree kept.old }
    requires paid { length kept.old.pages.dirty ≤ (B.state backing.old).space.credits }
    ensures kept { IsKept (B.state backing.new).tree kept.new }
    ensures paid { OnOk result (length kept.new.pages.dirty + need.now.credits ≤ (B.state backing.new).space.credits) }
    ensures still_paid { OnErr result (length kept.new.pages.dirty ≤ (B.state backing.new).space.credits) }
    ensures issued { OnOk result ((B.state backing.new).space.credits + length kept.old.pages.dirty ≡ (B.state backing.old).space.credits + length kept.new.pages.dirty + need.now.credits) }
    ensures still_issued { OnErr result ((B.state backing.new).space.credits + length kept.old.pages.dirty ≡ (B.state backing.old).space.credits + length kept.new.pages.dirty) }
    ensures same { IsAlike (present (B.state backing.old).tree kept.old) (present (B.state backing.new).tree kept.new) }
    ensures grant { OnOk result ((B.state backing.new).grant ≡ Some (record { bytes = need.now.bytes; nodes = need.now.nodes })) }
    ensures admitted { OnOk result (IsCoveredBy (B.state backing.old) (B.state backing.new) kept.new need.now) }
    ensures tested { OnOk result (WasCovered (B.state backing.old) (B.state backing.new) kept.old need.now need.now 0) }
    ensures inodes { OnOk result ((kept.new.inodes ≡ kept.old.inodes) ⊎ (kept.new.inodes ≡ [])) }
    ensures covered { needed (B.state backing.old).space need.now ≤ room_for (B.state backing.old).geometry (B.state backing.old).space need.now
        → (result ≡ Ok tt) × (B.state backing.new ≡ granted (B.state backing.old) need.now) × (kept.new ≡ kept.old) }
    ensures refused { IfErr result (IsWithoutRoom (B.state backing.old) (B.state backing.new) kept.new need.now) }
    ensures cut { PutsSeen (B.state backing.old) (B.state backing.new) kept.old }
    ensures goes { Goes (2 * length kept.old.pages.dirty) (B.state backing.old) (B.state backing.new) }
    ensures grows { GrowsBy (added_or_refused 0 2 result) (B.state backing.old) (B.state backing.new) kept.old kept.new }
    ensures closed { (B.state backing.new).closed ≤ (B.state backing.old).closed }
    ensures sure { SureGoes (B.outlook backing.old) (B.outlook backing.new) (B.state backing.old) (B.state backing.new) }
{
    match backing.admit(need) {
        Ok(()) => Ok(()),
        Err(_) => admit_again(alloc, backing, kept, need),
    }
}

// Makes all the room that there is, and tests once more.
fn admit_again<B: Backing>(
    alloc: Global,
    backing: &mut B,
    kept: &mut Kept,
    need: &Need,
) -> Result<(), Refusal>
    requires modest { IsModest need.now }
    requires kept { IsKept (B.state backing.old).tree kept.old }
    requires paid { length kept.old.pages.dirty ≤ (B.state backing.old).space.credits }
    ensures kept { IsKept (B.state backing.new).tree kept.new }
    ensures paid { OnOk result (length kept.new.pages.dirty + need.now.credits ≤ (B.state backing.new).space.credits) }
    ensures still_paid { OnErr result (length kept.new.pages.dirty ≤ (B.state backing.new).space.credits) }
    ensures issued { OnOk result ((B.state backing.new).space.credits + length kept.old.pages.dirty ≡ (B.state backing.old).space.credits + length kept.new.pages.dirty + need.now.credits) }
    ensures still_issued { OnErr result ((B.state backing.new).space.credits + length kept.old.pages.dirty ≡ (B.state backing.old).space.credits + length kept.new.pages.dirty) }
    ensures same { IsAlike (present (B.state backing.old).tree kept.old) (present (B.state backing.new).tree kept.new) }
    ensures grant { OnOk result ((B.state backing.new).grant ≡ Some (record { bytes = need.now.bytes; nodes = need.now.nodes })) }
    ensures admitted { OnOk result (IsCoveredBy (B.state backing.old) (B.state backing.new) kept.new need.now) }
    ensures tested { OnOk result (IsCoveredAtLast (B.state backing.old) (B.state backing.new) kept.old need.now 0) }
    ensures inodes { OnOk result (kept.new.inodes ≡ []) }
    ensures refused { IfErr result (IsWithoutRoom (B.state backing.old) (B.state backing.new) kept.new need.now) }
    ensures cut { PutsSeen (B.state backing.old) (B.state backing.new) kept.old }
    ensures goes { Goes (2 * length kept.old.pages.dirty) (B.state backing.old) (B.state backing.new) }
    ensures grows { GrowsBy (added_or_refused 0 2 result) (B.state backing.old) (B.state backing.new) kept.old kept.new }
    ensures closed { (B.state backing.new).closed ≤ (B.state backing.old).closed }
    ensures sure { SureGoes (B.outlook backing.old) (B.outlook backing.new) (B.state backing.old) (B.state backing.new) }
{
    match make_room(alloc, backing, kept) {
        Ok(()) => match backing.admit(need) {
            Ok(()) => Ok(()),
            Err(space) => Err(Refusal::Enospc { space }),
        },
        Err(fault) => Err(Refusal::from(fault)),
    }
}

/// Puts all dirty pages, and commits. The start of the commit brings them to the medium, so nothing is synced before.
pub fn make_room<B: Backing>(
    alloc: Global,
    backing: &mut B,
    kept: &mut Kept,
) -> Result<(), StoreFault>
    requires kept { IsKept (B.state backing.old).tree kept.old }
    requires paid { length kept.old.pages.dirty ≤ (B.state backing.old).space.credits }
    ensures kept { IsKept (B.state backing.new).tree kept.new }
    ensures paid { length kept.new.pages.dirty ≤ (B.state backing.new).space.credits }
    ensures same { IsAlike (present (B.state backing.old).tree kept.old) (present (B.state backing.new).tree kept.new) }
    ensures issued { (B.state backing.new).space.credits + length kept.old.pages.dirty ≡ (B.state backing.old).space.credits + length kept.new.pages.dirty }
    ensures pages { OnOk result (kept.new.pages.dirty ≡ []) }
    ensures inodes { OnOk result (kept.new.inodes ≡ []) }
    ensures done { OnOk result (HasCommitted (B.state backing.new)) }
    ensures room { OnOk result (HasMadeRoom (B.state backing.old) (B.state backing.new) kept.old) }
    ensures cut { PutsSeen (B.state backing.old) (B.state backing.new) kept.old }
    ensures goes { Goes (2 * length kept.old.pages.dirty) (B.state backing.old) (B.state backing.new) }
    ensures grows { GrowsBy (added_or_failed 0 2 result) (B.state backing.old) (B.state backing.new) kept.old kept.new }
    ensures closed { (B.state backing.new).closed ≤ (B.state backing.old).closed }
    ensures cause { HasCause (B.state backing.old) (B.state backing.new) result }
    ensures mode { TellsMode (B.state backing.new) result }
    ensures sure { SureGoes (B.outlook backing.old) (B.outlook backing.new) (B.state backing.old) (B.state backing.new) }
{
    write_back(alloc, backing, kept)?;
    commit(backing)
}
