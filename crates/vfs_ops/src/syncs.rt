// What is written comes to the medium: fsync(2) and sync(2).

ghost use Rattle.std.specs.Prelude.{◌≡◌, ◌⊎◌, ◌+◌, ◌*◌, ◌≤◌, ℕ, false, [], Some, Err, Ok, IfOk, OnOk, IfErr, length};
ghost use Rattle.std.specs.BTreeMap.{is_at};
ghost use Rattle.std.specs.Map.{lookup};
ghost use Rattle.fs_model.specs.declared.op.Op.TheVariants.{Fsync, Flush};
ghost use Rattle.fs_model.specs.Backing.{Goes, IsSynced, KeepsFiles};
ghost use Rattle.fs_model.specs.Files.{pair_cmp};
ghost use Rattle.fs_model.specs.Journal.{Leaves};
ghost use Rattle.fs_model.specs.Operation.{outcome_of};
ghost use Rattle.fs_laws.specs.Sound.{IsSound};
ghost use Rattle.buffered_files.specs.Alike.{IsAlike};
ghost use Rattle.buffered_files.specs.Calls.{GrowsBy, SureGoes, added_or_refused};
ghost use Rattle.buffered_files.specs.Cuts.{PutsSeen};
ghost use Rattle.buffered_files.specs.Present.{dirty_of_others, has_dirty, present, IsKept};
ghost use Rattle.vfs_ops.specs.Kinds.{IsEarly, IsStopped, OnlyLooks};

use buffered_files::{Kept, present_files_are_sound, write_back, write_back_file};
use fs_model::{Backing, Refusal, Reply};
use op_groups::is_bad_slot;
use std::alloc::Global;

/// Puts all dirty pages and syncs. A refusal tells that the backing failed, is read-only, or that memory ran out; what wasn't
/// put by then is dirty as before. Callers see the same files in any case.
pub(crate) fn flush<B: Backing>(
    alloc: Global,
    backing: &mut B,
    kept: &mut Kept,
) -> Result<Reply, Refusal>
    requires kept { IsKept (B.state backing.old).tree kept.old }
    requires paid { length kept.old.pages.dirty ≤ (B.state backing.old).space.credits }
    requires sound { IsSound (present (B.state backing.old).tree kept.old) }
    ensures kept { IsKept (B.state backing.new).tree kept.new }
    ensures paid { length kept.new.pages.dirty ≤ (B.state backing.new).space.credits }
    ensures sound { IsSound (present (B.state backing.new).tree kept.new) }
    ensures done { IfOk result (λ reply. (caller : ℕ) → (now : ℕ) → outcome_of (present (B.state backing.old).tree kept.old) caller now Flush ≡ Ok (reply, present (B.state backing.old).tree kept.old)) }
    ensures same { IsAlike (present (B.state backing.old).tree kept.old) (present (B.state backing.new).tree kept.new) }
    ensures synced { OnOk result (IsSynced (B.state backing.new)) }
    ensures pages { OnOk result (kept.new.pages.dirty ≡ []) }
    ensures inodes { OnOk result (kept.new.inodes ≡ []) }
    ensures refused { IfErr result (λ refusal. IsStopped (B.state backing.old) (B.state backing.new) refusal) }
    ensures issued { (B.state backing.new).space.credits + length kept.old.pages.dirty ≡ (B.state backing.old).space.credits + length kept.new.pages.dirty }
    ensures grows { GrowsBy (added_or_refused 0 2 result) (B.state backing.old) (B.state backing.new) kept.old kept.new }
    ensures closed { (B.state backing.new).closed ≤ (B.state backing.old).closed }
    ensures cut { PutsSeen (B.state backing.old) (B.state backing.new) kept.old }
    ensures goes { Goes (2 * length kept.old.pages.dirty) (B.state backing.old) (B.state backing.new) }
    ensures sure { SureGoes (B.outlook backing.old) (B.outlook backing.new) (B.state backing.old) (B.state backing.new) }
{
    present_files_are_sound();
    put_all(alloc, backing, kept)?;
    sync(backing)?;
    Ok(Reply::Done)
}

/// Puts the dirty pages of a file that is open in a slot of a caller, and no others, and syncs. The definition refuses a
/// slot that isn't open; other refusals are those of `flush`.
pub(crate) fn fsync<B: Backing>(
    alloc: Global,
    backing: &mut B,
    kept: &mut Kept,
    caller: u16,
    slot: u8,
) -> Result<Reply, Refusal>
    requires kept { IsKept (B.state backing.old).tree kept.old }
    requires paid { length kept.old.pages.dirty ≤ (B.state backing.old).space.credits }
    requires sound { IsSound (present (B.state backing.old).tree kept.old) }
    ensures kept { IsKept (B.state backing.new).tree kept.new }
    ensures paid { length kept.new.pages.dirty ≤ (B.state backing.new).space.credits }
    ensures sound { IsSound (present (B.state backing.new).tree kept.new) }
    ensures done { IfOk result (λ reply. (now : ℕ) → outcome_of (present (B.state backing.old).tree kept.old) caller now (Fsync slot) ≡ Ok (reply, present (B.state backing.old).tree kept.old)) }
    ensures same { IsAlike (present (B.state backing.old).tree kept.old) (present (B.state backing.new).tree kept.new) }
    ensures early { IsEarly result → OnlyLooks (B.state backing.old) (B.state backing.new) kept.old kept.new }
    ensures synced { OnOk result (IsSynced (B.state backing.new)) }
    ensures pages { OnOk result ((ino : ℕ) → lookup (is_at (pair_cmp (caller, slot))) kept.old.handles ≡ Some ino → has_dirty kept.new.pages.dirty ino ≡ false) }
    ensures others { (ino : ℕ) → lookup (is_at (pair_cmp (caller, slot))) kept.old.handles ≡ Some ino → dirty_of_others kept.new.pages.dirty ino ≡ dirty_of_others kept.old.pages.dirty ino }
    ensures refused { IfErr result (λ refusal. ((now : ℕ) → outcome_of (present (B.state backing.old).tree kept.old) caller now (Fsync slot) ≡ Err refusal) ⊎ IsStopped (B.state backing.old) (B.state backing.new) refusal) }
    ensures issued { (B.state backing.new).space.credits + length kept.old.pages.dirty ≡ (B.state backing.old).space.credits + length kept.new.pages.dirty }
    ensures grows { GrowsBy (added_or_refused 0 2 result) (B.state backing.old) (B.state backing.new) kept.old kept.new }
    ensures closed { (B.state backing.new).closed ≤ (B.state backing.old).closed }
    ensures cut { PutsSeen (B.state backing.old) (B.state backing.new) kept.old }
    ensures goes { Goes (2 * length kept.old.pages.dirty) (B.state backing.old) (B.state backing.new) }
    ensures sure { SureGoes (B.outlook backing.old) (B.outlook backing.new) (B.state backing.old) (B.state backing.new) }
{
    if is_bad_slot(slot) {
        return Err(Refusal::Einval);
    }
    let Some(ino) = kept.handles.get(caller, slot) else {
        return Err(Refusal::Ebadf);
    };
    present_files_are_sound();
    put_file(alloc, backing, kept, ino)?;
    sync(backing)?;
    Ok(Reply::Done)
}

// Puts the dirty pages of a file.
fn put_file<B: Backing>(
    alloc: Global,
    backing: &mut B,
    kept: &mut Kept,
    ino: u32,
) -> Result<(), Refusal>
    requires kept { IsKept (B.state backing.old).tree kept.old }
    requires paid { length kept.old.pages.dirty ≤ (B.state backing.old).space.credits }
    ensures kept { IsKept (B.state backing.new).tree kept.new }
    ensures paid { length kept.new.pages.dirty ≤ (B.state backing.new).space.credits }
    ensures same { IsAlike (present (B.state backing.old).tree kept.old) (present (B.state backing.new).tree kept.new) }
    ensures pages { OnOk result (has_dirty kept.new.pages.dirty ino ≡ false) }
    ensures others { dirty_of_others kept.new.pages.dirty ino ≡ dirty_of_others kept.old.pages.dirty ino }
    ensures refused { IfErr result (λ refusal. IsStopped (B.state backing.old) (B.state backing.new) refusal) }
    ensures issued { (B.state backing.new).space.credits + length kept.old.pages.dirty ≡ (B.state backing.old).space.credits + length kept.new.pages.dirty }
    ensures grows { GrowsBy (added_or_refused 0 2 result) (B.state backing.old) (B.state backing.new) kept.old kept.new }
    ensures closed { (B.state backing.new).closed ≤ (B.state backing.old).closed }
    ensures cut { PutsSeen (B.state backing.old) (B.state backing.new) kept.old }
    ensures goes { Goes (2 * length kept.old.pages.dirty) (B.state backing.old) (B.state backing.new) }
    ensures sure { SureGoes (B.outlook backing.old) (B.outlook backing.new) (B.state backing.old) (B.state backing.new) }
{
    match write_back_file(alloc, backing, kept, ino) {
        Ok(()) => Ok(()),
        Err(fault) => Err(Refusal::from(fault)),
    }
}

// Puts all dirty pages.
fn put_all<B: Backing>(alloc: Global, backing: &mut B, kept: &mut Kept) -> Result<(), Refusal>
    requires kept { IsKept (B.state backing.old).tree kept.old }
    requires paid { length kept.old.pages.dirty ≤ (B.state backing.old).space.credits }
    ensures kept { IsKept (B.state backing.new).tree kept.new }
    ensures paid { length kept.new.pages.dirty ≤ (B.state backing.new).space.credits }
    ensures same { IsAlike (present (B.state backing.old).tree kept.old) (present (B.state backing.new).tree kept.new) }
    ensures pages { OnOk result (kept.new.pages.dirty ≡ []) }
    ensures inodes { OnOk result (kept.new.inodes ≡ []) }
    ensures refused { IfErr result (λ refusal. IsStopped (B.state backing.old) (B.state backing.new) refusal) }
    ensures issued { (B.state backing.new).space.credits + length kept.old.pages.dirty ≡ (B.state backing.old).space.credits + length kept.new.pages.dirty }
    ensures grows { GrowsBy (added_or_refused 0 2 result) (B.state backing.old) (B.state backing.new) kept.old kept.new }
    ensures closed { (B.state backing.new).closed ≤ (B.state backing.old).closed }
    ensures cut { PutsSeen (B.state backing.old) (B.state backing.new) kept.old }
    ensures goes { Goes (2 * length kept.old.pages.dirty) (B.state backing.old) (B.state backing.new) }
    ensures sure { SureGoes (B.outlook backing.old) (B.outlook backing.new) (B.state backing.old) (B.state backing.new) }
{
    match write_back(alloc, backing, kept) {
        Ok(()) => Ok(()),
        Err(fault) => Err(Refusal::from(fault)),
    }
}

// Syncs; the files stay.
fn sync<B: Backing>(backing: &mut B) -> Result<(), Refusal>
    ensures synced { OnOk result (IsSynced (B.state backing.new)) }
    ensures files { KeepsFiles (B.state backing.old) (B.state backing.new) }
    ensures refused { IfErr result (λ refusal. IsStopped (B.state backing.old) (B.state backing.new) refusal) }
    ensures cut { Leaves (B.state backing.old).journal (B.state backing.new).journal [] }
    ensures goes { Goes 0 (B.state backing.old) (B.state backing.new) }
    ensures sure { SureGoes (B.outlook backing.old) (B.outlook backing.new) (B.state backing.old) (B.state backing.new) }
{
    match backing.sync() {
        Ok(()) => Ok(()),
        Err(failed) => Err(Refusal::from(failed)),
    }
}
