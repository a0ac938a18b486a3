// A caller's operation, from the mode of the backing on.

ghost use Rattle.std.specs.Prelude.{◌≡◌, ◌⊎◌, ℕ, ◌+◌, ◌-◌, ◌*◌, ◌≤◌, max, [], false, None, IsSome, Ok, Err, IfOk, OnOk, OnErr, IfErr, length};
ghost use Rattle.fs_model.specs.declared.op.Op.TheVariants.{Fsync, Flush};
ghost use Rattle.fs_model.specs.Backing.{Goes};
ghost use Rattle.fs_model.specs.Files.{Tree};
ghost use Rattle.fs_model.specs.Legal.{pages_in};
ghost use Rattle.fs_model.specs.Operation.{outcome_of};
ghost use Rattle.fs_laws.specs.Sound.{IsCall};
ghost use Rattle.buffered_files.specs.Alike.{IsAlike};
ghost use Rattle.buffered_files.specs.Calls.{GrowsBy, SureGoes, added_or_refused};
ghost use Rattle.buffered_files.specs.Cuts.{PutsSeen, group_fate};
ghost use Rattle.buffered_files.specs.Present.{present};
ghost use Rattle.vfs_ops.specs.Events.{HasSynced, PutsCall};
ghost use Rattle.vfs_ops.specs.Kinds.{IsEarly, IsLookOnly, KeepsOrphans, KeepsOthers, OnlyLooks};
ghost use Rattle.vfs_ops.specs.Operations.{is_of_names, nodes_asked};
ghost use Rattle.vfs_ops.specs.Writing.{Buffers, newly_by};
ghost use Rattle.vfs_ops.specs.Steps.{IsReady, IsAtOnce, WasAdmitted, IsDone, IsIdle, IsTurnedDown, IsLast, IsRefusedFor, IsUnsynced, allowed_on, asked, is_write, read_only_cause};

use crate::changes::change;
use crate::handles::{close, open};
use crate::reads::look;
use crate::syncs::{flush, fsync};
use crate::truncations::truncate;
use crate::writes::write;
use buffered_files::{Kept, present_files_are_sound};
use fs_model::{Backing, Cause, Mode, Op, Refusal, Reply};
use op_groups::is_bad_slot;
use std::alloc::Global;

/// Why the backing doesn't do an operation at all.
pub(crate) fn read_only_cause(mode: Mode, op: &Op) -> Option<Cause>
    ensures { result ≡ read_only_cause mode op.now }
{
    match mode {
        Mode::ReadWrite => None,
        Mode::ReadOnly { cause } => cause_to_refuse(cause, op),
    }
}

// Why a store that is read-only for this cause doesn't do an operation.
fn cause_to_refuse(cause: Cause, op: &Op) -> Option<Cause>
    ensures { result ≡ read_only_cause (Mode.ReadOnly cause) op.now }
{
    match op {
        Op::OpenFile { .. }
        | Op::Close { .. }
        | Op::Read { .. }
        | Op::List { .. }
        | Op::Stat { .. }
        | Op::Readlink { .. } => None,
        Op::Fsync { .. } | Op::Flush => match cause {
            Cause::Tight { .. } => None,
            _ => Some(cause),
        },
        _ => Some(cause),
    }
}

/// Does an operation, and answers what is left of the grant. A read-only store refuses it before all else, where it changes or
/// syncs something.
pub(crate) fn call<B: Backing>(
    alloc: Global,
    backing: &mut B,
    kept: &mut Kept,
    caller: u16,
    now: u64,
    grant: u64,
    op: &Op,
) -> Result<(Reply, u64), Refusal>
    requires ready { IsReady (B.state backing.old) kept.old }
    requires call { IsCall op.now }
    requires grant { length kept.old.pages.dirty + grant ≤ (B.state backing.old).space.credits }
    ensures ready { IsReady (B.state backing.new) kept.new }
    ensures mode { OnOk result (read_only_cause (B.state backing.old).mode op.now ≡ None) }
    ensures closed { IsSome (read_only_cause (B.state backing.old).mode op.now) → (B.state backing.new ≡ B.state backing.old) × (kept.new ≡ kept.old) }
    ensures done { IfOk result (λ r. IsDone (allowed_on (B.state backing.old) (present (B.state backing.old).tree kept.old) caller now op.now) (present (B.state backing.new).tree kept.new) r.0) }
    ensures left { IfOk result (λ r. r.1 ≡ grant - newly_by kept.old caller op.now) }
    ensures same { OnErr result (IsAlike (present (B.state backing.old).tree kept.old) (present (B.state backing.new).tree kept.new)) }
    ensures refused { IfErr result (λ refusal. IsRefusedFor (read_only_cause (B.state backing.old).mode op.now) (B.state backing.old) (B.state backing.new) kept.new (present (B.state backing.old).tree kept.old) caller now grant op.now refusal) }
    ensures issued { IfOk result (λ r. (B.state backing.new).space.credits + length kept.old.pages.dirty + grant ≡ (B.state backing.old).space.credits + length kept.new.pages.dirty + r.1) }
    ensures still { OnErr result ((B.state backing.new).space.credits + length kept.old.pages.dirty ≡ (B.state backing.old).space.credits + length kept.new.pages.dirty) }
    ensures looked { IsLookOnly op.now result → OnlyLooks (B.state backing.old) (B.state backing.new) kept.old kept.new }
    ensures written { IfOk result (λ r. HasSynced (B.state backing.old).mode (B.state backing.new) kept.old kept.new caller op.now r.0) }
    ensures others { KeepsOthers kept.old kept.new caller op.now }
    ensures idle { IsIdle (B.state backing.old) (B.state backing.new) kept.old kept.new op.now }
    ensures admitted { OnOk result (WasAdmitted (B.state backing.old) (B.state backing.new) kept.old caller now grant op.now) }
    ensures at_once { IsAtOnce (B.state backing.old) (B.state backing.new) kept.old caller now op.now result }
    ensures buffered { Buffers (B.state backing.old) (B.state backing.new) kept.old kept.new caller grant op.now result }
    ensures grows { GrowsBy (added_or_refused (2 * pages_in op.now + nodes_asked (present (B.state backing.old).tree kept.old) caller now op.now) (max 2 (nodes_asked (present (B.state backing.old).tree kept.old) caller now op.now)) result) (B.state backing.old) (B.state backing.new) kept.old kept.new }
    ensures orphans { KeepsOrphans (B.state backing.old) (B.state backing.new) (present (B.state backing.old).tree kept.old) (present (B.state backing.new).tree kept.new) }
    ensures cut { PutsCall (B.state backing.old) (B.state backing.new) kept.old caller now op.now (group_fate result) }
    ensures goes { Goes (2 * length kept.old.pages.dirty + nodes_asked (present (B.state backing.old).tree kept.old) caller now op.now) (B.state backing.old) (B.state backing.new) }
    ensures sure { SureGoes (B.outlook backing.old) (B.outlook backing.new) (B.state backing.old) (B.state backing.new) }
{
    match read_only_cause(backing.mode(), op) {
        Some(cause) => Err(Refusal::Erofs { cause }),
        None => serve(alloc, backing, kept, caller, now, grant, op),
    }
}

/// Does an operation on a store that lets it through, and answers what is left of the grant.
pub(crate) fn serve<B: Backing>(
    alloc: Global,
    backing: &mut B,
    kept: &mut Kept,
    caller: u16,
    now: u64,
    grant: u64,
    op: &Op,
) -> Result<(Reply, u64), Refusal>
    requires ready { IsReady (B.state backing.old) kept.old }
    requires grant { length kept.old.pages.dirty + grant ≤ (B.state backing.old).space.credits }
    requires call { IsCall op.now }
    requires mode { read_only_cause (B.state backing.old).mode op.now ≡ None }
    ensures ready { IsReady (B.state backing.new) kept.new }
    ensures done { IfOk result (λ r. IsDone (allowed_on (B.state backing.old) (present (B.state backing.old).tree kept.old) caller now op.now) (present (B.state backing.new).tree kept.new) r.0) }
    ensures left { IfOk result (λ r. r.1 ≡ grant - newly_by kept.old caller op.now) }
    ensures same { OnErr result (IsAlike (present (B.state backing.old).tree kept.old) (present (B.state backing.new).tree kept.new)) }
    ensures refused { IfErr result (λ refusal. (allowed_on (B.state backing.old) (present (B.state backing.old).tree kept.old) caller now op.now ≡ Err refusal)
        ⊎ (IsTurnedDown (B.state backing.old) (B.state backing.new) kept.new (asked (present (B.state backing.old).tree kept.old) caller now grant op.now) op.now refusal
        × IsLast (allowed_on (B.state backing.old) (present (B.state backing.old).tree kept.old) caller now op.now) refusal)) }
    ensures issued { IfOk result (λ r. (B.state backing.new).space.credits + length kept.old.pages.dirty + grant ≡ (B.state backing.old).space.credits + length kept.new.pages.dirty + r.1) }
    ensures still { OnErr result ((B.state backing.new).space.credits + length kept.old.pages.dirty ≡ (B.state backing.old).space.credits + length kept.new.pages.dirty) }
    ensures looked { IsLookOnly op.now result → OnlyLooks (B.state backing.old) (B.state backing.new) kept.old kept.new }
    ensures written { IfOk result (λ r. HasSynced (B.state backing.old).mode (B.state backing.new) kept.old kept.new caller op.now r.0) }
    ensures others { KeepsOthers kept.old kept.new caller op.now }
    ensures idle { IsIdle (B.state backing.old) (B.state backing.new) kept.old kept.new op.now }
    ensures admitted { OnOk result (WasAdmitted (B.state backing.old) (B.state backing.new) kept.old caller now grant op.now) }
    ensures at_once { IsAtOnce (B.state backing.old) (B.state backing.new) kept.old caller now op.now result }
    ensures buffered { Buffers (B.state backing.old) (B.state backing.new) kept.old kept.new caller grant op.now result }
    ensures grows { GrowsBy (added_or_refused (2 * pages_in op.now + nodes_asked (present (B.state backing.old).tree kept.old) caller now op.now) (max 2 (nodes_asked (present (B.state backing.old).tree kept.old) caller now op.now)) result) (B.state backing.old) (B.state backing.new) kept.old kept.new }
    ensures orphans { KeepsOrphans (B.state backing.old) (B.state backing.new) (present (B.state backing.old).tree kept.old) (present (B.state backing.new).tree kept.new) }
    ensures cut { PutsCall (B.state backing.old) (B.state backing.new) kept.old caller now op.now (group_fate result) }
    ensures goes { Goes (2 * length kept.old.pages.dirty + nodes_asked (present (B.state backing.old).tree kept.old) caller now op.now) (B.state backing.old) (B.state backing.new) }
    ensures sure { SureGoes (B.outlook backing.old) (B.outlook backing.new) (B.state backing.old) (B.state backing.new) }
{
    present_files_are_sound();
    if let Op::Write {
        slot,
        offs,
        len,
        byte,
    } = op
    {
        return write(
            alloc, backing, kept, caller, now, grant, *slot, *offs, *len, *byte,
        );
    }
    match serve_without(alloc, backing, kept, caller, now, grant, op) {
        Ok(reply) => Ok((reply, grant)),
        Err(refusal) => Err(refusal),
    }
}

// The same of an operation that takes no credit of the grant.
fn serve_without<B: Backing>(
    alloc: Global,
    backing: &mut B,
    kept: &mut Kept,
    caller: u16,
    now: u64,
    grant: u64,
    op: &Op,
) -> Result<Reply, Refusal>
    requires ready { IsReady (B.state backing.old) kept.old }
    requires without { is_write op.now ≡ false }
    requires call { IsCall op.now }
    requires mode { read_only_cause (B.state backing.old).mode op.now ≡ None }
    ensures ready { IsReady (B.state backing.new) kept.new }
    ensures done { IfOk result (λ reply. IsDone (allowed_on (B.state backing.old) (present (B.state backing.old).tree kept.old) caller now op.now) (present (B.state backing.new).tree kept.new) reply) }
    ensures same { OnErr result (IsAlike (present (B.state backing.old).tree kept.old) (present (B.state backing.new).tree kept.new)) }
    ensures refused { IfErr result (λ refusal. (allowed_on (B.state backing.old) (present (B.state backing.old).tree kept.old) caller now op.now ≡ Err refusal)
        ⊎ (IsTurnedDown (B.state backing.old) (B.state backing.new) kept.new (asked (present (B.state backing.old).tree kept.old) caller now grant op.now) op.now refusal
        × IsLast (allowed_on (B.state backing.old) (present (B.state backing.old).tree kept.old) caller now op.now) refusal)) }
    ensures issued { (B.state backing.new).space.credits + length kept.old.pages.dirty ≡ (B.state backing.old).space.credits + length kept.new.pages.dirty }
    ensures looked { IsLookOnly op.now result → OnlyLooks (B.state backing.old) (B.state backing.new) kept.old kept.new }
    ensures written { IfOk result (λ reply. HasSynced (B.state backing.old).mode (B.state backing.new) kept.old kept.new caller op.now reply) }
    ensures others { KeepsOthers kept.old kept.new caller op.now }
    ensures idle { IsIdle (B.state backing.old) (B.state backing.new) kept.old kept.new op.now }
    ensures admitted { OnOk result (WasAdmitted (B.state backing.old) (B.state backing.new) kept.old caller now grant op.now) }
    ensures at_once { IsAtOnce (B.state backing.old) (B.state backing.new) kept.old caller now op.now result }
    ensures grows { GrowsBy (added_or_refused (nodes_asked (present (B.state backing.old).tree kept.old) caller now op.now) (max 2 (nodes_asked (present (B.state backing.old).tree kept.old) caller now op.now)) result) (B.state backing.old) (B.state backing.new) kept.old kept.new }
    ensures orphans { KeepsOrphans (B.state backing.old) (B.state backing.new) (present (B.state backing.old).tree kept.old) (present (B.state backing.new).tree kept.new) }
    ensures cut { PutsCall (B.state backing.old) (B.state backing.new) kept.old caller now op.now (group_fate result) }
    ensures goes { Goes (2 * length kept.old.pages.dirty + nodes_asked (present (B.state backing.old).tree kept.old) caller now op.now) (B.state backing.old) (B.state backing.new) }
    ensures sure { SureGoes (B.outlook backing.old) (B.outlook backing.new) (B.state backing.old) (B.state backing.new) }
{
    present_files_are_sound();
    if is_of_names(op) {
        return change(alloc, backing, kept, caller, now, op);
    }
    match op {
        Op::OpenFile { path, slot } => open(alloc, backing, kept, caller, path, *slot),
        Op::Close { slot } => close(backing, kept, caller, *slot),
        Op::Truncate { slot, size } => truncate(alloc, backing, kept, caller, now, *slot, *size),
        Op::Fsync { slot } => synced(alloc, backing, kept, caller, *slot),
        Op::Flush => flushed(alloc, backing, kept),
        Op::Read { .. } | Op::List { .. } | Op::Stat { .. } | Op::Readlink { .. } => {
            look(alloc, backing, kept, caller, op)
        }
        Op::Create { .. }
        | Op::Mkdir { .. }
        | Op::Symlink { .. }
        | Op::Link { .. }
        | Op::Unlink { .. }
        | Op::Rmdir { .. }
        | Op::Rename { .. }
        | Op::Write { .. }
        | Op::Chmod { .. } => unreachable!(),
    }
}

// Whether its changes are one group of inodes and names.
fn is_of_names(op: &Op) -> bool
    ensures { result ≡ is_of_names op.now }
{
    match op {
        Op::Create { .. }
        | Op::Mkdir { .. }
        | Op::Symlink { .. }
        | Op::Link { .. }
        | Op::Unlink { .. }
        | Op::Rmdir { .. }
        | Op::Rename { .. }
        | Op::Chmod { .. } => true,
        Op::OpenFile { .. }
        | Op::Close { .. }
        | Op::Read { .. }
        | Op::Write { .. }
        | Op::Truncate { .. }
        | Op::Fsync { .. }
        | Op::Flush
        | Op::List { .. }
        | Op::Stat { .. }
        | Op::Readlink { .. } => false,
    }
}

// Syncs one file, on a store that can be written. One that was too full to be mounted for writing has nothing to sync.
fn synced<B: Backing>(
    alloc: Global,
    backing: &mut B,
    kept: &mut Kept,
    caller: u16,
    slot: u8,
) -> Result<Reply, Refusal>
    requires ready { IsReady (B.state backing.old) kept.old }
    ensures ready { IsReady (B.state backing.new) kept.new }
    ensures done { IfOk result (λ reply. (now : ℕ) → outcome_of (present (B.state backing.old).tree kept.old) caller now (Fsync slot) ≡ Ok (reply, present (B.state backing.old).tree kept.old)) }
    ensures same { IsAlike (present (B.state backing.old).tree kept.old) (present (B.state backing.new).tree kept.new) }
    ensures refused { IfErr result (λ refusal. ((now : ℕ) → outcome_of (present (B.state backing.old).tree kept.old) caller now (Fsync slot) ≡ Err refusal) ⊎ IsUnsynced (B.state backing.old) (B.state backing.new) refusal) }
    ensures early { IsEarly result → OnlyLooks (B.state backing.old) (B.state backing.new) kept.old kept.new }
    ensures written { IfOk result (λ reply. HasSynced (B.state backing.old).mode (B.state backing.new) kept.old kept.new caller (Fsync slot) reply) }
    ensures others { KeepsOthers kept.old kept.new caller (Fsync slot) }
    ensures idle { IsIdle (B.state backing.old) (B.state backing.new) kept.old kept.new (Fsync slot) }
    ensures issued { (B.state backing.new).space.credits + length kept.old.pages.dirty ≡ (B.state backing.old).space.credits + length kept.new.pages.dirty }
    ensures grows { GrowsBy (added_or_refused 0 2 result) (B.state backing.old) (B.state backing.new) kept.old kept.new }
    ensures closed { (B.state backing.new).closed ≤ (B.state backing.old).closed }
    ensures cut { PutsSeen (B.state backing.old) (B.state backing.new) kept.old }
    ensures goes { Goes (2 * length kept.old.pages.dirty) (B.state backing.old) (B.state backing.new) }
    ensures sure { SureGoes (B.outlook backing.old) (B.outlook backing.new) (B.state backing.old) (B.state backing.new) }
{
    match backing.mode() {
        Mode::ReadWrite => fsync(alloc, backing, kept, caller, slot),
        Mode::ReadOnly { .. } => named(backing, kept, caller, slot),
    }
}

// What a sync of one file answers where there is nothing to sync.
fn named<B: Backing>(
    backing: &mut B,
    kept: &mut Kept,
    caller: u16,
    slot: u8,
) -> Result<Reply, Refusal>
    ensures same { backing.new ≡ backing.old }
    ensures kept { kept.new ≡ kept.old }
    ensures done { IfOk result (λ reply. (now : ℕ) → outcome_of (present (B.state backing.old).tree kept.old) caller now (Fsync slot) ≡ Ok (reply, present (B.state backing.old).tree kept.old)) }
    ensures refused { IfErr result (λ refusal. (now : ℕ) → outcome_of (present (B.state backing.old).tree kept.old) caller now (Fsync slot) ≡ Err refusal) }
{
    if is_bad_slot(slot) {
        return Err(Refusal::Einval);
    }
    match kept.handles.get(caller, slot) {
        Some(_) => Ok(Reply::Done),
        None => Err(Refusal::Ebadf),
    }
}

// Syncs all, on a store that can be written.
fn flushed<B: Backing>(alloc: Global, backing: &mut B, kept: &mut Kept) -> Result<Reply, Refusal>
    requires ready { IsReady (B.state backing.old) kept.old }
    ensures ready { IsReady (B.state backing.new) kept.new }
    ensures done { IfOk result (λ reply. (caller now : ℕ) → outcome_of (present (B.state backing.old).tree kept.old) caller now Flush ≡ Ok (reply, present (B.state backing.old).tree kept.old)) }
    ensures same { IsAlike (present (B.state backing.old).tree kept.old) (present (B.state backing.new).tree kept.new) }
    ensures refused { IfErr result (λ refusal. IsUnsynced (B.state backing.old) (B.state backing.new) refusal) }
    ensures issued { (B.state backing.new).space.credits + length kept.old.pages.dirty ≡ (B.state backing.old).space.credits + length kept.new.pages.dirty }
    ensures written { IfOk result (λ reply. (caller : ℕ) → HasSynced (B.state backing.old).mode (B.state backing.new) kept.old kept.new caller Flush reply) }
    ensures idle { IsIdle (B.state backing.old) (B.state backing.new) kept.old kept.new Flush }
    ensures grows { GrowsBy (added_or_refused 0 2 result) (B.state backing.old) (B.state backing.new) kept.old kept.new }
    ensures closed { (B.state backing.new).closed ≤ (B.state backing.old).closed }
    ensures cut { PutsSeen (B.state backing.old) (B.state backing.new) kept.old }
    ensures goes { Goes (2 * length kept.old.pages.dirty) (B.state backing.old) (B.state backing.new) }
    ensures sure { SureGoes (B.outlook backing.old) (B.outlook backing.new) (B.state backing.old) (B.state backing.new) }
{
    match backing.mode() {
        Mode::ReadWrite => flush(alloc, backing, kept),
        Mode::ReadOnly { .. } => Ok(Reply::Done),
    }
}
