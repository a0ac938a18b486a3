// Operations whose changes are one group of inodes and names.

ghost use Rattle.std.specs.Prelude.{◌≡◌, ◌⊎◌, ◌+◌, ◌-◌, ◌*◌, ◌≤◌, ◌==◌, ◌&&◌, true, max, Ok, IfOk, OnOk, OnErr, IfErr, length};
ghost use Rattle.fs_model.specs.declared.reply.Reply.{Reply as AnyReply};
ghost use Rattle.fs_model.specs.Backing.{Goes, orphan_room};
ghost use Rattle.fs_model.specs.Files.{Files};
ghost use Rattle.fs_model.specs.Need.{need_of};
ghost use Rattle.fs_model.specs.Operation.{group_of, outcome_of};
ghost use Rattle.fs_model.specs.Orphan.{within_orphans};
ghost use Rattle.fs_model.specs.Path.{is_dir};
ghost use Rattle.fs_laws.specs.Sound.{IsCall, IsSound};
ghost use Rattle.buffered_files.specs.Alike.{IsAlike};
ghost use Rattle.buffered_files.specs.Calls.{GrowsBy, IsNotEnospc, IsWithoutRoom, SureGoes, added_or_refused};
ghost use Rattle.buffered_files.specs.Cuts.{PutsSeenWith, group_fate};
ghost use Rattle.buffered_files.specs.Present.{present, IsKept};
ghost use Rattle.vfs_plans.specs.Answers.{IsRefused};
ghost use Rattle.vfs_ops.specs.Kinds.{IsEarly, OnlyLooks};
ghost use Rattle.vfs_ops.specs.Operations.{is_of_names, is_orphaned, orphans};
ghost use Rattle.vfs_ops.specs.Steps.{IsLast};
ghost use Rattle.vfs_ops.specs.Writing.{HasRoomAtOnce, IsGroupAdmitted};

use crate::needs::{class_of, need_of};
use buffered_files::{Kept, apply_group, present_files_are_sound};
use fs_laws::{
    an_operation_asks_for_little, an_operation_fits_its_grant, an_operation_leaves_files_sound,
};
use fs_model::{Backing, Change, Group, Kind, Op, Refusal, Reply, Table};
use std::alloc::Global;
use vfs_plans::plan;

/// Does a caller's operation at this moment, in seconds since 1970: one that makes, links, takes away or moves a name, or sets a mode. It answers and
/// leaves what the operation's definition says, but for zeros at the ends of blocks, which nobody sees. A refusal is the definition's, or tells that
/// there is no room for what the operation asks for, or that the backing failed; the files are then as they were. Where the next list of orphans is
/// full, what takes the last name of an open inode is refused with `Enfile`. That comes after all other refusals of the operation, and before want of
/// room.
pub fn change<B: Backing>(
    alloc: Global,
    backing: &mut B,
    kept: &mut Kept,
    caller: u16,
    now: u64,
    op: &Op,
) -> Result<Reply, Refusal>
    requires kept { IsKept (B.state backing.old).tree kept.old }
    requires paid { length kept.old.pages.dirty ≤ (B.state backing.old).space.credits }
    requires sound { IsSound (present (B.state backing.old).tree kept.old) }
    requires op { is_of_names op.now ≡ true }
    requires call { IsCall op.now }
    ensures kept { IsKept (B.state backing.new).tree kept.new }
    ensures paid { length kept.new.pages.dirty ≤ (B.state backing.new).space.credits }
    ensures sound { IsSound (present (B.state backing.new).tree kept.new) }
    ensures done { IfOk result (λ reply. (after : Files) × (within_orphans (orphan_room (B.state backing.old)) (B.state backing.old).orphan_limit (present (B.state backing.old).tree kept.old) (outcome_of (present (B.state backing.old).tree kept.old) caller now op.now) ≡ Ok (reply, after)) × IsAlike after (present (B.state backing.new).tree kept.new)) }
    ensures same { OnErr result (IsAlike (present (B.state backing.old).tree kept.old) (present (B.state backing.new).tree kept.new)) }
    ensures refused { IfErr result (λ refusal. IsRefused (B.state backing.old) (B.state backing.new) (within_orphans (orphan_room (B.state backing.old)) (B.state backing.old).orphan_limit (present (B.state backing.old).tree kept.old) (outcome_of (present (B.state backing.old).tree kept.old) caller now op.now)) refusal
        ⊎ (IsWithoutRoom (B.state backing.old) (B.state backing.new) kept.new (need_of (present (B.state backing.old).tree kept.old) caller now op.now) refusal
        × IsLast (within_orphans (orphan_room (B.state backing.old)) (B.state backing.old).orphan_limit (present (B.state backing.old).tree kept.old) (outcome_of (present (B.state backing.old).tree kept.old) caller now op.now)) refusal)) }
    ensures early { IsEarly result → OnlyLooks (B.state backing.old) (B.state backing.new) kept.old kept.new }
    ensures admitted { OnOk result (IsGroupAdmitted (B.state backing.old) (B.state backing.new) kept.old (group_of (present (B.state backing.old).tree kept.old) caller now op.now) (need_of (present (B.state backing.old).tree kept.old) caller now op.now)) }
    ensures at_once { (done : AnyReply × Files) → outcome_of (present (B.state backing.old).tree kept.old) caller now op.now ≡ Ok done → HasRoomAtOnce (B.state backing.old) (need_of (present (B.state backing.old).tree kept.old) caller now op.now) → IsNotEnospc result }
    ensures alone { (done : AnyReply × Files) → outcome_of (present (B.state backing.old).tree kept.old) caller now op.now ≡ Ok done → HasRoomAtOnce (B.state backing.old) (need_of (present (B.state backing.old).tree kept.old) caller now op.now) → Goes (length (group_of (present (B.state backing.old).tree kept.old) caller now op.now)) (B.state backing.old) (B.state backing.new) }
    ensures issued { (B.state backing.new).space.credits + length kept.old.pages.dirty ≡ (B.state backing.old).space.credits + length kept.new.pages.dirty }
    ensures grows { GrowsBy (added_or_refused (length (group_of (present (B.state backing.old).tree kept.old) caller now op.now)) (max 2 (length (group_of (present (B.state backing.old).tree kept.old) caller now op.now))) result) (B.state backing.old) (B.state backing.new) kept.old kept.new }
    ensures closed { (B.state backing.new).closed ≤ (B.state backing.old).closed }
    ensures cut { PutsSeenWith (B.state backing.old) (B.state backing.new) kept.old (group_of (present (B.state backing.old).tree kept.old) caller now op.now) (group_fate result) }
    ensures goes { Goes (2 * length kept.old.pages.dirty + length (group_of (present (B.state backing.old).tree kept.old) caller now op.now)) (B.state backing.old) (B.state backing.new) }
    ensures sure { SureGoes (B.outlook backing.old) (B.outlook backing.new) (B.state backing.old) (B.state backing.new) }
{
    present_files_are_sound();
    an_operation_fits_its_grant();
    an_operation_asks_for_little();
    an_operation_leaves_files_sound();
    let (reply, group) = plan(alloc, backing, kept, caller, now, op)?;
    if group.as_slice().is_empty() {
        return Ok(reply);
    }
    if lacks_orphan_room(backing, &group) {
        return Err(Refusal::Enfile {
            what: Table::Orphans,
            limit: backing.orphan_limit(),
        });
    }
    let need = need_of(backing, kept, &group, class_of(op))?;
    apply_group(alloc, backing, kept, &group, &need)?;
    Ok(reply)
}

// Whether a group leaves an orphan where no further one can be told of.
fn lacks_orphan_room<B: Backing>(backing: &B, group: &Group) -> bool
    ensures { result ≡ ((orphan_room (B.state backing.now) == 0) && orphans group.now) }
{
    backing.orphan_room() == 0 && orphans(group.as_slice())
}

// Whether a group leaves an orphan.
fn orphans(changes: &[Change]) -> bool
    ensures { result ≡ orphans changes.now }
{
    for change in changes {
        if is_orphaned(change) {
            return true;
        }
    }
    false
}

// Whether an inode is set that has no name, and is no directory.
fn is_orphaned(change: &Change) -> bool
    ensures { result ≡ is_orphaned change.now }
{
    match change {
        Change::SetInode { inode, .. } => !is_dir(inode.kind) && inode.nlink == 0,
        _ => false,
    }
}

fn is_dir(kind: Kind) -> bool
    ensures { result ≡ is_dir kind }
{
    matches!(kind, Kind::Dir)
}
