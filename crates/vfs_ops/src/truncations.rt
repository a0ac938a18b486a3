// A caller sets a file's size: ftruncate(2).

ghost use Rattle.std.specs.Prelude.{◌≡◌, ◌⊎◌, ◌+◌, ◌*◌, ◌≤◌, max, Ok, Some, IfOk, OnOk, OnErr, IfErr, length};
ghost use Rattle.fs_model.specs.declared.inode.Inode.{Inode as AnyInode};
ghost use Rattle.fs_model.specs.declared.inode.Kind.TheVariants.{File};
ghost use Rattle.fs_model.specs.declared.op.Op.TheVariants.{Truncate};
ghost use Rattle.fs_model.specs.declared.reply.Reply.{Reply as AnyReply};
ghost use Rattle.fs_model.specs.Backing.{Goes};
ghost use Rattle.fs_model.specs.Change.{apply};
ghost use Rattle.fs_model.specs.Files.{Files, inode_at, size_of};
ghost use Rattle.fs_model.specs.Handles.{size_limit};
ghost use Rattle.fs_model.specs.Need.{need_of};
ghost use Rattle.fs_model.specs.Operation.{outcome_of};
ghost use Rattle.fs_model.specs.Truncation.{truncating};
ghost use Rattle.fs_laws.specs.Sound.{IsSound};
ghost use Rattle.buffered_files.specs.Alike.{IsAlike};
ghost use Rattle.buffered_files.specs.Calls.{GrowsBy, IsNotEnospc, IsWithoutRoom, SureGoes, WasCovered, added_or_refused};
ghost use Rattle.buffered_files.specs.Cuts.{group_fate};
ghost use Rattle.buffered_files.specs.Present.{IsKept, present};
ghost use Rattle.buffered_files.specs.Resized.{PutsSize, size_need};
ghost use Rattle.vfs_plans.specs.Answers.{IsFault, IsRefused, Looks};
ghost use Rattle.vfs_ops.specs.Events.{PutsCall};
ghost use Rattle.vfs_ops.specs.Kinds.{IsEarly, OnlyLooks};
ghost use Rattle.vfs_ops.specs.Operations.{nodes_asked};
ghost use Rattle.vfs_ops.specs.Steps.{IsLast};
ghost use Rattle.vfs_ops.specs.Writing.{HasRoomAtOnce};

use crate::reads::size_there;
use buffered_files::{Kept, present_files_are_sound, set_size};
use fs_laws::an_operation_leaves_files_sound;
use fs_model::{Backing, Inode, Refusal, Reply};
use op_groups::{is_bad_slot, is_too_big};
use std::alloc::Global;
use vfs_plans::inode;

/// Sets the size of an open file of a caller, in bytes, at this moment. A smaller one takes what stands past it, dirty pages too, whose credits are
/// given back to the backing's pool. Bytes between the old end and a greater one read as zeros. A refusal is the definition's, or tells that there is
/// no room for what the operation asks for, or that the backing failed. Callers see the files then as they were, but some dirty pages may have been
/// put.
pub(crate) fn truncate<B: Backing>(
    alloc: Global,
    backing: &mut B,
    kept: &mut Kept,
    caller: u16,
    now: u64,
    slot: u8,
    size: u64,
) -> Result<Reply, Refusal>
    requires kept { IsKept (B.state backing.old).tree kept.old }
    requires paid { length kept.old.pages.dirty ≤ (B.state backing.old).space.credits }
    requires sound { IsSound (present (B.state backing.old).tree kept.old) }
    ensures kept { IsKept (B.state backing.new).tree kept.new }
    ensures paid { length kept.new.pages.dirty ≤ (B.state backing.new).space.credits }
    ensures sound { IsSound (present (B.state backing.new).tree kept.new) }
    ensures done { IfOk result (λ reply. (after : Files) × (outcome_of (present (B.state backing.old).tree kept.old) caller now (Truncate slot size) ≡ Ok (reply, after)) × IsAlike after (present (B.state backing.new).tree kept.new)) }
    ensures same { OnErr result (IsAlike (present (B.state backing.old).tree kept.old) (present (B.state backing.new).tree kept.new)) }
    ensures refused { IfErr result (λ refusal. IsRefused (B.state backing.old) (B.state backing.new) (outcome_of (present (B.state backing.old).tree kept.old) caller now (Truncate slot size)) refusal
        ⊎ (IsWithoutRoom (B.state backing.old) (B.state backing.new) kept.new (need_of (present (B.state backing.old).tree kept.old) caller now (Truncate slot size)) refusal
        × IsLast (outcome_of (present (B.state backing.old).tree kept.old) caller now (Truncate slot size)) refusal)) }
    ensures early { IsEarly result → OnlyLooks (B.state backing.old) (B.state backing.new) kept.old kept.new }
    ensures admitted { OnOk result (WasCovered (B.state backing.old) (B.state backing.new) kept.old (need_of (present (B.state backing.old).tree kept.old) caller now (Truncate slot size)) (need_of (present (B.state backing.old).tree kept.old) caller now (Truncate slot size)) (nodes_asked (present (B.state backing.old).tree kept.old) caller now (Truncate slot size))) }
    ensures at_once { (done : AnyReply × Files) → outcome_of (present (B.state backing.old).tree kept.old) caller now (Truncate slot size) ≡ Ok done → HasRoomAtOnce (B.state backing.old) (need_of (present (B.state backing.old).tree kept.old) caller now (Truncate slot size)) → IsNotEnospc result }
    ensures alone { (done : AnyReply × Files) → outcome_of (present (B.state backing.old).tree kept.old) caller now (Truncate slot size) ≡ Ok done → HasRoomAtOnce (B.state backing.old) (need_of (present (B.state backing.old).tree kept.old) caller now (Truncate slot size)) → Goes (nodes_asked (present (B.state backing.old).tree kept.old) caller now (Truncate slot size)) (B.state backing.old) (B.state backing.new) }
    ensures issued { (B.state backing.new).space.credits + length kept.old.pages.dirty ≡ (B.state backing.old).space.credits + length kept.new.pages.dirty }
    ensures grows { GrowsBy (added_or_refused (nodes_asked (present (B.state backing.old).tree kept.old) caller now (Truncate slot size)) (max 2 (nodes_asked (present (B.state backing.old).tree kept.old) caller now (Truncate slot size))) result) (B.state backing.old) (B.state backing.new) kept.old kept.new }
    ensures closed { (B.state backing.new).closed ≤ (B.state backing.old).closed }
    ensures cut { PutsCall (B.state backing.old) (B.state backing.new) kept.old caller now (Truncate slot size) (group_fate result) }
    ensures goes { Goes (2 * length kept.old.pages.dirty + nodes_asked (present (B.state backing.old).tree kept.old) caller now (Truncate slot size)) (B.state backing.old) (B.state backing.new) }
    ensures sure { SureGoes (B.outlook backing.old) (B.outlook backing.new) (B.state backing.old) (B.state backing.new) }
{
    present_files_are_sound();
    an_operation_leaves_files_sound();
    if is_bad_slot(slot) {
        return Err(Refusal::Einval);
    }
    let Some(ino) = kept.handles.get(caller, slot) else {
        return Err(Refusal::Ebadf);
    };
    if is_too_big(size) {
        return Err(Refusal::Efbig);
    }
    let (inode, old_size) = measured(backing, kept, ino)?;
    set_size(alloc, backing, kept, ino, inode, size, old_size, now)?;
    Ok(Reply::Done)
}

// The inode of an open file, and its size in bytes.
fn measured<B: Backing>(backing: &mut B, kept: &Kept, ino: u32) -> Result<(Inode, u64), Refusal>
    requires kept { IsKept (B.state backing.old).tree kept.now }
    requires file { (inode : AnyInode) × (inode_at (present (B.state backing.old).tree kept.now).tree ino ≡ Some inode) }
    ensures found { IfOk result (λ found. inode_at (present (B.state backing.old).tree kept.now).tree ino ≡ Some found.0) }
    ensures size { IfOk result (λ found. found.1 ≡ size_of (present (B.state backing.old).tree kept.now).tree ino found.0) }
    ensures refused { IfErr result (IsFault (B.state backing.old) (B.state backing.new)) }
    ensures looks { Looks (B.outlook backing.old) (B.outlook backing.new) (B.state backing.old) (B.state backing.new) }
{
    match inode(backing, kept, ino)? {
        Some(inode) => {
            let size = size_there(backing, kept, ino, &inode)?;
            Ok((inode, size))
        }
        None => Err(Refusal::Ebadf),
    }
}
