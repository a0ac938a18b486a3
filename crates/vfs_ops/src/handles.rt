// Files are opened and closed: open(2) and close(2).

ghost use Rattle.std.specs.Prelude.{◌≡◌, ◌+◌, ◌==◌, ◌&&◌, ◌≤◌, ℕ, not, Ok, Some, IfOk, IfErr, OnErr, length};
ghost use Rattle.std.specs.BTreeMap.{is_at};
ghost use Rattle.std.specs.List.{list_any};
ghost use Rattle.std.specs.Map.{lookup, remove_entry};
ghost use Rattle.fs_model.specs.declared.op.Op.TheVariants.{OpenFile, Close};
ghost use Rattle.fs_model.specs.Backing.{Goes, KeepsFiles, next_orphans};
ghost use Rattle.fs_model.specs.Files.{pair_cmp};
ghost use Rattle.fs_model.specs.Operation.{outcome_of};
ghost use Rattle.fs_model.specs.Orphan.{is_nameless};
ghost use Rattle.fs_laws.specs.Sound.{IsSound};
ghost use Rattle.buffered_files.specs.Calls.{GrowsBy, SureGoes};
ghost use Rattle.buffered_files.specs.Present.{present, IsKept};
ghost use Rattle.vfs_plans.specs.Answers.{IsFault, IsRefused, Looks};
ghost use Rattle.vfs_ops.specs.Kinds.{IsEarly, OnlyLooks};

use buffered_files::{Kept, drop_orphan};
use fs_laws::{a_closed_file_keeps_trees_proper, an_opened_file_keeps_trees_proper};
use fs_model::{Backing, Refusal, Reply};
use op_groups::is_bad_slot;
use std::alloc::Global;
use ubifs_base::Name;
use vfs_plans::{inode, opened};

/// Opens a regular file in a free slot of a caller, and answers its inode's number. A refusal is the definition's, or tells
/// that the backing failed or memory ran out; nothing is then opened.
pub(crate) fn open<B: Backing>(
    alloc: Global,
    backing: &mut B,
    kept: &mut Kept,
    caller: u16,
    path: &Name,
    slot: u8,
) -> Result<Reply, Refusal>
    requires kept { IsKept (B.state backing.old).tree kept.old }
    requires sound { IsSound (present (B.state backing.old).tree kept.old) }
    ensures kept { IsKept (B.state backing.new).tree kept.new }
    ensures sound { IsSound (present (B.state backing.new).tree kept.new) }
    ensures pages { kept.new.pages ≡ kept.old.pages }
    ensures inodes { kept.new.inodes ≡ kept.old.inodes }
    ensures done { IfOk result (λ reply. (now : ℕ) → outcome_of (present (B.state backing.old).tree kept.old) caller now (OpenFile path.now slot) ≡ Ok (reply, present (B.state backing.new).tree kept.new)) }
    ensures same { OnErr result (kept.new ≡ kept.old) }
    ensures refused { IfErr result (λ refusal. (now : ℕ) → IsRefused (B.state backing.old) (B.state backing.new) (outcome_of (present (B.state backing.old).tree kept.old) caller now (OpenFile path.now slot)) refusal) }
    ensures looks { Looks (B.outlook backing.old) (B.outlook backing.new) (B.state backing.old) (B.state backing.new) }
{
    an_opened_file_keeps_trees_proper();
    let ino = opened(alloc, backing, kept, caller, path, slot)?;
    kept.handles.insert(caller, slot, ino)?;
    Ok(Reply::Ino { ino })
}

/// Closes a slot of a caller. An inode without a name goes with its last handle, and its dirty pages with it, whose credits
/// are given back. A refusal is the definition's, or tells that the backing failed or memory ran out; the slot is then open
/// as before.
pub(crate) fn close<B: Backing>(
    backing: &mut B,
    kept: &mut Kept,
    caller: u16,
    slot: u8,
) -> Result<Reply, Refusal>
    requires kept { IsKept (B.state backing.old).tree kept.old }
    requires paid { length kept.old.pages.dirty ≤ (B.state backing.old).space.credits }
    requires sound { IsSound (present (B.state backing.old).tree kept.old) }
    ensures kept { IsKept (B.state backing.new).tree kept.new }
    ensures paid { length kept.new.pages.dirty ≤ (B.state backing.new).space.credits }
    ensures sound { IsSound (present (B.state backing.new).tree kept.new) }
    ensures done { IfOk result (λ reply. (now : ℕ) → outcome_of (present (B.state backing.old).tree kept.old) caller now (Close slot) ≡ Ok (reply, present (B.state backing.new).tree kept.new)) }
    ensures same { OnErr result (kept.new ≡ kept.old) }
    ensures files { OnErr result (KeepsFiles (B.state backing.old) (B.state backing.new)) }
    ensures early { IsEarly result → OnlyLooks (B.state backing.old) (B.state backing.new) kept.old kept.new }
    ensures refused { IfErr result (λ refusal. (now : ℕ) → IsRefused (B.state backing.old) (B.state backing.new) (outcome_of (present (B.state backing.old).tree kept.old) caller now (Close slot)) refusal) }
    ensures issued { (B.state backing.new).space.credits + length kept.old.pages.dirty ≡ (B.state backing.old).space.credits + length kept.new.pages.dirty }
    ensures grows { GrowsBy 0 (B.state backing.old) (B.state backing.new) kept.old kept.new }
    ensures orphans { next_orphans (B.state backing.new) ≤ next_orphans (B.state backing.old) }
    ensures journal { (B.state backing.new).journal ≡ (B.state backing.old).journal }
    ensures goes { Goes 0 (B.state backing.old) (B.state backing.new) }
    ensures sure { SureGoes (B.outlook backing.old) (B.outlook backing.new) (B.state backing.old) (B.state backing.new) }
{
    a_closed_file_keeps_trees_proper();
    if is_bad_slot(slot) {
        return Err(Refusal::Einval);
    }
    let Some(ino) = kept.handles.get(caller, slot) else {
        return Err(Refusal::Ebadf);
    };
    if is_lost(backing, kept, caller, slot, ino)? {
        drop_orphan(backing, kept, ino)?;
        kept.handles.remove(caller, slot);
        return Ok(Reply::Done);
    }
    kept.handles.remove(caller, slot);
    Ok(Reply::Done)
}

// Whether an inode that is open in a slot has no name, and is open in no other slot.
fn is_lost<B: Backing>(
    backing: &mut B,
    kept: &Kept,
    caller: u16,
    slot: u8,
    ino: u32,
) -> Result<bool, Refusal>
    requires kept { IsKept (B.state backing.old).tree kept.now }
    requires open { lookup (is_at (pair_cmp (caller, slot))) kept.now.handles ≡ Some ino }
    ensures lost { IfOk result (λ lost. lost ≡ (is_nameless (present (B.state backing.old).tree kept.now).tree ino && not (list_any (λ handle. handle.1 == ino) (remove_entry (is_at (pair_cmp (caller, slot))) kept.now.handles)))) }
    ensures refused { IfErr result (IsFault (B.state backing.old) (B.state backing.new)) }
    ensures looks { Looks (B.outlook backing.old) (B.outlook backing.new) (B.state backing.old) (B.state backing.new) }
{
    match inode(backing, kept, ino)? {
        Some(inode) => {
            let lost = inode.nlink == 0 && !kept.handles.is_open_beside(caller, slot, ino);
            Ok(lost)
        }
        None => Ok(false),
    }
}
