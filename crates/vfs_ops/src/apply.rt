// A group of changes of a caller's own.

ghost use Rattle.std.specs.Prelude.{◌≡◌, ◌+◌, ◌*◌, max, OnOk, OnErr, IfErr, length};
ghost use Rattle.fs_model.specs.Backing.{FitsGroup, FitsOrphans, Goes, IsModest};
ghost use Rattle.fs_model.specs.Change.{apply};
ghost use Rattle.fs_laws.specs.Sound.{IsSound};
ghost use Rattle.buffered_files.specs.Alike.{IsAlike};
ghost use Rattle.buffered_files.specs.Calls.{GrowsBy, IsNotEnospc, IsWithoutRoom, SureGoes, WasCovered, added_or_refused};
ghost use Rattle.buffered_files.specs.Cuts.{PutsSeenWith, group_fate};
ghost use Rattle.buffered_files.specs.Follow.{AreOfNames};
ghost use Rattle.buffered_files.specs.Present.{present};
ghost use Rattle.vfs_ops.specs.Kinds.{FitsNextOrphans};
ghost use Rattle.vfs_ops.specs.Steps.{IsReady};
ghost use Rattle.vfs_ops.specs.Writing.{HasGroupRoom};

use buffered_files::{Kept, apply_group, present_files_are_sound};
use fs_model::{Backing, Group, Need, Refusal};
use std::alloc::Global;

/// Puts a group of changes of inodes and names that was reckoned on the present files, where there is room for what it asks;
/// the files are sound then. After a refusal callers see them as before.
pub(crate) fn apply_over<B: Backing>(
    alloc: Global,
    backing: &mut B,
    kept: &mut Kept,
    group: &Group,
    need: &Need,
) -> Result<(), Refusal>
    requires ready { IsReady (B.state backing.old) kept.old }
    requires modest { IsModest need.now }
    requires credits { need.now.credits ≡ 0 }
    requires fits { FitsGroup (present (B.state backing.old).tree kept.old).tree (record { bytes = need.now.bytes; nodes = need.now.nodes }) group.now }
    requires orphans { FitsOrphans (present (B.state backing.old).tree kept.old).tree (B.state backing.old).closed (B.state backing.old).orphan_limit group.now }
    requires names { AreOfNames (present (B.state backing.old).tree kept.old).tree group.now }
    requires sound { IsSound (record (present (B.state backing.old).tree kept.old) { tree = apply (present (B.state backing.old).tree kept.old).tree group.now }) }
    ensures ready { IsReady (B.state backing.new) kept.new }
    ensures ok { OnOk result (IsAlike (record (present (B.state backing.old).tree kept.old) { tree = apply (present (B.state backing.old).tree kept.old).tree group.now }) (present (B.state backing.new).tree kept.new)) }
    ensures same { OnErr result (IsAlike (present (B.state backing.old).tree kept.old) (present (B.state backing.new).tree kept.new)) }
    ensures admitted { OnOk result (WasCovered (B.state backing.old) (B.state backing.new) kept.old need.now need.now (length group.now)) }
    ensures why { IfErr result (IsWithoutRoom (B.state backing.old) (B.state backing.new) kept.new need.now) }
    ensures at_once { HasGroupRoom (B.state backing.old) need.now → IsNotEnospc result }
    ensures alone { HasGroupRoom (B.state backing.old) need.now → Goes (length group.now) (B.state backing.old) (B.state backing.new) }
    ensures issued { (B.state backing.new).space.credits + length kept.old.pages.dirty ≡ (B.state backing.old).space.credits + length kept.new.pages.dirty }
    ensures grows { GrowsBy (added_or_refused (length group.now) (max 2 (length group.now)) result) (B.state backing.old) (B.state backing.new) kept.old kept.new }
    ensures list { FitsNextOrphans (B.state backing.old) (B.state backing.new) }
    ensures cut { PutsSeenWith (B.state backing.old) (B.state backing.new) kept.old group.now (group_fate result) }
    ensures goes { Goes (2 * length kept.old.pages.dirty + length group.now) (B.state backing.old) (B.state backing.new) }
    ensures sure { SureGoes (B.outlook backing.old) (B.outlook backing.new) (B.state backing.old) (B.state backing.new) }
{
    present_files_are_sound();
    match apply_group(alloc, backing, kept, group, need) {
        Ok(()) => Ok(()),
        Err(refusal) => Err(refusal),
    }
}
