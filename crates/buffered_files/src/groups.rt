// Groups of changes are put.

ghost use Rattle.std.specs.Prelude.{◌≡◌, ◌+◌, ◌*◌, ◌≤◌, max, Some, IfOk, OnOk, OnErr, IfErr, length, filter};
ghost use Rattle.fs_model.specs.declared.space.Grant.{Grant};
ghost use Rattle.fs_model.specs.Backing.{FitsGroup, FitsOrphans, Goes, HasCause, IsModest, KeepsFiles};
ghost use Rattle.fs_model.specs.Change.{apply};
ghost use Rattle.fs_model.specs.Cover.{needed, room_for};
ghost use Rattle.buffered_files.specs.Alike.{IsAlike};
ghost use Rattle.buffered_files.specs.Calls.{GrowsBy, IsNotEnospc, IsWithoutRoom, SureGoes, TellsMode, WasCovered, added_or_failed, added_or_refused};
ghost use Rattle.buffered_files.specs.Cuts.{PutsSeenWith, put_fate, group_fate};
ghost use Rattle.buffered_files.specs.Follow.{AreOfNames, follow, followed, is_of_inode};
ghost use Rattle.buffered_files.specs.Present.{IsKept, present};

use crate::admission::admit;
use crate::kept::Kept;
use crate::law::present_files_are_sound;
use fs_laws::groups_fit_trees_built_alike;
use fs_model::{Backing, Change, Group, Need, Refusal, StoreFault};
use std::alloc::Global;
use ubifs_base::Memory;

/// Puts a group of changes of inodes and names, which was reckoned on the present files and admitted. What is kept follows:
/// an inode that is set is so in memory too, and one that goes takes its dirty pages along, whose credits are given back.
/// After a fault all is as it was.
pub fn put_group<B: Backing>(
    alloc: Global,
    backing: &mut B,
    kept: &mut Kept,
    group: &Group,
) -> Result<(), StoreFault>
    requires kept { IsKept (B.state backing.old).tree kept.old }
    requires paid { length kept.old.pages.dirty ≤ (B.state backing.old).space.credits }
    requires granted { (grant : Grant) × ((B.state backing.old).grant ≡ Some grant) × FitsGroup (present (B.state backing.old).tree kept.old).tree grant group.now }
    requires orphans { FitsOrphans (present (B.state backing.old).tree kept.old).tree (B.state backing.old).closed (B.state backing.old).orphan_limit group.now }
    requires names { AreOfNames (present (B.state backing.old).tree kept.old).tree group.now }
    ensures kept { IsKept (B.state backing.new).tree kept.new }
    ensures paid { length kept.new.pages.dirty ≤ (B.state backing.new).space.credits }
    ensures ok { OnOk result (present (B.state backing.new).tree kept.new ≡ record (present (B.state backing.old).tree kept.old) { tree = apply (present (B.state backing.old).tree kept.old).tree group.now }) }
    ensures issued { OnOk result ((B.state backing.new).space.credits + length kept.old.pages.dirty ≡ (B.state backing.old).space.credits + length kept.new.pages.dirty) }
    ensures same { OnErr result (kept.new ≡ kept.old) }
    ensures files { OnErr result (KeepsFiles (B.state backing.old) (B.state backing.new)) }
    ensures cut { PutsSeenWith (B.state backing.old) (B.state backing.new) kept.old group.now (put_fate result) }
    ensures goes { Goes (length group.now) (B.state backing.old) (B.state backing.new) }
    ensures grows { GrowsBy (added_or_failed (length group.now) (length group.now) result) (B.state backing.old) (B.state backing.new) kept.old kept.new }
    ensures closed { (B.state backing.new).closed ≤ (B.state backing.old).closed }
    ensures cause { HasCause (B.state backing.old) (B.state backing.new) result }
    ensures mode { TellsMode (B.state backing.new) result }
    ensures sure { SureGoes (B.outlook backing.old) (B.outlook backing.new) (B.state backing.old) (B.state backing.new) }
{
    groups_fit_trees_built_alike();
    let changes = inode_changes(alloc, group.as_slice())?;
    backing.put_group(group)?;
    let gone = follow_all(kept, changes);
    backing.give_back(gone);
    Ok(())
}

/// Admits a group of changes of inodes and names, which was reckoned on the present files, and puts it. Where there is no room for it, dirty pages
/// are put and a commit ends first. `Enospc` comes where there is none then either; other refusals are faults of the backing. After a refusal the
/// files are as they were, but some pages may have been put.
pub fn apply_group<B: Backing>(
    alloc: Global,
    backing: &mut B,
    kept: &mut Kept,
    group: &Group,
    need: &Need,
) -> Result<(), Refusal>
    requires modest { IsModest need.now }
    requires credits { need.now.credits ≡ 0 }
    requires kept { IsKept (B.state backing.old).tree kept.old }
    requires paid { length kept.old.pages.dirty ≤ (B.state backing.old).space.credits }
    requires fits { FitsGroup (present (B.state backing.old).tree kept.old).tree (record { bytes = need.now.bytes; nodes = need.now.nodes }) group.now }
    requires orphans { FitsOrphans (present (B.state backing.old).tree kept.old).tree (B.state backing.old).closed (B.state backing.old).orphan_limit group.now }
    requires names { AreOfNames (present (B.state backing.old).tree kept.old).tree group.now }
    ensures kept { IsKept (B.state backing.new).tree kept.new }
    ensures paid { length kept.new.pages.dirty ≤ (B.state backing.new).space.credits }
    ensures ok { OnOk result (IsAlike (record (present (B.state backing.old).tree kept.old) { tree = apply (present (B.state backing.old).tree kept.old).tree group.now }) (present (B.state backing.new).tree kept.new)) }
    ensures issued { (B.state backing.new).space.credits + length kept.old.pages.dirty ≡ (B.state backing.old).space.credits + length kept.new.pages.dirty }
    ensures same { OnErr result (IsAlike (present (B.state backing.old).tree kept.old) (present (B.state backing.new).tree kept.new)) }
    ensures admitted { OnOk result (WasCovered (B.state backing.old) (B.state backing.new) kept.old need.now need.now (length group.now)) }
    ensures at_once { needed (B.state backing.old).space need.now ≤ room_for (B.state backing.old).geometry (B.state backing.old).space need.now → IsNotEnospc result }
    ensures alone { needed (B.state backing.old).space need.now ≤ room_for (B.state backing.old).geometry (B.state backing.old).space need.now → Goes (length group.now) (B.state backing.old) (B.state backing.new) }
    ensures refused { IfErr result (IsWithoutRoom (B.state backing.old) (B.state backing.new) kept.new need.now) }
    ensures cut { PutsSeenWith (B.state backing.old) (B.state backing.new) kept.old group.now (group_fate result) }
    ensures goes { Goes (2 * length kept.old.pages.dirty + length group.now) (B.state backing.old) (B.state backing.new) }
    ensures grows { GrowsBy (added_or_refused (length group.now) (max 2 (length group.now)) result) (B.state backing.old) (B.state backing.new) kept.old kept.new }
    ensures closed { (B.state backing.new).closed ≤ (B.state backing.old).closed }
    ensures sure { SureGoes (B.outlook backing.old) (B.outlook backing.new) (B.state backing.old) (B.state backing.new) }
{
    groups_fit_trees_built_alike();
    present_files_are_sound();
    admit(alloc, backing, kept, need)?;
    match put_group(alloc, backing, kept, group) {
        Ok(()) => Ok(()),
        Err(fault) => Err(Refusal::from(fault)),
    }
}

// Copies of the changes of inodes, in order.
pub(crate) fn inode_changes(alloc: Global, changes: &[Change]) -> Result<Vec<Change>, Memory>
    ensures { IfOk result (λ copies. copies.items ≡ filter is_of_inode changes.now) }
{
    let mut copies = Vec::new(alloc);
    for change in changes {
        if is_of_inode(change) {
            copies.push(copied(change)?)?;
        }
    }
    Ok(copies)
}

// Whether an inode is set or goes.
fn is_of_inode(change: &Change) -> bool
    ensures { result ≡ is_of_inode change.now }
{
    match change {
        Change::SetInode { ino: _, inode: _ } => true,
        Change::DropInode { ino: _ } => true,
        _ => false,
    }
}

fn copied(change: &Change) -> Result<Change, Memory>
    ensures { IfOk result (λ copy. copy ≡ change.now) }
{
    Ok(change.clone()?)
}

// Follows changes, and answers how many dirty pages went. Takes no memory.
pub(crate) fn follow_all(kept: &mut Kept, changes: Vec<Change>) -> u64
    ensures kept { kept.new ≡ followed kept.old changes.items }
    ensures gone { result + length kept.new.pages.dirty ≡ length kept.old.pages.dirty }
{
    let before = kept.pages.dirty();
    for change in changes {
        follow(kept, change);
    }
    before - kept.pages.dirty()
}

// Follows a change. Takes no memory.
fn follow(kept: &mut Kept, change: Change)
    ensures { kept.new ≡ follow kept.old change }
{
    match change {
        Change::SetInode { ino, inode } => kept.inodes.set(ino, inode),
        Change::DropInode { ino } => {
            kept.inodes.remove(ino);
            kept.pages.cut(ino, 0);
        }
        _ => {}
    }
}
