// A file's size is set where there is room for it.

ghost use Rattle.std.specs.Prelude.{◌≡◌, ◌+◌, ◌*◌, ◌≤◌, max, nat_lt, Some, OnOk, OnErr, IfErr, length};
ghost use Rattle.fs_model.specs.declared.inode.Kind.TheVariants.{File};
ghost use Rattle.fs_model.specs.Backing.{Goes};
ghost use Rattle.fs_model.specs.Change.{apply};
ghost use Rattle.fs_model.specs.Cover.{needed, room_for};
ghost use Rattle.fs_model.specs.Files.{inode_at, size_of};
ghost use Rattle.fs_model.specs.Handles.{size_limit};
ghost use Rattle.fs_model.specs.Truncation.{truncating};
ghost use Rattle.buffered_files.specs.Alike.{IsAlike};
ghost use Rattle.buffered_files.specs.Calls.{GrowsBy, IsNotEnospc, IsWithoutRoom, SureGoes, WasCovered, added_or_refused};
ghost use Rattle.buffered_files.specs.Cuts.{group_fate};
ghost use Rattle.buffered_files.specs.Present.{IsKept, present};
ghost use Rattle.buffered_files.specs.Resized.{PutsSize, need_by, size_need};

use crate::admission::admit;
use crate::kept::Kept;
use crate::law::{present_files_are_sound, resized_files_stay_alike};
use crate::truncations::put_size;
use fs_model::{Backing, Class, Inode, Need, Refusal};
use std::alloc::Global;

/// Sets the size of a regular file, of which this is the inode and the present size, at this moment (ftruncate(2)). A smaller one takes the pages
/// past it, clean and dirty ones, and shortens the last block; the credits of dirty pages are given back. Where there is no room for its group, dirty
/// pages are put and a commit ends first. `Enospc` comes where there is none then either; other refusals are faults of the backing. After a refusal
/// callers see the files as before, but some pages may have been put.
pub fn set_size<B: Backing>(
    alloc: Global,
    backing: &mut B,
    kept: &mut Kept,
    ino: u32,
    inode: Inode,
    size: u64,
    old_size: u64,
    now: u64,
) -> Result<(), Refusal>
    requires kept { IsKept (B.state backing.old).tree kept.old }
    requires paid { length kept.old.pages.dirty ≤ (B.state backing.old).space.credits }
    requires found { inode_at (present (B.state backing.old).tree kept.old).tree ino ≡ Some inode }
    requires file { inode.kind ≡ File }
    requires inside { size ≤ size_limit }
    requires sized { old_size ≡ size_of (present (B.state backing.old).tree kept.old).tree ino inode }
    ensures kept { IsKept (B.state backing.new).tree kept.new }
    ensures paid { length kept.new.pages.dirty ≤ (B.state backing.new).space.credits }
    ensures ok { OnOk result (IsAlike (record (present (B.state backing.old).tree kept.old) { tree = apply (present (B.state backing.old).tree kept.old).tree (truncating (present (B.state backing.old).tree kept.old).tree ino inode size now) }) (present (B.state backing.new).tree kept.new)) }
    ensures same { OnErr result (IsAlike (present (B.state backing.old).tree kept.old) (present (B.state backing.new).tree kept.new)) }
    ensures issued { (B.state backing.new).space.credits + length kept.old.pages.dirty ≡ (B.state backing.old).space.credits + length kept.new.pages.dirty }
    ensures admitted { OnOk result (WasCovered (B.state backing.old) (B.state backing.new) kept.old (size_need (present (B.state backing.old).tree kept.old).tree ino inode size now) (size_need (present (B.state backing.old).tree kept.old).tree ino inode size now) (size_need (present (B.state backing.old).tree kept.old).tree ino inode size now).nodes) }
    ensures at_once { needed (B.state backing.old).space (size_need (present (B.state backing.old).tree kept.old).tree ino inode size now) ≤ room_for (B.state backing.old).geometry (B.state backing.old).space (size_need (present (B.state backing.old).tree kept.old).tree ino inode size now) → IsNotEnospc result }
    ensures alone { needed (B.state backing.old).space (size_need (present (B.state backing.old).tree kept.old).tree ino inode size now) ≤ room_for (B.state backing.old).geometry (B.state backing.old).space (size_need (present (B.state backing.old).tree kept.old).tree ino inode size now) → Goes (size_need (present (B.state backing.old).tree kept.old).tree ino inode size now).nodes (B.state backing.old) (B.state backing.new) }
    ensures refused { IfErr result (IsWithoutRoom (B.state backing.old) (B.state backing.new) kept.new (size_need (present (B.state backing.old).tree kept.old).tree ino inode size now)) }
    ensures cut { PutsSize (B.state backing.old) (B.state backing.new) kept.old ino inode size now (group_fate result) }
    ensures goes { Goes (2 * length kept.old.pages.dirty + (size_need (present (B.state backing.old).tree kept.old).tree ino inode size now).nodes) (B.state backing.old) (B.state backing.new) }
    ensures grows { GrowsBy (added_or_refused (size_need (present (B.state backing.old).tree kept.old).tree ino inode size now).nodes (max 2 (size_need (present (B.state backing.old).tree kept.old).tree ino inode size now).nodes) result) (B.state backing.old) (B.state backing.new) kept.old kept.new }
    ensures closed { (B.state backing.new).closed ≤ (B.state backing.old).closed }
    ensures sure { SureGoes (B.outlook backing.old) (B.outlook backing.new) (B.state backing.old) (B.state backing.new) }
{
    present_files_are_sound();
    resized_files_stay_alike();
    let need = need_of(size, old_size);
    admit(alloc, backing, kept, &need)?;
    match put_size(alloc, backing, kept, ino, inode, size, old_size, now) {
        Ok(()) => Ok(()),
        Err(fault) => Err(Refusal::from(fault)),
    }
}

// What a new size asks for: a smaller one the inode, a truncation and a whole block, another one the inode.
fn need_of(size: u64, old_size: u64) -> Need
    ensures { result ≡ need_by (nat_lt size old_size) }
{
    if size < old_size {
        Need {
            credits: 0,
            bytes: 160 + 56 + 4144,
            nodes: 3,
            class: Class::Removal,
        }
    } else {
        Need {
            credits: 0,
            bytes: 160,
            nodes: 1,
            class: Class::Ordinary,
        }
    }
}
