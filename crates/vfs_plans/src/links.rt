// Names that an inode gains and loses: link(2), unlink(2) and rmdir(2).

ghost use Rattle.std.specs.Prelude.{◌≡◌, false, Some, Ok, IfOk, IfErr};
ghost use Rattle.fs_model.specs.Directory.{is_linked_out};
ghost use Rattle.fs_model.specs.Files.{inode_at};
ghost use Rattle.fs_model.specs.Links.{dir_removed, linked, removing, unlinked};
ghost use Rattle.fs_model.specs.Path.{is_dir, walked};
ghost use Rattle.buffered_files.specs.Present.{present, IsKept};
ghost use Rattle.vfs_plans.specs.Answers.{IsFault, IsRefused, Looks};
ghost use Rattle.vfs_plans.specs.Parts.{linkable};

use crate::faults::or_memory;
use crate::kinds::is_dir;
use crate::lookups::{inode, is_filled};
use crate::walks::{free_place, walked};
use buffered_files::Kept;
use fs_model::{Backing, Entry, Group, Inode, Refusal, Reply};
use op_groups::{Parent, has_long_name, is_linked_out, is_name_path, linking, removing};
use std::alloc::Global;
use ubifs_base::Name;

/// The group that gives an inode that is no directory a further name.
pub fn linked<B: Backing>(
    alloc: Global,
    backing: &mut B,
    kept: &Kept,
    now: u64,
    old: &Name,
    new: &Name,
) -> Result<(Reply, Group), Refusal>
    requires kept { IsKept (B.state backing.old).tree kept.now }
    ensures found { IfOk result (λ found. linked (present (B.state backing.old).tree kept.now) now old.now new.now ≡ Ok (found.0, found.1)) }
    ensures refused { IfErr result (IsRefused (B.state backing.old) (B.state backing.new) (linked (present (B.state backing.old).tree kept.now) now old.now new.now)) }
    ensures looks { Looks (B.outlook backing.old) (B.outlook backing.new) (B.state backing.old) (B.state backing.new) }
{
    if !(is_name_path(old) && is_name_path(new)) {
        return Err(Refusal::Einval);
    }
    if has_long_name(old) || has_long_name(new) {
        return Err(Refusal::Enametoolong);
    }
    let (from, named) = linkable(alloc, backing, kept, old)?;
    let place = free_place(alloc, backing, kept, new)?;
    let dir = place.parent.ino;
    let parent = Parent {
        ino: dir,
        inode: inode(backing, kept, dir)?,
    };
    let group = or_memory(linking(alloc, from, named, parent, place.name, now))?;
    Ok((Reply::Done, group))
}

// What can have a further name: its entry and its inode.
fn linkable<B: Backing>(
    alloc: Global,
    backing: &mut B,
    kept: &Kept,
    path: &Name,
) -> Result<(Entry, Inode), Refusal>
    requires kept { IsKept (B.state backing.old).tree kept.now }
    ensures found { IfOk result (λ found. walked (present (B.state backing.old).tree kept.now).tree path.now ≡ Ok found.0) }
    ensures plain { IfOk result (λ found. is_dir found.0.kind ≡ false) }
    ensures named { IfOk result (λ found. inode_at (present (B.state backing.old).tree kept.now).tree found.0.ino ≡ Some found.1) }
    ensures room { IfOk result (λ found. is_linked_out found.1.nlink ≡ false) }
    ensures refused { IfErr result (IsRefused (B.state backing.old) (B.state backing.new) (linkable (present (B.state backing.old).tree kept.now).tree path.now)) }
    ensures looks { Looks (B.outlook backing.old) (B.outlook backing.new) (B.state backing.old) (B.state backing.new) }
{
    let entry = walked(alloc, backing, kept, path)?;
    if is_dir(entry.kind) {
        return Err(Refusal::Eisdir);
    }
    let Some(inode) = inode(backing, kept, entry.ino)? else {
        return Err(Refusal::Enoent);
    };
    if is_linked_out(inode.nlink as u64) {
        return Err(Refusal::Emlink);
    }
    Ok((entry, inode))
}

/// The group that takes a name away, of anything but a directory.
pub fn unlinked<B: Backing>(
    alloc: Global,
    backing: &mut B,
    kept: &Kept,
    now: u64,
    path: &Name,
) -> Result<(Reply, Group), Refusal>
    requires kept { IsKept (B.state backing.old).tree kept.now }
    ensures found { IfOk result (λ found. unlinked (present (B.state backing.old).tree kept.now) now path.now ≡ Ok (found.0, found.1)) }
    ensures refused { IfErr result (IsRefused (B.state backing.old) (B.state backing.new) (unlinked (present (B.state backing.old).tree kept.now) now path.now)) }
    ensures looks { Looks (B.outlook backing.old) (B.outlook backing.new) (B.state backing.old) (B.state backing.new) }
{
    if !is_name_path(path) {
        return Err(Refusal::Einval);
    }
    if has_long_name(path) {
        return Err(Refusal::Enametoolong);
    }
    let at = walked(alloc, backing, kept, path)?;
    if is_dir(at.kind) {
        return Err(Refusal::Eisdir);
    }
    match inode(backing, kept, at.ino)? {
        Some(inode) => {
            let group = removal(alloc, backing, kept, at, inode, now)?;
            Ok((Reply::Done, group))
        }
        None => Err(Refusal::Enoent),
    }
}

/// The group that takes an empty directory away.
pub fn dir_removed<B: Backing>(
    alloc: Global,
    backing: &mut B,
    kept: &Kept,
    now: u64,
    path: &Name,
) -> Result<(Reply, Group), Refusal>
    requires kept { IsKept (B.state backing.old).tree kept.now }
    ensures found { IfOk result (λ found. dir_removed (present (B.state backing.old).tree kept.now) now path.now ≡ Ok (found.0, found.1)) }
    ensures refused { IfErr result (IsRefused (B.state backing.old) (B.state backing.new) (dir_removed (present (B.state backing.old).tree kept.now) now path.now)) }
    ensures looks { Looks (B.outlook backing.old) (B.outlook backing.new) (B.state backing.old) (B.state backing.new) }
{
    if !is_name_path(path) {
        return Err(Refusal::Einval);
    }
    if has_long_name(path) {
        return Err(Refusal::Enametoolong);
    }
    let at = walked(alloc, backing, kept, path)?;
    if !is_dir(at.kind) {
        return Err(Refusal::Enotdir);
    }
    if is_filled(backing, kept, &at)? {
        return Err(Refusal::Enotempty);
    }
    match inode(backing, kept, at.ino)? {
        Some(inode) => {
            let group = removal(alloc, backing, kept, at, inode, now)?;
            Ok((Reply::Done, group))
        }
        None => Err(Refusal::Enoent),
    }
}

// The group that takes away a name of an inode.
fn removal<B: Backing>(
    alloc: Global,
    backing: &mut B,
    kept: &Kept,
    at: Entry,
    named: Inode,
    now: u64,
) -> Result<Group, Refusal>
    requires kept { IsKept (B.state backing.old).tree kept.now }
    ensures found { IfOk result (λ group. group ≡ removing (present (B.state backing.old).tree kept.now) at named now) }
    ensures refused { IfErr result (IsFault (B.state backing.old) (B.state backing.new)) }
    ensures looks { Looks (B.outlook backing.old) (B.outlook backing.new) (B.state backing.old) (B.state backing.new) }
{
    let parent = inode(backing, kept, at.dir)?;
    let held_open = kept.handles.has_open(at.ino);
    let group = or_memory(removing(alloc, at, named, held_open, parent, now))?;
    Ok(group)
}
