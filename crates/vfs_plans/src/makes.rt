// Files, directories and symbolic links are made: open(2) with O_CREAT and O_EXCL, mkdir(2) and symlink(2).

ghost use Rattle.std.specs.Prelude.{◌≡◌, ◌&&◌, Ok, IfOk, IfErr};
ghost use Rattle.fs_model.specs.Directory.{dir_links, is_linked_out};
ghost use Rattle.fs_model.specs.Path.{is_dir};
ghost use Rattle.fs_model.specs.Making.{created, dir_made, made, symlink_made};
ghost use Rattle.buffered_files.specs.Present.{present, IsKept};
ghost use Rattle.vfs_plans.specs.Answers.{IsFault, IsRefused, Looks};

use crate::faults::or_memory;
use crate::lookups::{entries, inode};
use crate::place::Place;
use crate::walks::free_place;
use buffered_files::{Kept, present_files_are_sound};
use fs_model::{Backing, Group, Inode, Kind, Refusal, Reply, Table};
use op_groups::{
    Parent, dir_links, has_long_name, is_bad_mode, is_bad_target, is_linked_out, is_name_path,
    is_used_up, making, new_dir, new_file, new_symlink,
};
use std::alloc::Global;
use ubifs_base::Name;

/// Makes a regular file with these permission bits.
pub fn created<B: Backing>(
    alloc: Global,
    backing: &mut B,
    kept: &Kept,
    now: u64,
    path: &Name,
    mode: u32,
) -> Result<(Reply, Group), Refusal>
    requires kept { IsKept (B.state backing.old).tree kept.now }
    ensures found { IfOk result (λ found. created (present (B.state backing.old).tree kept.now) now path.now mode ≡ Ok (found.0, found.1)) }
    ensures refused { IfErr result (IsRefused (B.state backing.old) (B.state backing.new) (created (present (B.state backing.old).tree kept.now) now path.now mode)) }
    ensures looks { Looks (B.outlook backing.old) (B.outlook backing.new) (B.state backing.old) (B.state backing.new) }
{
    if is_bad_mode(mode) || !is_name_path(path) {
        return Err(Refusal::Einval);
    }
    made(alloc, backing, kept, now, path, new_file(alloc, mode, now))
}

/// Makes a directory with these permission bits.
pub fn dir_made<B: Backing>(
    alloc: Global,
    backing: &mut B,
    kept: &Kept,
    now: u64,
    path: &Name,
    mode: u32,
) -> Result<(Reply, Group), Refusal>
    requires kept { IsKept (B.state backing.old).tree kept.now }
    ensures found { IfOk result (λ found. dir_made (present (B.state backing.old).tree kept.now) now path.now mode ≡ Ok (found.0, found.1)) }
    ensures refused { IfErr result (IsRefused (B.state backing.old) (B.state backing.new) (dir_made (present (B.state backing.old).tree kept.now) now path.now mode)) }
    ensures looks { Looks (B.outlook backing.old) (B.outlook backing.new) (B.state backing.old) (B.state backing.new) }
{
    if is_bad_mode(mode) || !is_name_path(path) {
        return Err(Refusal::Einval);
    }
    made(alloc, backing, kept, now, path, new_dir(alloc, mode, now))
}

/// Makes a symbolic link to a target.
pub fn symlink_made<B: Backing>(
    alloc: Global,
    backing: &mut B,
    kept: &Kept,
    now: u64,
    path: &Name,
    target: Name,
) -> Result<(Reply, Group), Refusal>
    requires kept { IsKept (B.state backing.old).tree kept.now }
    ensures found { IfOk result (λ found. symlink_made (present (B.state backing.old).tree kept.now) now path.now target ≡ Ok (found.0, found.1)) }
    ensures refused { IfErr result (IsRefused (B.state backing.old) (B.state backing.new) (symlink_made (present (B.state backing.old).tree kept.now) now path.now target)) }
    ensures looks { Looks (B.outlook backing.old) (B.outlook backing.new) (B.state backing.old) (B.state backing.new) }
{
    if is_bad_target(&target) || !is_name_path(path) {
        return Err(Refusal::Einval);
    }
    made(alloc, backing, kept, now, path, new_symlink(target, now))
}

/// The number and the group that make an inode under a path, where nothing may be yet.
pub fn made<B: Backing>(
    alloc: Global,
    backing: &mut B,
    kept: &Kept,
    now: u64,
    path: &Name,
    new: Inode,
) -> Result<(Reply, Group), Refusal>
    requires kept { IsKept (B.state backing.old).tree kept.now }
    ensures found { IfOk result (λ found. made (present (B.state backing.old).tree kept.now) now path.now new ≡ Ok (found.0, found.1)) }
    ensures refused { IfErr result (IsRefused (B.state backing.old) (B.state backing.new) (made (present (B.state backing.old).tree kept.now) now path.now new)) }
    ensures looks { Looks (B.outlook backing.old) (B.outlook backing.new) (B.state backing.old) (B.state backing.new) }
{
    if has_long_name(path) {
        return Err(Refusal::Enametoolong);
    }
    let Place { parent, name } = free_place(alloc, backing, kept, path)?;
    if is_full(backing, kept, parent.ino, new.kind)? {
        return Err(Refusal::Emlink);
    }
    let highest = backing.highest();
    if is_used_up(highest) {
        return Err(Refusal::Enfile {
            what: Table::Inodes,
            limit: 0xFFFF_FF00,
        });
    }
    let parent = Parent {
        ino: parent.ino,
        inode: inode(backing, kept, parent.ino)?,
    };
    let group = or_memory(making(alloc, highest, parent, name, new, now))?;
    Ok((Reply::Ino { ino: highest + 1 }, group))
}

/// Whether a directory comes into one that has no link left for it. Each directory has one name, so none has more links
/// than there are inode numbers, and its entries are listed only where these could be enough.
pub(crate) fn is_full<B: Backing>(
    backing: &mut B,
    kept: &Kept,
    dir: u32,
    kind: Kind,
) -> Result<bool, Refusal>
    requires kept { IsKept (B.state backing.old).tree kept.now }
    ensures found { IfOk result (λ full. full ≡ (is_dir kind && is_linked_out (dir_links (present (B.state backing.old).tree kept.now).tree dir))) }
    ensures refused { IfErr result (IsFault (B.state backing.old) (B.state backing.new)) }
    ensures looks { Looks (B.outlook backing.old) (B.outlook backing.new) (B.state backing.old) (B.state backing.new) }
{
    match kind {
        Kind::Dir => {}
        _ => return Ok(false),
    }
    present_files_are_sound();
    let highest = backing.highest();
    if highest < 64997 {
        return Ok(false);
    }
    let entries = entries(backing, kept, dir)?;
    Ok(is_linked_out(dir_links(&entries)))
}
