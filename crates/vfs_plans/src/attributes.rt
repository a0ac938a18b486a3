// What is asked of a directory or an inode, and a change of its mode: readdir(3), readlink(2) and chmod(2).

ghost use Rattle.std.specs.Prelude.{◌≡◌, Ok, IfOk, IfErr};
ghost use Rattle.fs_model.specs.Attributes.{found, link_read, listed, mode_set};
ghost use Rattle.buffered_files.specs.Present.{present, IsKept};
ghost use Rattle.vfs_plans.specs.Answers.{IsRefused, Looks};

use crate::faults::or_memory;
use crate::kinds::{is_dir, is_symlink};
use crate::lookups::{entries, inode};
use crate::walks::walked;
use buffered_files::Kept;
use fs_model::{Backing, Entry, Group, Refusal, Reply};
use op_groups::{by_hash, has_long_name, is_bad_mode, is_path, setting_mode};
use std::alloc::Global;
use ubifs_base::Name;

/// The entry that a path operand names.
pub fn found<B: Backing>(
    alloc: Global,
    backing: &mut B,
    kept: &Kept,
    path: &Name,
) -> Result<Entry, Refusal>
    ensures found { IfOk result (λ entry. found (present (B.state backing.old).tree kept.now) path.now ≡ Ok entry) }
    ensures refused { IfErr result (IsRefused (B.state backing.old) (B.state backing.new) (found (present (B.state backing.old).tree kept.now) path.now)) }
    ensures looks { Looks (B.outlook backing.old) (B.outlook backing.new) (B.state backing.old) (B.state backing.new) }
{
    if !is_path(path) {
        return Err(Refusal::Einval);
    }
    if has_long_name(path) {
        return Err(Refusal::Enametoolong);
    }
    walked(alloc, backing, kept, path)
}

/// Lists a directory: its entries in order of the hash of the name, and then of the name.
pub fn listed<B: Backing>(
    alloc: Global,
    backing: &mut B,
    kept: &Kept,
    path: &Name,
) -> Result<Reply, Refusal>
    ensures found { IfOk result (λ reply. listed (present (B.state backing.old).tree kept.now) path.now ≡ Ok (reply, present (B.state backing.old).tree kept.now)) }
    ensures refused { IfErr result (IsRefused (B.state backing.old) (B.state backing.new) (listed (present (B.state backing.old).tree kept.now) path.now)) }
    ensures looks { Looks (B.outlook backing.old) (B.outlook backing.new) (B.state backing.old) (B.state backing.new) }
{
    let at = found(alloc, backing, kept, path)?;
    if !is_dir(at.kind) {
        return Err(Refusal::Enotdir);
    }
    let entries = entries(backing, kept, at.ino)?;
    let rows = or_memory(by_hash(alloc, entries))?;
    Ok(Reply::List { rows })
}

/// Reads a symbolic link: the bytes of its target.
pub fn link_read<B: Backing>(
    alloc: Global,
    backing: &mut B,
    kept: &Kept,
    path: &Name,
) -> Result<Reply, Refusal>
    requires kept { IsKept (B.state backing.old).tree kept.now }
    ensures found { IfOk result (λ reply. link_read (present (B.state backing.old).tree kept.now) path.now ≡ Ok (reply, present (B.state backing.old).tree kept.now)) }
    ensures refused { IfErr result (IsRefused (B.state backing.old) (B.state backing.new) (link_read (present (B.state backing.old).tree kept.now) path.now)) }
    ensures looks { Looks (B.outlook backing.old) (B.outlook backing.new) (B.state backing.old) (B.state backing.new) }
{
    let at = found(alloc, backing, kept, path)?;
    if !is_symlink(at.kind) {
        return Err(Refusal::Einval);
    }
    match inode(backing, kept, at.ino)? {
        Some(inode) => Ok(Reply::Target { bytes: inode.extra }),
        None => Err(Refusal::Enoent),
    }
}

/// The group that sets the permission bits of an inode.
pub fn mode_set<B: Backing>(
    alloc: Global,
    backing: &mut B,
    kept: &Kept,
    now: u64,
    path: &Name,
    mode: u32,
) -> Result<(Reply, Group), Refusal>
    requires kept { IsKept (B.state backing.old).tree kept.now }
    ensures found { IfOk result (λ found. mode_set (present (B.state backing.old).tree kept.now) now path.now mode ≡ Ok (found.0, found.1)) }
    ensures refused { IfErr result (IsRefused (B.state backing.old) (B.state backing.new) (mode_set (present (B.state backing.old).tree kept.now) now path.now mode)) }
    ensures looks { Looks (B.outlook backing.old) (B.outlook backing.new) (B.state backing.old) (B.state backing.new) }
{
    if is_bad_mode(mode) {
        return Err(Refusal::Einval);
    }
    let at = found(alloc, backing, kept, path)?;
    match inode(backing, kept, at.ino)? {
        Some(inode) => {
            let group = or_memory(setting_mode(alloc, at.ino, inode, mode, now))?;
            Ok((Reply::Done, group))
        }
        None => Err(Refusal::Enoent),
    }
}
