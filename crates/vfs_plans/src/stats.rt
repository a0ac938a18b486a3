// What is told of an inode: stat(2).

ghost use Rattle.std.specs.Prelude.{◌≡◌, Ok, Some, IfOk, IfErr};
ghost use Rattle.fs_model.specs.Attributes.{stat_of, told};
ghost use Rattle.fs_model.specs.Directory.{dir_links, dir_size, links_of, shown_size};
ghost use Rattle.fs_model.specs.Files.{inode_at};
ghost use Rattle.fs_model.specs.declared.refusal.Refusal.TheVariants.{Enomem};
ghost use Rattle.buffered_files.specs.Present.{present, IsKept};
ghost use Rattle.vfs_plans.specs.Answers.{IsFault, IsRefused, Looks};

use crate::attributes::found;
use crate::faults::or_fault;
use crate::kinds::is_dir;
use crate::lookups::{entries, inode};
use buffered_files::Kept;
use fs_model::{Backing, Inode, Refusal, Reply};
use op_groups::{dir_links, dir_size};
use std::alloc::Global;
use ubifs_base::Name;

/// Tells what an inode is: kind, number, permission bits, links, size in bytes and the time of its last change in
/// seconds since 1970. A directory's links and size are reckoned from its entries. One with 2^32 links or more, which no answer
/// can show, is refused as if memory had run out.
pub fn told<B: Backing>(
    alloc: Global,
    backing: &mut B,
    kept: &Kept,
    path: &Name,
) -> Result<Reply, Refusal>
    requires kept { IsKept (B.state backing.old).tree kept.now }
    ensures found { IfOk result (λ reply. told (present (B.state backing.old).tree kept.now) path.now ≡ Ok (reply, present (B.state backing.old).tree kept.now)) }
    ensures refused { IfErr result (IsRefused (B.state backing.old) (B.state backing.new) (told (present (B.state backing.old).tree kept.now) path.now)) }
    ensures looks { Looks (B.outlook backing.old) (B.outlook backing.new) (B.state backing.old) (B.state backing.new) }
{
    let at = found(alloc, backing, kept, path)?;
    match inode(backing, kept, at.ino)? {
        Some(inode) => {
            let stat = stat_of(backing, kept, at.ino, &inode)?;
            Ok(stat)
        }
        None => Err(Refusal::Enoent),
    }
}

// What stat(2) tells of an inode.
fn stat_of<B: Backing>(
    backing: &mut B,
    kept: &Kept,
    ino: u32,
    inode: &Inode,
) -> Result<Reply, Refusal>
    requires kept { IsKept (B.state backing.old).tree kept.now }
    requires present { inode_at (present (B.state backing.old).tree kept.now).tree ino ≡ Some inode.now }
    ensures found { IfOk result (λ stat. stat ≡ stat_of (present (B.state backing.old).tree kept.now).tree ino inode.now) }
    ensures refused { IfErr result (IsFault (B.state backing.old) (B.state backing.new)) }
    ensures looks { Looks (B.outlook backing.old) (B.outlook backing.new) (B.state backing.old) (B.state backing.new) }
{
    let (nlink, size) = links_and_size(backing, kept, ino, inode)?;
    Ok(Reply::Stat {
        kind: inode.kind,
        ino,
        mode: inode.mode,
        nlink,
        size,
        mtime: inode.mtime,
    })
}

// The links of an inode and its size in bytes.
fn links_and_size<B: Backing>(
    backing: &mut B,
    kept: &Kept,
    ino: u32,
    inode: &Inode,
) -> Result<(u32, u64), Refusal>
    requires kept { IsKept (B.state backing.old).tree kept.now }
    requires present { inode_at (present (B.state backing.old).tree kept.now).tree ino ≡ Some inode.now }
    ensures links { IfOk result (λ shown. shown.0 ≡ links_of (present (B.state backing.old).tree kept.now).tree ino inode.now) }
    ensures size { IfOk result (λ shown. shown.1 ≡ shown_size (present (B.state backing.old).tree kept.now).tree ino inode.now) }
    ensures refused { IfErr result (IsFault (B.state backing.old) (B.state backing.new)) }
    ensures looks { Looks (B.outlook backing.old) (B.outlook backing.new) (B.state backing.old) (B.state backing.new) }
{
    if is_dir(inode.kind) {
        return of_dir(backing, kept, ino);
    }
    let size = or_fault(buffered_files::size(backing, kept, ino, inode))?;
    Ok((inode.nlink, size))
}

// The links of a directory and its size in bytes.
fn of_dir<B: Backing>(backing: &mut B, kept: &Kept, ino: u32) -> Result<(u32, u64), Refusal>
    requires kept { IsKept (B.state backing.old).tree kept.now }
    ensures links { IfOk result (λ shown. shown.0 ≡ dir_links (present (B.state backing.old).tree kept.now).tree ino) }
    ensures size { IfOk result (λ shown. shown.1 ≡ dir_size (present (B.state backing.old).tree kept.now).tree ino) }
    ensures refused { IfErr result (IsFault (B.state backing.old) (B.state backing.new)) }
    ensures looks { Looks (B.outlook backing.old) (B.outlook backing.new) (B.state backing.old) (B.state backing.new) }
{
    let entries = entries(backing, kept, ino)?;
    let size = dir_size(&entries);
    let links = or_too_many(dir_links(&entries))?;
    Ok((links, size))
}

// The links, where an answer can show as many.
fn or_too_many(links: u64) -> Result<u32, Refusal>
    ensures ok { IfOk result (λ shown. shown ≡ links) }
    ensures err { IfErr result (λ refusal. refusal ≡ Enomem) }
{
    if links > u32::MAX as u64 {
        return Err(Refusal::Enomem);
    }
    Ok(links as u32)
}
