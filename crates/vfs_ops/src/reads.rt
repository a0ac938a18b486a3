// Questions about the files: pread(2), readdir(3), stat(2) and readlink(2).

ghost use Rattle.std.specs.Prelude.{◌≡◌, ◌-◌, ℕ, true, min, Ok, Some, IfOk, IfErr};
ghost use Rattle.fs_model.specs.Files.{bytes_from, inode_at, size_of};
ghost use Rattle.fs_model.specs.Handles.{bytes_read};
ghost use Rattle.fs_model.specs.Operation.{outcome_of};
ghost use Rattle.fs_laws.specs.Sound.{IsSound};
ghost use Rattle.buffered_files.specs.Present.{present, IsKept, IsSameButClean};
ghost use Rattle.vfs_plans.specs.Answers.{IsFault, IsRefused, Looks};
ghost use Rattle.vfs_ops.specs.Kinds.{is_look};

use buffered_files::{Kept, bytes, size};
use fs_model::{Backing, Inode, Op, Refusal, Reply};
use op_groups::{is_bad_len, is_bad_slot};
use std::alloc::Global;
use ubifs_base::Bytes;
use vfs_plans::{inode, link_read, listed, or_fault, told};

/// Answers a caller's operation that looks at the files and leaves them: a read, a list of a directory, what an inode is, or
/// where a symbolic link leads. A page that is read is kept as a clean one. A refusal is the definition's, or tells that the
/// backing failed.
pub(crate) fn look<B: Backing>(
    alloc: Global,
    backing: &mut B,
    kept: &mut Kept,
    caller: u16,
    op: &Op,
) -> Result<Reply, Refusal>
    requires kept { IsKept (B.state backing.old).tree kept.old }
    requires sound { IsSound (present (B.state backing.old).tree kept.old) }
    requires op { is_look op.now ≡ true }
    ensures found { IfOk result (λ reply. (now : ℕ) → outcome_of (present (B.state backing.old).tree kept.old) caller now op.now ≡ Ok (reply, present (B.state backing.old).tree kept.old)) }
    ensures refused { IfErr result (λ refusal. (now : ℕ) → IsRefused (B.state backing.old) (B.state backing.new) (outcome_of (present (B.state backing.old).tree kept.old) caller now op.now) refusal) }
    ensures kept { IsKept (B.state backing.new).tree kept.new }
    ensures same { IsSameButClean kept.old kept.new }
    ensures looks { Looks (B.outlook backing.old) (B.outlook backing.new) (B.state backing.old) (B.state backing.new) }
{
    match op {
        Op::Read { slot, offs, len } => read(alloc, backing, kept, caller, *slot, *offs, *len),
        Op::List { path } => listed(alloc, backing, kept, path),
        Op::Stat { path } => told(alloc, backing, kept, path),
        Op::Readlink { path } => link_read(alloc, backing, kept, path),
        Op::Create { .. }
        | Op::Mkdir { .. }
        | Op::Symlink { .. }
        | Op::Link { .. }
        | Op::Unlink { .. }
        | Op::Rmdir { .. }
        | Op::Rename { .. }
        | Op::OpenFile { .. }
        | Op::Close { .. }
        | Op::Write { .. }
        | Op::Truncate { .. }
        | Op::Fsync { .. }
        | Op::Flush
        | Op::Chmod { .. } => Err(Refusal::Einval),
    }
}

// Reads the bytes that there are in an open file, up to its end.
fn read<B: Backing>(
    alloc: Global,
    backing: &mut B,
    kept: &mut Kept,
    caller: u16,
    slot: u8,
    offs: u64,
    len: u32,
) -> Result<Reply, Refusal>
    requires kept { IsKept (B.state backing.old).tree kept.old }
    ensures found { IfOk result (λ reply. bytes_read (present (B.state backing.old).tree kept.old) caller slot offs len ≡ Ok (reply, present (B.state backing.old).tree kept.old)) }
    ensures refused { IfErr result (IsRefused (B.state backing.old) (B.state backing.new) (bytes_read (present (B.state backing.old).tree kept.old) caller slot offs len)) }
    ensures kept { IsKept (B.state backing.new).tree kept.new }
    ensures same { IsSameButClean kept.old kept.new }
    ensures looks { Looks (B.outlook backing.old) (B.outlook backing.new) (B.state backing.old) (B.state backing.new) }
{
    if is_bad_slot(slot) || is_bad_len(len) {
        return Err(Refusal::Einval);
    }
    let Some(ino) = kept.handles.get(caller, slot) else {
        return Err(Refusal::Ebadf);
    };
    match inode(backing, kept, ino)? {
        Some(inode) => {
            let bytes = bytes_there(alloc, backing, kept, ino, &inode, offs, len)?;
            Ok(Reply::Bytes { bytes })
        }
        None => Err(Refusal::Ebadf),
    }
}

// So many bytes from a place of a file on, and no more than there are before its end.
fn bytes_there<B: Backing>(
    alloc: Global,
    backing: &mut B,
    kept: &mut Kept,
    ino: u32,
    inode: &Inode,
    offs: u64,
    len: u32,
) -> Result<Bytes, Refusal>
    requires kept { IsKept (B.state backing.old).tree kept.old }
    requires present { inode_at (present (B.state backing.old).tree kept.old).tree ino ≡ Some inode.now }
    ensures found { IfOk result (λ bytes. bytes ≡ bytes_from (present (B.state backing.old).tree kept.old).tree.blocks ino offs (min len (size_of (present (B.state backing.old).tree kept.old).tree ino inode.now - offs))) }
    ensures refused { IfErr result (IsFault (B.state backing.old) (B.state backing.new)) }
    ensures kept { IsKept (B.state backing.new).tree kept.new }
    ensures same { IsSameButClean kept.old kept.new }
    ensures looks { Looks (B.outlook backing.old) (B.outlook backing.new) (B.state backing.old) (B.state backing.new) }
{
    let size = size_there(backing, kept, ino, inode)?;
    let n = (len as u64).min(size.saturating_sub(offs)) as u32;
    or_fault(bytes(alloc, backing, kept, ino, offs, n))
}

/// The size of a file in bytes.
pub(crate) fn size_there<B: Backing>(
    backing: &mut B,
    kept: &Kept,
    ino: u32,
    inode: &Inode,
) -> Result<u64, Refusal>
    requires kept { IsKept (B.state backing.old).tree kept.now }
    requires present { inode_at (present (B.state backing.old).tree kept.now).tree ino ≡ Some inode.now }
    ensures found { IfOk result (λ size. size ≡ size_of (present (B.state backing.old).tree kept.now).tree ino inode.now) }
    ensures refused { IfErr result (IsFault (B.state backing.old) (B.state backing.new)) }
    ensures looks { Looks (B.outlook backing.old) (B.outlook backing.new) (B.state backing.old) (B.state backing.new) }
{
    or_fault(size(backing, kept, ino, inode))
}
