// What is looked up beside names.

ghost use Rattle.std.specs.Prelude.{◌≡◌, ◌&&◌, not, IfOk, IfErr};
ghost use Rattle.fs_model.specs.Files.{inode_at, entry_at};
ghost use Rattle.fs_model.specs.Directory.{entries_in, has_no_entry};
ghost use Rattle.fs_model.specs.Path.{is_dir};
ghost use Rattle.buffered_files.specs.Present.{present, IsKept};
ghost use Rattle.vfs_plans.specs.Answers.{IsFault, Looks};

use crate::faults::or_fault;
use crate::kinds::is_dir;
use buffered_files::Kept;
use fs_model::{Backing, Entry, Inode, Refusal};
use op_groups::has_no_entry;
use ubifs_base::Name;

/// The present inode of a number.
pub fn inode<B: Backing>(backing: &mut B, kept: &Kept, ino: u32) -> Result<Option<Inode>, Refusal>
    requires kept { IsKept (B.state backing.old).tree kept.now }
    ensures found { IfOk result (λ found. found ≡ inode_at (present (B.state backing.old).tree kept.now).tree ino) }
    ensures refused { IfErr result (IsFault (B.state backing.old) (B.state backing.new)) }
    ensures looks { Looks (B.outlook backing.old) (B.outlook backing.new) (B.state backing.old) (B.state backing.new) }
{
    or_fault(buffered_files::inode(backing, kept, ino))
}

/// The present entry of a name in a directory.
pub fn entry<B: Backing>(
    backing: &mut B,
    kept: &Kept,
    dir: u32,
    name: &Name,
) -> Result<Option<Entry>, Refusal>
    ensures found { IfOk result (λ found. found ≡ entry_at (present (B.state backing.old).tree kept.now).tree dir name.now) }
    ensures refused { IfErr result (IsFault (B.state backing.old) (B.state backing.new)) }
    ensures looks { Looks (B.outlook backing.old) (B.outlook backing.new) (B.state backing.old) (B.state backing.new) }
{
    or_fault(backing.lookup(dir, name))
}

/// The present entries of a directory, in order of name.
pub fn entries<B: Backing>(backing: &mut B, kept: &Kept, dir: u32) -> Result<Vec<Entry>, Refusal>
    ensures found { IfOk result (λ found. found.items ≡ entries_in (present (B.state backing.old).tree kept.now).tree dir) }
    ensures refused { IfErr result (IsFault (B.state backing.old) (B.state backing.new)) }
    ensures looks { Looks (B.outlook backing.old) (B.outlook backing.new) (B.state backing.old) (B.state backing.new) }
{
    or_fault(backing.entries(dir))
}

/// Whether it is an entry of a directory in which something is.
pub(crate) fn is_filled<B: Backing>(
    backing: &mut B,
    kept: &Kept,
    at: &Entry,
) -> Result<bool, Refusal>
    ensures found { IfOk result (λ filled. filled ≡ (is_dir at.now.kind && not (has_no_entry (present (B.state backing.old).tree kept.now).tree at.now.ino))) }
    ensures refused { IfErr result (IsFault (B.state backing.old) (B.state backing.new)) }
    ensures looks { Looks (B.outlook backing.old) (B.outlook backing.new) (B.state backing.old) (B.state backing.new) }
{
    if !is_dir(at.kind) {
        return Ok(false);
    }
    let entries = entries(backing, kept, at.ino)?;
    Ok(!has_no_entry(&entries))
}
