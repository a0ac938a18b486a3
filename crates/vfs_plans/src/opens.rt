// Files are opened: open(2).

ghost use Rattle.std.specs.Prelude.{◌≡◌, Ok, IfOk, IfErr};
ghost use Rattle.std.specs.BTreeMap.{insert_entry};
ghost use Rattle.fs_model.specs.declared.reply.Reply.TheVariants.{Ino};
ghost use Rattle.fs_model.specs.Files.{pair_cmp};
ghost use Rattle.fs_model.specs.Handles.{opened};
ghost use Rattle.buffered_files.specs.Present.{present};
ghost use Rattle.vfs_plans.specs.Answers.{IsRefused, Looks};

use crate::kinds::{is_dir, is_file};
use crate::walks::walked;
use buffered_files::Kept;
use fs_model::{Backing, Refusal};
use op_groups::{has_long_name, is_bad_slot, is_path};
use std::alloc::Global;
use ubifs_base::Name;

/// The number of the inode that is to be opened in a free slot of a caller: a regular file's.
pub fn opened<B: Backing>(
    alloc: Global,
    backing: &mut B,
    kept: &Kept,
    caller: u16,
    path: &Name,
    slot: u8,
) -> Result<u32, Refusal>
    ensures found { IfOk result (λ ino. opened (present (B.state backing.old).tree kept.now) caller path.now slot ≡ Ok (Ino ino, record (present (B.state backing.old).tree kept.now) { handles = insert_entry pair_cmp kept.now.handles (caller, slot) ino })) }
    ensures refused { IfErr result (IsRefused (B.state backing.old) (B.state backing.new) (opened (present (B.state backing.old).tree kept.now) caller path.now slot)) }
    ensures looks { Looks (B.outlook backing.old) (B.outlook backing.new) (B.state backing.old) (B.state backing.new) }
{
    if is_bad_slot(slot) || !is_path(path) {
        return Err(Refusal::Einval);
    }
    if has_long_name(path) {
        return Err(Refusal::Enametoolong);
    }
    if kept.handles.get(caller, slot).is_some() {
        return Err(Refusal::Ebadf);
    }
    let entry = walked(alloc, backing, kept, path)?;
    if is_dir(entry.kind) {
        return Err(Refusal::Eisdir);
    }
    if !is_file(entry.kind) {
        return Err(Refusal::Einval);
    }
    Ok(entry.ino)
}
