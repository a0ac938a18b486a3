// The plan of an operation.

ghost use Rattle.std.specs.Prelude.{◌≡◌, Ok, false, IfOk, IfErr};
ghost use Rattle.fs_model.specs.declared.refusal.Refusal.TheVariants.{Enomem};
ghost use Rattle.fs_model.specs.Operation.{plan_of};
ghost use Rattle.buffered_files.specs.Present.{present, IsKept};
ghost use Rattle.vfs_plans.specs.Answers.{IsRefused, Looks};
ghost use Rattle.vfs_plans.specs.Operations.{is_truncate};

use crate::attributes::mode_set;
use crate::faults::or_memory;
use crate::links::{dir_removed, linked, unlinked};
use crate::makes::{created, dir_made, symlink_made};
use crate::moves::renamed;
use buffered_files::Kept;
use fs_model::{Backing, Group, Op, Refusal, Reply};
use std::alloc::Global;
use ubifs_base::Name;

/// The answer and the group of a caller's operation at this moment, in seconds since 1970. An operation whose changes are no
/// one group has the empty group here. It isn't for truncation, whose plan asks how far a file's blocks reach.
pub fn plan<B: Backing>(
    alloc: Global,
    backing: &mut B,
    kept: &Kept,
    caller: u16,
    now: u64,
    op: &Op,
) -> Result<(Reply, Group), Refusal>
    requires kept { IsKept (B.state backing.old).tree kept.now }
    requires op { is_truncate op.now ≡ false }
    ensures found { IfOk result (λ found. plan_of (present (B.state backing.old).tree kept.now) caller now op.now ≡ Ok (found.0, found.1)) }
    ensures refused { IfErr result (IsRefused (B.state backing.old) (B.state backing.new) (plan_of (present (B.state backing.old).tree kept.now) caller now op.now)) }
    ensures looks { Looks (B.outlook backing.old) (B.outlook backing.new) (B.state backing.old) (B.state backing.new) }
{
    match op {
        Op::Create { path, mode } => created(alloc, backing, kept, now, path, *mode),
        Op::Mkdir { path, mode } => dir_made(alloc, backing, kept, now, path, *mode),
        Op::Symlink { path, target } => {
            let target = copy_of(target)?;
            symlink_made(alloc, backing, kept, now, path, target)
        }
        Op::Link { old, new } => linked(alloc, backing, kept, now, old, new),
        Op::Unlink { path } => unlinked(alloc, backing, kept, now, path),
        Op::Rmdir { path } => dir_removed(alloc, backing, kept, now, path),
        Op::Rename { old, new } => renamed(alloc, backing, kept, now, old, new),
        Op::Chmod { path, mode } => mode_set(alloc, backing, kept, now, path, *mode),
        Op::OpenFile { .. }
        | Op::Close { .. }
        | Op::Read { .. }
        | Op::Write { .. }
        | Op::Truncate { .. }
        | Op::Fsync { .. }
        | Op::Flush
        | Op::List { .. }
        | Op::Stat { .. }
        | Op::Readlink { .. } => Ok((Reply::Done, Group::new(alloc))),
    }
}

// A name, once more.
fn copy_of(name: &Name) -> Result<Name, Refusal>
    ensures found { IfOk result (λ copy. copy ≡ name.now) }
    ensures refused { IfErr result (λ refusal. refusal ≡ Enomem) }
{
    match name.clone() {
        Ok(copy) => Ok(copy),
        Err(_) => Err(Refusal::Enomem),
    }
}
