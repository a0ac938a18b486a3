// What the group of an operation asks of admission.

ghost use Rattle.std.specs.Prelude.{◌≡◌, ℕ, ◌≤◌, IfOk, IfErr, sum_by};
ghost use Rattle.std.specs.List.{AllByRecursion};
ghost use Rattle.fs_model.specs.Backing.{group_limit};
ghost use Rattle.fs_model.specs.Need.{change_bytes, group_need};
ghost use Rattle.buffered_files.specs.Present.{present, IsKept};
ghost use Rattle.vfs_plans.specs.Answers.{IsFault, Looks};
ghost use Rattle.vfs_ops.specs.Operations.{LeavesOthers, class_of, gone_bytes, gone_in};

use buffered_files::Kept;
use fs_model::{Backing, Change, Class, Group, Need, Op, Refusal};
use op_groups::{group_need, inode_bytes};
use vfs_plans::inode;

/// What a group asks of admission, with which one inode goes at most.
pub(crate) fn need_of<B: Backing>(
    backing: &mut B,
    kept: &Kept,
    group: &Group,
    class: Class,
) -> Result<Need, Refusal>
    requires kept { IsKept (B.state backing.old).tree kept.now }
    requires gone { (ino : ℕ) × AllByRecursion (LeavesOthers ino) group.now }
    requires limit { sum_by (change_bytes (present (B.state backing.old).tree kept.now).tree) group.now ≤ group_limit }
    ensures need { IfOk result (λ need. need ≡ group_need (present (B.state backing.old).tree kept.now).tree group.now class) }
    ensures refused { IfErr result (IsFault (B.state backing.old) (B.state backing.new)) }
    ensures looks { Looks (B.outlook backing.old) (B.outlook backing.new) (B.state backing.old) (B.state backing.new) }
{
    let gone = bytes_gone(backing, kept, group)?;
    Ok(group_need(group, gone, class))
}

/// The class of who asks.
pub(crate) fn class_of(op: &Op) -> Class
    ensures { result ≡ class_of op.now }
{
    match op {
        Op::Unlink { .. } | Op::Rmdir { .. } => Class::Removal,
        _ => Class::Ordinary,
    }
}

// The bytes of the node of the first inode that goes with a group.
fn bytes_gone<B: Backing>(backing: &mut B, kept: &Kept, group: &Group) -> Result<u64, Refusal>
    requires kept { IsKept (B.state backing.old).tree kept.now }
    ensures found { IfOk result (λ bytes. bytes ≡ gone_bytes (present (B.state backing.old).tree kept.now).tree group.now) }
    ensures refused { IfErr result (IsFault (B.state backing.old) (B.state backing.new)) }
    ensures looks { Looks (B.outlook backing.old) (B.outlook backing.new) (B.state backing.old) (B.state backing.new) }
{
    let Some(ino) = gone_in(group.as_slice()) else {
        return Ok(160);
    };
    match inode(backing, kept, ino)? {
        Some(inode) => Ok(inode_bytes(&inode)),
        None => Ok(160),
    }
}

// The first inode that goes with a group.
fn gone_in(changes: &[Change]) -> Option<u32>
    ensures { result ≡ gone_in changes.now }
{
    for change in changes {
        if let Change::DropInode { ino } = change {
            return Some(*ino);
        }
    }
    None
}
