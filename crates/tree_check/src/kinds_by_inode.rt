// Kinds in order of inode number.

ghost use Rattle.std.specs.List.Sorted.{IsNonDecreasingBy};
ghost use Rattle.std.proofs.Props.{props};
ghost use Rattle.tree_check.specs.declared.inode_kind.InodeKind.{InodeKind as AnInodeKind};

use crate::inode_kind::InodeKind;

/// Inodes with their kinds, whose numbers don't fall.
#[derive(Drop)]
pub(crate) struct KindsByInode {
    pub(crate) inodes: Vec<InodeKind>,
    ghost ordered: { IsNonDecreasingBy (λ (inode : AnInodeKind). inode.ino) inodes.items } by { Prim.hlevel props },
}
