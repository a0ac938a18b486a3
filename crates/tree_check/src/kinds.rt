// The kinds of the inodes that leaves show.

ghost use Rattle.std.specs.Prelude.{◌≡◌, ◌++◌, ℕ, IfOk, OnOk};
ghost use Rattle.std.specs.List.Sorted.{IsNonDecreasingBy};
ghost use Rattle.fs_model.specs.Path.{is_dir};
ghost use Rattle.fs_model.specs.Proper.{same_kind};
ghost use Rattle.tree_check.specs.Kinds.{first_kind, inode_kind, inode_kinds, inodes_shown, kind_at, kind_if, kind_shown};

use crate::inode_kind::InodeKind;
use crate::kinds_by_inode::KindsByInode;
use crate::shown_leaf::{Shown, ShownLeaf};
use fs_model::Kind;
use std::alloc::Global;
use ubifs_base::Memory;

/// The kind of each inode that leaves show. Of leaves that show one inode the first counts.
pub(crate) fn kinds_of(alloc: Global, leaves: &[ShownLeaf]) -> Result<KindsByInode, Memory>
    ensures { IfOk result (λ kinds. (q : ℕ) → kind_at kinds.inodes.items q ≡ kind_shown leaves.now q) }
{
    let mut inodes = inode_kinds(alloc, leaves)?;
    inodes.sort_by_key(|inode| inode.ino)?;
    Ok(in_order(inodes))
}

// Inodes whose numbers don't fall.
fn in_order(inodes: Vec<InodeKind>) -> KindsByInode
    requires { IsNonDecreasingBy (λ inode. inode.ino) inodes.items }
    ensures { result.inodes.items ≡ inodes.items }
{
    KindsByInode { inodes }
}

// The inodes that leaves show, leaf by leaf, with their kinds.
fn inode_kinds(alloc: Global, leaves: &[ShownLeaf]) -> Result<Vec<InodeKind>, Memory>
    ensures { IfOk result (λ inodes. inodes.items ≡ inode_kinds leaves.now) }
{
    let mut inodes = Vec::new(alloc);
    let mut left = leaves;
    'adding: while let Some((leaf, rest)) = left.split_first() {
        add_inode(&mut inodes, &leaf.shown)?;
        left = rest;
    }
    Ok(inodes)
}

// Adds the inode that a leaf shows, if it shows one.
fn add_inode(inodes: &mut Vec<InodeKind>, shown: &Shown) -> Result<(), Memory>
    ensures { OnOk result (inodes.new.items ≡ inodes.old.items ++ inode_kind shown.now) }
{
    let Shown::Inode { ino, kind, .. } = shown else {
        return Ok(());
    };
    inodes.push(InodeKind {
        ino: *ino,
        kind: *kind,
    })?;
    Ok(())
}

/// The kind of an inode, if one of these has its number.
pub(crate) fn kind_at(kinds: &KindsByInode, ino: u32) -> Option<Kind>
    ensures { result ≡ kind_at kinds.now.inodes.items ino }
{
    let all = kinds.inodes.as_slice();
    let (_, from) = all.split_at(all.partition_point(|inode| inode.ino < ino));
    first_kind(from, ino)
}

// The kind of the first of some inodes, if it has this number.
fn first_kind(inodes: &[InodeKind], ino: u32) -> Option<Kind>
    ensures { result ≡ first_kind inodes.now ino }
{
    match inodes.split_first() {
        Some((first, _)) => kind_if(*first, ino),
        None => None,
    }
}

// The kind of an inode, if it has this number.
fn kind_if(inode: InodeKind, ino: u32) -> Option<Kind>
    ensures { result ≡ kind_if inode ino }
{
    if inode.ino == ino {
        return Some(inode.kind);
    }
    None
}

/// How many leaves show an inode.
pub(crate) fn count_inodes(leaves: &[ShownLeaf]) -> usize
    ensures { result ≡ inodes_shown leaves.now }
{
    let mut count = 0;
    for leaf in leaves {
        if let Shown::Inode { .. } = &leaf.shown {
            count += 1;
        }
    }
    count
}

/// Whether two kinds are one.
pub(crate) fn is_same_kind(one: Kind, other: Kind) -> bool
    ensures { result ≡ same_kind one other }
{
    one == other
}

/// Whether a kind is a directory's.
pub(crate) fn is_dir(kind: Kind) -> bool
    ensures { result ≡ is_dir kind }
{
    match kind {
        Kind::Dir => true,
        _ => false,
    }
}
