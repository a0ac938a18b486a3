// What the tree that leaves show says of inode numbers.

ghost use Rattle.std.specs.Prelude.{◌≡◌, IfOk, IsTrue};
ghost use Rattle.tree_check.specs.Facts.{AreFactsOf, facts_in, is_kind, is_misplaced, is_misplaced_inode};
ghost use Rattle.tree_check.specs.KeyOrder.{ShowNothingTwice};

use crate::counts::{count_to, links_by_inode};
use crate::kinds::{count_inodes, is_dir, is_same_kind, kind_at, kinds_of};
use crate::kinds_by_inode::KindsByInode;
use crate::link::ROOT;
use crate::links::links_of;
use crate::links_by_inode::LinksByInode;
use crate::reach::{dirs_reached, is_reached};
use crate::shown_leaf::{Shown, ShownLeaf};
use fs_model::Kind;
use std::alloc::Global;
use std::collections::BTreeMap;
use ubifs_base::Memory;

/// The kind of each inode, what entries lead to, and which directories are reached from the root in one step less than count.
#[derive(Drop)]
pub(crate) struct TreeFacts {
    pub(crate) kinds: KindsByInode,
    pub(crate) names: LinksByInode,
    pub(crate) dirs: BTreeMap<u32, bool>,
}

/// What leaves show of the tree. From the root as many steps count as leaves show inodes.
pub(crate) fn facts_of(
    alloc: Global,
    leaves: &[ShownLeaf],
    go_up: bool,
) -> Result<TreeFacts, Memory>
    requires { IsTrue go_up → ShowNothingTwice leaves.now }
    ensures { IfOk result (λ facts. AreFactsOf leaves.now (facts_in facts)) }
{
    let names = links_by_inode(links_of(alloc, leaves, go_up)?);
    let kinds = kinds_of(alloc, leaves)?;
    let dirs = dirs_reached(alloc, names.links.as_slice(), count_inodes(leaves))?;
    Ok(TreeFacts { kinds, names, dirs })
}

/// Whether an inode is there and of this kind.
pub(crate) fn is_kind(facts: &TreeFacts, ino: u32, kind: Kind) -> bool
    ensures { result ≡ is_kind (facts_in facts.now) ino kind }
{
    match kind_at(&facts.kinds, ino) {
        Some(found) => is_same_kind(found, kind),
        None => false,
    }
}

/// Whether what a leaf shows is out of its place: inode 1, which is no directory; a directory that isn't the root and has not one
/// name or isn't reached; or a name that stands in no directory, or leads to no inode of its kind, or to the root.
pub(crate) fn is_misplaced(facts: &TreeFacts, shown: &Shown) -> bool
    ensures { result ≡ is_misplaced (facts_in facts.now) shown.now }
{
    match shown {
        Shown::Inode { ino, kind, .. } => is_misplaced_inode(facts, *ino, *kind),
        Shown::Entry { dir, ino, kind, .. } => {
            !(is_kind(facts, *dir, Kind::Dir) && is_kind(facts, *ino, *kind) && *ino != ROOT)
        }
        Shown::Deletion { .. } | Shown::Block { .. } | Shown::Truncation { .. } | Shown::Nothing =>
            false,
    }
}

fn is_misplaced_inode(facts: &TreeFacts, ino: u32, kind: Kind) -> bool
    ensures { result ≡ is_misplaced_inode (facts_in facts.now) ino kind }
{
    let placed = !is_dir(kind)
        || ino == ROOT
        || count_to(&facts.names, ino) == 1 && is_reached(&facts.names, &facts.dirs, ino);
    !placed || ino == ROOT && !is_kind(facts, ROOT, Kind::Dir)
}
