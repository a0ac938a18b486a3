// The rule on links.

ghost use Rattle.std.specs.Prelude.{◌≡◌, ℕ, None, List, IfOk, map};
ghost use Rattle.leaf_map.specs.Kept.{Kept};
ghost use Rattle.leaf_map.specs.Shown.{tree_of};
ghost use Rattle.sound_image.specs.Breaches.{IsWrongLinkOf};
ghost use Rattle.image_check.specs.WrongValues.{IsFirstOf};
ghost use Rattle.tree_check.specs.LinkFindings.{are_right, soonest_of, wrong_link};
ghost use Rattle.tree_check.specs.Links.{count_to};
ghost use Rattle.tree_check.specs.Told.{AreShownBy};

use crate::counts::{count_to, links_by_inode};
use crate::key_order::keys_go_up;
use crate::kinds::is_dir;
use crate::links::links_of;
use crate::links_by_inode::LinksByInode;
use crate::shown_leaf::{Shown, ShownLeaf};
use fs_model::Kind;
use image_check::{WrongValue, sooner};
use std::alloc::Global;
use ubifs_base::Memory;

/// The inode among leaves whose links are wrong first: it is no directory and has other links than names, or none
/// (`dbg_check_filesystem` of Linux fs/ubifs). The number of its names is wanted, and its links are found. Entries of one directory
/// and name are one, and the first counts. None if all links are right. Takes memory for a link a
/// name, and for a map of copied names where these don't go up.
pub fn first_wrong_link(alloc: Global, leaves: &[ShownLeaf]) -> Result<Option<WrongValue>, Memory>
    ensures { IfOk result (λ found. (kept : List Kept) (highest : ℕ) → AreShownBy kept leaves.now → IsFirstOf (IsWrongLinkOf kept (tree_of kept highest)) found) }
{
    let links = links_by_inode(links_of(alloc, leaves, keys_go_up(leaves))?);
    Ok(first_link(&links, leaves))
}

// The first inode whose links are wrong, where these lead to inodes.
fn first_link(links: &LinksByInode, leaves: &[ShownLeaf]) -> Option<WrongValue>
    ensures { result ≡ soonest_of None (map (wrong_link (count_to links.now.links.items)) leaves.now) }
{
    let mut first = None;
    let mut left = leaves;
    'telling: while let Some((leaf, rest)) = left.split_first() {
        first = sooner(first, wrong_link(links, leaf));
        left = rest;
    }
    first
}

// What is wrong with the links of the inode that a leaf shows, if it shows one.
fn wrong_link(names: &LinksByInode, leaf: &ShownLeaf) -> Option<WrongValue>
    ensures { result ≡ wrong_link (count_to names.now.links.items) leaf.now }
{
    let Shown::Inode { ino, kind, links } = &leaf.shown else {
        return None;
    };
    let count = count_to(names, *ino);
    if are_right(*kind, *links, count) {
        return None;
    }
    Some(WrongValue {
        lnum: leaf.lnum,
        offs: leaf.offs,
        wanted: count,
        found: *links as u64,
    })
}

// Whether an inode of this kind with so many names has the right number of links.
fn are_right(kind: Kind, links: u32, names: u64) -> bool
    ensures { result ≡ are_right kind links names }
{
    is_dir(kind) || 0 < links && links as u64 == names
}
