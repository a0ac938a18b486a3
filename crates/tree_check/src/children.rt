// What the entries of each directory name.

ghost use Rattle.std.specs.Prelude.{◌≡◌, [], ℕ, IfOk, OnOk, cond};
ghost use Rattle.std.specs.BTreeMap.{is_at};
ghost use Rattle.std.specs.Ordering.{nat_cmp};
ghost use Rattle.tree_check.specs.Reach.{children_at, inodes_below, with_child};

use crate::link::Link;
use std::alloc::Global;
use std::collections::BTreeMap;
use ubifs_base::Memory;

/// The inodes that the entries of each directory name.
pub(crate) fn children_of(alloc: Global, links: &[Link]) -> Result<BTreeMap<u32, Vec<u32>>, Memory>
    ensures { IfOk result (λ children. (d : ℕ) → children_at children d ≡ inodes_below links.now d) }
{
    let mut children = BTreeMap::new(alloc);
    let mut left = links;
    'adding: while let Some((link, rest)) = left.split_first() {
        add(alloc, &mut children, *link)?;
        left = rest;
    }
    Ok(children)
}

// Puts an inode with those of its directory.
fn add(alloc: Global, children: &mut BTreeMap<u32, Vec<u32>>, link: Link) -> Result<(), Memory>
    ensures { OnOk result ((d : ℕ) → children_at children.new d ≡ with_child link d (children_at children.old d)) }
{
    let mut numbers = taken(alloc, children, link.dir);
    numbers.push(link.ino)?;
    children.insert(link.dir, numbers)?;
    Ok(())
}

// Takes out the inodes of a directory.
fn taken(alloc: Global, children: &mut BTreeMap<u32, Vec<u32>>, dir: u32) -> Vec<u32>
    ensures taken { result.items ≡ children_at children.old dir }
    ensures left { (d : ℕ) → children_at children.new d ≡ cond (is_at (nat_cmp dir) d) [] (children_at children.old d) }
{
    match children.remove(&dir) {
        Some(numbers) => numbers,
        None => Vec::new(alloc),
    }
}
