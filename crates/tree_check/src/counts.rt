// Which entries lead to an inode, and how many.

ghost use Rattle.std.specs.Prelude.{◌≡◌, ◌==◌, filter};
ghost use Rattle.std.specs.List.Sorted.{IsNonDecreasingBy, IsPermutation};
ghost use Rattle.tree_check.specs.Links.{count_to};

use crate::link::Link;
use crate::links_by_inode::LinksByInode;

/// Links in order of the inode that they lead to. Takes no memory.
pub(crate) fn links_by_inode(links: Vec<Link>) -> LinksByInode
    ensures { IsPermutation links.items result.links.items }
{
    let mut links = links;
    links.sort_unstable_by_key(|link| link.ino);
    in_order(links)
}

// Links whose inode numbers don't fall.
fn in_order(links: Vec<Link>) -> LinksByInode
    requires { IsNonDecreasingBy (λ link. link.ino) links.items }
    ensures { result.links.items ≡ links.items }
{
    LinksByInode { links }
}

/// The links that lead to an inode.
pub(crate) fn links_to(links: &LinksByInode, ino: u32) -> &[Link]
    ensures { result.now ≡ filter (λ link. link.ino == ino) links.now.links.items }
{
    let all = links.links.as_slice();
    let (_, from) = all.split_at(all.partition_point(|link| link.ino < ino));
    let (to, _) = from.split_at(from.partition_point(|link| link.ino <= ino));
    to
}

/// How many they are.
pub(crate) fn count_to(links: &LinksByInode, ino: u32) -> u64
    ensures { result ≡ count_to links.now.links.items ino }
{
    links_to(links, ino).len() as u64
}
