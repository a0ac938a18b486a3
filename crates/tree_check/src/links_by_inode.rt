// Links in order of the inode that they lead to.

ghost use Rattle.std.specs.List.Sorted.{IsNonDecreasingBy};
ghost use Rattle.std.proofs.Props.{props};
ghost use Rattle.tree_check.specs.declared.link.Link.{Link as ALink};

use crate::link::Link;

/// Links whose inode numbers don't fall.
#[derive(Drop)]
pub(crate) struct LinksByInode {
    pub(crate) links: Vec<Link>,
    ghost ordered: { IsNonDecreasingBy (λ (link : ALink). link.ino) links.items } by { Prim.hlevel props },
}
