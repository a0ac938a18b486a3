// A tree without what has no name.

ghost use Rattle.std.specs.Prelude.{◌≡◌, IfOk};
ghost use Rattle.fs_model.specs.Orphan.{nameless, without_nameless};

use plain_backing::Tree;
use std::alloc::Global;
use ubifs_base::Memory;

/// The tree without the inodes that have no name, and without their blocks. If there are none, it is given back at once.
pub(crate) fn without_nameless(alloc: Global, tree: Tree) -> Result<Tree, Memory>
    ensures { IfOk result (λ named. named ≡ without_nameless tree) }
{
    if tree.orphans() == 0 {
        return Ok(tree);
    }
    let gone = nameless(alloc, &tree)?;
    let mut tree = tree;
    for ino in gone {
        tree.drop_inode(ino);
    }
    Ok(tree)
}

// The numbers of the inodes that have no name, in order.
fn nameless(alloc: Global, tree: &Tree) -> Result<Vec<u32>, Memory>
    ensures { IfOk result (λ gone. gone.items ≡ nameless tree.now) }
{
    let mut gone = Vec::new(alloc);
    let mut rest = tree.inodes();
    'listing: while let Some((ino, inode)) = rest.next() {
        if inode.nlink == 0 {
            gone.push(ino)?;
        }
    }
    Ok(gone)
}
