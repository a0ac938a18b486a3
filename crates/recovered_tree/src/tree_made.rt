// A tree that is made of changes.

ghost use Rattle.std.specs.Prelude.{◌≡◌, [], IfOk, OnOk, reverse};
ghost use Rattle.fs_model.specs.Change.{apply};

use crate::leaf_sets::LeafSets;
use fs_model::{Change, Group};
use plain_backing::Tree;
use std::alloc::Global;
use ubifs_base::Memory;

/// The tree in which changes were made from the last to the first, those of inodes before the others, on no files.
pub(crate) fn tree_made(alloc: Global, highest: u32, sets: LeafSets) -> Result<Tree, Memory>
    ensures { IfOk result (λ tree. tree ≡ apply (apply (record { inodes = []; blocks = []; entries = []; highest = highest }) (reverse sets.inodes.items)) (reverse sets.others.items)) }
{
    let mut tree = Tree::new(alloc, highest);
    make_all(alloc, &mut tree, sets.inodes)?;
    make_all(alloc, &mut tree, sets.others)?;
    Ok(tree)
}

// Makes changes from the last to the first, each as a group of its own.
fn make_all(alloc: Global, tree: &mut Tree, mut changes: Vec<Change>) -> Result<(), Memory>
    ensures { OnOk result (tree.new ≡ apply tree.old (reverse changes.items)) }
{
    while let Some(change) = changes.pop() {
        let mut group = Group::new(alloc);
        group.push(change)?;
        tree.apply(alloc, &group)?;
    }
    Ok(())
}
