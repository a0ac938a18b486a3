// What a node shows.

ghost use Rattle.std.specs.Prelude.{◌≡◌, Some};
ghost use Rattle.leaf_map.specs.Kept.{shown};
ghost use Rattle.media_leaf.specs.LeafNode.{entry, truncation};
ghost use Rattle.tree_check.specs.Told.{shown_told};
ghost use Rattle.tree_check.specs.declared.shown_leaf.Shown.TheVariants.{Block};
ghost use Rattle.shown_leaves.specs.Judged.{entry_told, inode_told, is_shown_told};
ghost use Rattle.shown_leaves.specs.Stored.{leaf_node};

use crate::stored_node::StoredNode;
use group_nodes::{kind_of_mode, kind_of_type};
use media_leaf::{DentNode, TrunNode};
use tree_check::Shown;
use ubifs_base::Name;

// What a node shows.
pub(crate) fn shown_of(node: StoredNode) -> Shown
    ensures { shown_told (shown (leaf_node node)) ≡ Some result }
{
    match node {
        StoredNode::Inode { node } => inode_shown(node.ino, node.mode, node.nlink),
        StoredNode::Block { node } => block_shown(node.ino, node.block),
        StoredNode::Entry { node } => node_shown(node),
        StoredNode::Truncation { node } => truncation_shown(&node),
    }
}

// What an inode shows that has this number, mode and links.
pub(crate) fn inode_shown(ino: u32, mode: u32, links: u32) -> Shown
    ensures { result ≡ inode_told ino mode links }
{
    match kind_of_mode(mode) {
        Some(kind) => Shown::Inode { ino, kind, links },
        None => Shown::Nothing,
    }
}

pub(crate) fn block_shown(ino: u32, block: u32) -> Shown
    ensures { result ≡ Block ino block }
{
    Shown::Block { ino, block }
}

fn node_shown(node: DentNode) -> Shown
    ensures { shown_told (shown (entry node)) ≡ Some result }
{
    if node.attribute {
        return Shown::Nothing;
    }
    entry_shown(node.dir, node.name, node.inum, node.kind)
}

// What an entry of a directory shows that has this name, leads to this inode and names this type.
pub(crate) fn entry_shown(dir: u32, name: Name, ino: u32, code: u8) -> Shown
    ensures { result ≡ entry_told dir name ino code }
{
    if ino == 0 {
        return Shown::Deletion { dir, name };
    }
    match kind_of_type(code) {
        Some(kind) => Shown::Entry {
            dir,
            name,
            ino,
            kind,
        },
        None => Shown::Nothing,
    }
}

pub(crate) fn truncation_shown(node: &TrunNode) -> Shown
    ensures { shown_told (shown (truncation node.now)) ≡ Some result }
{
    Shown::Truncation {
        ino: node.ino,
        size: node.new_size,
    }
}

// Whether a leaf may stand for what is shown: an inode, a block or a name.
pub(crate) fn is_leaf_shown(shown: &Shown) -> bool
    ensures { result ≡ is_shown_told shown.now }
{
    match shown {
        Shown::Inode { .. } | Shown::Block { .. } | Shown::Entry { .. } => true,
        Shown::Deletion { .. } | Shown::Truncation { .. } | Shown::Nothing => false,
    }
}
