// A leaf node as it was read, and whether two are the same.

ghost use Rattle.std.specs.Prelude.{◌≡◌, ◌↔◌, IsTrue};
ghost use Rattle.media_leaf.specs.LeafNode.{inode, block, entry, truncation};
ghost use Rattle.shown_leaves.specs.Stored.{is_same_block, is_same_entry, is_same_inode, is_same_truncation, leaf_node};

use media_leaf::{DataNode, DentNode, InoNode, TrunNode};

// A leaf node of one of the four kinds.
#[derive(Debug, Drop)]
pub(crate) enum StoredNode {
    Inode { node: InoNode },
    Block { node: DataNode },
    Entry { node: DentNode },
    Truncation { node: TrunNode },
}

// Whether two nodes say the same.
pub(crate) fn is_same_node(one: &StoredNode, other: &StoredNode) -> bool
    ensures { IsTrue result ↔ (leaf_node one.now ≡ leaf_node other.now) }
{
    match one {
        StoredNode::Inode { node } => is_inode(node, other),
        StoredNode::Block { node } => is_block(node, other),
        StoredNode::Entry { node } => is_entry(node, other),
        StoredNode::Truncation { node } => is_truncation(node, other),
    }
}

fn is_inode(node: &InoNode, other: &StoredNode) -> bool
    ensures { IsTrue result ↔ (inode node.now ≡ leaf_node other.now) }
{
    match other {
        StoredNode::Inode { node: there } => is_same_inode(node, there),
        StoredNode::Block { .. } | StoredNode::Entry { .. } | StoredNode::Truncation { .. } => {
            false
        }
    }
}

fn is_block(node: &DataNode, other: &StoredNode) -> bool
    ensures { IsTrue result ↔ (block node.now ≡ leaf_node other.now) }
{
    match other {
        StoredNode::Block { node: there } => is_same_block(node, there),
        StoredNode::Inode { .. } | StoredNode::Entry { .. } | StoredNode::Truncation { .. } => {
            false
        }
    }
}

fn is_entry(node: &DentNode, other: &StoredNode) -> bool
    ensures { IsTrue result ↔ (entry node.now ≡ leaf_node other.now) }
{
    match other {
        StoredNode::Entry { node: there } => is_same_entry(node, there),
        StoredNode::Inode { .. } | StoredNode::Block { .. } | StoredNode::Truncation { .. } => {
            false
        }
    }
}

fn is_truncation(node: &TrunNode, other: &StoredNode) -> bool
    ensures { IsTrue result ↔ (truncation node.now ≡ leaf_node other.now) }
{
    match other {
        StoredNode::Truncation { node: there } => is_same_truncation(node, there),
        StoredNode::Inode { .. } | StoredNode::Block { .. } | StoredNode::Entry { .. } => false,
    }
}

fn is_same_inode(one: &InoNode, other: &InoNode) -> bool
    ensures { result ≡ is_same_inode one.now other.now }
{
    one.ino == other.ino
        && one.size == other.size
        && one.atime == other.atime
        && one.ctime == other.ctime
        && one.mtime == other.mtime
        && one.nlink == other.nlink
        && one.uid == other.uid
        && one.gid == other.gid
        && one.mode == other.mode
        && one.flags == other.flags
        && one.xattr_cnt == other.xattr_cnt
        && one.xattr_size == other.xattr_size
        && one.xattr_names == other.xattr_names
        && one.bytes == other.bytes
}

fn is_same_block(one: &DataNode, other: &DataNode) -> bool
    ensures { result ≡ is_same_block one.now other.now }
{
    one.ino == other.ino && one.block == other.block && one.bytes == other.bytes
}

fn is_same_entry(one: &DentNode, other: &DentNode) -> bool
    ensures { result ≡ is_same_entry one.now other.now }
{
    one.dir == other.dir
        && one.inum == other.inum
        && one.kind == other.kind
        && one.name == other.name
        && one.attribute == other.attribute
}

fn is_same_truncation(one: &TrunNode, other: &TrunNode) -> bool
    ensures { result ≡ is_same_truncation one.now other.now }
{
    one.ino == other.ino && one.old_size == other.old_size && one.new_size == other.new_size
}
