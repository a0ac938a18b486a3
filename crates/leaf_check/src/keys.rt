// The key of a leaf node.

ghost use Rattle.std.specs.Prelude.{◌≡◌, ℕ};
ghost use Rattle.media_leaf.specs.LeafNode.{IsLeafNode, LeafNode};
ghost use Rattle.leb_scan.specs.Text.{leaf_type};
ghost use Rattle.group_nodes.specs.Nodes.{leaf_key};
ghost use Rattle.leaf_check.specs.NodeKeys.{key_by};

use node_fields::u32_at;
use ubifs_base::{Key, NodeType};

// Where a node's key stands, and where its two words end.
const KEY_PLACE: usize = 24;

const KEY_END: usize = 32;

/// The key of the leaf node of this type that the bytes are, all of them. A truncation has none.
pub(crate) fn key_in(kind: NodeType, bytes: &[u8]) -> Option<Key>
    ensures { (sqnum group : ℕ) (node : LeafNode) → IsLeafNode bytes.now sqnum group node → kind ≡ leaf_type node → result ≡ leaf_key node }
{
    if bytes.len() < KEY_END {
        return None;
    }
    key_of_words(
        kind,
        u32_at(bytes, KEY_PLACE),
        u32_at(bytes, KEY_PLACE + 4) % (1 << 29),
    )
}

// The key of a node of this type, of its first word and the value in its second.
fn key_of_words(kind: NodeType, first: u32, value: u32) -> Option<Key>
    ensures { result ≡ key_by kind first value }
{
    match kind {
        NodeType::Inode => Some(Key::Ino { ino: first }),
        NodeType::Data => Some(Key::Block {
            ino: first,
            block: value,
        }),
        NodeType::Entry => Some(Key::Dent {
            dir: first,
            hash: value,
        }),
        NodeType::Attribute => Some(Key::Xent {
            ino: first,
            hash: value,
        }),
        _ => None,
    }
}
