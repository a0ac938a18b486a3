// What the bytes of a leaf node say.

ghost use Rattle.std.specs.Prelude.{◌≡◌, ℕ, IfOk, false, is_some};
ghost use Rattle.media_leaf.specs.LeafNode.{LeafNode, IsLeafNode, inode, block, entry, truncation};
ghost use Rattle.media_leaf.specs.declared.data_node.DataNode.{DataNode};
ghost use Rattle.media_leaf.specs.declared.dent_node.DentNode.{DentNode};
ghost use Rattle.media_leaf.specs.declared.ino_node.InoNode.{InoNode};
ghost use Rattle.media_leaf.specs.declared.trun_node.TrunNode.{TrunNode};
ghost use Rattle.leb_scan.specs.Text.{leaf_type};
ghost use Rattle.leaf_map.specs.Kept.{bits_of, kind_of_bits};
ghost use Rattle.journal_scan.specs.Content.{node_content_of, entry_content};

use crate::node_content::NodeContent;
use media_leaf::{DentNode, TrunNode, one_node};
use node_fields::{u16_at, u32_at, u64_at};
use std::alloc::Global;
use ubifs_base::{Key, Memory, Name, NodeType, r5};

/// What is told of the leaf node of this type that the bytes are, all of them; if they are none, what is told says nothing. Takes
/// memory for an entry's name. The error is want of memory.
pub fn read_content(alloc: Global, kind: NodeType, bytes: &[u8]) -> Result<NodeContent, Memory>
    ensures { IfOk result (λ content. (sqnum group : ℕ) (node : LeafNode) → IsLeafNode bytes.now sqnum group node → kind ≡ leaf_type node → content ≡ node_content_of node) }
{
    match kind {
        NodeType::Inode => Ok(read_inode(bytes)),
        NodeType::Data => Ok(read_block(bytes)),
        NodeType::Entry => read_entry(alloc, bytes),
        NodeType::Attribute => read_attribute(alloc, bytes),
        NodeType::Truncation => read_truncation(alloc, bytes),
        _ => Ok(NO_NODE),
    }
}

// Where a node's key stands, and where its two words end.
const KEY_PLACE: usize = 24;

const KEY_END: usize = 32;

// What is told where there is no node.
const NO_NODE: NodeContent = NodeContent::Unknown {
    key: Key::Ino { ino: 0 },
    linked: true,
};

// Where an inode's numbers stand, and where what follows them begins.
const LINKS_PLACE: usize = 24 + 68;

const MODE_PLACE: usize = 24 + 80;

const INODE_END: usize = 160;

// What an inode's node says. Its checksum was compared when it was found.
fn read_inode(bytes: &[u8]) -> NodeContent
    ensures { (sqnum group : ℕ) (node : InoNode) → IsLeafNode bytes.now sqnum group (inode node) → result ≡ node_content_of (inode node) }
{
    if bytes.len() < INODE_END {
        return NO_NODE;
    }
    content_of_inode(
        u32_at(bytes, KEY_PLACE),
        u32_at(bytes, LINKS_PLACE),
        u32_at(bytes, MODE_PLACE),
    )
}

// What is told of an inode of this number, these links and this mode.
fn content_of_inode(ino: u32, nlink: u32, mode: u32) -> NodeContent
    ensures { (node : InoNode) → node.ino ≡ ino → node.nlink ≡ nlink → node.mode ≡ mode → result ≡ node_content_of (inode node) }
{
    let linked = nlink != 0;
    if has_kind(mode) {
        NodeContent::Inode { ino, linked }
    } else {
        NodeContent::Unknown {
            key: Key::Ino { ino },
            linked,
        }
    }
}

// Whether a mode names a kind.
fn has_kind(mode: u32) -> bool
    ensures { result ≡ is_some (kind_of_bits (bits_of mode)) }
{
    is_kind(mode / 0o10000 % 0o20 * 0o10000)
}

fn is_kind(bits: u32) -> bool
    ensures { result ≡ is_some (kind_of_bits bits) }
{
    match bits {
        0o100000 => true,
        0o040000 => true,
        0o120000 => true,
        0o060000 => true,
        0o020000 => true,
        0o010000 => true,
        0o140000 => true,
        _ => false,
    }
}

// What a block's node says. Its checksum was compared when it was found, and its data stays where it is.
fn read_block(bytes: &[u8]) -> NodeContent
    ensures { (sqnum group : ℕ) (node : DataNode) → IsLeafNode bytes.now sqnum group (block node) → result ≡ node_content_of (block node) }
{
    if bytes.len() < KEY_END {
        return NO_NODE;
    }
    NodeContent::Block {
        ino: u32_at(bytes, KEY_PLACE),
        block: u32_at(bytes, KEY_PLACE + 4) % (1 << 29),
    }
}

// Where the inode of an entry, the length of its name and the name stand.
const INUM_PLACE: usize = 24 + 16;

const SIZE_PLACE: usize = 24 + 26;

const NAME_PLACE: usize = 24 + 32;

// What the node of a directory's entry says. Its checksum was compared when it was found.
fn read_entry(alloc: Global, bytes: &[u8]) -> Result<NodeContent, Memory>
    ensures { IfOk result (λ content. (sqnum group : ℕ) (node : DentNode) → node.attribute ≡ false → IsLeafNode bytes.now sqnum group (entry node) → content ≡ node_content_of (entry node)) }
{
    if bytes.len() < NAME_PLACE {
        return Ok(NO_NODE);
    }
    let size = u16_at(bytes, SIZE_PLACE) as usize;
    let behind = bytes.split_at(NAME_PLACE).1;
    if size > behind.len() {
        return Ok(NO_NODE);
    }
    let name = Name::from_slice(alloc, behind.split_at(size).0)?;
    Ok(NodeContent::Entry {
        dir: u32_at(bytes, KEY_PLACE),
        name,
        linked: u64_at(bytes, INUM_PLACE) != 0,
    })
}

// What the node of an attribute says.
fn read_attribute(alloc: Global, bytes: &[u8]) -> Result<NodeContent, Memory>
    ensures { IfOk result (λ content. (sqnum group : ℕ) (node : DentNode) → IsLeafNode bytes.now sqnum group (entry node) → content ≡ node_content_of (entry node)) }
{
    one_node();
    let Some(node) = DentNode::decode(alloc, bytes)? else {
        return Ok(NO_NODE);
    };
    Ok(content_of_entry(node))
}

fn content_of_entry(node: DentNode) -> NodeContent
    ensures { result ≡ entry_content node }
{
    if node.attribute {
        return NodeContent::Unknown {
            key: Key::Xent {
                ino: node.dir,
                hash: r5(node.name.as_slice()),
            },
            linked: true,
        };
    }
    NodeContent::Entry {
        dir: node.dir,
        name: node.name,
        linked: node.inum != 0,
    }
}

// What a truncation's node says.
fn read_truncation(alloc: Global, bytes: &[u8]) -> Result<NodeContent, Memory>
    ensures { IfOk result (λ content. (sqnum group : ℕ) (node : TrunNode) → IsLeafNode bytes.now sqnum group (truncation node) → content ≡ node_content_of (truncation node)) }
{
    one_node();
    let Some(node) = TrunNode::decode(alloc, bytes)? else {
        return Ok(NO_NODE);
    };
    Ok(NodeContent::Truncation {
        ino: node.ino,
        new_size: node.new_size,
    })
}
