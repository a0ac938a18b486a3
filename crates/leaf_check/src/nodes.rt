// Leaf nodes in bytes.

ghost use Rattle.std.specs.Prelude.{◌≡◌, ◌^◌, ◌<◌, ℕ, IfNone, IfSome, Some, length};
ghost use Rattle.media_leaf.specs.LeafNode.{IsLeafNode, LeafNode};
ghost use Rattle.leb_scan.specs.Text.{StandsAt, leaf};
ghost use Rattle.leb_scan.specs.declared.found.Found.{Found as AFound};
ghost use Rattle.leaf_check.specs.LeafReads.{IsWholeLeaf};

use leb_scan::Found;
use media_leaf::{is_leaf, one_node};
use node_fields::u32_at;
use ubifs_base::{NodeType, unframe};

/// The leaf node that the bytes are, all of them.
pub(crate) fn whole_leaf(bytes: &[u8]) -> Option<Found>
    requires { length bytes.now < 2 ^ 32 }
    ensures some { IfSome result (λ found. (node : LeafNode) × IsWholeLeaf bytes.now found node) }
    ensures none { IfNone result ((sqnum group : ℕ) (node : LeafNode) → IsLeafNode bytes.now sqnum group node → ⊥) }
{
    let Ok(head) = unframe(bytes) else {
        return None;
    };
    if head.group > 2 {
        return None;
    }
    if head.len as usize != bytes.len() {
        return None;
    }
    if !is_leaf(head.kind, bytes.split_at(24).1) {
        return None;
    }
    let Some(kind) = NodeType::of(head.kind) else {
        return None;
    };
    Some(Found {
        offs: 0,
        len: head.len,
        kind,
        group: head.group,
        sqnum: head.sqnum,
    })
}

/// The leaf node with which bytes begin.
pub(crate) fn first_leaf(bytes: &[u8]) -> Option<Found>
    requires { length bytes.now < 2 ^ 32 }
    ensures some { IfSome result (λ found. (node : LeafNode) × StandsAt bytes.now 0 found (leaf node)) }
    ensures only { (found : AFound) (node : LeafNode) → StandsAt bytes.now 0 found (leaf node) → result ≡ Some found }
{
    one_node();
    if bytes.len() < 24 {
        return None;
    }
    let len = u32_at(bytes, 16);
    if len as usize > bytes.len() {
        return None;
    }
    whole_leaf(bytes.split_at(len as usize).0)
}
