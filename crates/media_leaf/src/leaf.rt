// Whether a type and a body are a leaf node, of whichever kind.

ghost use Rattle.std.specs.Prelude.{◌≡◌, ◌↔◌, ◌||◌, IsTrue};
ghost use Rattle.media_leaf.specs.Data.{is_data};
ghost use Rattle.media_leaf.specs.Entry.{is_entry};
ghost use Rattle.media_leaf.specs.Inode.{is_inode};
ghost use Rattle.media_leaf.specs.LeafNode.{LeafNode, leaf_form};
ghost use Rattle.media_leaf.specs.Truncation.{is_truncation};
ghost use Rattle.node_fields.specs.Form.{IsBody};

use crate::data_node::is_data_body;
use crate::dent_node::is_entry_body;
use crate::ino_node::is_inode_body;
use crate::trun_node::is_truncation_body;

/// Whether a header's type and what follows the header are a leaf node. Takes no memory.
pub fn is_leaf(kind: u8, body: &[u8]) -> bool
    ensures { IsTrue result ↔ ((node : LeafNode) × IsBody leaf_form kind body.now node) }
{
    passes_a_test(kind, body)
}

#[tactic(auto, unfolding(crate::specs::Data::is_data, crate::specs::Entry::is_entry, crate::specs::Inode::is_inode, crate::specs::Truncation::is_truncation))]
fn passes_a_test(kind: u8, body: &[u8]) -> bool
    ensures { result ≡ (is_data kind body.now || is_inode kind body.now || is_entry kind body.now || is_truncation kind body.now) }
{
    match kind {
        0 => is_inode_body(kind, body),
        1 => is_data_body(kind, body),
        2 | 3 => is_entry_body(kind, body),
        4 => is_truncation_body(kind, body),
        _ => false,
    }
}
