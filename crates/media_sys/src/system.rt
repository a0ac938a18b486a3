// What a header's type and a body are.

ghost use Rattle.std.specs.Prelude.{◌≡◌, ◌↔◌, IsTrue};
ghost use Rattle.node_fields.specs.Form.{IsBody};
ghost use Rattle.media_sys.specs.SystemNode.{SystemNode, system_form, is_system as is_system_body};

use crate::commit_start::is_commit_start;
use crate::idx_node::is_index;
use crate::master::is_master;
use crate::orph_node::is_orphans;
use crate::pad_node::is_padding;
use crate::ref_node::is_reference;
use crate::super_node::is_super;

/// Whether a header's type and what follows the header are a system node. Takes no memory.
pub fn is_system(kind: u8, body: &[u8]) -> bool
    ensures { IsTrue result ↔ ((node : SystemNode) × IsBody system_form kind body.now node) }
{
    is_any(kind, body)
}

#[tactic(auto, unfolding(crate::specs::SystemNode::is_system))]
fn is_any(kind: u8, body: &[u8]) -> bool
    ensures { result ≡ is_system_body kind body.now }
{
    is_padding(kind, body)
        || is_super(kind, body)
        || is_master(kind, body)
        || is_reference(kind, body)
        || is_index(kind, body)
        || is_commit_start(kind, body)
        || is_orphans(kind, body)
}
