// The step that all nodes share: from the bytes of a node to its type and body.

ghost use Rattle.std.specs.Prelude.{◌≡◌, MatchOption, Some, None};
ghost use Rattle.node_fields.specs.Opening.{opened};

use ubifs_base::unframe;

/// The type and the body of the node that the bytes are, all of them.
#[tactic(auto, unfolding(crate::specs::Opening::opened))]
pub fn opened_node(bytes: &[u8]) -> Option<(u8, &[u8])>
    ensures { MatchOption result (opened bytes.now ≡ None) (λ node. opened bytes.now ≡ Some (node.0, node.1.now)) }
{
    let Ok(head) = unframe(bytes) else {
        return None;
    };
    if head.len as usize != bytes.len() {
        return None;
    }
    if head.group > 2 {
        return None;
    }
    Some((head.kind, bytes.split_at(24).1))
}
