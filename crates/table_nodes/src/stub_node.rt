// A node of a table that isn't loaded.

ghost use Rattle.std.specs.Prelude.{◌≡◌, ◌≤◌, IfSome, IfNone, Some, false, length, slice_get};
ghost use Rattle.table_nodes.specs.Stubs.{is_stub, IsStubOf};
ghost use Rattle.table_nodes.specs.declared.node.TableNode.{TableNode as ANode};

use crate::node::{NodePlace, TableNode};
use crate::seen::{MediumSeen, tell_again};
use told_value::Told;

/// What is known of a node that isn't loaded: how far it stands above the lowest level, where it stands on the medium, and what the LEBs held
/// when it was met.
#[derive(Drop)]
pub struct StubNode {
    pub level: u16,
    pub place: NodePlace,
    pub told: Told<MediumSeen>,
}

/// What is known of a node, if it isn't loaded.
fn stub_of(node: &TableNode) -> Option<StubNode>
    ensures some { IfSome result (IsStubOf node.now) }
    ensures none { IfNone result (is_stub node.now ≡ false) }
{
    let place = node.place?;
    match &node.beyond {
        None => None,
        Some(told) => Some(StubNode {
            level: node.level,
            place,
            told: tell_again(told),
        }),
    }
}

/// The node of this number; none where there is no such node.
pub(crate) fn stored_at(nodes: &[TableNode], number: u64) -> Option<&TableNode>
    ensures some { IfSome result (λ node. slice_get nodes.now number ≡ Some node.now) }
    ensures none { IfNone result (length nodes.now ≤ number) }
{
    nodes.get(number as usize)
}

/// What is known of the node of this number, if it isn't loaded; none too where there is no such node.
pub fn stub_at(nodes: &[TableNode], number: u64) -> Option<StubNode>
    ensures some { IfSome result (λ stub. (node : ANode) × (slice_get nodes.now number ≡ Some node) × IsStubOf node stub) }
    ensures none { IfNone result ((node : ANode) → slice_get nodes.now number ≡ Some node → is_stub node ≡ false) }
{
    match stored_at(nodes, number) {
        None => None,
        Some(node) => stub_of(node),
    }
}
