// Padding nodes.

ghost use Rattle.std.specs.Prelude.{◌≡◌, List, ◌≤◌, ℕ, length, [], IfOk, IfSome, IfNone, IsOk, IsTrue};
ghost use Rattle.node_fields.specs.Fields.{AllFit, spelling};
ghost use Rattle.node_fields.specs.Form.{IsBody};
ghost use Rattle.node_fields.specs.Opening.{decoded};
ghost use Rattle.media_sys.specs.Padding.{padding_fields, is_padding as is_padding_node, padding_at};
ghost use Rattle.media_sys.specs.SystemNode.{IsPad, padding, system_form, written};
ghost use Rattle.media_sys.specs.Tested.{tested};

use node_fields::{opened_node, put_u32, u32_at};
use std::alloc::Global;
use ubifs_base::{Head, Memory, NodeType, frame};

/// So many bytes behind the node are passed over: `ubifs_pad_node` of ubifs-media.h.
#[derive(Clone, Copy, Debug, PartialEq, Eq)]
pub struct PadNode {
    pub pad_len: u32,
}

const KIND: u8 = NodeType::Padding as u8;

impl PadNode {
    /// How many bytes the node takes, header and all, without those that it announces.
    pub fn len(&self) -> u32
        ensures { result ≡ 28 }
    {
        28
    }

    /// Writes the node's one spelling over all of `out`. A group type is 0 for none, 1 in a group, 2
    /// for the last of one.
    pub fn encode(&self, sqnum: u64, group: u8, out: &mut [u8])
        requires group { group ≤ 2 }
        requires room { length out.old ≡ 28 }
        ensures spelling { out.new ≡ written sqnum group (padding self.now) }
        ensures grammar { IsPad out.new sqnum group self.now }
    {
        write_body(out.split_at_mut(24).1, self);
        let len = self.len();
        frame(
            out,
            &Head {
                sqnum,
                len,
                kind: KIND,
                group,
            },
        );
    }

    /// The node that the bytes are, all of them; none where they are no such node. Takes no memory:
    /// the allocator stands here as in the other nodes, and the answer is always `Ok`.
    pub fn decode(_alloc: Global, bytes: &[u8]) -> Result<Option<PadNode>, Memory>
        ensures ok { IsOk result }
        ensures found { IfOk result (λ r. IfSome r (λ node. (sqnum : ℕ) × (group : ℕ) × IsPad bytes.now sqnum group node)) }
        ensures none { IfOk result (λ r. IfNone r ((sqnum group : ℕ) (node : _) → IsPad bytes.now sqnum group node → ⊥)) }
    {
        Ok(decode_exactly(bytes))
    }

    /// The node that a header's type and what follows the header are, whatever else the header says;
    /// none where they are no padding node. Takes no memory.
    pub fn from_body(kind: u8, body: &[u8]) -> Option<PadNode>
        ensures found { IfSome result (λ node. IsBody system_form kind body.now (padding node)) }
        ensures none { IfNone result ((node : _) → IsBody system_form kind body.now (padding node) → ⊥) }
    {
        read_body(kind, body)
    }
}

#[tactic(auto, unfolding(node_fields::specs::Fields::spelling))]
fn write_body(body: &mut [u8], node: &PadNode)
    requires { length body.old ≡ 4 }
    ensures spelling { body.new ≡ spelling (padding_fields node.now) [] }
    ensures fits { AllFit (padding_fields node.now) }
{
    put_u32(body, 0, node.pad_len);
}

fn decode_exactly(bytes: &[u8]) -> Option<PadNode>
    ensures { result ≡ decoded (tested is_padding_node padding_at) bytes.now }
{
    let (kind, body) = opened_node(bytes)?;
    read_body(kind, body)
}

fn read_body(kind: u8, body: &[u8]) -> Option<PadNode>
    ensures { result ≡ tested is_padding_node padding_at kind body.now }
{
    if !is_padding(kind, body) {
        return None;
    }
    Some(node_at(body))
}

/// Whether a body of this type is that of a padding node.
#[tactic(auto, unfolding(crate::specs::Padding::is_padding))]
pub(crate) fn is_padding(kind: u8, body: &[u8]) -> bool
    ensures exact { result ≡ is_padding_node kind body.now }
    ensures long { IsTrue result → length body.now ≡ 4 }
{
    kind == KIND && body.len() == 4
}

#[tactic(auto, unfolding(crate::specs::Padding::padding_at))]
fn node_at(body: &[u8]) -> PadNode
    requires { length body.now ≡ 4 }
    ensures { result ≡ padding_at body.now }
{
    PadNode {
        pad_len: u32_at(body, 0),
    }
}
