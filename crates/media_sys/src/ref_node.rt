// Reference nodes.

ghost use Rattle.std.specs.Prelude.{◌≡◌, List, ◌≤◌, ℕ, length, [], IfOk, IfSome, IfNone, IsOk, IsTrue};
ghost use Rattle.node_fields.specs.Fields.{AllFit, spelling};
ghost use Rattle.node_fields.specs.Opening.{decoded};
ghost use Rattle.media_sys.specs.Reference.{reference_fields, is_reference as is_reference_node, reference_at, head_at};
ghost use Rattle.media_sys.specs.SystemNode.{IsRef, reference, written};
ghost use Rattle.media_sys.specs.Tested.{tested};

use node_fields::{opened_node, put_u32, put_u64, u32_at};
use std::alloc::Global;
use ubifs_base::{Head, JournalHead, Memory, NodeType, frame};

/// A journal head goes on in a LEB from an offset on: `ubifs_ref_node` of ubifs-media.h.
#[derive(Clone, Copy, Debug, PartialEq, Eq)]
pub struct RefNode {
    pub lnum: u32,
    pub offs: u32,
    pub head: JournalHead,
}

const KIND: u8 = NodeType::Reference as u8;

impl RefNode {
    /// How many bytes the node takes, header and all.
    pub fn len(&self) -> u32
        ensures { result ≡ 64 }
    {
        64
    }

    /// Writes the node's one spelling, in which all that is ignored is 0, over all of `out`. A group
    /// type is 0 for none, 1 in a group, 2 for the last of one.
    pub fn encode(&self, sqnum: u64, group: u8, out: &mut [u8])
        requires group { group ≤ 2 }
        requires room { length out.old ≡ 64 }
        ensures spelling { out.new ≡ written sqnum group (reference self.now) }
        ensures grammar { IsRef out.new sqnum group self.now }
    {
        write_body(out.split_at_mut(24).1, self);
        let len = self.len();
        frame(
            out,
            &Head {
                sqnum,
                len,
                kind: KIND,
                group,
            },
        );
    }

    /// The node that the bytes are, all of them; none where they are no such node. Takes no memory:
    /// the allocator stands here as in the other nodes, and the answer is always `Ok`.
    pub fn decode(_alloc: Global, bytes: &[u8]) -> Result<Option<RefNode>, Memory>
        ensures ok { IsOk result }
        ensures found { IfOk result (λ r. IfSome r (λ node. (sqnum : ℕ) × (group : ℕ) × IsRef bytes.now sqnum group node)) }
        ensures none { IfOk result (λ r. IfNone r ((sqnum group : ℕ) (node : _) → IsRef bytes.now sqnum group node → ⊥)) }
    {
        Ok(decode_exactly(bytes))
    }
}

// From the last field to the first, so that what stands behind a field is already as it stays.
#[tactic(auto, unfolding(node_fields::specs::Fields::spelling))]
fn write_body(body: &mut [u8], node: &RefNode)
    requires { length body.old ≡ 40 }
    ensures spelling { body.new ≡ spelling (reference_fields node.now) [] }
    ensures fits { AllFit (reference_fields node.now) }
{
    put_u32(body, 36, 0);
    put_u64(body, 28, 0);
    put_u64(body, 20, 0);
    put_u64(body, 12, 0);
    put_u32(body, 8, node.head.number() as u32);
    put_u32(body, 4, node.offs);
    put_u32(body, 0, node.lnum);
}

fn decode_exactly(bytes: &[u8]) -> Option<RefNode>
    ensures { result ≡ decoded (tested is_reference_node reference_at) bytes.now }
{
    let (kind, body) = opened_node(bytes)?;
    if !is_reference(kind, body) {
        return None;
    }
    Some(node_at(body))
}

/// Whether a body of this type is that of a reference node.
#[tactic(auto, unfolding(crate::specs::Reference::is_reference))]
pub(crate) fn is_reference(kind: u8, body: &[u8]) -> bool
    ensures exact { result ≡ is_reference_node kind body.now }
    ensures long { IsTrue result → length body.now ≡ 40 }
{
    if kind != KIND || body.len() != 40 {
        return false;
    }
    u32_at(body, 8) <= 2
}

#[tactic(auto, unfolding(crate::specs::Reference::reference_at))]
fn node_at(body: &[u8]) -> RefNode
    requires { length body.now ≡ 40 }
    ensures { result ≡ reference_at body.now }
{
    RefNode {
        lnum: u32_at(body, 0),
        offs: u32_at(body, 4),
        head: head_at(body),
    }
}

#[tactic(auto, unfolding(crate::specs::Reference::head_at))]
fn head_at(body: &[u8]) -> JournalHead
    requires { length body.now ≡ 40 }
    ensures { result ≡ head_at body.now }
{
    match u32_at(body, 8) {
        0 => JournalHead::Collector,
        1 => JournalHead::Base,
        _ => JournalHead::Data,
    }
}
