// Truncation nodes.

ghost use Rattle.std.specs.Prelude.{◌≡◌, ◌++◌, List, ◌+◌, ◌≤◌, ℕ, length, true, IfOk, IfSome, IfNone, IsOk, []};
ghost use Rattle.node_fields.specs.Fields.{AllFit, spelling};
ghost use Rattle.media_leaf.specs.LeafNode.{IsTrun, truncation, written};
ghost use Rattle.node_fields.specs.Opening.{decoded};
ghost use Rattle.media_leaf.specs.Truncation.{is_truncation, read_truncation, truncation_at, truncation_fields};

use node_fields::{opened_node, put_u32, put_u64, u32_at, u64_at};
use std::alloc::Global;
use ubifs_base::{Head, Memory, NodeType, frame};

/// A file was cut from one size to another: `ubifs_trun_node` of ubifs-media.h.
#[derive(Clone, Copy, Debug, PartialEq, Eq)]
pub struct TrunNode {
    pub ino: u32,
    pub old_size: u64,
    pub new_size: u64,
}

const KIND: u8 = NodeType::Truncation as u8;

impl TrunNode {
    /// How many bytes the node takes, header and all.
    pub fn len(&self) -> u32
        ensures { result ≡ 56 }
    {
        56
    }

    /// Writes the node's one spelling, in which all that is ignored is 0, over all of `out`. A group
    /// type is 0 for none, 1 in a group, 2 for the last of one.
    pub fn encode(&self, sqnum: u64, group: u8, out: &mut [u8])
        requires group { group ≤ 2 }
        requires room { length out.old ≡ 56 }
        ensures spelling { out.new ≡ written sqnum group (truncation self.now) }
        ensures grammar { IsTrun out.new sqnum group self.now }
    {
        write_body(out.split_at_mut(24).1, self);
        let len = self.len();
        frame(
            out,
            &Head {
                sqnum,
                len,
                kind: KIND,
                group,
            },
        );
    }

    /// The node that the bytes are, all of them; none where they are no such node. Takes no memory:
    /// the allocator stands here as in the other nodes, and the answer is always `Ok`.
    pub fn decode(_alloc: Global, bytes: &[u8]) -> Result<Option<TrunNode>, Memory>
        ensures ok { IsOk result }
        ensures found { IfOk result (λ r. IfSome r (λ node. (sqnum : ℕ) × (group : ℕ) × IsTrun bytes.now sqnum group node)) }
        ensures none { IfOk result (λ r. IfNone r ((sqnum group : ℕ) (node : _) → IsTrun bytes.now sqnum group node → ⊥)) }
    {
        Ok(decode_exactly(bytes))
    }
}

// From the last field to the first, so that what stands behind a field is already as it stays.
#[tactic(auto, unfolding(node_fields::specs::Fields::spelling))]
fn write_body(body: &mut [u8], node: &TrunNode)
    requires { length body.old ≡ 32 }
    ensures spelling { body.new ≡ spelling (truncation_fields node.now) [] }
    ensures fits { AllFit (truncation_fields node.now) }
{
    put_u64(body, 24, node.new_size);
    put_u64(body, 16, node.old_size);
    put_u32(body, 12, 0);
    put_u64(body, 4, 0);
    put_u32(body, 0, node.ino);
}

fn decode_exactly(bytes: &[u8]) -> Option<TrunNode>
    ensures { result ≡ decoded read_truncation bytes.now }
{
    let (kind, body) = opened_node(bytes)?;
    read_body(kind, body)
}

#[tactic(auto, unfolding(crate::specs::Truncation::read_truncation))]
fn read_body(kind: u8, body: &[u8]) -> Option<TrunNode>
    ensures { result ≡ read_truncation kind body.now }
{
    if !is_truncation_body(kind, body) {
        return None;
    }
    Some(node_at(body))
}

/// Whether a type and a body are a truncation node.
#[tactic(auto, unfolding(crate::specs::Truncation::is_truncation))]
pub(crate) fn is_truncation_body(kind: u8, body: &[u8]) -> bool
    ensures test { result ≡ is_truncation kind body.now }
    ensures room { result ≡ true → length body.now ≡ 32 }
{
    if kind != KIND {
        return false;
    }
    body.len() == 32
}

#[tactic(auto, unfolding(crate::specs::Truncation::truncation_at))]
fn node_at(body: &[u8]) -> TrunNode
    requires { length body.now ≡ 32 }
    ensures { result ≡ truncation_at body.now }
{
    TrunNode {
        ino: u32_at(body, 0),
        old_size: u64_at(body, 16),
        new_size: u64_at(body, 24),
    }
}
