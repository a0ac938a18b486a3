// Data nodes.

ghost use Rattle.std.specs.Prelude.{◌≡◌, ◌++◌, List, ◌+◌, ◌≤◌, ℕ, length, true, IfOk, IfSome, IfNone};
ghost use Rattle.media_leaf.specs.Data.{IsDataNode, data_fields, data_at, is_data, read_data};
ghost use Rattle.node_fields.specs.Fields.{AllFit, spelling};
ghost use Rattle.media_leaf.specs.LeafNode.{IsData, block, written};
ghost use Rattle.node_fields.specs.Opening.{decoded};

use node_fields::{opened_node, put_key, put_last, put_u32, u16_at, u32_at};
use std::alloc::Global;
use ubifs_base::{Bytes, Head, Key, Memory, NodeType, frame};

/// The bytes of a block of a file: `ubifs_data_node` of ubifs-media.h, not compressed.
#[derive(Debug, Drop)]
pub struct DataNode {
    pub ino: u32,
    pub block: u32,
    pub bytes: Bytes,
}

const KIND: u8 = NodeType::Data as u8;

impl DataNode {
    /// How many bytes the node takes, header and all.
    pub fn len(&self) -> u32
        requires { IsDataNode self.now }
        ensures { result ≡ 48 + length self.now.bytes }
    {
        48 + self.bytes.len() as u32
    }

    /// Writes the node's one spelling, in which all that is ignored is 0, over all of `out`. A group
    /// type is 0 for none, 1 in a group, 2 for the last of one.
    pub fn encode(&self, sqnum: u64, group: u8, out: &mut [u8])
        requires node { IsDataNode self.now }
        requires group { group ≤ 2 }
        requires room { length out.old ≡ 48 + length self.now.bytes }
        ensures spelling { out.new ≡ written sqnum group (block self.now) }
        ensures grammar { IsData out.new sqnum group self.now }
    {
        self.encode_with(self.bytes.as_slice(), sqnum, group, out);
    }

    /// As `encode`, of the node with this data in place of its own, so that what stands elsewhere needn't be
    /// copied into a node.
    pub fn encode_with(&self, bytes: &[u8], sqnum: u64, group: u8, out: &mut [u8])
        requires node { IsDataNode (record self.now { bytes = bytes.now }) }
        requires group { group ≤ 2 }
        requires room { length out.old ≡ 48 + length bytes.now }
        ensures spelling { out.new ≡ written sqnum group (block (record self.now { bytes = bytes.now })) }
        ensures grammar { IsData out.new sqnum group (record self.now { bytes = bytes.now }) }
    {
        write_body(out.split_at_mut(24).1, self, bytes);
        let len = 48 + bytes.len() as u32;
        frame(
            out,
            &Head {
                sqnum,
                len,
                kind: KIND,
                group,
            },
        );
    }

    /// The node that the bytes are, all of them; none where they are no such node. The error is
    /// want of memory.
    pub fn decode(alloc: Global, bytes: &[u8]) -> Result<Option<DataNode>, Memory>
        ensures found { IfOk result (λ r. IfSome r (λ node. (sqnum : ℕ) × (group : ℕ) × IsData bytes.now sqnum group node)) }
        ensures none { IfOk result (λ r. IfNone r ((sqnum group : ℕ) (node : _) → IsData bytes.now sqnum group node → ⊥)) }
    {
        decode_exactly(alloc, bytes)
    }
}

// From the last field to the first, so that what stands behind a field is already as it stays.
#[tactic(auto, unfolding(node_fields::specs::Fields::spelling))]
fn write_body(body: &mut [u8], node: &DataNode, bytes: &[u8])
    requires node { IsDataNode (record node.now { bytes = bytes.now }) }
    requires room { length body.old ≡ 24 + length bytes.now }
    ensures spelling { body.new ≡ spelling (data_fields (record node.now { bytes = bytes.now })) bytes.now }
    ensures fits { AllFit (data_fields (record node.now { bytes = bytes.now })) }
{
    put_last(body, 24, bytes);
    put_u32(body, 20, 0);
    put_u32(body, 16, bytes.len() as u32);
    put_key(
        body,
        &Key::Block {
            ino: node.ino,
            block: node.block,
        },
    );
}

fn decode_exactly(alloc: Global, bytes: &[u8]) -> Result<Option<DataNode>, Memory>
    ensures { IfOk result (λ r. r ≡ decoded read_data bytes.now) }
{
    let Some((kind, body)) = opened_node(bytes) else {
        return Ok(None);
    };
    read_body(alloc, kind, body)
}

#[tactic(auto, unfolding(crate::specs::Data::read_data))]
fn read_body(alloc: Global, kind: u8, body: &[u8]) -> Result<Option<DataNode>, Memory>
    ensures { IfOk result (λ r. r ≡ read_data kind body.now) }
{
    if !is_data_body(kind, body) {
        return Ok(None);
    }
    Ok(Some(node_at(alloc, body)?))
}

/// Whether a type and a body are a data node.
#[tactic(auto, unfolding(crate::specs::Data::is_data))]
pub(crate) fn is_data_body(kind: u8, body: &[u8]) -> bool
    ensures test { result ≡ is_data kind body.now }
    ensures room { result ≡ true → 24 ≤ length body.now }
{
    if kind != KIND {
        return false;
    }
    if body.len() < 24 {
        return false;
    }
    if u32_at(body, 4) / (1 << 29) != 1 {
        return false;
    }
    if u16_at(body, 20) != 0 {
        return false;
    }
    let size = u32_at(body, 16);
    if size < 1 {
        return false;
    }
    if size > 4096 {
        return false;
    }
    body.len() - 24 == size as usize
}

#[tactic(auto, unfolding(crate::specs::Data::data_at))]
fn node_at(alloc: Global, body: &[u8]) -> Result<DataNode, Memory>
    requires { 24 ≤ length body.now }
    ensures { IfOk result (λ node. node ≡ data_at body.now) }
{
    Ok(DataNode {
        ino: u32_at(body, 0),
        block: u32_at(body, 4) % (1 << 29),
        bytes: Bytes::from_slice(alloc, body.split_at(24).1)?,
    })
}
