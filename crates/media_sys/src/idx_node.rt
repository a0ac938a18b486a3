// Index nodes.

ghost use Rattle.std.specs.Prelude.{◌≡◌, List, ◌≤◌, ◌+◌, ◌*◌, ◌<◌, ◌^◌, ℕ, length, drop, [], ◌∷◌, Some, None, IfOk, IfSome, IfNone, IsTrue, option_map};
ghost use Rattle.std.specs.List.{flat_map, AllByRecursion};
ghost use Rattle.ubifs_base.specs.Key.{IsKey, key_of, key_words};
ghost use Rattle.byteorder.specs.Endian.{little_number};
ghost use Rattle.node_fields.specs.Fields.{AllFit, spelling};
ghost use Rattle.node_fields.specs.Opening.{decoded};
ghost use Rattle.media_sys.specs.Index.{Index, IsIdxNode, index_of, index_fields, branch_fields, is_index as is_index_node, index_at, branch_at, branches_at, key_at, keys_follow, may_follow, is_entry};
ghost use Rattle.media_sys.specs.SystemNode.{IsSystemNode, IsIdx, index, written};
ghost use Rattle.media_sys.specs.Tested.{tested};

use crate::branch::Branch;
use node_fields::{opened_node, put_bytes, put_u16, put_u32, u16_at, u32_at};
use std::alloc::Global;
use ubifs_base::{Head, Key, Memory, NodeType, frame, key_bytes, read_key};

/// A node of the index: `ubifs_idx_node` of ubifs-media.h. Its level is 0 where its branches point to
/// leaves. It has 1 to 256 branches, in the order of their keys, and only the keys of entries may be
/// equal.
#[derive(Debug, Drop)]
pub struct IdxNode {
    pub level: u16,
    pub branches: Vec<Branch>,
}

const BRANCH_LEN: usize = 20;

// The bits of a key's value, below its type.
const VALUE_BITS: u32 = 29;

const KIND: u8 = NodeType::Index as u8;

impl IdxNode {
    /// How many bytes the node takes, header and all.
    pub fn len(&self) -> u32
        requires { length self.now.branches.items ≤ 256 }
        ensures { result ≡ 28 + 20 * length self.now.branches.items }
    {
        28 + 20 * self.branches.len() as u32
    }

    /// Writes the node's one spelling over all of `out`. A group type is 0 for none, 1 in a group, 2
    /// for the last of one.
    pub fn encode(&self, sqnum: u64, group: u8, out: &mut [u8])
        requires node { IsIdxNode (index_of self.now) }
        requires group { group ≤ 2 }
        requires room { length out.old ≡ 28 + 20 * length self.now.branches.items }
        ensures spelling { out.new ≡ written sqnum group (index (index_of self.now)) }
        ensures grammar { IsIdx out.new sqnum group self.now }
    {
        write_body(out.split_at_mut(24).1, self);
        let len = self.len();
        frame(
            out,
            &Head {
                sqnum,
                len,
                kind: KIND,
                group,
            },
        );
    }

    /// The node that the bytes are, all of them; none where they are no such node. The error is
    /// want of memory.
    pub fn decode(alloc: Global, bytes: &[u8]) -> Result<Option<IdxNode>, Memory>
        ensures found { IfOk result (λ r. IfSome r (λ node. (sqnum : ℕ) × (group : ℕ) × IsIdx bytes.now sqnum group node)) }
        ensures none { IfOk result (λ r. IfNone r ((sqnum group : ℕ) (node : Index) → IsSystemNode bytes.now sqnum group (index node) → ⊥)) }
    {
        decode_exactly(alloc, bytes)
    }
}

// From the last field to the first, so that what stands behind a field is already as it stays.
#[tactic(auto, unfolding(node_fields::specs::Fields::spelling))]
fn write_body(body: &mut [u8], node: &IdxNode)
    requires node { IsIdxNode (index_of node.now) }
    requires room { length body.old ≡ 4 + 20 * length node.now.branches.items }
    ensures spelling { body.new ≡ spelling (index_fields (index_of node.now)) [] }
    ensures fits { AllFit (index_fields (index_of node.now)) }
{
    put_branches(body, &node.branches);
    put_u16(body, 2, node.level);
    put_u16(body, 0, node.branches.len() as u16);
}

fn put_branches(body: &mut [u8], branches: &[Branch])
    requires keys { AllByRecursion (λ branch. IsKey branch.key) branches.now }
    requires room { length body.old ≡ 4 + 20 * length branches.now }
    ensures spelling { drop 4 body.new ≡ spelling (flat_map branch_fields branches.now) [] }
    ensures fits { AllFit (flat_map branch_fields branches.now) }
{
    let mut left = branches.len();
    while left > 0 {
        left -= 1;
        put_branch(body, 4 + BRANCH_LEN * left, &branches[left]);
    }
}

#[tactic(auto, unfolding(node_fields::specs::Fields::spelling))]
fn put_branch(body: &mut [u8], at: usize, branch: &Branch)
    requires key { IsKey branch.now.key }
    requires room { at + 20 ≤ length body.old }
    ensures spelling { drop at body.new ≡ spelling (branch_fields branch.now) (drop (at + 20) body.old) }
    ensures fits { AllFit (branch_fields branch.now) }
{
    put_bytes(body, at + 12, &key_bytes(&branch.key));
    put_u32(body, at + 8, branch.len);
    put_u32(body, at + 4, branch.offs);
    put_u32(body, at, branch.lnum);
}

fn decode_exactly(alloc: Global, bytes: &[u8]) -> Result<Option<IdxNode>, Memory>
    ensures { IfOk result (λ r. option_map index_of r ≡ decoded (tested is_index_node index_at) bytes.now) }
{
    let Some((kind, body)) = opened_node(bytes) else {
        return Ok(None);
    };
    if !is_index(kind, body) {
        return Ok(None);
    }
    Ok(Some(node_at(alloc, body)?))
}

/// Whether a body of this type is that of an index node.
#[tactic(auto, unfolding(crate::specs::Index::is_index))]
pub(crate) fn is_index(kind: u8, body: &[u8]) -> bool
    ensures exact { result ≡ is_index_node kind body.now }
    ensures long { IsTrue result → length body.now ≡ 4 + 20 * little_number 2 body.now }
{
    if kind != KIND || body.len() < 4 {
        return false;
    }
    let count = u16_at(body, 0) as usize;
    if count < 1 || count > 256 || body.len() != 4 + BRANCH_LEN * count {
        return false;
    }
    keys_follow(body, count)
}

fn keys_follow(body: &[u8], count: usize) -> bool
    requires near { count < 2 ^ 16 }
    requires room { 4 + 20 * count ≤ length body.now }
    ensures { result ≡ keys_follow count None 16 body.now }
{
    let mut before = None;
    for i in 0..count {
        let Some(key) = key_at(body, 16 + BRANCH_LEN * i) else {
            return false;
        };
        if !may_follow(before, key) {
            return false;
        }
        before = Some(key);
    }
    true
}

fn key_at(body: &[u8], at: usize) -> Option<Key>
    requires { at + 8 ≤ length body.now }
    ensures exact { result ≡ key_of (drop at body.now) }
    ensures fits { IfSome result IsKey }
{
    let mut key = [0; 8];
    key.copy_from_slice(body.split_at(at).1.split_at(8).0);
    read_key(&key)
}

fn may_follow(before: Option<Key>, key: Key) -> bool
    requires before { IfSome before IsKey }
    requires key { IsKey key }
    ensures { result ≡ may_follow before key }
{
    let Some(before) = before else {
        return true;
    };
    let (before_first, before_second) = words(before);
    let (first, second) = words(key);
    if before_first != first {
        return before_first < first;
    }
    if before_second != second {
        return before_second < second;
    }
    is_entry(key)
}

fn words(key: Key) -> (u32, u32)
    requires { IsKey key }
    ensures { result ≡ key_words key }
{
    match key {
        Key::Ino { ino } => (ino, 0),
        Key::Block { ino, block } => (ino, (1 << VALUE_BITS) + block),
        Key::Dent { dir, hash } => (dir, (2 << VALUE_BITS) + hash),
        Key::Xent { ino, hash } => (ino, (3 << VALUE_BITS) + hash),
    }
}

fn is_entry(key: Key) -> bool
    ensures { result ≡ is_entry key }
{
    match key {
        Key::Ino { .. } | Key::Block { .. } => false,
        Key::Dent { .. } | Key::Xent { .. } => true,
    }
}

#[tactic(auto, unfolding(crate::specs::Index::index_at))]
fn node_at(alloc: Global, body: &[u8]) -> Result<IdxNode, Memory>
    requires { length body.now ≡ 4 + 20 * little_number 2 body.now }
    ensures { IfOk result (λ node. index_of node ≡ index_at body.now) }
{
    let count = u16_at(body, 0) as usize;
    let level = u16_at(body, 2);
    let branches = branches_at(alloc, body, count)?;
    Ok(IdxNode { level, branches })
}

fn branches_at(alloc: Global, body: &[u8], count: usize) -> Result<Vec<Branch>, Memory>
    requires near { count < 2 ^ 16 }
    requires room { 4 + 20 * count ≤ length body.now }
    ensures { IfOk result (λ branches. branches.items ≡ branches_at count 4 body.now) }
{
    let mut branches = Vec::with_capacity(alloc, count)?;
    for i in 0..count {
        branches.push(branch_at(body, 4 + BRANCH_LEN * i))?;
    }
    Ok(branches)
}

// A key that was not tested is that of inode 0.
#[tactic(auto, unfolding(crate::specs::Index::branch_at))]
fn branch_at(body: &[u8], at: usize) -> Branch
    requires { at + 20 ≤ length body.now }
    ensures { result ≡ branch_at at body.now }
{
    Branch {
        lnum: u32_at(body, at),
        offs: u32_at(body, at + 4),
        len: u32_at(body, at + 8),
        key: key_at(body, at + 12).unwrap_or(Key::Ino { ino: 0 }),
    }
}
