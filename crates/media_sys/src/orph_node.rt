// Orphan nodes.

ghost use Rattle.std.specs.Prelude.{◌≡◌, List, ◌≤◌, ◌<◌, ◌^◌, ◌+◌, ◌-◌, ◌*◌, ◌/◌, ◌%◌, ℕ, length, drop, [], IfOk, IfSome, IfNone, IsTrue, option_map, true, if◌then◌else◌};
ghost use Rattle.std.specs.List.{flat_map, AllByRecursion};
ghost use Rattle.node_fields.specs.Fields.{AllFit, spelling};
ghost use Rattle.node_fields.specs.Opening.{decoded};
ghost use Rattle.media_sys.specs.Orphans.{Orphans, IsOrphNode, orphans_of, orphan_fields, ino_fields, is_orphans as is_orphans_node, orphans_at, inos_at, inos_fit};
ghost use Rattle.media_sys.specs.SystemNode.{IsSystemNode, IsOrph, orphans, written};
ghost use Rattle.media_sys.specs.Tested.{tested};

use node_fields::{opened_node, put_u64, u64_at};
use std::alloc::Global;
use ubifs_base::{Head, Memory, NodeType, frame};

/// Inodes that are open and have no name: `ubifs_orph_node` of ubifs-media.h. A commit's number is
/// below 2^63, and `last` says whether this is the last orphan node of that commit.
#[derive(Debug, Drop)]
pub struct OrphNode {
    pub cmt_no: u64,
    pub last: bool,
    pub inos: Vec<u32>,
}

const INO_LEN: usize = 8;

const LAST: u64 = 1 << 63;

const KIND: u8 = NodeType::Orphans as u8;

impl OrphNode {
    /// How many bytes the node takes, header and all.
    pub fn len(&self) -> u32
        requires { 32 + 8 * length self.now.inos.items < 2 ^ 32 }
        ensures { result ≡ 32 + 8 * length self.now.inos.items }
    {
        32 + 8 * self.inos.len() as u32
    }

    /// Writes the node's one spelling over all of `out`. A group type is 0 for none, 1 in a group, 2
    /// for the last of one.
    pub fn encode(&self, sqnum: u64, group: u8, out: &mut [u8])
        requires commit { self.now.cmt_no < 2 ^ 63 }
        requires size { 32 + 8 * length self.now.inos.items < 2 ^ 32 }
        requires group { group ≤ 2 }
        requires room { length out.old ≡ 32 + 8 * length self.now.inos.items }
        ensures spelling { out.new ≡ written sqnum group (orphans (orphans_of self.now)) }
        ensures grammar { IsOrph out.new sqnum group self.now }
    {
        write_body(out.split_at_mut(24).1, self);
        let len = self.len();
        frame(
            out,
            &Head {
                sqnum,
                len,
                kind: KIND,
                group,
            },
        );
    }

    /// The node that the bytes are, all of them; none where they are no such node. The error is
    /// want of memory.
    pub fn decode(alloc: Global, bytes: &[u8]) -> Result<Option<OrphNode>, Memory>
        ensures found { IfOk result (λ r. IfSome r (λ node. (sqnum : ℕ) × (group : ℕ) × IsOrph bytes.now sqnum group node)) }
        ensures none { IfOk result (λ r. IfNone r ((sqnum group : ℕ) (node : Orphans) → IsSystemNode bytes.now sqnum group (orphans node) → ⊥)) }
    {
        decode_exactly(alloc, bytes)
    }
}

// From the last field to the first, so that what stands behind a field is already as it stays.
#[tactic(auto, unfolding(node_fields::specs::Fields::spelling))]
fn write_body(body: &mut [u8], node: &OrphNode)
    requires commit { node.now.cmt_no < 2 ^ 63 }
    requires size { 32 + 8 * length node.now.inos.items < 2 ^ 32 }
    requires room { length body.old ≡ 8 + 8 * length node.now.inos.items }
    ensures spelling { body.new ≡ spelling (orphan_fields (orphans_of node.now)) [] }
    ensures fits { AllFit (orphan_fields (orphans_of node.now)) }
    ensures node { IsOrphNode (orphans_of node.now) }
{
    put_inos(body, &node.inos);
    put_u64(body, 0, first_word(node));
}

fn first_word(node: &OrphNode) -> u64
    requires { node.now.cmt_no < 2 ^ 63 }
    ensures { result ≡ node.now.cmt_no + (if node.now.last then 2 ^ 63 else 0) }
{
    if node.last {
        node.cmt_no + LAST
    } else {
        node.cmt_no
    }
}

fn put_inos(body: &mut [u8], inos: &[u32])
    requires near { length inos.now < 2 ^ 32 }
    requires room { length body.old ≡ 8 + 8 * length inos.now }
    ensures spelling { drop 8 body.new ≡ spelling (flat_map ino_fields inos.now) [] }
    ensures fits { AllFit (flat_map ino_fields inos.now) }
    ensures below { AllByRecursion (λ ino. ino < 2 ^ 32) inos.now }
{
    let mut left = inos.len();
    while left > 0 {
        left -= 1;
        put_ino(body, 8 + INO_LEN * left, inos[left]);
    }
}

#[tactic(auto, unfolding(node_fields::specs::Fields::spelling))]
fn put_ino(body: &mut [u8], at: usize, ino: u32)
    requires { at + 8 ≤ length body.old }
    ensures spelling { drop at body.new ≡ spelling (ino_fields ino) (drop (at + 8) body.old) }
    ensures fits { AllFit (ino_fields ino) }
{
    put_u64(body, at, ino as u64);
}

fn decode_exactly(alloc: Global, bytes: &[u8]) -> Result<Option<OrphNode>, Memory>
    ensures { IfOk result (λ r. option_map orphans_of r ≡ decoded (tested is_orphans_node orphans_at) bytes.now) }
{
    let Some((kind, body)) = opened_node(bytes) else {
        return Ok(None);
    };
    if !is_orphans(kind, body) {
        return Ok(None);
    }
    Ok(Some(node_at(alloc, body)?))
}

/// Whether a body of this type is that of an orphan node.
#[tactic(auto, unfolding(crate::specs::Orphans::is_orphans))]
pub(crate) fn is_orphans(kind: u8, body: &[u8]) -> bool
    ensures exact { result ≡ is_orphans_node kind body.now }
    ensures long { IsTrue result → 8 ≤ length body.now }
    ensures most { IsTrue result → length body.now < 2 ^ 32 }
    ensures fits { IsTrue result → inos_fit ((length body.now - 8) / 8) 8 body.now ≡ true }
{
    if kind != KIND || body.len() < 8 {
        return false;
    }
    if body.len() >= (1 << 32) - 24 || body.len() % INO_LEN != 0 {
        return false;
    }
    inos_fit(body, (body.len() - 8) / INO_LEN)
}

fn inos_fit(body: &[u8], count: usize) -> bool
    requires near { count < 2 ^ 32 }
    requires room { 8 + 8 * count ≤ length body.now }
    ensures { result ≡ inos_fit count 8 body.now }
{
    for i in 0..count {
        if u64_at(body, 8 + INO_LEN * i) >= 1 << 32 {
            return false;
        }
    }
    true
}

#[tactic(auto, unfolding(crate::specs::Orphans::orphans_at))]
fn node_at(alloc: Global, body: &[u8]) -> Result<OrphNode, Memory>
    requires long { 8 ≤ length body.now }
    requires most { length body.now < 2 ^ 32 }
    requires fits { inos_fit ((length body.now - 8) / 8) 8 body.now ≡ true }
    ensures { IfOk result (λ node. orphans_of node ≡ orphans_at body.now) }
{
    let word = u64_at(body, 0);
    let inos = inos_at(alloc, body, (body.len() - 8) / INO_LEN)?;
    Ok(OrphNode {
        cmt_no: word % LAST,
        last: word / LAST == 1,
        inos,
    })
}

fn inos_at(alloc: Global, body: &[u8], count: usize) -> Result<Vec<u32>, Memory>
    requires near { count < 2 ^ 32 }
    requires room { 8 + 8 * count ≤ length body.now }
    requires fits { inos_fit count 8 body.now ≡ true }
    ensures { IfOk result (λ inos. inos.items ≡ inos_at count 8 body.now) }
{
    let mut inos = Vec::with_capacity(alloc, count)?;
    for i in 0..count {
        inos.push(u64_at(body, 8 + INO_LEN * i) as u32)?;
    }
    Ok(inos)
}
