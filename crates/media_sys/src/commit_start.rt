// Commit start nodes.

ghost use Rattle.std.specs.Prelude.{◌≡◌, List, ◌≤◌, ℕ, length, [], IfOk, IfSome, IfNone, IsOk, IsTrue};
ghost use Rattle.node_fields.specs.Fields.{AllFit, spelling};
ghost use Rattle.node_fields.specs.Opening.{decoded};
ghost use Rattle.media_sys.specs.CommitStart.{commit_start_fields, is_commit_start as is_commit_start_node, commit_start_at};
ghost use Rattle.media_sys.specs.SystemNode.{IsCommitStart, commit_start, written};
ghost use Rattle.media_sys.specs.Tested.{tested};

use node_fields::{opened_node, put_u64, u64_at};
use std::alloc::Global;
use ubifs_base::{Head, Memory, NodeType, frame};

/// A commit begins, of this number, and with it a section of the log: `ubifs_cs_node` of
/// ubifs-media.h.
#[derive(Clone, Copy, Debug, PartialEq, Eq)]
pub struct CommitStart {
    pub cmt_no: u64,
}

const KIND: u8 = NodeType::CommitStart as u8;

impl CommitStart {
    /// How many bytes the node takes, header and all.
    pub fn len(&self) -> u32
        ensures { result ≡ 32 }
    {
        32
    }

    /// Writes the node's one spelling over all of `out`. A group type is 0 for none, 1 in a group, 2
    /// for the last of one.
    pub fn encode(&self, sqnum: u64, group: u8, out: &mut [u8])
        requires group { group ≤ 2 }
        requires room { length out.old ≡ 32 }
        ensures spelling { out.new ≡ written sqnum group (commit_start self.now) }
        ensures grammar { IsCommitStart out.new sqnum group self.now }
    {
        write_body(out.split_at_mut(24).1, self);
        let len = self.len();
        frame(
            out,
            &Head {
                sqnum,
                len,
                kind: KIND,
                group,
            },
        );
    }

    /// The node that the bytes are, all of them; none where they are no such node. Takes no memory:
    /// the allocator stands here as in the other nodes, and the answer is always `Ok`.
    pub fn decode(_alloc: Global, bytes: &[u8]) -> Result<Option<CommitStart>, Memory>
        ensures ok { IsOk result }
        ensures found { IfOk result (λ r. IfSome r (λ node. (sqnum : ℕ) × (group : ℕ) × IsCommitStart bytes.now sqnum group node)) }
        ensures none { IfOk result (λ r. IfNone r ((sqnum group : ℕ) (node : _) → IsCommitStart bytes.now sqnum group node → ⊥)) }
    {
        Ok(decode_exactly(bytes))
    }
}

#[tactic(auto, unfolding(node_fields::specs::Fields::spelling))]
fn write_body(body: &mut [u8], node: &CommitStart)
    requires { length body.old ≡ 8 }
    ensures spelling { body.new ≡ spelling (commit_start_fields node.now) [] }
    ensures fits { AllFit (commit_start_fields node.now) }
{
    put_u64(body, 0, node.cmt_no);
}

fn decode_exactly(bytes: &[u8]) -> Option<CommitStart>
    ensures { result ≡ decoded (tested is_commit_start_node commit_start_at) bytes.now }
{
    let (kind, body) = opened_node(bytes)?;
    if !is_commit_start(kind, body) {
        return None;
    }
    Some(node_at(body))
}

/// Whether a body of this type is that of a commit start node.
#[tactic(auto, unfolding(crate::specs::CommitStart::is_commit_start))]
pub(crate) fn is_commit_start(kind: u8, body: &[u8]) -> bool
    ensures exact { result ≡ is_commit_start_node kind body.now }
    ensures long { IsTrue result → length body.now ≡ 8 }
{
    kind == KIND && body.len() == 8
}

#[tactic(auto, unfolding(crate::specs::CommitStart::commit_start_at))]
fn node_at(body: &[u8]) -> CommitStart
    requires { length body.now ≡ 8 }
    ensures { result ≡ commit_start_at body.now }
{
    CommitStart {
        cmt_no: u64_at(body, 0),
    }
}
