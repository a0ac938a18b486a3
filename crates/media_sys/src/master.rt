// Master nodes.

ghost use Rattle.std.specs.Prelude.{◌≡◌, List, ◌≤◌, ◌<◌, ◌^◌, ℕ, length, drop, [], ◌∷◌, IfOk, IfSome, IfNone, IsOk, IsTrue};
ghost use Rattle.byteorder.specs.Endian.{little_number};
ghost use Rattle.node_fields.specs.Fields.{AllFit, spelling, ignored};
ghost use Rattle.node_fields.specs.Opening.{decoded};
ghost use Rattle.media_sys.specs.Master.{IsMasterNode, root_fields, head_fields, total_fields, lpt_fields, count_fields, master_fields, is_master as is_master_node, master_at};
ghost use Rattle.media_sys.specs.SystemNode.{IsMaster, master, written};
ghost use Rattle.media_sys.specs.Tested.{tested};

use crate::zeros::put_zeros;
use node_fields::{opened_node, put_u32, put_u64, u32_at, u64_at};
use std::alloc::Global;
use ubifs_base::{Head, Memory, NodeType, frame};

/// Where a commit left the index, the properties tree and the rest: `ubifs_mst_node` of ubifs-media.h.
/// `index_size` and the totals are bytes, and `flags` has 1 for a volume that is mounted, 2 for one
/// without orphans and 4 for one that was recovered.
#[derive(Clone, Copy, Debug, PartialEq, Eq)]
pub struct Master {
    pub highest_inum: u32,
    pub cmt_no: u64,
    pub flags: u32,
    pub log_lnum: u32,
    pub root_lnum: u32,
    pub root_offs: u32,
    pub root_len: u32,
    pub gc_lnum: u32,
    pub ihead_lnum: u32,
    pub ihead_offs: u32,
    pub index_size: u64,
    pub total_free: u64,
    pub total_dirty: u64,
    pub total_used: u64,
    pub total_dead: u64,
    pub total_dark: u64,
    pub lpt_lnum: u32,
    pub lpt_offs: u32,
    pub nhead_lnum: u32,
    pub nhead_offs: u32,
    pub ltab_lnum: u32,
    pub ltab_offs: u32,
    pub lsave_lnum: u32,
    pub lsave_offs: u32,
    pub lscan_lnum: u32,
    pub empty_lebs: u32,
    pub idx_lebs: u32,
    pub leb_cnt: u32,
}

const KIND: u8 = NodeType::Master as u8;

impl Master {
    /// How many bytes the node takes, header and all.
    pub fn len(&self) -> u32
        ensures { result ≡ 512 }
    {
        512
    }

    /// Writes the node's one spelling, in which all that is ignored is 0, over all of `out`. A group
    /// type is 0 for none, 1 in a group, 2 for the last of one.
    pub fn encode(&self, sqnum: u64, group: u8, out: &mut [u8])
        requires group { group ≤ 2 }
        requires room { length out.old ≡ 512 }
        ensures spelling { out.new ≡ written sqnum group (master self.now) }
        ensures grammar { IsMaster out.new sqnum group self.now }
    {
        let _highest = self.highest_inum;
        write_body(out.split_at_mut(24).1, self);
        let len = self.len();
        frame(
            out,
            &Head {
                sqnum,
                len,
                kind: KIND,
                group,
            },
        );
    }

    /// The node that the bytes are, all of them; none where they are no such node. Takes no memory:
    /// the allocator stands here as in the other nodes, and the answer is always `Ok`.
    pub fn decode(_alloc: Global, bytes: &[u8]) -> Result<Option<Master>, Memory>
        ensures ok { IsOk result }
        ensures found { IfOk result (λ r. IfSome r (λ node. (sqnum : ℕ) × (group : ℕ) × IsMaster bytes.now sqnum group node)) }
        ensures none { IfOk result (λ r. IfNone r ((sqnum group : ℕ) (node : _) → IsMaster bytes.now sqnum group node → ⊥)) }
    {
        Ok(decode_exactly(bytes))
    }
}

// From the last field to the first, so that what stands behind a field is already as it stays.
fn write_body(body: &mut [u8], node: &Master)
    requires { length body.old ≡ 488 }
    ensures spelling { body.new ≡ spelling (master_fields node.now) [] }
    ensures fits { AllFit (master_fields node.now) }
{
    put_zeros(body, 144);
    write_counts(body, node);
    write_lpt(body, node);
    write_totals(body, node);
    write_head(body, node);
    write_root(body, node);
}

#[tactic(auto, unfolding(node_fields::specs::Fields::spelling))]
fn write_counts(body: &mut [u8], node: &Master)
    requires { 144 ≤ length body.old }
    ensures spelling { drop 132 body.new ≡ spelling (count_fields node.now) (drop 144 body.old) }
    ensures fits { AllFit (count_fields node.now) }
{
    put_u32(body, 140, node.leb_cnt);
    put_u32(body, 136, node.idx_lebs);
    put_u32(body, 132, node.empty_lebs);
}

#[tactic(auto, unfolding(node_fields::specs::Fields::spelling))]
fn write_lpt(body: &mut [u8], node: &Master)
    requires { 132 ≤ length body.old }
    ensures spelling { drop 96 body.new ≡ spelling (lpt_fields node.now) (drop 132 body.old) }
    ensures fits { AllFit (lpt_fields node.now) }
{
    put_u32(body, 128, node.lscan_lnum);
    put_u32(body, 124, node.lsave_offs);
    put_u32(body, 120, node.lsave_lnum);
    put_u32(body, 116, node.ltab_offs);
    put_u32(body, 112, node.ltab_lnum);
    put_u32(body, 108, node.nhead_offs);
    put_u32(body, 104, node.nhead_lnum);
    put_u32(body, 100, node.lpt_offs);
    put_u32(body, 96, node.lpt_lnum);
}

#[tactic(auto, unfolding(node_fields::specs::Fields::spelling))]
fn write_totals(body: &mut [u8], node: &Master)
    requires { 96 ≤ length body.old }
    ensures spelling { drop 56 body.new ≡ spelling (total_fields node.now) (drop 96 body.old) }
    ensures fits { AllFit (total_fields node.now) }
{
    put_u64(body, 88, node.total_dark);
    put_u64(body, 80, node.total_dead);
    put_u64(body, 72, node.total_used);
    put_u64(body, 64, node.total_dirty);
    put_u64(body, 56, node.total_free);
}

#[tactic(auto, unfolding(node_fields::specs::Fields::spelling))]
fn write_head(body: &mut [u8], node: &Master)
    requires { 56 ≤ length body.old }
    ensures spelling { drop 36 body.new ≡ spelling (head_fields node.now) (drop 56 body.old) }
    ensures fits { AllFit (head_fields node.now) }
{
    put_u64(body, 48, node.index_size);
    put_u32(body, 44, node.ihead_offs);
    put_u32(body, 40, node.ihead_lnum);
    put_u32(body, 36, node.gc_lnum);
}

#[tactic(auto, unfolding(node_fields::specs::Fields::spelling))]
fn write_root(body: &mut [u8], node: &Master)
    requires { 36 ≤ length body.old }
    ensures spelling { body.new ≡ spelling (root_fields node.now) (drop 36 body.old) }
    ensures fits { AllFit (root_fields node.now) }
{
    put_u32(body, 32, node.root_len);
    put_u32(body, 28, node.root_offs);
    put_u32(body, 24, node.root_lnum);
    put_u32(body, 20, node.log_lnum);
    put_u32(body, 16, node.flags);
    put_u64(body, 8, node.cmt_no);
    put_u64(body, 0, node.highest_inum as u64);
}

fn decode_exactly(bytes: &[u8]) -> Option<Master>
    ensures { result ≡ decoded (tested is_master_node master_at) bytes.now }
{
    let (kind, body) = opened_node(bytes)?;
    if !is_master(kind, body) {
        return None;
    }
    Some(node_at(body))
}

/// Whether a body of this type is that of a master node.
#[tactic(auto, unfolding(crate::specs::Master::is_master))]
pub(crate) fn is_master(kind: u8, body: &[u8]) -> bool
    ensures exact { result ≡ is_master_node kind body.now }
    ensures long { IsTrue result → length body.now ≡ 488 }
    ensures highest { IsTrue result → little_number 8 body.now < 2 ^ 32 }
{
    if kind != KIND || body.len() != 488 {
        return false;
    }
    u64_at(body, 0) < 1 << 32
}

#[tactic(auto, unfolding(crate::specs::Master::master_at))]
fn node_at(body: &[u8]) -> Master
    requires long { length body.now ≡ 488 }
    requires highest { little_number 8 body.now < 2 ^ 32 }
    ensures { result ≡ master_at body.now }
{
    Master {
        highest_inum: u64_at(body, 0) as u32,
        cmt_no: u64_at(body, 8),
        flags: u32_at(body, 16),
        log_lnum: u32_at(body, 20),
        root_lnum: u32_at(body, 24),
        root_offs: u32_at(body, 28),
        root_len: u32_at(body, 32),
        gc_lnum: u32_at(body, 36),
        ihead_lnum: u32_at(body, 40),
        ihead_offs: u32_at(body, 44),
        index_size: u64_at(body, 48),
        total_free: u64_at(body, 56),
        total_dirty: u64_at(body, 64),
        total_used: u64_at(body, 72),
        total_dead: u64_at(body, 80),
        total_dark: u64_at(body, 88),
        lpt_lnum: u32_at(body, 96),
        lpt_offs: u32_at(body, 100),
        nhead_lnum: u32_at(body, 104),
        nhead_offs: u32_at(body, 108),
        ltab_lnum: u32_at(body, 112),
        ltab_offs: u32_at(body, 116),
        lsave_lnum: u32_at(body, 120),
        lsave_offs: u32_at(body, 124),
        lscan_lnum: u32_at(body, 128),
        empty_lebs: u32_at(body, 132),
        idx_lebs: u32_at(body, 136),
        leb_cnt: u32_at(body, 140),
    }
}
