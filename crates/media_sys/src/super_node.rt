// Superblock nodes.

ghost use Rattle.std.specs.Prelude.{◌≡◌, ◌++◌, ◌+◌, List, ◌≤◌, ℕ, length, drop, [], ◌∷◌, IfOk, IfSome, IfNone, IsOk, IsTrue};
ghost use Rattle.byteorder.specs.Endian.{little_bytes, little_number};
ghost use Rattle.ubifs_base.specs.NodeLaws.{IsBytes};
ghost use Rattle.node_fields.specs.Fields.{AllFit, spelling, ignored};
ghost use Rattle.node_fields.specs.Opening.{decoded};
ghost use Rattle.media_sys.specs.Features.{geometry_of, features_of, first_of, has_flags, is_known_version};
ghost use Rattle.media_sys.specs.Superblock.{IsSuperNode, size_fields, area_fields, pool_fields, version_fields, super_fields, is_super as is_super_node, super_at};
ghost use Rattle.media_sys.specs.SystemNode.{IsSuper, superblock, written};
ghost use Rattle.media_sys.specs.Tested.{tested};

use crate::feature::Feature;
use crate::zeros::put_zeros;
use node_fields::{
    opened_node, put_bytes, put_u8, put_u16, put_u32, put_u64, u16_at, u32_at, u64_at,
};
use std::alloc::Global;
use ubifs_base::{Head, Memory, NodeType, RawGeometry, frame};

/// The layout of a volume: `ubifs_sb_node` of ubifs-media.h. Sizes are bytes, `rp_size` and
/// `max_bud_bytes` too, and `time_gran` is nanoseconds.
#[derive(Clone, Copy, Debug, PartialEq, Eq)]
pub struct Super {
    pub key_hash: u8,
    pub key_fmt: u8,
    pub flags: u32,
    pub min_io_size: u32,
    pub leb_size: u32,
    pub leb_cnt: u32,
    pub max_leb_cnt: u32,
    pub max_bud_bytes: u64,
    pub log_lebs: u32,
    pub lpt_lebs: u32,
    pub orph_lebs: u32,
    pub jhead_cnt: u32,
    pub fanout: u32,
    pub lsave_cnt: u32,
    pub fmt_version: u32,
    pub default_compr: u16,
    pub rp_uid: u32,
    pub rp_gid: u32,
    pub rp_size: u64,
    pub time_gran: u32,
    pub uuid: [u8; 16],
    pub ro_compat_version: u32,
}

const BIG_MODEL: u32 = 0x02;

const DOUBLE_HASH: u32 = 0x08;

const ENCRYPTION: u32 = 0x10;

const AUTHENTICATION: u32 = 0x20;

// All but these and that a volume's space is still to be fixed up (0x04).
const OTHERS: u32 = 0xffff_ffc1;

const KIND: u8 = NodeType::Superblock as u8;

impl Super {
    /// How many bytes the node takes, header and all.
    pub fn len(&self) -> u32
        ensures { result ≡ 4096 }
    {
        4096
    }

    /// The geometry of the volume, not tested.
    pub fn raw(&self) -> RawGeometry
        ensures { result ≡ geometry_of self.now }
    {
        RawGeometry {
            leb_size: self.leb_size,
            min_io: self.min_io_size,
            log_lebs: self.log_lebs,
            lpt_lebs: self.lpt_lebs,
            orph_lebs: self.orph_lebs,
            leb_cnt: self.leb_cnt,
            max_leb_cnt: self.max_leb_cnt,
            fanout: self.fanout,
            lsave_cnt: self.lsave_cnt,
            big: self.has_flags(BIG_MODEL),
        }
    }

    /// The first feature that the volume needs and this project does not know, in the order of
    /// `Feature`; none where it needs none.
    pub fn feature(&self) -> Option<Feature>
        ensures { result ≡ first_of (features_of self.now) }
    {
        if self.key_hash != 0 {
            return Some(Feature::KeyHash);
        }
        if self.key_fmt != 0 {
            return Some(Feature::KeyFmt);
        }
        if !self.is_known_version() {
            return Some(Feature::Version);
        }
        if self.jhead_cnt != 1 {
            return Some(Feature::Heads);
        }
        if self.has_flags(DOUBLE_HASH) {
            return Some(Feature::DoubleHash);
        }
        if self.has_flags(ENCRYPTION) {
            return Some(Feature::Encryption);
        }
        if self.has_flags(AUTHENTICATION) {
            return Some(Feature::Authentication);
        }
        if self.has_flags(OTHERS) {
            return Some(Feature::Flags);
        }
        if self.has_flags(BIG_MODEL) {
            return Some(Feature::BigModel);
        }
        None
    }

    fn has_flags(&self, flags: u32) -> bool
        ensures { result ≡ has_flags self.now flags }
    {
        self.flags & flags != 0
    }

    fn is_known_version(&self) -> bool
        ensures { result ≡ is_known_version self.now }
    {
        (self.fmt_version == 4 || self.fmt_version == 5) && self.ro_compat_version == 0
    }

    /// Writes the node's one spelling, in which all that is ignored is 0, over all of `out`. A group
    /// type is 0 for none, 1 in a group, 2 for the last of one.
    pub fn encode(&self, sqnum: u64, group: u8, out: &mut [u8])
        requires group { group ≤ 2 }
        requires room { length out.old ≡ 4096 }
        ensures spelling { out.new ≡ written sqnum group (superblock self.now) }
        ensures grammar { IsSuper out.new sqnum group self.now }
    {
        write_body(out.split_at_mut(24).1, self);
        let len = self.len();
        frame(
            out,
            &Head {
                sqnum,
                len,
                kind: KIND,
                group,
            },
        );
    }

    /// The node that the bytes are, all of them; none where they are no such node. Takes no memory:
    /// the allocator stands here as in the other nodes, and the answer is always `Ok`.
    pub fn decode(_alloc: Global, bytes: &[u8]) -> Result<Option<Super>, Memory>
        ensures ok { IsOk result }
        ensures found { IfOk result (λ r. IfSome r (λ node. (sqnum : ℕ) × (group : ℕ) × IsSuper bytes.now sqnum group node)) }
        ensures none { IfOk result (λ r. IfNone r ((sqnum group : ℕ) (node : _) → IsSuper bytes.now sqnum group node → ⊥)) }
    {
        Ok(decode_exactly(bytes))
    }
}

// From the last field to the first, so that what stands behind a field is already as it stays.
fn write_body(body: &mut [u8], node: &Super)
    requires { length body.old ≡ 4072 }
    ensures spelling { body.new ≡ spelling (super_fields node.now) [] }
    ensures fits { AllFit (super_fields node.now) }
    ensures node { IsSuperNode node.now }
{
    put_zeros(body, 104);
    write_version(body, node);
    write_pool(body, node);
    write_areas(body, node);
    write_sizes(body, node);
}

#[tactic(auto, unfolding(node_fields::specs::Fields::spelling))]
fn write_version(body: &mut [u8], node: &Super)
    requires { 104 ≤ length body.old }
    ensures spelling { drop 84 body.new ≡ spelling (version_fields node.now) (drop 104 body.old) }
    ensures fits { AllFit (version_fields node.now) }
    ensures node { IsSuperNode node.now }
{
    put_u32(body, 100, node.ro_compat_version);
    put_uuid(body, 84, &node.uuid);
}

fn put_uuid(body: &mut [u8], at: usize, uuid: &[u8])
    requires sixteen { length uuid.now ≡ 16 }
    requires room { at + 16 ≤ length body.old }
    ensures place { drop at body.new ≡ little_bytes 16 (little_number 16 uuid.now) ++ drop (at + 16) body.old }
    ensures bytes { IsBytes uuid.now }
{
    put_bytes(body, at, uuid);
}

#[tactic(auto, unfolding(node_fields::specs::Fields::spelling))]
fn write_pool(body: &mut [u8], node: &Super)
    requires { 84 ≤ length body.old }
    ensures spelling { drop 60 body.new ≡ spelling (pool_fields node.now) (drop 84 body.old) }
    ensures fits { AllFit (pool_fields node.now) }
{
    put_u32(body, 80, node.time_gran);
    put_u64(body, 72, node.rp_size);
    put_u32(body, 68, node.rp_gid);
    put_u32(body, 64, node.rp_uid);
    put_u16(body, 62, 0);
    put_u16(body, 60, node.default_compr);
}

#[tactic(auto, unfolding(node_fields::specs::Fields::spelling))]
fn write_areas(body: &mut [u8], node: &Super)
    requires { 60 ≤ length body.old }
    ensures spelling { drop 32 body.new ≡ spelling (area_fields node.now) (drop 60 body.old) }
    ensures fits { AllFit (area_fields node.now) }
{
    put_u32(body, 56, node.fmt_version);
    put_u32(body, 52, node.lsave_cnt);
    put_u32(body, 48, node.fanout);
    put_u32(body, 44, node.jhead_cnt);
    put_u32(body, 40, node.orph_lebs);
    put_u32(body, 36, node.lpt_lebs);
    put_u32(body, 32, node.log_lebs);
}

#[tactic(auto, unfolding(node_fields::specs::Fields::spelling))]
fn write_sizes(body: &mut [u8], node: &Super)
    requires { 32 ≤ length body.old }
    ensures spelling { body.new ≡ spelling (size_fields node.now) (drop 32 body.old) }
    ensures fits { AllFit (size_fields node.now) }
{
    put_u64(body, 24, node.max_bud_bytes);
    put_u32(body, 20, node.max_leb_cnt);
    put_u32(body, 16, node.leb_cnt);
    put_u32(body, 12, node.leb_size);
    put_u32(body, 8, node.min_io_size);
    put_u32(body, 4, node.flags);
    put_u8(body, 3, node.key_fmt);
    put_u8(body, 2, node.key_hash);
    put_u16(body, 0, 0);
}

fn decode_exactly(bytes: &[u8]) -> Option<Super>
    ensures { result ≡ decoded (tested is_super_node super_at) bytes.now }
{
    let (kind, body) = opened_node(bytes)?;
    if !is_super(kind, body) {
        return None;
    }
    Some(node_at(body))
}

/// Whether a body of this type is that of a superblock node.
#[tactic(auto, unfolding(crate::specs::Superblock::is_super))]
pub(crate) fn is_super(kind: u8, body: &[u8]) -> bool
    ensures exact { result ≡ is_super_node kind body.now }
    ensures long { IsTrue result → length body.now ≡ 4072 }
{
    kind == KIND && body.len() == 4072
}

fn uuid_at(body: &[u8]) -> [u8; 16]
    requires { 100 ≤ length body.now }
    ensures { result ≡ little_bytes 16 (little_number 16 (drop 84 body.now)) }
{
    let mut uuid = [0; 16];
    uuid.copy_from_slice(body.split_at(84).1.split_at(16).0);
    uuid
}

#[tactic(auto, unfolding(crate::specs::Superblock::super_at))]
fn node_at(body: &[u8]) -> Super
    requires { length body.now ≡ 4072 }
    ensures { result ≡ super_at body.now }
{
    Super {
        key_hash: body[2],
        key_fmt: body[3],
        flags: u32_at(body, 4),
        min_io_size: u32_at(body, 8),
        leb_size: u32_at(body, 12),
        leb_cnt: u32_at(body, 16),
        max_leb_cnt: u32_at(body, 20),
        max_bud_bytes: u64_at(body, 24),
        log_lebs: u32_at(body, 32),
        lpt_lebs: u32_at(body, 36),
        orph_lebs: u32_at(body, 40),
        jhead_cnt: u32_at(body, 44),
        fanout: u32_at(body, 48),
        lsave_cnt: u32_at(body, 52),
        fmt_version: u32_at(body, 56),
        default_compr: u16_at(body, 60),
        rp_uid: u32_at(body, 64),
        rp_gid: u32_at(body, 68),
        rp_size: u64_at(body, 72),
        time_gran: u32_at(body, 80),
        uuid: uuid_at(body),
        ro_compat_version: u32_at(body, 100),
    }
}
