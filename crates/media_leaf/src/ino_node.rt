// Inode nodes.

ghost use Rattle.std.specs.Prelude.{◌≡◌, ◌++◌, List, ◌+◌, ◌≤◌, ℕ, length, drop, true, IfOk, IfSome, IfNone};
ghost use Rattle.ubifs_base.specs.Key.{IsKey};
ghost use Rattle.node_fields.specs.Fields.{AllFit, spelling, key_fields};
ghost use Rattle.ubifs_base.specs.declared.key.Key.TheVariants.{Ino};
ghost use Rattle.media_leaf.specs.Inode.{IsInoNode, may_hold_data as may_hold, inode_fields, size_fields, time_fields, owner_fields, extra_fields, last_fields, inode_at, is_inode, read_inode};
ghost use Rattle.media_leaf.specs.LeafNode.{IsIno, inode, written};
ghost use Rattle.node_fields.specs.Opening.{decoded};

use node_fields::{opened_node, put_key, put_last, put_u32, put_u64, u32_at, u64_at};
use std::alloc::Global;
use ubifs_base::{Bytes, Head, Key, Memory, NodeType, frame};

/// The attributes of a file, directory or other inode: `ubifs_ino_node` of ubifs-media.h. Times are
/// seconds; `bytes` is a symbolic link's target or a device's number.
#[derive(Debug, Drop)]
pub struct InoNode {
    pub ino: u32,
    pub size: u64,
    pub atime: u64,
    pub ctime: u64,
    pub mtime: u64,
    pub nlink: u32,
    pub uid: u32,
    pub gid: u32,
    pub mode: u32,
    pub flags: u32,
    pub xattr_cnt: u32,
    pub xattr_size: u32,
    pub xattr_names: u32,
    pub bytes: Bytes,
}

const KIND: u8 = NodeType::Inode as u8;

impl InoNode {
    /// How many bytes the node takes, header and all.
    pub fn len(&self) -> u32
        requires { IsInoNode self.now }
        ensures { result ≡ 160 + length self.now.bytes }
    {
        160 + self.bytes.len() as u32
    }

    /// Writes the node's one spelling, in which all that is ignored is 0, over all of `out`. A group
    /// type is 0 for none, 1 in a group, 2 for the last of one.
    pub fn encode(&self, sqnum: u64, group: u8, out: &mut [u8])
        requires node { IsInoNode self.now }
        requires group { group ≤ 2 }
        requires room { length out.old ≡ 160 + length self.now.bytes }
        ensures spelling { out.new ≡ written sqnum group (inode self.now) }
        ensures grammar { IsIno out.new sqnum group self.now }
    {
        self.encode_with(self.bytes.as_slice(), sqnum, group, out);
    }

    /// As `encode`, of the node with this data in place of its own, so that what stands elsewhere needn't be
    /// copied into a node.
    pub fn encode_with(&self, bytes: &[u8], sqnum: u64, group: u8, out: &mut [u8])
        requires node { IsInoNode (record self.now { bytes = bytes.now }) }
        requires group { group ≤ 2 }
        requires room { length out.old ≡ 160 + length bytes.now }
        ensures spelling { out.new ≡ written sqnum group (inode (record self.now { bytes = bytes.now })) }
        ensures grammar { IsIno out.new sqnum group (record self.now { bytes = bytes.now }) }
    {
        write_body(out.split_at_mut(24).1, self, bytes);
        let len = 160 + bytes.len() as u32;
        frame(
            out,
            &Head {
                sqnum,
                len,
                kind: KIND,
                group,
            },
        );
    }

    /// The node that the bytes are, all of them; none where they are no such node. The error is
    /// want of memory.
    pub fn decode(alloc: Global, bytes: &[u8]) -> Result<Option<InoNode>, Memory>
        ensures found { IfOk result (λ r. IfSome r (λ node. (sqnum : ℕ) × (group : ℕ) × IsIno bytes.now sqnum group node)) }
        ensures none { IfOk result (λ r. IfNone r ((sqnum group : ℕ) (node : _) → IsIno bytes.now sqnum group node → ⊥)) }
    {
        decode_exactly(alloc, bytes)
    }
}

// From the last field to the first, so that what stands behind a field is already as it stays.
fn write_body(body: &mut [u8], node: &InoNode, bytes: &[u8])
    requires node { IsInoNode (record node.now { bytes = bytes.now }) }
    requires room { length body.old ≡ 136 + length bytes.now }
    ensures spelling { body.new ≡ spelling (inode_fields (record node.now { bytes = bytes.now })) bytes.now }
    ensures fits { AllFit (inode_fields (record node.now { bytes = bytes.now })) }
{
    put_last(body, 136, bytes);
    write_last(body);
    write_extra(body, node, bytes);
    write_owner(body, node);
    write_times(body, node);
    write_first(body, node);
}

#[tactic(auto, unfolding(node_fields::specs::Fields::spelling))]
fn write_last(body: &mut [u8])
    requires { 136 ≤ length body.old }
    ensures { drop 108 body.new ≡ spelling last_fields (drop 136 body.old) }
{
    put_u32(body, 132, 0);
    put_u64(body, 124, 0);
    put_u64(body, 116, 0);
    put_u64(body, 108, 0);
}

#[tactic(auto, unfolding(node_fields::specs::Fields::spelling))]
fn write_extra(body: &mut [u8], node: &InoNode, bytes: &[u8])
    requires node { length bytes.now ≤ 4096 }
    requires room { 108 ≤ length body.old }
    ensures spelling { drop 88 body.new ≡ spelling (extra_fields (record node.now { bytes = bytes.now })) (drop 108 body.old) }
    ensures fits { AllFit (extra_fields (record node.now { bytes = bytes.now })) }
{
    put_u32(body, 104, node.xattr_names);
    put_u32(body, 100, 0);
    put_u32(body, 96, node.xattr_size);
    put_u32(body, 92, node.xattr_cnt);
    put_u32(body, 88, bytes.len() as u32);
}

#[tactic(auto, unfolding(node_fields::specs::Fields::spelling))]
fn write_owner(body: &mut [u8], node: &InoNode)
    requires { 88 ≤ length body.old }
    ensures spelling { drop 68 body.new ≡ spelling (owner_fields node.now) (drop 88 body.old) }
    ensures fits { AllFit (owner_fields node.now) }
{
    put_u32(body, 84, node.flags);
    put_u32(body, 80, node.mode);
    put_u32(body, 76, node.gid);
    put_u32(body, 72, node.uid);
    put_u32(body, 68, node.nlink);
}

#[tactic(auto, unfolding(node_fields::specs::Fields::spelling))]
fn write_times(body: &mut [u8], node: &InoNode)
    requires { 68 ≤ length body.old }
    ensures spelling { drop 32 body.new ≡ spelling (time_fields node.now) (drop 68 body.old) }
    ensures fits { AllFit (time_fields node.now) }
{
    put_u32(body, 64, 0);
    put_u64(body, 56, 0);
    put_u64(body, 48, node.mtime);
    put_u64(body, 40, node.ctime);
    put_u64(body, 32, node.atime);
}

fn key_of(ino: u32) -> Key
    ensures value { result ≡ Ino ino }
    ensures fits { IsKey result }
{
    Key::Ino { ino }
}

#[tactic(auto, unfolding(node_fields::specs::Fields::spelling))]
fn write_first(body: &mut [u8], node: &InoNode)
    requires { 32 ≤ length body.old }
    ensures spelling { body.new ≡ spelling (key_fields (Ino node.now.ino)) (spelling (size_fields node.now) (drop 32 body.old)) }
    ensures fits { AllFit (key_fields (Ino node.now.ino) ++ size_fields node.now) }
{
    put_u64(body, 24, node.size);
    put_u64(body, 16, 0);
    put_key(body, &key_of(node.ino));
}

fn decode_exactly(alloc: Global, bytes: &[u8]) -> Result<Option<InoNode>, Memory>
    ensures { IfOk result (λ r. r ≡ decoded read_inode bytes.now) }
{
    let Some((kind, body)) = opened_node(bytes) else {
        return Ok(None);
    };
    read_body(alloc, kind, body)
}

fn may_hold_data(mode: u32) -> bool
    ensures { result ≡ may_hold mode }
{
    let file_type = (mode >> 12) % 0o20;
    file_type == 0o12 || file_type == 0o06 || file_type == 0o02
}

#[tactic(auto, unfolding(crate::specs::Inode::read_inode))]
fn read_body(alloc: Global, kind: u8, body: &[u8]) -> Result<Option<InoNode>, Memory>
    ensures { IfOk result (λ r. r ≡ read_inode kind body.now) }
{
    if !is_inode_body(kind, body) {
        return Ok(None);
    }
    Ok(Some(node_at(alloc, body)?))
}

/// Whether a type and a body are an inode node.
#[tactic(auto, unfolding(crate::specs::Inode::is_inode))]
pub(crate) fn is_inode_body(kind: u8, body: &[u8]) -> bool
    ensures test { result ≡ is_inode kind body.now }
    ensures room { result ≡ true → 136 ≤ length body.now }
{
    if kind != KIND {
        return false;
    }
    if body.len() < 136 {
        return false;
    }
    if u32_at(body, 4) != 0 {
        return false;
    }
    if u32_at(body, 0) < 1 {
        return false;
    }
    let mode = u32_at(body, 80);
    let size = u32_at(body, 88);
    if size > 4096 {
        return false;
    }
    if body.len() - 136 != size as usize {
        return false;
    }
    if size != 0 && !may_hold_data(mode) {
        return false;
    }
    true
}

#[tactic(auto, unfolding(crate::specs::Inode::inode_at))]
fn node_at(alloc: Global, body: &[u8]) -> Result<InoNode, Memory>
    requires { 136 ≤ length body.now }
    ensures { IfOk result (λ node. node ≡ inode_at body.now) }
{
    Ok(InoNode {
        ino: u32_at(body, 0),
        size: u64_at(body, 24),
        atime: u64_at(body, 32),
        ctime: u64_at(body, 40),
        mtime: u64_at(body, 48),
        nlink: u32_at(body, 68),
        uid: u32_at(body, 72),
        gid: u32_at(body, 76),
        mode: u32_at(body, 80),
        flags: u32_at(body, 84),
        xattr_cnt: u32_at(body, 92),
        xattr_size: u32_at(body, 96),
        xattr_names: u32_at(body, 104),
        bytes: Bytes::from_slice(alloc, body.split_at(136).1)?,
    })
}
