// The header that each node begins with.

ghost use Rattle.std.specs.Prelude.{◌≡◌, ◌↔◌, ◌≤◌, length, drop, IfOk, IsErrOf, ◌∷◌, []};
ghost use Rattle.ubifs_base.specs.Node.{node_bytes, with_header};
ghost use Rattle.ubifs_base.specs.Frame.{unframed, HasHead, IsShort, HasOtherMagic, HasBadLen, HasOtherCrc, magic_at, len_at, crc_at, crc_wanted};

use crate::crc::crc32;
use byteorder::{ByteOrder, LittleEndian};
use thiserror::Error;

/// The number that each node begins with (`UBIFS_NODE_MAGIC` of ubifs-media.h).
pub const MAGIC: u32 = 0x0610_1831;

/// What a header says beside its magic and checksum (`struct ubifs_ch` of ubifs-media.h): the sequence
/// number, the length in bytes, the type of the node, and its place in a group (0 none, 1 in a group,
/// 2 the last of one).
#[derive(Clone, Copy, Debug, PartialEq, Eq)]
pub struct Head {
    pub sqnum: u64,
    pub len: u32,
    pub kind: u8,
    pub group: u8,
}

/// Why bytes don't begin with a node: the first of these, in this order, that applies.
#[derive(Clone, Copy, Debug, PartialEq, Eq, Error)]
pub enum FrameFault {
    #[error("only {have} bytes")]
    Short { have: u64 },
    #[error("magic {found}")]
    Magic { found: u32 },
    #[error("length {found}")]
    Len { found: u32 },
    #[error("checksum {found} in place of {wanted}")]
    Crc { wanted: u32, found: u32 },
}

/// Writes the header of 24 bytes, checksum and all, before the body that stands from byte 24 on. Takes
/// no memory.
#[tactic(auto, unfolding(crate::specs::Node::node_bytes))]
pub fn frame(node: &mut [u8], head: &Head)
    requires len { length node.old ≡ head.now.len }
    requires room { 24 ≤ head.now.len }
    ensures { node.new ≡ node_bytes head.now.sqnum head.now.kind head.now.group (0 ∷ 0 ∷ []) (drop 24 node.old) }
{
    write_header(node, head)
}

#[tactic(auto, unfolding(crate::specs::Crc::crc32_of))]
fn write_header(node: &mut [u8], head: &Head)
    requires { 24 ≤ length node.old }
    ensures { node.new ≡ with_header head.now.len head.now.sqnum head.now.kind head.now.group (0 ∷ 0 ∷ []) (drop 24 node.old) }
{
    LittleEndian::write_u32(node, MAGIC);
    LittleEndian::write_u64(&mut node[8..], head.sqnum);
    LittleEndian::write_u32(&mut node[16..], head.len);
    node[20] = head.kind;
    node[21] = head.group;
    node[22] = 0;
    node[23] = 0;
    let crc = crc32(node.split_at(8).1);
    LittleEndian::write_u32(&mut node[4..], crc);
}

/// The header of the node that the bytes begin with; more bytes may follow. Errors are those of
/// `FrameFault`. Takes no memory.
pub fn unframe(bytes: &[u8]) -> Result<Head, FrameFault>
    ensures head { IfOk result (HasHead bytes.now) }
    ensures short { IsShort bytes.now ↔ IsErrOf result (FrameFault.Short (length bytes.now)) }
    ensures magic { HasOtherMagic bytes.now ↔ IsErrOf result (FrameFault.Magic (magic_at bytes.now)) }
    ensures len { HasBadLen bytes.now ↔ IsErrOf result (FrameFault.Len (len_at bytes.now)) }
    ensures crc { HasOtherCrc bytes.now ↔ IsErrOf result (FrameFault.Crc (crc_wanted bytes.now) (crc_at bytes.now)) }
    ensures exact { result ≡ unframed bytes.now }
{
    read_header(bytes)
}

#[tactic(auto, unfolding(crate::specs::Frame::unframed))]
fn read_header(bytes: &[u8]) -> Result<Head, FrameFault>
    ensures { result ≡ unframed bytes.now }
{
    if bytes.len() < 24 {
        return Err(FrameFault::Short {
            have: bytes.len() as u64,
        });
    }
    let magic = LittleEndian::read_u32(bytes);
    if magic != MAGIC {
        return Err(FrameFault::Magic { found: magic });
    }
    let len = LittleEndian::read_u32(bytes.split_at(16).1);
    if len < 24 || len as usize > bytes.len() {
        return Err(FrameFault::Len { found: len });
    }
    let wanted = crc32(bytes.split_at(len as usize).0.split_at(8).1);
    let found = LittleEndian::read_u32(bytes.split_at(4).1);
    if found != wanted {
        return Err(FrameFault::Crc { wanted, found });
    }
    Ok(Head {
        sqnum: LittleEndian::read_u64(bytes.split_at(8).1),
        len,
        kind: bytes[20],
        group: bytes[21],
    })
}
