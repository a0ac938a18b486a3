// Gaps between nodes.

ghost use Rattle.std.specs.Prelude.{◌≡◌, ◌<◌, ◌^◌, length, replicate};
ghost use Rattle.ubifs_base.specs.Gap.{gap_of, padding_node};

use crate::header::{Head, frame};
use byteorder::{ByteOrder, LittleEndian};

const PADDING_NODE: u8 = 5;

const PADDING_NODE_LEN: u32 = 28;

/// Fills a gap: fewer than 28 bytes become 0xCE, more become a padding node, whose sequence number is
/// 0, and zeros (`UBIFS_PADDING_BYTE` and `struct ubifs_pad_node` of ubifs-media.h).
#[tactic(auto, unfolding(crate::specs::Gap::gap_of))]
pub fn fill_gap(out: &mut [u8])
    requires { length out.old < 2 ^ 32 }
    ensures { out.new ≡ gap_of (length out.old) }
{
    if out.len() < PADDING_NODE_LEN as usize {
        set_all(out, 0xce);
        return;
    }
    set_all(out, 0);
    let pad_len = out.len() as u32 - PADDING_NODE_LEN;
    write_padding_node(&mut out[..PADDING_NODE_LEN as usize], pad_len);
}

fn set_all(out: &mut [u8], byte: u8)
    ensures { out.new ≡ replicate (length out.old) byte }
{
    out.fill(byte);
}

#[tactic(auto, unfolding(crate::specs::Node::node_bytes))]
fn write_padding_node(node: &mut [u8], pad_len: u32)
    requires { length node.old ≡ 28 }
    ensures { node.new ≡ padding_node pad_len }
{
    LittleEndian::write_u32(&mut node[24..], pad_len);
    let head = Head {
        sqnum: 0,
        len: PADDING_NODE_LEN,
        kind: PADDING_NODE,
        group: 0,
    };
    frame(node, &head);
}
