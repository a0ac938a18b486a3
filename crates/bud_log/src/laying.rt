// The nodes of the log as they are written: in their one spelling, with a gap to the end of the unit.

ghost use Rattle.std.specs.Prelude.{◌≡◌, ◌<◌, ◌≤◌, ◌+◌, ◌-◌, ◌*◌, ◌%◌, ◌^◌, ℕ, [], ◌∷◌, length};
ghost use Rattle.media_sys.specs.SystemNode.{reference};
ghost use Rattle.bud_log.specs.LogAt.{padded_room_of, head_nodes, section_nodes};
ghost use Rattle.bud_log.specs.Writing.{AreNodes};

use crate::head_at::HeadAt;
use media_sys::{CommitStart, RefNode};
use ubifs_base::{COMMIT_START_NODE_LEN, REFERENCE_NODE_LEN, fill_gap};

// The bytes that so many bytes take, with the padding to the unit.
pub(crate) fn room_for(unit: u32, len: u32) -> u32
    requires unit { 8 ≤ unit }
    requires most { unit ≤ 16384 }
    requires some { 0 < len }
    requires len { len ≤ 224 }
    ensures room { result ≡ padded_room_of unit len }
    ensures low { len ≤ result }
    ensures high { result ≤ len + (unit - 1) }
    ensures buffer { result ≤ 16384 }
    ensures whole { result % unit ≡ 0 }
{
    (len + (unit - 1)) / unit * unit
}

// A reference with the number behind this one, and a gap.
pub(crate) fn lay_reference(node: &RefNode, number: u64, bytes: &mut [u8])
    requires number { number < 2 ^ 63 + 2 ^ 57 }
    requires room { 64 ≤ length bytes.old }
    requires size { length bytes.old < 2 ^ 32 }
    requires even { length bytes.old % 8 ≡ 0 }
    ensures { AreNodes bytes.new number (reference node.now ∷ []) }
{
    let (front, rest) = bytes.split_at_mut(REFERENCE_NODE_LEN as usize);
    node.encode(number + 1, 0, front);
    lay_gap(number + 1, rest);
}

// No node, and a gap.
fn lay_gap(number: u64, bytes: &mut [u8])
    requires size { length bytes.old < 2 ^ 32 }
    requires even { length bytes.old % 8 ≡ 0 }
    ensures { AreNodes bytes.new number [] }
{
    fill_gap(bytes);
}

// References to where heads go on, with the numbers behind this one, and a gap.
fn lay_references(heads: &[HeadAt], number: u64, bytes: &mut [u8])
    requires number { number + length heads.now < 2 ^ 63 + 2 ^ 57 }
    requires room { 64 * length heads.now ≤ length bytes.old }
    requires size { length bytes.old < 2 ^ 32 }
    requires even { length bytes.old % 8 ≡ 0 }
    ensures { AreNodes bytes.new number (head_nodes heads.now) }
{
    let Some((head, others)) = heads.split_first() else {
        lay_gap(number, bytes);
        return;
    };
    let node = RefNode {
        lnum: head.lnum,
        offs: head.offs,
        head: head.head,
    };
    let (front, rest) = bytes.split_at_mut(REFERENCE_NODE_LEN as usize);
    node.encode(number + 1, 0, front);
    lay_references(others, number + 1, rest);
}

// The nodes with which a section begins, and a gap.
pub(crate) fn lay_section(cmt_no: u64, heads: &[HeadAt], number: u64, bytes: &mut [u8])
    requires number { number + 1 + length heads.now < 2 ^ 63 + 2 ^ 57 }
    requires room { 32 + 64 * length heads.now ≤ length bytes.old }
    requires size { length bytes.old < 2 ^ 32 }
    requires even { length bytes.old % 8 ≡ 0 }
    ensures { AreNodes bytes.new number (section_nodes cmt_no heads.now) }
{
    let (front, rest) = bytes.split_at_mut(COMMIT_START_NODE_LEN as usize);
    CommitStart { cmt_no }.encode(number + 1, 0, front);
    lay_references(heads, number + 1, rest);
}
