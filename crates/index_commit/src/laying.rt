// Nodes are laid into a buffer, and get their places in the LEB that it is for.

ghost use Rattle.std.specs.Prelude.{◌≡◌, ◌⊎◌, ◌<◌, ◌≤◌, ◌+◌, ◌-◌, ◌*◌, ◌%◌, ◌^◌, [], false, length, take, IfOk, OnOk, IsTrue};
ghost use Rattle.media_sys.specs.SystemNode.{IsSystemNode, index as index_node};
ghost use Rattle.index_cache.specs.Commit.{IsNextNode, node_length, said_of};
ghost use Rattle.index_cache.specs.Paged.{dirty_of, fanout_of};
ghost use Rattle.index_commit.specs.Answers.{HasEqualKeys, IsLayingFault};
ghost use Rattle.index_commit.specs.LebTexts.{in_room, index_bytes, nodes_written};
ghost use Rattle.index_commit.specs.Written.{AreNodesLaid};

use crate::index_fault::IndexFault;
use index_cache::{DirtyNode, NodeBuffer, PagedIndex};
use node_table::places_are_kept;
use ubifs_base::fill_gap;

// Writes the next dirty node at the start of these bytes, and fills the rest: what is left of the last 8 bytes, and what is
// left of the room.
fn lay_node(
    index: &PagedIndex,
    found: &DirtyNode,
    sqnum: u64,
    buffer: &mut NodeBuffer,
    room: &mut [u8],
) -> Result<(), IndexFault>
    requires next { IsNextNode index.now found.now.node }
    requires len { found.now.len ≡ node_length (said_of index.now found.now.node) }
    requires fits { found.now.len ≤ length room.old }
    requires size { length room.old < 2 ^ 32 }
    ensures node { OnOk result (IsSystemNode (take (node_length (said_of index.now found.now.node)) room.new) sqnum 0 (index_node (said_of index.now found.now.node))) }
    ensures bytes { OnOk result (room.new ≡ in_room (length room.old) sqnum (said_of index.now found.now.node)) }
    ensures fault { IsLayingFault result }
    ensures equal { HasEqualKeys index.now result }
    ensures len { length room.new ≡ length room.old }
{
    let (node, gap) = room.split_at_mut(found.len as usize);
    if !index.write_node(found.node, sqnum, buffer, node) {
        return Err(IndexFault::EqualKeys);
    }
    let (odd, rest) = gap.split_at_mut(gap.len() % 8);
    fill_gap(odd);
    fill_gap(rest);
    Ok(())
}

// Lays the next dirty node behind the bytes that are laid, gives it its place, and counts its bytes in whole eights; false exactly
// where none is dirty.
fn lay_next(
    buffer: &mut NodeBuffer,
    lnum: u32,
    room: u32,
    index: &mut PagedIndex,
    sqnum: &mut u64,
    leb: &mut [u8],
    used: &mut u32,
    live: &mut u32,
) -> Result<bool, IndexFault>
    requires room { used.old + room ≤ length leb.old }
    requires most { 28 + 20 * fanout_of index.old ≤ room }
    requires number { sqnum.old + length (dirty_of index.old) < 2 ^ 64 }
    requires size { length leb.old ≤ 2 ^ 22 }
    requires slack { live.old ≤ 2 * used.old }
    ensures laid { AreNodesLaid lnum room (record { index = index.old; sqnum = sqnum.old; bytes = take used.old leb.old }) (record { index = index.new; sqnum = sqnum.new; bytes = take used.new leb.new }) }
    ensures one { IfOk result (λ more. IsTrue more → used.new ≡ used.old + room) }
    ensures none { IfOk result (λ more. more ≡ false → dirty_of index.new ≡ []) }
    ensures fits { used.new ≤ length leb.old }
    ensures live { live.new ≡ live.old + index_bytes (nodes_written index.old index.new (sqnum.new - sqnum.old)) }
    ensures slack { live.new ≤ 2 * used.new }
    ensures fault { IsLayingFault result }
    ensures equal { HasEqualKeys index.new result }
    ensures len { length leb.new ≡ length leb.old }
{
    places_are_kept();
    let Some(found) = index.next_dirty() else {
        return Ok(false);
    };
    let offs = *used;
    let number = *sqnum + 1;
    let (_laid, rest) = leb.split_at_mut(offs as usize);
    let (own, _behind) = rest.split_at_mut(room as usize);
    lay_node(index, &found, number, buffer, own)?;
    index.place(found.node, lnum, offs);
    *sqnum = number;
    *used = offs + room;
    *live += (found.len + 7) / 8 * 8;
    Ok(true)
}

// Lays dirty nodes, each in as much room as a full node takes, until the buffer has room for none or none is dirty. Whatever
// ends it, the nodes that are laid have their places, and no other.
pub(crate) fn lay_nodes(
    buffer: &mut NodeBuffer,
    lnum: u32,
    room: u32,
    index: &mut PagedIndex,
    sqnum: &mut u64,
    leb: &mut [u8],
    used: &mut u32,
    live: &mut u32,
) -> Result<(), IndexFault>
    requires start { used.old ≡ 0 }
    requires none { live.old ≡ 0 }
    requires some { 0 < room }
    requires small { room ≤ 2 ^ 16 }
    requires most { 28 + 20 * fanout_of index.old ≤ room }
    requires number { sqnum.old + length (dirty_of index.old) < 2 ^ 64 }
    requires size { length leb.old ≤ 2 ^ 22 }
    ensures laid { AreNodesLaid lnum room (record { index = index.old; sqnum = sqnum.old; bytes = [] }) (record { index = index.new; sqnum = sqnum.new; bytes = take used.new leb.new }) }
    ensures all { OnOk result ((dirty_of index.new ≡ []) ⊎ (length leb.old < used.new + room)) }
    ensures fits { used.new ≤ length leb.old }
    ensures live { live.new ≡ index_bytes (nodes_written index.old index.new (sqnum.new - sqnum.old)) }
    ensures fault { IsLayingFault result }
    ensures equal { HasEqualKeys index.new result }
    ensures len { length leb.new ≡ length leb.old }
{
    places_are_kept();
    while *used as usize + room as usize <= leb.len() {
        if !lay_next(buffer, lnum, room, index, sqnum, leb, used, live)? {
            return Ok(());
        }
    }
    Ok(())
}
