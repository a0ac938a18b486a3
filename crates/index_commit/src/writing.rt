// A commit of the index.

ghost use Rattle.std.specs.Prelude.{◌≡◌, ◌⊎◌, ◌<◌, ◌≤◌, ◌+◌, ◌-◌, ◌*◌, ◌%◌, ◌^◌, ◌++◌, ◌∷◌, [], length, take, IfOk, OnOk};
ghost use Rattle.std.specs.Int.{div_ceil};
ghost use Rattle.ubifs_base.specs.Gap.{gap_of};
ghost use Rattle.ubifs_base.specs.Geometry.{index_node_len, index_nodes_per_leb};
ghost use Rattle.ubifs_base.specs.RawOf.{raw_of};
ghost use Rattle.index_media.specs.Clean.{placed_of};
ghost use Rattle.index_media.specs.KeyedRow.{all_clean};
ghost use Rattle.ubi_volume.specs.Faults.{HasAnswer};
ghost use Rattle.ubi_volume.specs.Geometry.{IsGeometryOf};
ghost use Rattle.ubi_volume.specs.Volume.{Keeps, Leaves};
ghost use Rattle.index_cache.specs.Paged.{dirty_of, frozen_of, fanout_of};
ghost use Rattle.index_commit.specs.Answers.{HasEqualKeys, IsIndexNotFailed, IsNotFull, IsFullOf, IsIndexAnswered, OnMemory};
ghost use Rattle.index_commit.specs.LebTexts.{AreLebsLeft, AreLebsOf, IsLebLeft, IsLebOf, index_bytes, nodes_written};
ghost use Rattle.index_commit.specs.Lebs.{AreGivable};
ghost use Rattle.index_commit.specs.Ordered.{AreKeysInOrder, IsNotEqualKeys};
ghost use Rattle.index_commit.specs.Rooms.{IsIndexLaidOut, head_after, room_in, taken_room, whole_units};
ghost use Rattle.index_commit.specs.Standing.{AreOutside};
ghost use Rattle.index_commit.specs.Written.{AreStanding, AreWritten, IsHeadAfter, IsIndexAt, IsIndexTaken, IsLebPut, IsPutLeft, IsIndexUntouched, KeepsOtherIndexes, WorksInLebs, with_leb_bytes};

use crate::index_at::{IndexAt, IndexHead};
use crate::index_fault::IndexFault;
use crate::laying::lay_nodes;
use index_cache::{NodeBuffer, PagedIndex};
use index_media::an_index_depends_on_its_lebs_alone;
use node_table::places_are_kept;
use std::alloc::Global;
use ubi_volume::{VolFault, Volume};
use ubifs_base::{Geometry, fill_gap};

/// Writes all dirty nodes of the frozen index to these LEBs, and answers where the index stands then: the commit of the
/// index (`ubifs_tnc_start_commit` and `ubifs_tnc_end_commit` of Linux). Children come before their parent, and each node takes
/// the next sequence number and as much room as a full one takes. Each LEB is replaced by one change, whatever it held, and
/// nodes of the index that have places stay where they are.
///
/// The LEBs of the volume that a clean node of the frozen index stands in may not be among those given. `Full` comes before
/// anything is written. After any fault but `Volume` all clean nodes stand on the volume, so the call may be made again, with
/// other LEBs. After `Volume` the index may have places where nothing stands. All memory is taken before anything is written:
/// after `Memory` all is as before.
pub fn write_index<V: Volume>(
    alloc: Global,
    volume: &mut V,
    geometry: &Geometry,
    index: &mut PagedIndex,
    lebs: &[u32],
    sqnum: &mut u64,
) -> Result<IndexAt, IndexFault>
    requires geometry { IsGeometryOf (raw_of geometry.now) (V.state volume.old) }
    requires fanout { fanout_of index.old ≡ geometry.now.fanout }
    requires lebs { AreGivable (V.state volume.old).leb_cnt lebs.now }
    requires outside { AreOutside (V.state volume.old).holds lebs.now (frozen_of index.old) }
    requires number { sqnum.old + length (dirty_of index.old) < 2 ^ 64 }
    ensures written { IfOk result (λ at. IsIndexAt (V.state volume.new) geometry.now.fanout lebs.now index.old index.new at × IsIndexLaidOut (raw_of geometry.now) lebs.now (sqnum.new - sqnum.old) index.old index.new at) }
    ensures standing { IsIndexNotFailed result → AreStanding (V.state volume.old) (V.state volume.new) lebs.now index.old index.new sqnum.old sqnum.new
        × AreLebsOf (raw_of geometry.now) lebs.now (V.state volume.old) (V.state volume.new) sqnum.old (nodes_written index.old index.new (sqnum.new - sqnum.old)) }
    ensures index { IsIndexTaken (taken_room (raw_of geometry.now) lebs.now) index.old index.new sqnum.old sqnum.new }
    ensures works { WorksInLebs (V.state volume.old) (V.state volume.new) lebs.now × Leaves (V.state volume.old) (V.state volume.new)
        (AreLebsLeft (raw_of geometry.now) lebs.now (V.state volume.old) sqnum.old (nodes_written index.old index.new (sqnum.new - sqnum.old))) }
    ensures old_stays { KeepsOtherIndexes (V.state volume.old) (V.state volume.new) lebs.now }
    ensures answer { IsIndexAnswered (V.state volume.old) (V.state volume.new) result
        × IsFullOf (Keeps (V.state volume.old) (V.state volume.new) × (index.new ≡ index.old)) (div_ceil (length (dirty_of index.old)) (index_nodes_per_leb (raw_of geometry.now))) (length lebs.now) result
        × HasEqualKeys index.new result × (AreKeysInOrder (frozen_of index.old) → IsNotEqualKeys result)
        × OnMemory (IsIndexUntouched (V.state volume.old) (V.state volume.new) index.old index.new sqnum.old sqnum.new) result }
{
    an_index_depends_on_its_lebs_alone();
    places_are_kept();
    let each = geometry.index_nodes_per_leb() as u64;
    let need = index.dirty_nodes().div_ceil(each);
    let given = lebs.len() as u64;
    if need > given {
        return Err(IndexFault::Full { need, given });
    }
    let mut leb = vec![in alloc; 0; geometry.leb_size as usize]?;
    let mut buffer = NodeBuffer::new(alloc)?;
    let head = write_lebs(
        &mut buffer,
        volume,
        geometry,
        index,
        lebs,
        sqnum,
        &mut leb,
        None,
    )?;
    Ok(IndexAt {
        root: index.frozen_branch(),
        head,
    })
}

// Writes the dirty nodes to these LEBs, and answers where the last LEB that was written ends; the head of before where none was.
fn write_lebs<V: Volume>(
    buffer: &mut NodeBuffer,
    volume: &mut V,
    geometry: &Geometry,
    index: &mut PagedIndex,
    lebs: &[u32],
    sqnum: &mut u64,
    leb: &mut [u8],
    head: Option<IndexHead>,
) -> Result<Option<IndexHead>, IndexFault>
    requires geometry { IsGeometryOf (raw_of geometry.now) (V.state volume.old) }
    requires fanout { fanout_of index.old ≡ geometry.now.fanout }
    requires lebs { AreGivable (V.state volume.old).leb_cnt lebs.now }
    requires number { sqnum.old + length (dirty_of index.old) < 2 ^ 64 }
    requires whole { length leb.old ≡ geometry.now.leb_size }
    requires fits { length (dirty_of index.old) ≤ index_nodes_per_leb (raw_of geometry.now) * length lebs.now }
    ensures clean { OnOk result (frozen_of index.new ≡ all_clean (placed_of (frozen_of index.new))) }
    ensures none { OnOk result (dirty_of index.new ≡ []) }
    ensures head { IfOk result (λ found. IsHeadAfter (V.state volume.new) lebs.now (dirty_of index.old) head found) }
    ensures end { IfOk result (λ found. found ≡ head_after (raw_of geometry.now) lebs.now head (sqnum.new - sqnum.old)) }
    ensures standing { IsIndexNotFailed result → AreWritten (V.state volume.old) (V.state volume.new) lebs.now index.old index.new sqnum.old sqnum.new }
    ensures text { IsIndexNotFailed result → AreLebsOf (raw_of geometry.now) lebs.now (V.state volume.old) (V.state volume.new) sqnum.old (nodes_written index.old index.new (sqnum.new - sqnum.old)) }
    ensures index { IsIndexTaken (taken_room (raw_of geometry.now) lebs.now) index.old index.new sqnum.old sqnum.new }
    ensures works { WorksInLebs (V.state volume.old) (V.state volume.new) lebs.now }
    ensures left { Leaves (V.state volume.old) (V.state volume.new) (AreLebsLeft (raw_of geometry.now) lebs.now (V.state volume.old) sqnum.old (nodes_written index.old index.new (sqnum.new - sqnum.old))) }
    ensures answer { IsIndexAnswered (V.state volume.old) (V.state volume.new) result }
    ensures fault { IsNotFull result }
    ensures memory { OnMemory ⊥ result }
    ensures equal { HasEqualKeys index.new result }
{
    places_are_kept();
    if index.next_dirty().is_none() {
        return Ok(head);
    }
    let Some((lnum, rest)) = lebs.split_first() else {
        return Ok(head);
    };
    let lnum = *lnum;
    let mut live = 0;
    let offs = write_leb(buffer, volume, geometry, index, lnum, sqnum, leb, &mut live)?;
    let now = Some(IndexHead { lnum, offs });
    write_lebs(buffer, volume, geometry, index, rest, sqnum, leb, now)
}

// Writes as many dirty nodes to a LEB as it has room for, and answers where what is written there ends. It counts their bytes.
pub(crate) fn write_leb<V: Volume>(
    buffer: &mut NodeBuffer,
    volume: &mut V,
    geometry: &Geometry,
    index: &mut PagedIndex,
    lnum: u32,
    sqnum: &mut u64,
    leb: &mut [u8],
    live: &mut u32,
) -> Result<u32, IndexFault>
    requires geometry { IsGeometryOf (raw_of geometry.now) (V.state volume.old) }
    requires fanout { fanout_of index.old ≡ geometry.now.fanout }
    requires lnum { lnum < (V.state volume.old).leb_cnt }
    requires number { sqnum.old + length (dirty_of index.old) < 2 ^ 64 }
    requires whole { length leb.old ≡ geometry.now.leb_size }
    requires some { 0 < length (dirty_of index.old) }
    requires none { live.old ≡ 0 }
    ensures all { OnOk result ((dirty_of index.new ≡ []) ⊎ (length (dirty_of index.new) + index_nodes_per_leb (raw_of geometry.now) ≤ length (dirty_of index.old))) }
    ensures most { sqnum.new ≤ sqnum.old + index_nodes_per_leb (raw_of geometry.now) }
    ensures full { OnOk result ((dirty_of index.new ≡ []) ⊎ (sqnum.new ≡ sqnum.old + index_nodes_per_leb (raw_of geometry.now))) }
    ensures some { OnOk result (sqnum.old < sqnum.new) }
    ensures end { IfOk result (λ end. ((V.state volume.new).written lnum ≡ end) × (end % (V.state volume.new).min_io ≡ 0)) }
    ensures units { IfOk result (λ end. end ≡ whole_units (raw_of geometry.now) ((sqnum.new - sqnum.old) * index_node_len (raw_of geometry.now))) }
    ensures standing { IsIndexNotFailed result → AreWritten (V.state volume.old) (V.state volume.new) (lnum ∷ []) index.old index.new sqnum.old sqnum.new }
    ensures text { IsIndexNotFailed result → IsLebOf (raw_of geometry.now) (V.state volume.old) (V.state volume.new) lnum sqnum.old (nodes_written index.old index.new (sqnum.new - sqnum.old)) }
    ensures index { IsIndexTaken (room_in lnum (index_node_len (raw_of geometry.now)) 0) index.old index.new sqnum.old sqnum.new }
    ensures works { WorksInLebs (V.state volume.old) (V.state volume.new) (lnum ∷ []) }
    ensures left { Leaves (V.state volume.old) (V.state volume.new) (λ c. IsLebLeft (raw_of geometry.now) (V.state volume.old) lnum sqnum.old (nodes_written index.old index.new (sqnum.new - sqnum.old)) (c lnum)) }
    ensures answer { IsIndexAnswered (V.state volume.old) (V.state volume.new) result }
    ensures fault { IsNotFull result }
    ensures memory { OnMemory ⊥ result }
    ensures equal { HasEqualKeys index.new result }
    ensures len { length leb.new ≡ length leb.old }
    ensures live { live.new ≡ index_bytes (nodes_written index.old index.new (sqnum.new - sqnum.old)) }
{
    places_are_kept();
    let room = geometry.index_node_len();
    let mut used = 0;
    let laid = lay_nodes(buffer, lnum, room, index, sqnum, leb, &mut used, live);
    let end = put_leb(volume, geometry, lnum, leb, used)?;
    laid?;
    Ok(end)
}

// Puts what is laid into a LEB, with a gap to the end of the unit, and answers that end; where nothing is laid, it does nothing.
fn put_leb<V: Volume>(
    volume: &mut V,
    geometry: &Geometry,
    lnum: u32,
    leb: &mut [u8],
    used: u32,
) -> Result<u32, VolFault>
    requires geometry { IsGeometryOf (raw_of geometry.now) (V.state volume.old) }
    requires lnum { lnum < (V.state volume.old).leb_cnt }
    requires whole { length leb.old ≡ geometry.now.leb_size }
    requires used { used ≤ length leb.old }
    ensures put { IfOk result (λ end. IsLebPut (V.state volume.old) (V.state volume.new) lnum (take used leb.old) used end) }
    ensures units { IfOk result (λ end. end ≡ whole_units (raw_of geometry.now) used) }
    ensures works { WorksInLebs (V.state volume.old) (V.state volume.new) (lnum ∷ []) }
    ensures left { IsPutLeft (raw_of geometry.now) (V.state volume.old) (V.state volume.new) lnum (take used leb.old) used }
    ensures answer { HasAnswer (V.state volume.old) (V.state volume.new) result }
    ensures len { length leb.new ≡ length leb.old }
{
    if used == 0 {
        return Ok(0);
    }
    let end = in_units(geometry, used);
    fill_unit(leb, used as usize, end as usize);
    volume.change(lnum, &leb[..end as usize])?;
    Ok(end)
}

// So many bytes, rounded up to whole units.
fn in_units(geometry: &Geometry, len: u32) -> u32
    requires { len ≤ geometry.now.leb_size }
    ensures more { len ≤ result }
    ensures fits { result ≤ geometry.now.leb_size }
    ensures whole { result % geometry.now.min_io ≡ 0 }
    ensures units { result ≡ whole_units (raw_of geometry.now) len }
{
    let unit = geometry.min_io;
    (len + (unit - 1)) / unit * unit
}

// Fills the gap from the one offset to the other.
fn fill_unit(leb: &mut [u8], from: usize, to: usize)
    requires order { from ≤ to }
    requires room { to ≤ length leb.old }
    requires size { length leb.old < 2 ^ 32 }
    ensures front { take to leb.new ≡ take from leb.old ++ gap_of (to - from) }
    ensures size { length leb.new ≡ length leb.old }
{
    let (front, _behind) = leb.split_at_mut(to);
    let (_before, gap) = front.split_at_mut(from);
    fill_gap(gap);
}
