// A commit of the index, one LEB a call.

ghost use Rattle.std.specs.Prelude.{◌≡◌, ◌<◌, ◌+◌, ◌-◌, ◌^◌, ◌∷◌, [], length, IfOk};
ghost use Rattle.ubifs_base.specs.Geometry.{index_node_len};
ghost use Rattle.ubifs_base.specs.RawOf.{raw_of};
ghost use Rattle.ubi_volume.specs.Geometry.{IsGeometryOf};
ghost use Rattle.ubi_volume.specs.Volume.{Leaves};
ghost use Rattle.index_cache.specs.Paged.{dirty_of, fanout_of, frozen_of};
ghost use Rattle.index_commit.specs.Answers.{HasEqualKeys, IsIndexAnswered, IsIndexNotFailed, IsNotFull, OnMemory};
ghost use Rattle.index_commit.specs.LebTexts.{IsLebLeft, IsLebOf, IsNextLeb, index_bytes, nodes_written};
ghost use Rattle.index_commit.specs.Ordered.{AreKeysInOrder, IsNotEqualKeys};
ghost use Rattle.index_commit.specs.Rooms.{room_in};
ghost use Rattle.index_commit.specs.Written.{AreStanding, IsIndexTaken, IsIndexUntouched, KeepsOtherIndexes, WorksInLebs};

use crate::index_at::{IndexHead, WrittenLeb};
use crate::index_fault::IndexFault;
use crate::writing::write_leb;
use index_cache::{NodeBuffer, PagedIndex};
use index_media::an_index_depends_on_its_lebs_alone;
use node_table::places_are_kept;
use std::alloc::Global;
use ubi_volume::Volume;
use ubifs_base::Geometry;

/// Writes the next dirty nodes of the frozen index to this LEB: all that are left, or as many as it has rooms for. It answers where the
/// next node could go, and how many bytes the nodes take, each rounded up to 8.
///
/// Whoever calls it for one LEB after another, until no node is dirty, has written the index as `write_index` does, and may do other work
/// between.
///
/// After any fault but `Volume` each clean node below a root stands, if those stood that were clean before, and none of them in this
/// LEB. `Full` never comes. All memory is taken before anything is written: after `Memory` all is as before.
pub fn write_next_leb<V: Volume>(
    alloc: Global,
    volume: &mut V,
    geometry: &Geometry,
    index: &mut PagedIndex,
    lnum: u32,
    sqnum: &mut u64,
) -> Result<WrittenLeb, IndexFault>
    requires geometry { IsGeometryOf (raw_of geometry.now) (V.state volume.old) }
    requires fanout { fanout_of index.old ≡ geometry.now.fanout }
    requires lnum { lnum < (V.state volume.old).leb_cnt }
    requires some { 0 < length (dirty_of index.old) }
    requires number { sqnum.old + length (dirty_of index.old) < 2 ^ 64 }
    ensures done { IfOk result (λ done. IsNextLeb (raw_of geometry.now) lnum (sqnum.new - sqnum.old) (dirty_of index.new) done.head
        × (done.used ≡ index_bytes (nodes_written index.old index.new (sqnum.new - sqnum.old)))) }
    ensures standing { IsIndexNotFailed result → AreStanding (V.state volume.old) (V.state volume.new) (lnum ∷ []) index.old index.new sqnum.old sqnum.new
        × IsLebOf (raw_of geometry.now) (V.state volume.old) (V.state volume.new) lnum sqnum.old (nodes_written index.old index.new (sqnum.new - sqnum.old)) }
    ensures index { IsIndexTaken (room_in lnum (index_node_len (raw_of geometry.now)) 0) index.old index.new sqnum.old sqnum.new }
    ensures works { WorksInLebs (V.state volume.old) (V.state volume.new) (lnum ∷ []) × Leaves (V.state volume.old) (V.state volume.new)
        (λ c. IsLebLeft (raw_of geometry.now) (V.state volume.old) lnum sqnum.old (nodes_written index.old index.new (sqnum.new - sqnum.old)) (c lnum)) }
    ensures old_stays { KeepsOtherIndexes (V.state volume.old) (V.state volume.new) (lnum ∷ []) }
    ensures answer { IsIndexAnswered (V.state volume.old) (V.state volume.new) result × IsNotFull result
        × HasEqualKeys index.new result × (AreKeysInOrder (frozen_of index.old) → IsNotEqualKeys result)
        × OnMemory (IsIndexUntouched (V.state volume.old) (V.state volume.new) index.old index.new sqnum.old sqnum.new) result }
{
    an_index_depends_on_its_lebs_alone();
    places_are_kept();
    let mut leb = vec![in alloc; 0; geometry.leb_size as usize]?;
    let mut live = 0;
    let mut buffer = NodeBuffer::new(alloc)?;
    let offs = write_leb(
        &mut buffer,
        volume,
        geometry,
        index,
        lnum,
        sqnum,
        &mut leb,
        &mut live,
    )?;
    Ok(WrittenLeb {
        head: IndexHead { lnum, offs },
        used: live,
    })
}
