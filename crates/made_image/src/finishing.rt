// The areas around leaves and an index.

ghost use Rattle.std.specs.Prelude.{◌≡◌, ◌≢◌, ◌<◌, ◌≤◌, ◌^◌, ◌+◌, ℕ, List, [], false, IfOk, OnOk};
ghost use Rattle.ubifs_base.specs.Areas.{lpt_first, main_first};
ghost use Rattle.ubifs_base.specs.RawOf.{raw_of};
ghost use Rattle.ubi_volume.specs.Faults.{HasAreaCause, StaysSureArea};
ghost use Rattle.ubi_volume.specs.Frame.{IsSameLeb};
ghost use Rattle.ubi_volume.specs.Geometry.{IsGeometryOf};
ghost use Rattle.ubi_volume.specs.Volume.{SameShape, filled};
ghost use Rattle.small_areas.specs.Copies.{IsMasterLeb};
ghost use Rattle.index_media.specs.PlacedRow.{PlacedRow};
ghost use Rattle.leaf_map.specs.Kept.{Placed};
ghost use Rattle.made_image.specs.Around.{AreMainFilled, HoldsIndexed, IsMadeAround, HasTreeLaid};

use crate::areas::lay_areas;
use crate::filled_main::FilledMain;
use crate::master::master_over;
use crate::properties::properties;
use index_media::an_index_depends_on_its_lebs_alone;
use laid_main::laid_lebs_have_their_properties;
use lpt_area::write_tree;
use media_sys::Master;
use sound_image::what_is_written_meets_the_rules;
use std::alloc::Global;
use ubi_volume::{AreaFault, Volume};
use ubifs_base::Geometry;
use volume_format::{new_superblock, write_superblock};

/// Lays the areas around leaves and an index that stand in the main LEBs: the tree of properties, the log's start, both copies of the master, and
/// last the superblock, with this identifier. Nodes that were laid before have sequence numbers up to `sqnum`. If leaf nodes that show a tree stand
/// there with an index of them, the contents are a laid image of it then. The main LEBs stay as they were, whatever the answer. The error is want of memory
/// for a LEB and for the properties, or a fault of the volume; some of the areas may be written then.
pub fn finish_image<V: Volume>(
    alloc: Global,
    volume: &mut V,
    geometry: &Geometry,
    main: &FilledMain,
    sqnum: u64,
    uuid: &[u8; 16],
) -> Result<(), AreaFault>
    requires geometry { IsGeometryOf (raw_of geometry.now) (V.state volume.old) }
    requires small { geometry.now.big ≡ false }
    requires number { sqnum < 2 ^ 63 }
    requires filled { AreMainFilled (raw_of geometry.now) main.now }
    requires blank { (lnum : ℕ) → lnum < main_first (raw_of geometry.now) → (V.state volume.old).holds lnum ≡ filled (V.state volume.old).leb_size [] }
    requires open_there { (lnum : ℕ) → IsMasterLeb lnum → (V.state volume.old).written lnum ≡ 0 }
    ensures made { OnOk result ((placed : PlacedRow) (nodes : List Placed) → HoldsIndexed (raw_of geometry.now) (V.state volume.old).holds main.now placed nodes
        → IsMadeAround (V.state volume.new).holds (raw_of geometry.now) uuid.now sqnum main.now placed nodes) }
    ensures main { (lnum : ℕ) → main_first (raw_of geometry.now) ≤ lnum → IsSameLeb (V.state volume.old) (V.state volume.new) lnum }
    ensures shape { SameShape (V.state volume.old) (V.state volume.new) }
    ensures cause { HasAreaCause (V.state volume.old).faults (V.state volume.new).faults result }
    ensures sure { StaysSureArea (V.state volume.old) (V.state volume.new) result }
{
    an_index_depends_on_its_lebs_alone();
    laid_lebs_have_their_properties();
    what_is_written_meets_the_rules();
    let master = lay_properties(alloc, volume, geometry, main)?;
    lay_areas(alloc, volume, geometry, &master, sqnum)?;
    let node = new_superblock(geometry, uuid);
    write_superblock(alloc, volume, geometry, &node, sqnum + 4)
}

// Writes the tree of properties, and answers the master over it.
fn lay_properties<V: Volume>(
    alloc: Global,
    volume: &mut V,
    geometry: &Geometry,
    main: &FilledMain,
) -> Result<Master, AreaFault>
    requires geometry { IsGeometryOf (raw_of geometry.now) (V.state volume.old) }
    requires filled { AreMainFilled (raw_of geometry.now) main.now }
    ensures laid { IfOk result (λ master. HasTreeLaid (raw_of geometry.now) main.now (V.state volume.new).holds master) }
    ensures others { (lnum : ℕ) → lnum ≢ lpt_first (raw_of geometry.now) → IsSameLeb (V.state volume.old) (V.state volume.new) lnum }
    ensures spent { (V.state volume.old).spent → (V.state volume.new).spent }
    ensures shape { SameShape (V.state volume.old) (V.state volume.new) }
    ensures cause { HasAreaCause (V.state volume.old).faults (V.state volume.new).faults result }
    ensures sure { StaysSureArea (V.state volume.old) (V.state volume.new) result }
{
    laid_lebs_have_their_properties();
    let props = properties(alloc, geometry, &main.leaves, &main.index)?;
    let at = write_tree(alloc, volume, geometry, &props, 0)?;
    Ok(master_over(geometry, main, &props, &at))
}
