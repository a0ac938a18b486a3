// The rule on leaves.

ghost use Rattle.std.specs.Prelude.{◌≡◌, All, IfErr, IfOk, OnOk};
ghost use Rattle.ubifs_base.specs.RawOf.{raw_of};
ghost use Rattle.ubi_volume.specs.Geometry.{IsGeometryOf};
ghost use Rattle.ubi_volume.specs.Volume.{Keeps, SameShape};
ghost use Rattle.sound_image.specs.Breaches.{IsBrokenLeaf};
ghost use Rattle.sound_image.specs.Image.{Image};
ghost use Rattle.sound_image.specs.Leaves.{HasItsNode};
ghost use Rattle.sound_image.specs.LeafBreaches.{IsWrongOfLeaves};
ghost use Rattle.sound_image.specs.Wrong.{IsFirstWrong};
ghost use Rattle.sound_image.specs.declared.rule.Rule.TheVariants as rules;
ghost use Rattle.image_check.specs.Told.{HasCheckCause, IsBreachOf, StaysSureCheck, TellsBreach};
ghost use Rattle.image_tree.specs.Reads.{AreLeavesMet, IsReadOfSome, IsImageReadSoFar, leaves_told};

use crate::reading::{leaves_of, read_tree};
use crate::recovered_tree::RecoveredTree;
use crate::tree_read::TreeRead;
use image_check::CheckFault;
use index_tree::Leaf;
use journal_scan::JournalRead;
use leaf_check::check_leaves;
use media_lpt::Lprop;
use media_sys::RefNode;
use sound_image::what_was_read_stands;
use std::alloc::Global;
use std::thread::Threads;
use ubi_volume::{AreaFault, Volume};
use ubifs_base::Geometry;

/// The rule on leaves (`HasLeaves` of crate sound_image), and what was read and recovered for it. `leaves` are those of the committed
/// index, `references` the log's, and `journal` is what the buds say, as the checks of index, log and buds answer them. Reads what
/// stands at the committed leaves' places and the orphans, and recovers the tree as a mount does. After recovery each leaf of the
/// index has an intact node of its key and length, which needs no feature that isn't known here, in a main LEB that isn't marked as the
/// index's; no two overlap, and none is missing (`dbg_walk_index` with `check_leaf` of Linux fs/ubifs). `Unsound` tells the first place.
/// Takes memory for a fixed multiple of the leaves and of what the journal says, and for a LEB.
pub fn check_recovered<R: Threads + Sync, V: Volume>(
    rt: &R,
    alloc: Global,
    volume: &mut V,
    geometry: &Geometry,
    props: &[Lprop],
    leaves: &[Leaf],
    references: &[RefNode],
    journal: &JournalRead,
) -> Result<TreeRead, CheckFault>
    requires geometry { IsGeometryOf (raw_of geometry.now) (V.state volume.old) }
    ensures met { IfOk result (λ read. (image : Image) → IsImageReadSoFar (V.state volume.old).holds (record { geo = raw_of geometry.now; props = props.now; leaves = leaves.now; references = references.now; journal = journal.now }) image → IsReadOfSome (V.state volume.old).holds (record { geo = raw_of geometry.now; props = props.now; leaves = leaves.now; references = references.now; journal = journal.now }) image read) }
    ensures broken { IfErr result (λ fault. (image : Image) → IsImageReadSoFar (V.state volume.old).holds (record { geo = raw_of geometry.now; props = props.now; leaves = leaves.now; references = references.now; journal = journal.now }) image → TellsBreach (IsBreachOf rules.Leaves (IsBrokenLeaf (V.state volume.old).holds image)) fault) }
    ensures keeps { Keeps (V.state volume.old) (V.state volume.new) × SameShape (V.state volume.old) (V.state volume.new) }
    ensures cause { HasCheckCause (V.state volume.old).faults (V.state volume.new).faults result }
    ensures sure { StaysSureCheck (V.state volume.old) (V.state volume.new) result }
{
    what_was_read_stands();
    match read_tree(rt, alloc, volume, geometry, leaves, references, journal) {
        Ok(found) => check_read(alloc, volume, geometry, props, found),
        Err(AreaFault::Memory) => Err(CheckFault::Memory),
        Err(AreaFault::Volume { count }) => Err(CheckFault::Volume { count }),
    }
}

// The rule on leaves of what was recovered.
fn check_read<V: Volume>(
    alloc: Global,
    volume: &mut V,
    geometry: &Geometry,
    props: &[Lprop],
    found: RecoveredTree,
) -> Result<TreeRead, CheckFault>
    requires { All (HasItsNode (V.state volume.old).holds) found.intact.items }
    ensures same { IfOk result (λ made. made ≡ found.read) }
    ensures met { OnOk result (AreLeavesMet (V.state volume.old).holds (raw_of geometry.now) props.now found.read.recovered.missing.items (leaves_told found.read.recovered)) }
    ensures broken { IfErr result (TellsBreach (IsBreachOf rules.Leaves (IsFirstWrong (IsWrongOfLeaves (V.state volume.old).holds (raw_of geometry.now) props.now found.read.recovered.missing.items (leaves_told found.read.recovered))))) }
    ensures keeps { Keeps (V.state volume.old) (V.state volume.new) × SameShape (V.state volume.old) (V.state volume.new) }
    ensures cause { HasCheckCause (V.state volume.old).faults (V.state volume.new).faults result }
    ensures sure { StaysSureCheck (V.state volume.old) (V.state volume.new) result }
{
    let Ok(all) = leaves_of(alloc, &found.read.recovered) else {
        return Err(CheckFault::Memory);
    };
    check_leaves(
        alloc,
        volume,
        geometry,
        props,
        all.as_slice(),
        found.read.recovered.missing.as_slice(),
        found.intact.as_slice(),
    )?;
    Ok(found.read)
}
