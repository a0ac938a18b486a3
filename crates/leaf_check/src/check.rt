// The check of leaves.

ghost use Rattle.std.specs.Prelude.{◌≡◌, All, IfErr, IfNone, IfOk, IfSome, IsTrue, [], map};
ghost use Rattle.ubifs_base.specs.RawOf.{raw_of};
ghost use Rattle.ubi_volume.specs.Volume.{Keeps, SameShape};
ghost use Rattle.ubi_volume.specs.Faults.{HasAreaCause, StaysSureArea};
ghost use Rattle.index_media.specs.PlacedRow.{are_disjoint, branch_to};
ghost use Rattle.sound_image.specs.LeafBreaches.{IsWrongOfLeaves};
ghost use Rattle.sound_image.specs.Leaves.{HasItsNode, IsSoundLeaf};
ghost use Rattle.sound_image.specs.Wrong.{IsFirstWrong};
ghost use Rattle.sound_image.specs.declared.rule.Rule.TheVariants as rules;
ghost use Rattle.image_check.specs.Told.{HasCheckCause, IsBreachOf, StaysSureCheck, TellsBreach};

use crate::first::first_breach;
use crate::sweep::wrong_leaves;
use image_check::CheckFault;
use index_tree::Leaf;
use media_lpt::Lprop;
use sound_image::Breach;
use std::alloc::Global;
use ubi_volume::{AreaFault, Volume};
use ubifs_base::Geometry;

/// The rule on leaves (`HasLeaves` of crate sound_image) of the leaves of an index after recovery, and of those that nobody can read:
/// each leaf has an intact node of its key and length, which needs no feature that isn't known here, in a main LEB that isn't marked as
/// the index's by these properties; no two overlap; and none is missing (`dbg_walk_index` with `check_leaf` of Linux fs/ubifs).
/// `Unsound` tells the first place: a feature, the type of the key's nodes and the byte that stands for a type, or both lengths. Leaves
/// may come in any order. Those that are known to be intact aren't read again, if `intact` has them in order of LEB, offset and length,
/// as [`crate::read_committed`] answers them. Takes memory for the leaves and for the missing ones, for 4,256 bytes, and for a LEB if
/// something is wrong.
pub fn check_leaves<V: Volume>(
    alloc: Global,
    volume: &mut V,
    geometry: &Geometry,
    props: &[Lprop],
    leaves: &[Leaf],
    missing: &[Leaf],
    intact: &[Leaf],
) -> Result<(), CheckFault>
    requires { All (HasItsNode (V.state volume.old).holds) intact.now }
    ensures met { IfOk result (λ _. All (IsSoundLeaf (V.state volume.old).holds (raw_of geometry.now) props.now) leaves.now × (missing.now ≡ []) × IsTrue (are_disjoint (map branch_to leaves.now))) }
    ensures broken { IfErr result (TellsBreach (IsBreachOf rules.Leaves (IsFirstWrong (IsWrongOfLeaves (V.state volume.old).holds (raw_of geometry.now) props.now missing.now leaves.now)))) }
    ensures keeps { Keeps (V.state volume.old) (V.state volume.new) × SameShape (V.state volume.old) (V.state volume.new) }
    ensures cause { HasCheckCause (V.state volume.old).faults (V.state volume.new).faults result }
    ensures sure { StaysSureCheck (V.state volume.old) (V.state volume.new) result }
{
    match find_breach(alloc, volume, geometry, props, leaves, missing, intact) {
        Ok(None) => Ok(()),
        Ok(Some(breach)) => Err(CheckFault::Unsound { breach }),
        Err(AreaFault::Memory) => Err(CheckFault::Memory),
        Err(AreaFault::Volume { count }) => Err(CheckFault::Volume { count }),
    }
}

// What is wrong first.
fn find_breach<V: Volume>(
    alloc: Global,
    volume: &mut V,
    geometry: &Geometry,
    props: &[Lprop],
    leaves: &[Leaf],
    missing: &[Leaf],
    intact: &[Leaf],
) -> Result<Option<Breach>, AreaFault>
    requires { All (HasItsNode (V.state volume.old).holds) intact.now }
    ensures met { IfOk result (λ found. IfNone found (All (IsSoundLeaf (V.state volume.old).holds (raw_of geometry.now) props.now) leaves.now × (missing.now ≡ []) × IsTrue (are_disjoint (map branch_to leaves.now)))) }
    ensures broken { IfOk result (λ found. IfSome found (IsBreachOf rules.Leaves (IsFirstWrong (IsWrongOfLeaves (V.state volume.old).holds (raw_of geometry.now) props.now missing.now leaves.now)))) }
    ensures keeps { Keeps (V.state volume.old) (V.state volume.new) }
    ensures shape { SameShape (V.state volume.old) (V.state volume.new) }
    ensures cause { HasAreaCause (V.state volume.old).faults (V.state volume.new).faults result }
    ensures sure { StaysSureArea (V.state volume.old) (V.state volume.new) result }
{
    let mut wrong = wrong_leaves(alloc, volume, geometry, props, leaves, intact)?;
    wrong.extend_from_slice(missing)?;
    first_breach(alloc, volume, &wrong)
}
