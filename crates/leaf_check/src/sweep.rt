// The leaves that are wrong, as far as the first place at which one is.

ghost use Rattle.std.specs.Prelude.{◌≡◌, ◌⊎◌, IfOk, IsFalse, IsTrue, OnOk, length};
ghost use Rattle.std.specs.List.{AllByRecursion};
ghost use Rattle.ubifs_base.specs.RawOf.{raw_of};
ghost use Rattle.ubi_volume.specs.Volume.{Keeps, SameShape};
ghost use Rattle.ubi_volume.specs.Faults.{HasAreaCause, HasCause, StaysSure, StaysSureArea};
ghost use Rattle.sound_image.specs.Leaves.{HasItsNode, IsSoundLeaf};
ghost use Rattle.leaf_check.specs.Overlaps.{AreLeavesInOrder, IsNarrow, touches as touches_one};
ghost use Rattle.leaf_check.specs.Sweep.{IsLeafJudged, IsSwept};

use crate::known::{from_place, is_first};
use crate::order::in_order;
use crate::reading::MOST_BYTES;
use crate::sound::is_sound;
use crate::touching::{is_past, touches};
use index_tree::Leaf;
use media_lpt::Lprop;
use std::alloc::Global;
use ubi_volume::{AreaFault, VolFault, Volume};
use ubifs_base::Geometry;

/// Those of some leaves that are wrong: not sound, or overlapping another. Each that is left out stands behind one of them. Of leaves
/// that are known to be intact nothing is read, if these stand in order of LEB, offset and length.
pub(crate) fn wrong_leaves<V: Volume>(
    alloc: Global,
    volume: &mut V,
    geometry: &Geometry,
    props: &[Lprop],
    leaves: &[Leaf],
    intact: &[Leaf],
) -> Result<Vec<Leaf>, AreaFault>
    requires { AllByRecursion (HasItsNode (V.state volume.old).holds) intact.now }
    ensures swept { IfOk result (λ wrong. IsSwept (IsSoundLeaf (V.state volume.old).holds (raw_of geometry.now) props.now) leaves.now wrong.items) }
    ensures keeps { Keeps (V.state volume.old) (V.state volume.new) }
    ensures shape { SameShape (V.state volume.old) (V.state volume.new) }
    ensures cause { HasAreaCause (V.state volume.old).faults (V.state volume.new).faults result }
    ensures sure { StaysSureArea (V.state volume.old) (V.state volume.new) result }
{
    let ordered = in_order(alloc, leaves)?;
    let mut buffer = vec![in alloc; 0; MOST_BYTES as usize]?;
    sweep(
        alloc,
        volume,
        geometry,
        props,
        &ordered,
        intact,
        &mut buffer,
    )
}

// The same of leaves in order of place, with room for any leaf node.
fn sweep<V: Volume>(
    alloc: Global,
    volume: &mut V,
    geometry: &Geometry,
    props: &[Lprop],
    ordered: &[Leaf],
    intact: &[Leaf],
    buffer: &mut [u8],
) -> Result<Vec<Leaf>, AreaFault>
    requires room { length buffer.old ≡ 4256 }
    requires order { AreLeavesInOrder ordered.now }
    requires narrow { AllByRecursion IsNarrow ordered.now }
    requires intact { AllByRecursion (HasItsNode (V.state volume.old).holds) intact.now }
    ensures swept { IfOk result (λ wrong. IsSwept (IsSoundLeaf (V.state volume.old).holds (raw_of geometry.now) props.now) ordered.now wrong.items) }
    ensures keeps { Keeps (V.state volume.old) (V.state volume.new) }
    ensures shape { SameShape (V.state volume.old) (V.state volume.new) }
    ensures cause { HasAreaCause (V.state volume.old).faults (V.state volume.new).faults result }
    ensures sure { StaysSureArea (V.state volume.old) (V.state volume.new) result }
{
    let mut wrong = Vec::new(alloc);
    let mut last = None;
    let mut known = intact;
    let mut left = ordered;
    'sweeping: while let Some((leaf, rest)) = left.split_first() {
        if is_past(&wrong, leaf) {
            return Ok(wrong);
        }
        known = from_place(known, leaf);
        let seen = is_first(known, leaf);
        judge(
            volume, geometry, props, last, leaf, rest, seen, buffer, &mut wrong,
        )?;
        last = Some(*leaf);
        left = rest;
    }
    Ok(wrong)
}

// Keeps a leaf if it is wrong.
fn judge<V: Volume>(
    volume: &mut V,
    geometry: &Geometry,
    props: &[Lprop],
    last: Option<Leaf>,
    leaf: &Leaf,
    behind: &[Leaf],
    intact: bool,
    buffer: &mut [u8],
    wrong: &mut Vec<Leaf>,
) -> Result<(), AreaFault>
    requires room { length buffer.old ≡ 4256 }
    requires intact { IsTrue intact → HasItsNode (V.state volume.old).holds leaf.now }
    ensures len { length buffer.new ≡ length buffer.old }
    ensures judged { OnOk result (IsLeafJudged (IsSoundLeaf (V.state volume.old).holds (raw_of geometry.now) props.now) last leaf.now behind.now wrong.old.items wrong.new.items) }
    ensures keeps { Keeps (V.state volume.old) (V.state volume.new) }
    ensures shape { SameShape (V.state volume.old) (V.state volume.new) }
    ensures cause { HasAreaCause (V.state volume.old).faults (V.state volume.new).faults result }
    ensures sure { StaysSureArea (V.state volume.old) (V.state volume.new) result }
{
    let bad = is_wrong(volume, geometry, props, last, leaf, behind, intact, buffer)?;
    if !bad {
        return Ok(());
    }
    wrong.push(*leaf)?;
    Ok(())
}

// Whether a leaf overlaps a neighbour, or is not sound.
fn is_wrong<V: Volume>(
    volume: &mut V,
    geometry: &Geometry,
    props: &[Lprop],
    last: Option<Leaf>,
    leaf: &Leaf,
    behind: &[Leaf],
    intact: bool,
    buffer: &mut [u8],
) -> Result<bool, VolFault>
    requires room { length buffer.old ≡ 4256 }
    requires intact { IsTrue intact → HasItsNode (V.state volume.old).holds leaf.now }
    ensures len { length buffer.new ≡ length buffer.old }
    ensures yes { IfOk result (λ wrong. IsTrue wrong → IsTrue (touches_one last leaf.now behind.now) ⊎ (IsSoundLeaf (V.state volume.old).holds (raw_of geometry.now) props.now leaf.now → ⊥)) }
    ensures apart { IfOk result (λ wrong. IsFalse wrong → IsFalse (touches_one last leaf.now behind.now)) }
    ensures sound { IfOk result (λ wrong. IsFalse wrong → IsSoundLeaf (V.state volume.old).holds (raw_of geometry.now) props.now leaf.now) }
    ensures keeps { Keeps (V.state volume.old) (V.state volume.new) }
    ensures shape { SameShape (V.state volume.old) (V.state volume.new) }
    ensures cause { HasCause (V.state volume.old).faults (V.state volume.new).faults result }
    ensures sure { StaysSure (V.state volume.old) (V.state volume.new) result }
{
    let sound = is_sound(volume, geometry, props, leaf, intact, buffer)?;
    if touches(last, leaf, behind) {
        return Ok(true);
    }
    Ok(!sound)
}
