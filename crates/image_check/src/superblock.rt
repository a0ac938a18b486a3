// The rule on the superblock.

ghost use Rattle.std.specs.Prelude.{◌≡◌, ◌<◌, ℕ, IfOk, IfErr, IfSome, IfNone, length};
ghost use Rattle.ubifs_base.specs.RawOf.{raw_of};
ghost use Rattle.ubi_volume.specs.Volume.{Keeps, SameShape};
ghost use Rattle.ubi_volume.specs.Faults.{HasAreaCause, StaysSureArea};
ghost use Rattle.media_sys.specs.SystemNode.{IsSuper};
ghost use Rattle.media_sys.specs.declared.super_node.Super.{Super as ASuper};
ghost use Rattle.sound_image.specs.Breaches.{IsFirstBreach};
ghost use Rattle.sound_image.specs.Superblock.{HasSuperblock};
ghost use Rattle.image_check.specs.Firsts.{IsWrongSuper};
ghost use Rattle.image_check.specs.Told.{HasCheckCause, StaysSureCheck, TellsBreach};

use crate::fault::CheckFault;
use crate::told::told;
use media_sys::{Super, SuperField};
use sound_image::{Breach, super_field};
use std::alloc::Global;
use ubi_volume::{AreaFault, Volume, read_leb};
use ubifs_base::Geometry;

/// The rule on the superblock: LEB 0 begins with an intact superblock node, which needs no unknown feature and whose geometry is
/// in range (`struct ubifs_sb_node` of ubifs-media.h). Answers the geometry. Takes memory for a LEB.
pub fn check_superblock<V: Volume>(alloc: Global, volume: &mut V) -> Result<Geometry, CheckFault>
    requires { 0 < (V.state volume.old).leb_cnt }
    ensures met { IfOk result (λ geometry. HasSuperblock (V.state volume.old).holds (raw_of geometry)) }
    ensures broken { IfErr result (TellsBreach (IsFirstBreach (V.state volume.old).holds)) }
    ensures keeps { Keeps (V.state volume.old) (V.state volume.new) × SameShape (V.state volume.old) (V.state volume.new) }
    ensures cause { HasCheckCause (V.state volume.old).faults (V.state volume.new).faults result }
    ensures sure { StaysSureCheck (V.state volume.old) (V.state volume.new) result }
{
    told(read_superblock(alloc, volume))
}

// Tells the geometry of LEB 0, or what is wrong with it first.
fn read_superblock<V: Volume>(
    alloc: Global,
    volume: &mut V,
) -> Result<Result<Geometry, Breach>, AreaFault>
    requires { 0 < (V.state volume.old).leb_cnt }
    ensures met { IfOk result (λ found. IfOk found (λ geometry. HasSuperblock (V.state volume.old).holds (raw_of geometry))) }
    ensures broken { IfOk result (λ found. IfErr found (IsFirstBreach (V.state volume.old).holds)) }
    ensures keeps { Keeps (V.state volume.old) (V.state volume.new) }
    ensures shape { SameShape (V.state volume.old) (V.state volume.new) }
    ensures cause { HasAreaCause (V.state volume.old).faults (V.state volume.new).faults result }
    ensures sure { StaysSureArea (V.state volume.old) (V.state volume.new) result }
{
    let mut leb = vec![in alloc; 0; volume.leb_size() as usize]?;
    read_first(alloc, volume, &mut leb)
}

// Reads LEB 0 into the buffer.
fn read_first<V: Volume>(
    alloc: Global,
    volume: &mut V,
    leb: &mut [u8],
) -> Result<Result<Geometry, Breach>, AreaFault>
    requires some { 0 < (V.state volume.old).leb_cnt }
    requires whole { length leb.old ≡ (V.state volume.old).leb_size }
    ensures met { IfOk result (λ found. IfOk found (λ geometry. HasSuperblock (V.state volume.old).holds (raw_of geometry))) }
    ensures broken { IfOk result (λ found. IfErr found (IsFirstBreach (V.state volume.old).holds)) }
    ensures keeps { Keeps (V.state volume.old) (V.state volume.new) }
    ensures shape { SameShape (V.state volume.old) (V.state volume.new) }
    ensures cause { HasAreaCause (V.state volume.old).faults (V.state volume.new).faults result }
    ensures sure { StaysSureArea (V.state volume.old) (V.state volume.new) result }
{
    read_leb(volume, 0, leb)?;
    Ok(geometry_in(alloc, leb))
}

// The geometry that the superblock of a LEB tells.
fn geometry_in(alloc: Global, leb: &[u8]) -> Result<Geometry, Breach>
    ensures met { IfOk result (λ geometry. HasSuperblock (λ _. leb.now) (raw_of geometry)) }
    ensures broken { IfErr result (IsWrongSuper leb.now) }
{
    if leb.len() < 4096 {
        return Err(Breach::Super {
            field: SuperField::Node,
        });
    }
    let Some(node) = superblock_of(alloc, leb.split_at(4096).0) else {
        return Err(Breach::Super {
            field: SuperField::Node,
        });
    };
    if let Some(what) = node.feature() {
        return Err(Breach::Feature {
            what,
            lnum: 0,
            offs: 0,
        });
    }
    match Geometry::new(&node.raw()) {
        Ok(geometry) => Ok(geometry),
        Err(fault) => Err(Breach::Super {
            field: super_field(fault.field),
        }),
    }
}

// The superblock that the bytes are.
fn superblock_of(alloc: Global, bytes: &[u8]) -> Option<Super>
    ensures some { IfSome result (λ node. (sqnum : ℕ) × (group : ℕ) × IsSuper bytes.now sqnum group node) }
    ensures none { IfNone result ((sqnum group : ℕ) (node : ASuper) → IsSuper bytes.now sqnum group node → ⊥) }
{
    let Ok(node) = Super::decode(alloc, bytes) else {
        return None;
    };
    node
}
