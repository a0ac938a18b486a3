// The rule on erased ends.

ghost use Rattle.std.specs.Prelude.{◌≡◌, ◌<◌, ◌^◌, List, [], length, IfErr, IfOk, IfSome, IfNone};
ghost use Rattle.ubifs_base.specs.Areas.{main_lebs};
ghost use Rattle.ubifs_base.specs.RawOf.{raw_of};
ghost use Rattle.ubi_volume.specs.Geometry.{IsGeometryOf};
ghost use Rattle.ubi_volume.specs.Volume.{Keeps, SameShape};
ghost use Rattle.ubi_volume.specs.Faults.{HasAreaCause, HasCause, StaysSure, StaysSureArea};
ghost use Rattle.bud_log.specs.Log.{references_of};
ghost use Rattle.bud_log.specs.LogText.{LogText};
ghost use Rattle.sound_image.specs.Breaches.{IsWrittenEnd};
ghost use Rattle.sound_image.specs.Space.{HasErasedEnds};
ghost use Rattle.sound_image.specs.Wrong.{IsFirstWrong};
ghost use Rattle.sound_image.specs.declared.rule.Rule.TheVariants as rules;
ghost use Rattle.image_check.specs.Told.{HasCheckCause, IsBreachOf, StaysSureCheck, TellsBreach};

use crate::end_reads::written_end;
use image_check::CheckFault;
use media_lpt::Lprop;
use media_sys::{Master, RefNode};
use sound_image::{Breach, Rule};
use std::alloc::Global;
use ubi_volume::{AreaFault, VolFault, Volume};
use ubifs_base::Geometry;

/// The rule on erased ends (`HasErasedEnds` of crate sound_image): if the log names no bud, the free bytes at the end of a main LEB are
/// unwritten, unless all its bytes are free or index nodes go on there (`scan_check_cb` of Linux fs/ubifs). The properties are
/// those of all main LEBs, in order. `Unsound` tells the first byte that is written, where 255 is wanted. Takes memory for a LEB, and
/// reads nothing if the log names a bud.
pub fn check_ends<V: Volume>(
    alloc: Global,
    volume: &mut V,
    geometry: &Geometry,
    master: &Master,
    props: &[Lprop],
    references: &[RefNode],
) -> Result<(), CheckFault>
    requires geometry { IsGeometryOf (raw_of geometry.now) (V.state volume.old) }
    requires props { length props.now ≡ main_lebs (raw_of geometry.now) }
    ensures met { (log : List LogText) → references_of log ≡ references.now
        → IfOk result (λ _. HasErasedEnds (V.state volume.old).holds (raw_of geometry.now) master.now props.now log) }
    ensures broken { (log : List LogText) → references_of log ≡ references.now
        → IfErr result (TellsBreach (IsBreachOf rules.Ends (IsFirstWrong (IsWrittenEnd (V.state volume.old).holds (raw_of geometry.now) master.now props.now log)))) }
    ensures keeps { Keeps (V.state volume.old) (V.state volume.new) × SameShape (V.state volume.old) (V.state volume.new) }
    ensures cause { HasCheckCause (V.state volume.old).faults (V.state volume.new).faults result }
    ensures sure { StaysSureCheck (V.state volume.old) (V.state volume.new) result }
{
    if !references.is_empty() {
        return Ok(());
    }
    match read_ends(alloc, volume, geometry, master, props) {
        Ok(None) => Ok(()),
        Ok(Some(breach)) => Err(CheckFault::Unsound { breach }),
        Err(AreaFault::Memory) => Err(CheckFault::Memory),
        Err(AreaFault::Volume { count }) => Err(CheckFault::Volume { count }),
    }
}

// The first byte that is written among free ones at the end of a main LEB, as a breach.
fn read_ends<V: Volume>(
    alloc: Global,
    volume: &mut V,
    geometry: &Geometry,
    master: &Master,
    props: &[Lprop],
) -> Result<Option<Breach>, AreaFault>
    requires geometry { IsGeometryOf (raw_of geometry.now) (V.state volume.old) }
    requires props { length props.now ≡ main_lebs (raw_of geometry.now) }
    ensures met { IfOk result (λ found. IfNone found ((log : List LogText) → HasErasedEnds (V.state volume.old).holds (raw_of geometry.now) master.now props.now log)) }
    ensures broken { IfOk result (λ found. IfSome found (λ breach. (log : List LogText) → references_of log ≡ []
        → IsBreachOf rules.Ends (IsFirstWrong (IsWrittenEnd (V.state volume.old).holds (raw_of geometry.now) master.now props.now log)) breach)) }
    ensures keeps { Keeps (V.state volume.old) (V.state volume.new) }
    ensures shape { SameShape (V.state volume.old) (V.state volume.new) }
    ensures cause { HasAreaCause (V.state volume.old).faults (V.state volume.new).faults result }
    ensures sure { StaysSureArea (V.state volume.old) (V.state volume.new) result }
{
    let mut buffer = vec![in alloc; 0; volume.leb_size() as usize]?;
    let found = read_main(volume, geometry, master, props, &mut buffer)?;
    Ok(found)
}

// The same, with room for the bytes of a LEB.
fn read_main<V: Volume>(
    volume: &mut V,
    geometry: &Geometry,
    master: &Master,
    props: &[Lprop],
    buffer: &mut [u8],
) -> Result<Option<Breach>, VolFault>
    requires geometry { IsGeometryOf (raw_of geometry.now) (V.state volume.old) }
    requires props { length props.now ≡ main_lebs (raw_of geometry.now) }
    requires whole { length buffer.old ≡ (V.state volume.old).leb_size }
    requires size { length buffer.old < 2 ^ 32 }
    ensures met { IfOk result (λ found. IfNone found ((log : List LogText) → HasErasedEnds (V.state volume.old).holds (raw_of geometry.now) master.now props.now log)) }
    ensures broken { IfOk result (λ found. IfSome found (λ breach. (log : List LogText) → references_of log ≡ []
        → IsBreachOf rules.Ends (IsFirstWrong (IsWrittenEnd (V.state volume.old).holds (raw_of geometry.now) master.now props.now log)) breach)) }
    ensures keeps { Keeps (V.state volume.old) (V.state volume.new) }
    ensures shape { SameShape (V.state volume.old) (V.state volume.new) }
    ensures cause { HasCause (V.state volume.old).faults (V.state volume.new).faults result }
    ensures sure { StaysSure (V.state volume.old) (V.state volume.new) result }
{
    let first = geometry.main_first();
    for at in 0..geometry.main_lebs() {
        let prop = props[at as usize];
        if let Some(written) = written_end(volume, geometry, master, first + at, &prop, buffer)? {
            return Ok(Some(Breach::Damaged {
                rule: Rule::Ends,
                lnum: first + at,
                offs: written.offs,
                wanted: 255,
                found: written.byte as u64,
            }));
        }
    }
    Ok(None)
}
