// The rule on the orphan area.

ghost use Rattle.std.specs.Prelude.{◌≡◌, ◌<◌, ◌^◌, IfErr, IfOk, IfSome, IfNone, length};
ghost use Rattle.ubifs_base.specs.RawOf.{raw_of};
ghost use Rattle.ubi_volume.specs.Geometry.{IsGeometryOf};
ghost use Rattle.ubi_volume.specs.Volume.{Keeps, SameShape};
ghost use Rattle.ubi_volume.specs.Faults.{HasAreaCause, StaysSureArea};
ghost use Rattle.sound_image.specs.Breaches.{IsNoOrphan};
ghost use Rattle.sound_image.specs.OrphanLists.{HasOrphanLists, HasOrphanNodes};
ghost use Rattle.sound_image.specs.Wrong.{IsFirstWrong};
ghost use Rattle.sound_image.specs.declared.rule.Rule.TheVariants as rules;
ghost use Rattle.image_check.specs.Firsts.{IsFirstForeign, first_foreign_of, foreign_or_tail};
ghost use Rattle.image_check.specs.Told.{HasCheckCause, IsBreachOf, StaysSureCheck, TellsBreach};

use crate::fault::CheckFault;
use crate::places::{is_orphan_or_padding, type_byte, type_number};
use crate::told::told;
use leb_scan::{Found, Scanner, Tail, one_text};
use sound_image::{Breach, Rule};
use std::alloc::Global;
use ubi_volume::{AreaFault, Volume, read_leb};
use ubifs_base::Geometry;

/// The rule on the orphan area: its LEBs have orphan nodes of the grammar, padding, and nothing else (`struct ubifs_orph_node` of
/// ubifs-media.h). Takes memory for a LEB.
pub fn check_orphans<V: Volume>(
    alloc: Global,
    volume: &mut V,
    geometry: &Geometry,
) -> Result<(), CheckFault>
    requires geometry { IsGeometryOf (raw_of geometry.now) (V.state volume.old) }
    ensures met { IfOk result (λ _. HasOrphanLists (V.state volume.old).holds (raw_of geometry.now)) }
    ensures broken { IfErr result (TellsBreach (IsBreachOf rules.Orphans (IsFirstWrong (IsNoOrphan (V.state volume.old).holds (raw_of geometry.now))))) }
    ensures keeps { Keeps (V.state volume.old) (V.state volume.new) × SameShape (V.state volume.old) (V.state volume.new) }
    ensures cause { HasCheckCause (V.state volume.old).faults (V.state volume.new).faults result }
    ensures sure { StaysSureCheck (V.state volume.old) (V.state volume.new) result }
{
    told(read_area(alloc, volume, geometry))
}

// Tells what is wrong first in the orphan area.
fn read_area<V: Volume>(
    alloc: Global,
    volume: &mut V,
    geometry: &Geometry,
) -> Result<Result<(), Breach>, AreaFault>
    requires geometry { IsGeometryOf (raw_of geometry.now) (V.state volume.old) }
    ensures met { IfOk result (λ found. IfOk found (λ _. HasOrphanLists (V.state volume.old).holds (raw_of geometry.now))) }
    ensures broken { IfOk result (λ found. IfErr found (IsBreachOf rules.Orphans (IsFirstWrong (IsNoOrphan (V.state volume.old).holds (raw_of geometry.now))))) }
    ensures keeps { Keeps (V.state volume.old) (V.state volume.new) }
    ensures shape { SameShape (V.state volume.old) (V.state volume.new) }
    ensures cause { HasAreaCause (V.state volume.old).faults (V.state volume.new).faults result }
    ensures sure { StaysSureArea (V.state volume.old) (V.state volume.new) result }
{
    let mut leb = vec![in alloc; 0; volume.leb_size() as usize]?;
    read_lists(volume, geometry, &mut leb)
}

// Reads the LEBs of the orphan area, one after another.
fn read_lists<V: Volume>(
    volume: &mut V,
    geometry: &Geometry,
    leb: &mut [u8],
) -> Result<Result<(), Breach>, AreaFault>
    requires geometry { IsGeometryOf (raw_of geometry.now) (V.state volume.old) }
    requires whole { length leb.old ≡ (V.state volume.old).leb_size }
    requires size { length leb.old < 2 ^ 32 }
    ensures met { IfOk result (λ found. IfOk found (λ _. HasOrphanLists (V.state volume.old).holds (raw_of geometry.now))) }
    ensures broken { IfOk result (λ found. IfErr found (IsBreachOf rules.Orphans (IsFirstWrong (IsNoOrphan (V.state volume.old).holds (raw_of geometry.now))))) }
    ensures keeps { Keeps (V.state volume.old) (V.state volume.new) }
    ensures shape { SameShape (V.state volume.old) (V.state volume.new) }
    ensures cause { HasAreaCause (V.state volume.old).faults (V.state volume.new).faults result }
    ensures sure { StaysSureArea (V.state volume.old) (V.state volume.new) result }
{
    one_text();
    for lnum in geometry.orph_first()..geometry.main_first() {
        read_leb(volume, lnum, leb)?;
        if let Some(foreign) = first_foreign(leb) {
            return Ok(Err(Breach::Damaged {
                rule: Rule::Orphans,
                lnum,
                offs: foreign.offs,
                wanted: 11,
                found: foreign.kind as u64,
            }));
        }
    }
    Ok(Ok(()))
}

// A place in a LEB, and the number that stands there for a node's type.
#[derive(Clone, Copy)]
pub(crate) struct Foreign {
    pub offs: u32,
    pub kind: u8,
}

// The first place of a LEB's text at which a node stands that is neither an orphan node nor padding, or at which the text has a
// torn tail.
fn first_foreign(leb: &[u8]) -> Option<Foreign>
    requires { length leb.now < 2 ^ 32 }
    ensures none { IfNone result (HasOrphanNodes leb.now) }
    ensures some { IfSome result (λ foreign. IsFirstForeign leb.now foreign.offs foreign.kind) }
{
    one_text();
    let mut first = None;
    let mut scanner = Scanner::new(0);
    while let Some(found) = scanner.next(leb) {
        first = first_of(first, found);
    }
    first_or_tail(leb, first, scanner.place(), scanner.tail(leb))
}

// What was found first, or a torn tail at this place.
fn first_or_tail(leb: &[u8], first: Option<Foreign>, end: u32, tail: Tail) -> Option<Foreign>
    ensures { result ≡ foreign_or_tail leb.now first end tail }
{
    if let Some(foreign) = first {
        return Some(foreign);
    }
    match tail {
        Tail::Clean => None,
        Tail::Torn => Some(Foreign {
            offs: end,
            kind: type_byte(leb, end),
        }),
    }
}

// What was found first, or the next node, if it is neither an orphan node nor padding.
fn first_of(first: Option<Foreign>, found: Found) -> Option<Foreign>
    ensures { result ≡ first_foreign_of first found }
{
    if let Some(foreign) = first {
        return Some(foreign);
    }
    if is_orphan_or_padding(found.kind) {
        return None;
    }
    Some(Foreign {
        offs: found.offs,
        kind: type_number(found.kind),
    })
}
