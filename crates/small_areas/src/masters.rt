// The latest master.

ghost use Rattle.std.specs.Prelude.{◌≡◌, ◌<◌, ◌≤◌, ◌^◌, ℕ, IfOk, IfSome, IfNone, length};
ghost use Rattle.media_sys.specs.SystemNode.{IsMaster};
ghost use Rattle.media_sys.specs.declared.master.Master.{Master as AMaster};
ghost use Rattle.small_areas.specs.Masters.{IsLatest, IsLastMaster, IsLastFound, HasNoMaster};
ghost use Rattle.small_areas.specs.Later.{IsReadOf, later_of};
ghost use Rattle.ubi_volume.specs.Volume.{Keeps, SameShape};
ghost use Rattle.ubi_volume.specs.Faults.{HasCause, HasAreaCause, StaysSure, StaysSureArea};

use crate::placed_master::PlacedMaster;
use leb_scan::{Found, Scanner};
use media_sys::{Master, one_node};
use std::alloc::Global;
use ubi_volume::{AreaFault, VolFault, Volume, read_leb};
use ubifs_base::NodeType;

/// The latest master of a volume, with its place: of the last ones in LEBs 1 and 2 that with the greater sequence number,
/// and LEB 1's where both are equal. None exactly where neither LEB has one.
pub fn latest<V: Volume>(alloc: Global, volume: &mut V) -> Result<Option<PlacedMaster>, AreaFault>
    requires lebs { 2 < (V.state volume.old).leb_cnt }
    ensures found { IfOk result (λ r. IfSome r (IsLatest ((V.state volume.old).holds 1) ((V.state volume.old).holds 2))) }
    ensures none { IfOk result (λ r. IfNone r (HasNoMaster ((V.state volume.old).holds 1) × HasNoMaster ((V.state volume.old).holds 2))) }
    ensures keeps { Keeps (V.state volume.old) (V.state volume.new) }
    ensures shape { SameShape (V.state volume.old) (V.state volume.new) }
    ensures cause { HasAreaCause (V.state volume.old).faults (V.state volume.new).faults result }
    ensures sure { StaysSureArea (V.state volume.old) (V.state volume.new) result }
{
    let mut leb = vec![in alloc; 0; volume.leb_size() as usize]?;
    let one = master_in(alloc, volume, 1, &mut leb)?;
    let two = master_in(alloc, volume, 2, &mut leb)?;
    Ok(later(one, two))
}

// The last master of a LEB, which is read into the buffer.
pub(crate) fn master_in<V: Volume>(
    alloc: Global,
    volume: &mut V,
    lnum: u32,
    leb: &mut [u8],
) -> Result<Option<PlacedMaster>, VolFault>
    requires lnum { lnum < (V.state volume.old).leb_cnt }
    requires whole { length leb.old ≡ (V.state volume.old).leb_size }
    requires size { length leb.old < 2 ^ 32 }
    ensures read { IfOk result (IsReadOf lnum ((V.state volume.old).holds lnum)) }
    ensures len { length leb.new ≡ length leb.old }
    ensures keeps { Keeps (V.state volume.old) (V.state volume.new) }
    ensures shape { SameShape (V.state volume.old) (V.state volume.new) }
    ensures cause { HasCause (V.state volume.old).faults (V.state volume.new).faults result }
    ensures sure { StaysSure (V.state volume.old) (V.state volume.new) result }
{
    read_leb(volume, lnum, leb)?;
    Ok(last_master(alloc, lnum, leb))
}

// Of two masters that with the greater sequence number, and the first where both are equal.
fn later(one: Option<PlacedMaster>, two: Option<PlacedMaster>) -> Option<PlacedMaster>
    ensures { result ≡ later_of one two }
{
    let Some(first) = one else {
        return two;
    };
    let Some(second) = two else {
        return one;
    };
    if first.sqnum < second.sqnum {
        return two;
    }
    one
}

// The last master in the text of a LEB of this number.
fn last_master(alloc: Global, lnum: u32, leb: &[u8]) -> Option<PlacedMaster>
    requires { length leb.now < 2 ^ 32 }
    ensures some { IfSome result (λ placed. IsLastMaster leb.now placed × (placed.lnum ≡ lnum)) }
    ensures none { IfNone result (HasNoMaster leb.now) }
{
    let Some(found) = last_found(leb) else {
        return None;
    };
    let rest = leb.split_at(found.offs as usize).1;
    let master = master_of(alloc, rest.split_at(found.len as usize).0)?;
    Some(PlacedMaster {
        lnum,
        offs: found.offs,
        sqnum: found.sqnum,
        master,
    })
}

// The master that the bytes are.
fn master_of(alloc: Global, bytes: &[u8]) -> Option<Master>
    ensures some { IfSome result (λ master. (sqnum group : ℕ) (node : AMaster) → IsMaster bytes.now sqnum group node → master ≡ node) }
    ensures none { IfNone result ((sqnum group : ℕ) (node : AMaster) → IsMaster bytes.now sqnum group node → ⊥) }
{
    one_node();
    let Ok(master) = Master::decode(alloc, bytes) else {
        return None;
    };
    master
}

// The last node of the text that is a master.
fn last_found(leb: &[u8]) -> Option<Found>
    requires { length leb.now < 2 ^ 32 }
    ensures some { IfSome result (IsLastFound leb.now) }
    ensures none { IfNone result (HasNoMaster leb.now) }
{
    let mut last = None;
    let mut scanner = Scanner::new(0);
    while let Some(found) = scanner.next(leb) {
        if found.kind == NodeType::Master {
            last = Some(found);
        }
    }
    last
}
