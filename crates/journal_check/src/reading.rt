// The LEBs of the log are read.

ghost use Rattle.std.specs.Prelude.{◌≡◌, ◌<◌, ◌≤◌, ◌^◌, length, IfOk, IsTrue, IsFalse, OnOk};
ghost use Rattle.ubifs_base.specs.Areas.{lpt_first};
ghost use Rattle.ubifs_base.specs.RawOf.{raw_of};
ghost use Rattle.ubi_volume.specs.Volume.{Keeps, SameShape};
ghost use Rattle.ubi_volume.specs.Faults.{HasAreaCause, StaysSureArea};
ghost use Rattle.bud_log.specs.Log.{IsLogLeb, next_leb as next_log_leb};
ghost use Rattle.bud_log.specs.LogText.{is_later as is_later_than};
ghost use Rattle.bud_log.specs.Seen.{HasBeginning};
ghost use Rattle.bud_log.specs.Writing.{IsOlder};
ghost use Rattle.journal_check.specs.LogChecks.{IsAddedTo, IsReadUpTo, IsReadWhole, IsFresh};

use crate::adding::add;
use crate::read_lebs::ReadLebs;
use bud_log::{Seen, is_later, next_leb, see};
use leb_scan::{Tail, one_text};
use media_sys::one_node;
use std::alloc::Global;
use ubi_volume::{AreaFault, Volume, read_leb};
use ubifs_base::Geometry;

/// Nothing was read yet.
pub(crate) fn nothing_read(alloc: Global) -> ReadLebs
    ensures fresh { IsFresh result }
{
    ReadLebs {
        lnums: Vec::new(alloc),
        references: Vec::new(alloc),
        misnamed: None,
        torn: None,
        last: 0,
        tail: Tail::Clean,
        alone: false,
    }
}

/// Reads a LEB, and adds it to what was read.
pub(crate) fn read_first<V: Volume>(
    alloc: Global,
    volume: &mut V,
    geometry: &Geometry,
    lnum: u32,
    leb: &mut [u8],
    read: &mut ReadLebs,
) -> Result<Seen, AreaFault>
    requires lnum { lnum < (V.state volume.old).leb_cnt }
    requires whole { length leb.old ≡ (V.state volume.old).leb_size }
    requires size { length leb.old < 2 ^ 32 }
    ensures added { IfOk result (λ seen. IsAddedTo (raw_of geometry.now) ((V.state volume.old).holds lnum) lnum seen read.old read.new) }
    ensures begins { IfOk result (λ seen. HasBeginning leb.new seen.begins) }
    ensures read { OnOk result (leb.new ≡ (V.state volume.old).holds lnum) }
    ensures len { length leb.new ≡ length leb.old }
    ensures keeps { Keeps (V.state volume.old) (V.state volume.new) }
    ensures shape { SameShape (V.state volume.old) (V.state volume.new) }
    ensures cause { HasAreaCause (V.state volume.old).faults (V.state volume.new).faults result }
    ensures sure { StaysSureArea (V.state volume.old) (V.state volume.new) result }
{
    read_leb(volume, lnum, leb)?;
    let seen = see(leb);
    add(alloc, geometry, lnum, leb, seen, read)?;
    Ok(seen)
}

// Reads a LEB, and adds it to what was read if it begins with a node of a greater number. Tells whether it does.
fn read_later<V: Volume>(
    alloc: Global,
    volume: &mut V,
    geometry: &Geometry,
    lnum: u32,
    number: u64,
    leb: &mut [u8],
    read: &mut ReadLebs,
) -> Result<bool, AreaFault>
    requires lnum { lnum < (V.state volume.old).leb_cnt }
    requires whole { length leb.old ≡ (V.state volume.old).leb_size }
    requires size { length leb.old < 2 ^ 32 }
    ensures added { IfOk result (λ later. IsTrue later → (seen : _) × IsAddedTo (raw_of geometry.now) ((V.state volume.old).holds lnum) lnum seen read.old read.new × IsTrue (is_later_than number seen.begins)) }
    ensures passed { IfOk result (λ later. IsFalse later → IsOlder number lnum ((V.state volume.old).holds lnum) × (read.new ≡ read.old)) }
    ensures len { length leb.new ≡ length leb.old }
    ensures keeps { Keeps (V.state volume.old) (V.state volume.new) }
    ensures shape { SameShape (V.state volume.old) (V.state volume.new) }
    ensures cause { HasAreaCause (V.state volume.old).faults (V.state volume.new).faults result }
    ensures sure { StaysSureArea (V.state volume.old) (V.state volume.new) result }
{
    read_leb(volume, lnum, leb)?;
    let seen = see(leb);
    if !is_later(number, seen.begins) {
        return Ok(false);
    }
    add(alloc, geometry, lnum, leb, seen, read)?;
    Ok(true)
}

/// Reads the LEBs behind the first, which begins with a commit start of this number.
pub(crate) fn read_on<V: Volume>(
    alloc: Global,
    volume: &mut V,
    geometry: &Geometry,
    from: u32,
    number: u64,
    leb: &mut [u8],
    read: &mut ReadLebs,
) -> Result<(), AreaFault>
    requires ring { IsLogLeb (raw_of geometry.now) from }
    requires lebs { lpt_first (raw_of geometry.now) ≤ (V.state volume.old).leb_cnt }
    requires whole { length leb.old ≡ (V.state volume.old).leb_size }
    requires size { length leb.old < 2 ^ 32 }
    requires begun { IsReadUpTo (V.state volume.old).holds (raw_of geometry.now) from number (next_log_leb (raw_of geometry.now) from) read.old }
    ensures read { OnOk result (IsReadWhole (V.state volume.old).holds (raw_of geometry.now) from number read.new) }
    ensures len { length leb.new ≡ length leb.old }
    ensures keeps { Keeps (V.state volume.old) (V.state volume.new) }
    ensures shape { SameShape (V.state volume.old) (V.state volume.new) }
    ensures cause { HasAreaCause (V.state volume.old).faults (V.state volume.new).faults result }
    ensures sure { StaysSureArea (V.state volume.old) (V.state volume.new) result }
{
    one_text();
    one_node();
    let mut lnum = next_leb(geometry, from);
    while lnum != from {
        let later = read_later(alloc, volume, geometry, lnum, number, leb, read)?;
        if !later {
            return Ok(());
        }
        lnum = next_leb(geometry, lnum);
    }
    Ok(())
}
