// The log is read.

ghost use Rattle.std.specs.Prelude.{if◌then◌else◌, ◌≡◌, ◌<◌, ◌≤◌, ◌^◌, ℕ, length, max, true, IfOk, IfSome, IfNone, OnOk};
ghost use Rattle.ubifs_base.specs.Areas.{lpt_first};
ghost use Rattle.ubifs_base.specs.RawOf.{raw_of};
ghost use Rattle.ubi_volume.specs.Volume.{Keeps, SameShape};
ghost use Rattle.ubi_volume.specs.Faults.{HasAreaCause, StaysSureArea};
ghost use Rattle.bud_log.specs.AfterCut.{OpensReady};
ghost use Rattle.bud_log.specs.Log.{IsLogLeb, IsLog, log_of};
ghost use Rattle.bud_log.specs.LogText.{is_later as is_later_than};
ghost use Rattle.bud_log.specs.Seen.{HasBeginning, IsSeen, IsTaken, IsPassed, IsReadOn};

use crate::buds::name_buds;
use crate::commits::commit_of;
use crate::head_at::HeadAt;
use crate::laws::one_log;
use crate::log_end::LogEnd;
use crate::log_read::LogRead;
use crate::read_to::ReadTo;
use crate::ring::next_leb;
use crate::seen::{Seen, is_later, see, start_of};
use leb_scan::one_text;
use std::alloc::{AllocError, Global};
use ubi_volume::{AreaFault, Volume, read_leb};
use ubifs_base::Geometry;

/// Reads the log from a LEB of the log on, at which a section starts. References are told as they stand: whether a bud is a
/// main LEB, and its offset a multiple of 8, is for whoever reads the bud.
///
/// Where the volume holds a log that may be written on, after a cut or behind an unmount, a log that is opened over what was
/// read is ready for its next node: behind the end, if it is clean and a unit begins there, and else in the next LEB. That node
/// may take any number above the greatest that was read. A call may write it there if nothing counts as written behind that place.
pub fn read_log<V: Volume>(
    alloc: Global,
    volume: &mut V,
    geometry: &Geometry,
    from: u32,
) -> Result<LogRead, AreaFault>
    requires ring { IsLogLeb (raw_of geometry.now) from }
    requires lebs { lpt_first (raw_of geometry.now) ≤ (V.state volume.old).leb_cnt }
    ensures log { IfOk result (λ read. IsLog (V.state volume.old).holds (raw_of geometry.now) from (log_of read)) }
    ensures ready { IfOk result (OpensReady (V.state volume.old) (V.state volume.new) (raw_of geometry.now) from) }
    ensures keeps { Keeps (V.state volume.old) (V.state volume.new) }
    ensures shape { SameShape (V.state volume.old) (V.state volume.new) }
    ensures cause { HasAreaCause (V.state volume.old).faults (V.state volume.new).faults result }
    ensures sure { StaysSureArea (V.state volume.old) (V.state volume.new) result }
{
    one_log();
    let mut leb = vec![in alloc; 0; volume.leb_size() as usize]?;
    read_from(alloc, volume, geometry, from, &mut leb)
}

// Reads the log into the room that a LEB takes.
fn read_from<V: Volume>(
    alloc: Global,
    volume: &mut V,
    geometry: &Geometry,
    from: u32,
    leb: &mut [u8],
) -> Result<LogRead, AreaFault>
    requires ring { IsLogLeb (raw_of geometry.now) from }
    requires lebs { lpt_first (raw_of geometry.now) ≤ (V.state volume.old).leb_cnt }
    requires whole { length leb.old ≡ (V.state volume.old).leb_size }
    requires size { length leb.old < 2 ^ 32 }
    ensures log { IfOk result (λ read. IsLog (V.state volume.old).holds (raw_of geometry.now) from (log_of read)) }
    ensures keeps { Keeps (V.state volume.old) (V.state volume.new) }
    ensures shape { SameShape (V.state volume.old) (V.state volume.new) }
    ensures cause { HasAreaCause (V.state volume.old).faults (V.state volume.new).faults result }
    ensures sure { StaysSureArea (V.state volume.old) (V.state volume.new) result }
{
    let mut buds = Vec::new(alloc);
    let seen = read_text(alloc, volume, from, leb, &mut buds)?;
    let commit = commit_of(alloc, leb, seen.begins);
    let end = end_at(from, seen);
    let first = ReadTo {
        end,
        sqnum: seen.sqnum,
    };
    let Some(number) = start_of(seen.begins) else {
        return Ok(log_to(commit, buds, first));
    };
    let read = read_on(alloc, volume, geometry, from, number, first, leb, &mut buds)?;
    Ok(log_to(commit, buds, read))
}

// A log of this commit with these buds that was read up to here.
fn log_to(commit: Option<u64>, buds: Vec<HeadAt>, read: ReadTo) -> LogRead
    ensures { log_of result ≡ record { commit = commit; buds = buds.items; sqnum = read.sqnum; ends = read.end } }
{
    LogRead {
        commit,
        buds,
        sqnum: read.sqnum,
        lnum: read.end.lnum,
        offs: read.end.offs,
        tail: read.end.tail,
    }
}

// Where a text ends.
fn end_at(lnum: u32, seen: Seen) -> LogEnd
    ensures lnum { result.lnum ≡ lnum }
    ensures offs { result.offs ≡ seen.offs }
    ensures tail { result.tail ≡ seen.tail }
{
    LogEnd {
        lnum,
        offs: seen.offs,
        tail: seen.tail,
    }
}

// How far the log was read behind another text, which ends here and may be a commit start alone.
fn read_past(read: ReadTo, seen: Seen, last: LogEnd, here: LogEnd) -> ReadTo
    ensures end { result.end ≡ (if seen.alone then last else here) }
    ensures sqnum { result.sqnum ≡ max read.sqnum seen.sqnum }
{
    ReadTo {
        end: if seen.alone { last } else { here },
        sqnum: read.sqnum.max(seen.sqnum),
    }
}

// Reads the LEBs behind the first, which begins with a commit start of this number and was read up to there.
fn read_on<V: Volume>(
    alloc: Global,
    volume: &mut V,
    geometry: &Geometry,
    from: u32,
    number: u64,
    first: ReadTo,
    leb: &mut [u8],
    buds: &mut Vec<HeadAt>,
) -> Result<ReadTo, AreaFault>
    requires ring { IsLogLeb (raw_of geometry.now) from }
    requires lebs { lpt_first (raw_of geometry.now) ≤ (V.state volume.old).leb_cnt }
    requires whole { length leb.old ≡ (V.state volume.old).leb_size }
    requires size { length leb.old < 2 ^ 32 }
    ensures read { IfOk result (IsReadOn (V.state volume.old).holds (raw_of geometry.now) from number first buds.old.items buds.new.items) }
    ensures keeps { Keeps (V.state volume.old) (V.state volume.new) }
    ensures shape { SameShape (V.state volume.old) (V.state volume.new) }
    ensures cause { HasAreaCause (V.state volume.old).faults (V.state volume.new).faults result }
    ensures sure { StaysSureArea (V.state volume.old) (V.state volume.new) result }
{
    let mut read = first;
    let mut last = first.end;
    let mut lnum = next_leb(geometry, from);
    while lnum != from {
        let Some(seen) = read_later(alloc, volume, lnum, number, leb, buds)? else {
            return Ok(read);
        };
        let here = end_at(lnum, seen);
        read = read_past(read, seen, last, here);
        last = here;
        lnum = next_leb(geometry, lnum);
    }
    Ok(read)
}

// Reads a LEB and names what it refers to.
fn read_text<V: Volume>(
    alloc: Global,
    volume: &mut V,
    lnum: u32,
    leb: &mut [u8],
    buds: &mut Vec<HeadAt>,
) -> Result<Seen, AreaFault>
    requires lnum { lnum < (V.state volume.old).leb_cnt }
    requires whole { length leb.old ≡ (V.state volume.old).leb_size }
    requires size { length leb.old < 2 ^ 32 }
    ensures taken { IfOk result (IsTaken ((V.state volume.old).holds lnum) lnum buds.old.items buds.new.items) }
    ensures read { OnOk result (leb.new ≡ (V.state volume.old).holds lnum) }
    ensures begins { IfOk result (λ seen. HasBeginning leb.new seen.begins) }
    ensures len { length leb.new ≡ length leb.old }
    ensures keeps { Keeps (V.state volume.old) (V.state volume.new) }
    ensures shape { SameShape (V.state volume.old) (V.state volume.new) }
    ensures cause { HasAreaCause (V.state volume.old).faults (V.state volume.new).faults result }
    ensures sure { StaysSureArea (V.state volume.old) (V.state volume.new) result }
{
    read_leb(volume, lnum, leb)?;
    let seen = see(leb);
    take(alloc, lnum, seen, leb, buds)?;
    Ok(seen)
}

// Reads a LEB, and names what it refers to if it begins with a node of a greater number.
fn read_later<V: Volume>(
    alloc: Global,
    volume: &mut V,
    lnum: u32,
    number: u64,
    leb: &mut [u8],
    buds: &mut Vec<HeadAt>,
) -> Result<Option<Seen>, AreaFault>
    requires lnum { lnum < (V.state volume.old).leb_cnt }
    requires whole { length leb.old ≡ (V.state volume.old).leb_size }
    requires size { length leb.old < 2 ^ 32 }
    ensures taken { IfOk result (λ r. IfSome r (λ seen. IsTaken ((V.state volume.old).holds lnum) lnum buds.old.items buds.new.items seen × (is_later_than number seen.begins ≡ true))) }
    ensures passed { IfOk result (λ r. IfNone r (IsPassed ((V.state volume.old).holds lnum) lnum number × (buds.new.items ≡ buds.old.items))) }
    ensures len { length leb.new ≡ length leb.old }
    ensures keeps { Keeps (V.state volume.old) (V.state volume.new) }
    ensures shape { SameShape (V.state volume.old) (V.state volume.new) }
    ensures cause { HasAreaCause (V.state volume.old).faults (V.state volume.new).faults result }
    ensures sure { StaysSureArea (V.state volume.old) (V.state volume.new) result }
{
    read_leb(volume, lnum, leb)?;
    let seen = see(leb);
    if !is_later(number, seen.begins) {
        return Ok(None);
    }
    take(alloc, lnum, seen, leb, buds)?;
    Ok(Some(seen))
}

// Names the references of a LEB that was seen.
fn take(
    alloc: Global,
    lnum: u32,
    seen: Seen,
    leb: &[u8],
    buds: &mut Vec<HeadAt>,
) -> Result<(), AllocError>
    requires size { length leb.now < 2 ^ 32 }
    requires seen { IsSeen leb.now seen }
    ensures { OnOk result (IsTaken leb.now lnum buds.old.items buds.new.items seen) }
{
    one_text();
    name_buds(alloc, leb, buds)
}
