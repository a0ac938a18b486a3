// The check of the log.

ghost use Rattle.std.specs.Prelude.{◌≡◌, ◌<◌, ◌≤◌, ◌^◌, List, length, IfOk, IfErr};
ghost use Rattle.ubifs_base.specs.Areas.{lpt_first};
ghost use Rattle.ubifs_base.specs.RawOf.{raw_of};
ghost use Rattle.ubi_volume.specs.Volume.{Keeps, SameShape};
ghost use Rattle.ubi_volume.specs.Faults.{HasAreaCause, StaysSureArea};
ghost use Rattle.bud_log.specs.Log.{IsLogLeb, references_of};
ghost use Rattle.bud_log.specs.LogText.{LogText as AText};
ghost use Rattle.sound_image.specs.Log.{HasLog};
ghost use Rattle.sound_image.specs.LogBreaches.{IsBrokenLog};
ghost use Rattle.sound_image.specs.declared.breach.Breach.TheVariants.{Damaged};
ghost use Rattle.sound_image.specs.declared.rule.Rule.TheVariants as rules;
ghost use Rattle.image_check.specs.Told.{HasCheckCause, IsBreachOf, StaysSureCheck, TellsBreach};
ghost use Rattle.journal_check.specs.LogChecks.{IsJudgedLog, none_spare as is_none_spare, verdict_of};

use crate::commits::number_of_start;
use crate::log_found::LogFound;
use crate::log_verdict::LogVerdict;
use crate::newer::first_newer;
use crate::read_lebs::ReadLebs;
use crate::reading::{nothing_read, read_first, read_on};
use image_check::{CheckFault, WrongValue};
use leb_scan::one_text;
use media_sys::{Master, one_node};
use sound_image::{Breach, Rule};
use std::alloc::Global;
use ubi_volume::{AreaFault, Volume};
use ubifs_base::Geometry;

/// Checks the rule on the log (`HasLog` of crate sound_image) of the log that a master names (`ubifs_replay_journal` of Linux
/// fs/ubifs). `Ok` tells the references of the log: the rule holds. `Unsound` tells what is wrong first: by the first of the
/// rule's five parts by which something is wrong, at its first LEB and offset, with the value that is wanted there and the one
/// that was found.
pub fn check_log<V: Volume>(
    alloc: Global,
    volume: &mut V,
    geometry: &Geometry,
    master: &Master,
) -> Result<LogFound, CheckFault>
    requires ring { IsLogLeb (raw_of geometry.now) master.now.log_lnum }
    requires lebs { lpt_first (raw_of geometry.now) ≤ (V.state volume.old).leb_cnt }
    ensures sound { IfOk result (λ log. (texts : List AText) × HasLog (V.state volume.old).holds (raw_of geometry.now) master.now texts × (log.references.items ≡ references_of texts)) }
    ensures broken { IfErr result (TellsBreach (IsBreachOf rules.Log (IsBrokenLog (V.state volume.old).holds (raw_of geometry.now) master.now))) }
    ensures keeps { Keeps (V.state volume.old) (V.state volume.new) }
    ensures shape { SameShape (V.state volume.old) (V.state volume.new) }
    ensures cause { HasCheckCause (V.state volume.old).faults (V.state volume.new).faults result }
    ensures sure { StaysSureCheck (V.state volume.old) (V.state volume.new) result }
{
    match judge(alloc, volume, geometry, master) {
        Ok(LogVerdict::Sound { log }) => Ok(log),
        Ok(LogVerdict::Broken { at }) => Err(CheckFault::Unsound {
            breach: log_breach(at),
        }),
        Err(AreaFault::Memory) => Err(CheckFault::Memory),
        Err(AreaFault::Volume { count }) => Err(CheckFault::Volume { count }),
    }
}

// What is told of a log that is broken here.
fn log_breach(at: WrongValue) -> Breach
    ensures { result ≡ Damaged rules.Log at.lnum at.offs at.wanted at.found }
{
    Breach::Damaged {
        rule: Rule::Log,
        lnum: at.lnum,
        offs: at.offs,
        wanted: at.wanted,
        found: at.found,
    }
}

// Whether the rule on the log holds.
fn judge<V: Volume>(
    alloc: Global,
    volume: &mut V,
    geometry: &Geometry,
    master: &Master,
) -> Result<LogVerdict, AreaFault>
    requires ring { IsLogLeb (raw_of geometry.now) master.now.log_lnum }
    requires lebs { lpt_first (raw_of geometry.now) ≤ (V.state volume.old).leb_cnt }
    ensures judged { IfOk result (IsJudgedLog (V.state volume.old).holds (raw_of geometry.now) master.now) }
    ensures keeps { Keeps (V.state volume.old) (V.state volume.new) }
    ensures shape { SameShape (V.state volume.old) (V.state volume.new) }
    ensures cause { HasAreaCause (V.state volume.old).faults (V.state volume.new).faults result }
    ensures sure { StaysSureArea (V.state volume.old) (V.state volume.new) result }
{
    let mut leb = vec![in alloc; 0; volume.leb_size() as usize]?;
    judge_in(alloc, volume, geometry, master, &mut leb)
}

// The same, into the room that a LEB takes.
fn judge_in<V: Volume>(
    alloc: Global,
    volume: &mut V,
    geometry: &Geometry,
    master: &Master,
    leb: &mut [u8],
) -> Result<LogVerdict, AreaFault>
    requires ring { IsLogLeb (raw_of geometry.now) master.now.log_lnum }
    requires lebs { lpt_first (raw_of geometry.now) ≤ (V.state volume.old).leb_cnt }
    requires whole { length leb.old ≡ (V.state volume.old).leb_size }
    requires size { length leb.old < 2 ^ 32 }
    ensures judged { IfOk result (IsJudgedLog (V.state volume.old).holds (raw_of geometry.now) master.now) }
    ensures keeps { Keeps (V.state volume.old) (V.state volume.new) }
    ensures shape { SameShape (V.state volume.old) (V.state volume.new) }
    ensures cause { HasAreaCause (V.state volume.old).faults (V.state volume.new).faults result }
    ensures sure { StaysSureArea (V.state volume.old) (V.state volume.new) result }
{
    one_text();
    one_node();
    let from = master.log_lnum;
    let mut read = nothing_read(alloc);
    let seen = read_first(alloc, volume, geometry, from, leb, &mut read)?;
    let number = match number_of_start(alloc, leb, from, seen.begins, master.cmt_no) {
        Ok(number) => number,
        Err(at) => return Ok(LogVerdict::Broken { at }),
    };
    read.alone = false;
    read_on(alloc, volume, geometry, from, number, leb, &mut read)?;
    let newer = first_newer(volume, geometry, number, &read.lnums, leb)?;
    Ok(verdict(geometry, read, newer))
}

// The answer, once all is read: by the second to the fifth part.
fn verdict(geometry: &Geometry, read: ReadLebs, newer: Option<WrongValue>) -> LogVerdict
    ensures { result ≡ verdict_of (raw_of geometry.now) read newer }
{
    let first = read
        .misnamed
        .or(read.torn)
        .or(none_spare(geometry, &read))
        .or(newer);
    match first {
        Some(at) => LogVerdict::Broken { at },
        None => LogVerdict::Sound {
            log: LogFound {
                references: read.references,
            },
        },
    }
}

// What is wrong if no LEB of the ring is left to be read, and the last that was read is no further commit start alone.
fn none_spare(geometry: &Geometry, read: &ReadLebs) -> Option<WrongValue>
    ensures { result ≡ is_none_spare (raw_of geometry.now) read.now }
{
    if read.alone || read.lnums.len() < geometry.log_lebs as usize {
        return None;
    }
    Some(WrongValue {
        lnum: read.last,
        offs: 0,
        wanted: geometry.log_lebs as u64 - 1,
        found: geometry.log_lebs as u64,
    })
}
