// A client that mounts a log behind an unmount, proved from what the calls promise.

ghost use Rattle.std.specs.Prelude.{◌≡◌, ◌^◌, ◌<◌, ◌≤◌, ℕ, List, [], ◌∷◌, length, IfSome};
ghost use Rattle.ubifs_base.specs.Areas.{main_first};
ghost use Rattle.ubifs_base.specs.RawOf.{raw_of};
ghost use Rattle.leb_scan.specs.declared.tail.Tail.TheVariants.{Clean};
ghost use Rattle.bud_log.specs.Buds.{named_also, buds_of};
ghost use Rattle.bud_log.specs.Log.{log_of, next_leb as leb_behind};
ghost use Rattle.bud_log.specs.LogAnswers.{IsSection};
ghost use Rattle.bud_log.specs.LogAt.{LogAt, IsAt, used_lebs, references_to};
ghost use Rattle.bud_log.specs.Writing.{AreOthersOlder, IsLogReady, offs_behind};
ghost use Rattle.bud_log.specs.declared.head_at.HeadAt.{HeadAt as AHead};

use crate::head_at::HeadAt;
use crate::log::Log;
use crate::log_read::LogRead;
use crate::reading::read_log;
use leb_scan::{Tail, one_text};
use std::alloc::Global;
use ubi_volume::Volume;
use ubifs_base::{Geometry, JournalHead};

/// Starts the section of commit 5, and opens a bud in it. None if a call failed, or the log was full.
pub fn start_and_open<V: Volume>(
    log: &mut Log,
    volume: &mut V,
    heads: &[HeadAt],
    head: JournalHead,
    lnum: u32,
    sqnum: &mut u64,
) -> Option<()>
    requires at { IsAt (V.state volume.old) log.old }
    requires kept { used_lebs log.old < log.old.geo.log_lebs }
    requires three { length heads.now ≤ 3 }
    requires number { sqnum.old < 2 ^ 63 }
    requires main { main_first log.old.geo ≤ lnum }
    requires bud { lnum < (V.state volume.old).leb_cnt }
    requires older { AreOthersOlder (V.state volume.old) log.old.geo (leb_behind log.old.geo log.old.lnum) sqnum.old }
    ensures at { IfSome result (λ done. IsAt (V.state volume.new) log.new) }
    ensures ready { IfSome result (λ done. IsLogReady (V.state volume.new) log.new.geo log.new.section log.new.lnum log.new.offs sqnum.new (named_also (buds_of (references_to heads.now)) (record { lnum = lnum; offs = 0; head = head }))) }
    ensures stands { IfSome result (λ done. IsSection (V.state volume.new) log.new sqnum.old) }
{
    let Ok(()) = log.start_section(volume, 5, heads, sqnum) else {
        return None;
    };
    let Ok(()) = log.open_bud(volume, head, lnum, sqnum) else {
        return None;
    };
    Some(())
}

/// As a mount behind an unmount does: reads a log whose present section stands as it was started, and opens a bud in it. It gives the
/// log, whose section still stands so, and the number of its last node. None if a call failed, the log was full, or no sequence number is
/// left.
pub fn open_unmounted<V: Volume>(
    alloc: Global,
    volume: &mut V,
    geometry: &Geometry,
    log: &Log,
    head: JournalHead,
    lnum: u32,
) -> Option<(Log, u64)>
    requires geo { log.now.geo ≡ raw_of geometry.now }
    requires at { IsAt (V.state volume.old) log.now }
    requires stands { (number : ℕ) × (low : ℕ) × (buds : List AHead) × IsLogReady (V.state volume.old) log.now.geo log.now.section log.now.lnum log.now.offs number buds × IsSection (V.state volume.old) log.now low }
    requires main { main_first log.now.geo ≤ lnum }
    requires bud { lnum < (V.state volume.old).leb_cnt }
    ensures at { IfSome result (λ after. IsAt (V.state volume.new) after.0) }
    ensures ready { IfSome result (λ after. (number : ℕ) (buds : List AHead)
        → IsLogReady (V.state volume.old) log.now.geo log.now.section log.now.lnum log.now.offs number buds
        → IsLogReady (V.state volume.new) after.0.geo after.0.section after.0.lnum after.0.offs after.1 (named_also buds (record { lnum = lnum; offs = 0; head = head }))) }
    ensures stands { IfSome result (λ after. (number low : ℕ) (buds : List AHead)
        → IsLogReady (V.state volume.old) log.now.geo log.now.section log.now.lnum log.now.offs number buds
        → IsSection (V.state volume.old) log.now low → IsSection (V.state volume.new) after.0 low) }
{
    one_text();
    let from = log.section();
    let Ok(read) = read_log(alloc, volume, geometry, from) else {
        return None;
    };
    let mut sqnum = read.sqnum;
    if sqnum >= 0x8000_0000_0000_0000 {
        return None;
    }
    let offs = place_behind(geometry, &read);
    let mut again = Log::at(geometry, from, read.lnum, offs);
    let Ok(()) = again.open_bud(volume, head, lnum, &mut sqnum) else {
        return None;
    };
    Some((again, sqnum))
}

// Where a log goes on that was read.
fn place_behind(geometry: &Geometry, read: &LogRead) -> u32
    ensures { result ≡ offs_behind (raw_of geometry.now) (log_of read.now).ends }
{
    match read.tail {
        Tail::Clean => place_if(geometry, read.offs),
        Tail::Torn => geometry.leb_size,
    }
}

// Behind a clean end.
fn place_if(geometry: &Geometry, offs: u32) -> u32
    ensures { result ≡ offs_behind (raw_of geometry.now) (record { lnum = 0; offs = offs; tail = Clean }) }
{
    if offs % geometry.min_io == 0 {
        offs
    } else {
        geometry.leb_size
    }
}
