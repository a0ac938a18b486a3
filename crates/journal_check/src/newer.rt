// LEBs of the log that aren't read.

ghost use Rattle.std.specs.Prelude.{◌≡◌, ◌==◌, ◌<◌, ◌≤◌, ◌^◌, length, IfOk};
ghost use Rattle.std.specs.List.{list_any};
ghost use Rattle.ubifs_base.specs.Areas.{lpt_first};
ghost use Rattle.ubifs_base.specs.RawOf.{raw_of};
ghost use Rattle.ubi_volume.specs.Volume.{Keeps, SameShape};
ghost use Rattle.ubi_volume.specs.Faults.{HasCause, StaysSure};
ghost use Rattle.bud_log.specs.Seen.{IsSeen};
ghost use Rattle.journal_check.specs.LogChecks.{IsFirstNewer, newer_at as is_newer_at};

use bud_log::{Seen, see};
use image_check::{WrongValue, sooner};
use leb_scan::{Found, one_text};
use media_sys::one_node;
use ubi_volume::{VolFault, Volume, read_leb};
use ubifs_base::Geometry;

/// The first LEB of the log, besides those that were read, that begins with a number above this one.
pub(crate) fn first_newer<V: Volume>(
    volume: &mut V,
    geometry: &Geometry,
    number: u64,
    lnums: &[u32],
    leb: &mut [u8],
) -> Result<Option<WrongValue>, VolFault>
    requires lebs { lpt_first (raw_of geometry.now) ≤ (V.state volume.old).leb_cnt }
    requires whole { length leb.old ≡ (V.state volume.old).leb_size }
    requires size { length leb.old < 2 ^ 32 }
    ensures first { IfOk result (IsFirstNewer (V.state volume.old).holds (raw_of geometry.now) number lnums.now) }
    ensures keeps { Keeps (V.state volume.old) (V.state volume.new) }
    ensures shape { SameShape (V.state volume.old) (V.state volume.new) }
    ensures cause { HasCause (V.state volume.old).faults (V.state volume.new).faults result }
    ensures sure { StaysSure (V.state volume.old) (V.state volume.new) result }
{
    one_text();
    one_node();
    let mut first = None;
    for lnum in 3..geometry.lpt_first() {
        if !is_among(lnums, lnum) {
            let seen = read_seen(volume, lnum, leb)?;
            first = sooner(first, newer_at(number, lnum, seen.begins));
        }
    }
    Ok(first)
}

// Whether a number is among others.
fn is_among(lnums: &[u32], lnum: u32) -> bool
    ensures { result ≡ list_any (λ k. k == lnum) lnums.now }
{
    lnums.iter().any(|k| *k == lnum)
}

// What is wrong with a LEB that begins with this node, if its number is above this one.
fn newer_at(number: u64, lnum: u32, begins: Option<Found>) -> Option<WrongValue>
    ensures { result ≡ is_newer_at number lnum begins }
{
    let found = begins?;
    if found.sqnum <= number {
        return None;
    }
    Some(WrongValue {
        lnum,
        offs: 0,
        wanted: number,
        found: found.sqnum,
    })
}

// Reads a LEB, and sees what it begins with.
fn read_seen<V: Volume>(volume: &mut V, lnum: u32, leb: &mut [u8]) -> Result<Seen, VolFault>
    requires lnum { lnum < (V.state volume.old).leb_cnt }
    requires whole { length leb.old ≡ (V.state volume.old).leb_size }
    requires size { length leb.old < 2 ^ 32 }
    ensures seen { IfOk result (IsSeen ((V.state volume.old).holds lnum)) }
    ensures len { length leb.new ≡ length leb.old }
    ensures keeps { Keeps (V.state volume.old) (V.state volume.new) }
    ensures shape { SameShape (V.state volume.old) (V.state volume.new) }
    ensures cause { HasCause (V.state volume.old).faults (V.state volume.new).faults result }
    ensures sure { StaysSure (V.state volume.old) (V.state volume.new) result }
{
    read_leb(volume, lnum, leb)?;
    Ok(see(leb))
}
