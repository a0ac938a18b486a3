// A LEB more of the log.

ghost use Rattle.std.specs.Prelude.{◌≡◌, ◌<◌, ◌^◌, length, OnOk};
ghost use Rattle.ubifs_base.specs.RawOf.{raw_of};
ghost use Rattle.bud_log.specs.Seen.{IsSeen};
ghost use Rattle.journal_check.specs.LogChecks.{IsAddedTo, torn_behind as torn_at};

use crate::read_lebs::ReadLebs;
use crate::references::take_references;
use bud_log::{Seen, start_of};
use image_check::{WrongValue, sooner, type_byte};
use leb_scan::{Tail, one_text};
use std::alloc::{AllocError, Global};
use ubifs_base::Geometry;

/// Adds a LEB that was seen to what was read of the log.
pub(crate) fn add(
    alloc: Global,
    geometry: &Geometry,
    lnum: u32,
    leb: &[u8],
    seen: Seen,
    read: &mut ReadLebs,
) -> Result<(), AllocError>
    requires size { length leb.now < 2 ^ 32 }
    requires seen { IsSeen leb.now seen }
    ensures { OnOk result (IsAddedTo (raw_of geometry.now) leb.now lnum seen read.old read.new) }
{
    one_text();
    let misnamed = take_references(alloc, geometry, lnum, leb, &mut read.references)?;
    read.misnamed = sooner(read.misnamed, misnamed);
    read.torn = sooner(
        read.torn,
        torn_behind(read.tail, lnum, leb, start_of(seen.begins)),
    );
    read.last = lnum;
    read.tail = seen.tail;
    read.alone = seen.alone;
    read.lnums.push(lnum)?;
    Ok(())
}

// What is wrong with a LEB behind this tail, which begins with a commit start of this number, or with none.
fn torn_behind(tail: Tail, lnum: u32, leb: &[u8], start: Option<u64>) -> Option<WrongValue>
    ensures { result ≡ torn_at tail lnum leb.now start }
{
    match tail {
        Tail::Clean => None,
        Tail::Torn => match start {
            Some(_) => None,
            None => Some(WrongValue {
                lnum,
                offs: 0,
                wanted: 10,
                found: type_byte(leb, 0) as u64,
            }),
        },
    }
}
