// The commit with whose start a log begins.

ghost use Rattle.std.specs.Prelude.{◌≡◌, Some, IfErr, IfOk};
ghost use Rattle.bud_log.specs.LogText.{BeginsCommit, start_of as start_number};
ghost use Rattle.bud_log.specs.Seen.{HasBeginning};
ghost use Rattle.journal_check.specs.LogChecks.{IsOtherStart};

use bud_log::{commit_of, start_of};
use image_check::{WrongValue, type_byte};
use leb_scan::Found;
use std::alloc::Global;

/// The sequence number of the start of this commit, with which a LEB begins; the error is that it doesn't.
pub(crate) fn number_of_start(
    alloc: Global,
    leb: &[u8],
    lnum: u32,
    begins: Option<Found>,
    cmt_no: u64,
) -> Result<u64, WrongValue>
    requires { HasBeginning leb.now begins }
    ensures ok { IfOk result (λ number. (start_number begins ≡ Some number) × BeginsCommit leb.now begins (Some cmt_no)) }
    ensures err { IfErr result (IsOtherStart leb.now lnum begins cmt_no) }
{
    let Some(number) = start_of(begins) else {
        return Err(WrongValue {
            lnum,
            offs: 0,
            wanted: 10,
            found: type_byte(leb, 0) as u64,
        });
    };
    let Some(found) = commit_of(alloc, leb, begins) else {
        return Err(WrongValue {
            lnum,
            offs: 0,
            wanted: 10,
            found: type_byte(leb, 0) as u64,
        });
    };
    if found != cmt_no {
        return Err(WrongValue {
            lnum,
            offs: 0,
            wanted: cmt_no,
            found,
        });
    }
    Ok(number)
}
