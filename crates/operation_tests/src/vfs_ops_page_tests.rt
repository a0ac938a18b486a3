// A page that is kept clean, over a backing in memory.

ghost use Rattle.std.specs.Prelude.{IfOk, ◌<◌, ◌^◌};
ghost use Rattle.fs_model.specs.Proper.{IsProper};
ghost use Rattle.buffered_files.specs.Present.{IsKept};
ghost use Rattle.plain_backing.specs.PlainBacking.{backing_state_of};

use crate::vfs_ops_tests::{Step, first_wrong, fresh_files};
use buffered_files::{Kept, bytes};
use fs_model::StoreFault;
use plain_backing::PlainBacking;
use std::alloc::Global;
use ubifs_base::Memory;

const WRITTEN: &[(Step, u64)] = &[
    (Step::Create(b'f'), 65),
    (Step::Open(b'f', 0), 65),
    (Step::Write(0), 4100),
    (Step::Flush, 0),
];

// A backing with a file of 4,100 bytes of 7, which is 65.
fn written_backing(alloc: Global) -> Result<PlainBacking, Memory>
    ensures { IfOk result (λ backing. IsProper (backing_state_of backing).tree) }
{
    let mut fs = fresh_files(alloc, 1)?;
    first_wrong(alloc, &mut fs, WRITTEN)?;
    Ok(fs.into_parts())
}

// The byte at a place of the file.
fn byte_at(
    alloc: Global,
    backing: &mut PlainBacking,
    kept: &mut Kept,
    place: u64,
) -> Result<u8, StoreFault>
    requires kept { IsKept (backing_state_of backing.old).tree kept.old }
    requires place { place < 2 ^ 41 }
    ensures kept { IsKept (backing_state_of backing.new).tree kept.new }
{
    let bytes = bytes(alloc, backing, kept, 65, place, 1)?;
    match bytes.as_slice().first() {
        Some(byte) => Ok(*byte),
        None => Ok(255),
    }
}

// A page that was read is read again without the backing, of which the next call fails; another page isn't.
fn are_reread(alloc: Global, backing: &mut PlainBacking, kept: &mut Kept) -> bool
    requires kept { IsKept (backing_state_of backing.old).tree kept.old }
{
    let first = byte_at(alloc, backing, kept, 9);
    backing.fail_call(1);
    let again = byte_at(alloc, backing, kept, 10);
    let other = byte_at(alloc, backing, kept, 4097);
    let retried = byte_at(alloc, backing, kept, 4097);
    first == Ok(7)
        && again == Ok(7)
        && other == Err(StoreFault::Volume { count: 1 })
        && retried == Ok(7)
}

pub(crate) fn is_read_once(alloc: Global) -> Result<bool, Memory> {
    let mut kept = Kept::new(alloc, 4)?;
    let mut backing = written_backing(alloc)?;
    Ok(are_reread(alloc, &mut backing, &mut kept))
}
