// The LEBs of an image.

ghost use Rattle.std.specs.Prelude.{◌≡◌, ◌↔◌, ◌<◌, ◌≤◌, ◌%◌, ◌*◌, ◌-◌, ◌^◌, IsTrue, IfOk, length, drop, replicate};
ghost use Rattle.ubi_volume.specs.Lebs.{IsLoadedLeb, AreLoaded};
ghost use Rattle.ubi_volume.specs.Loading.{IsErased, IsWrittenPart};
ghost use Rattle.ubi_volume.specs.Shape.{IsShape};

use crate::VolShape;
use crate::leb::{Leb, blank_leb, fill_with};
use std::alloc::Global;
use ubifs_base::Memory;

// Whether all bytes from a place on are erased.
pub(crate) fn is_erased(bytes: &[u8], place: u64) -> bool
    ensures { IsTrue result ↔ IsErased place bytes.now }
{
    if place >= bytes.len() as u64 {
        return true;
    }
    all_erased(bytes.split_at(place as usize).1)
}

fn all_erased(bytes: &[u8]) -> bool
    ensures { IsTrue result ↔ (bytes.now ≡ replicate (length bytes.now) 255) }
{
    bytes.iter().all(|byte| *byte == 0xff)
}

// How many bytes count as written.
pub(crate) fn written_len(unit: u32, bytes: &[u8]) -> u32
    requires unit { 0 < unit }
    requires whole { length bytes.now % unit ≡ 0 }
    requires size { length bytes.now < 2 ^ 32 }
    ensures { IsWrittenPart unit bytes.now result }
{
    let len = bytes.len();
    for erased in 0..len {
        let last = len - 1 - erased;
        if bytes[last] != 0xff {
            return (last as u32 / unit + 1) * unit;
        }
    }
    0
}

// A LEB with these bytes, and erased bytes behind them.
fn loaded_leb(alloc: Global, size: u32, unit: u32, bytes: &[u8]) -> Result<Leb, Memory>
    requires unit { 0 < unit }
    requires whole { size % unit ≡ 0 }
    requires room { length bytes.now ≤ size }
    ensures { IfOk result (IsLoadedLeb size unit bytes.now) }
{
    let mut leb = blank_leb(alloc, size)?;
    fill_with(&mut leb.content, bytes);
    leb.written = written_len(unit, &leb.content);
    Ok(leb)
}

// The LEBs of a volume that holds the bytes.
pub(crate) fn loaded_lebs(alloc: Global, shape: VolShape, bytes: &[u8]) -> Result<Vec<Leb>, Memory>
    requires { IsShape shape }
    ensures loaded { IfOk result (λ lebs. AreLoaded shape.leb_size shape.min_io bytes.now lebs.items) }
    ensures len { IfOk result (λ lebs. length lebs.items ≡ shape.leb_cnt) }
{
    let mut lebs = Vec::with_capacity(alloc, shape.leb_cnt as usize)?;
    let mut rest = bytes;
    for lnum in 0..shape.leb_cnt {
        let (front, back) = rest.split_at(rest.len().min(shape.leb_size as usize));
        lebs.push(loaded_leb(alloc, shape.leb_size, shape.min_io, front)?)?;
        rest = back;
    }
    Ok(lebs)
}
