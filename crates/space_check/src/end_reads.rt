// The free end of one LEB.

ghost use Rattle.std.specs.Prelude.{◌≡◌, ◌+◌, ◌-◌, ◌<◌, ◌≤◌, ◌^◌, ℕ, IsTrue, get_or, length, IfOk, IfSome, IfNone};
ghost use Rattle.ubifs_base.specs.RawOf.{raw_of};
ghost use Rattle.ubi_volume.specs.Geometry.{IsGeometryOf};
ghost use Rattle.ubi_volume.specs.Volume.{Keeps, SameShape};
ghost use Rattle.ubi_volume.specs.Faults.{HasCause, StaysSure};
ghost use Rattle.space_check.specs.Ends.{IsFirstIn, IsFirstWritten, IsUnwrittenFrom, has_free_end};

use crate::written_byte::WrittenByte;
use media_lpt::Lprop;
use media_sys::Master;
use ubi_volume::{VolFault, Volume};
use ubifs_base::Geometry;

/// The first byte that is written at the end of a LEB with these properties, if the end has to be unwritten. The buffer has the
/// size of a LEB.
pub(crate) fn written_end<V: Volume>(
    volume: &mut V,
    geometry: &Geometry,
    master: &Master,
    lnum: u32,
    prop: &Lprop,
    buffer: &mut [u8],
) -> Result<Option<WrittenByte>, VolFault>
    requires geometry { IsGeometryOf (raw_of geometry.now) (V.state volume.old) }
    requires lnum { lnum < (V.state volume.old).leb_cnt }
    requires whole { length buffer.old ≡ (V.state volume.old).leb_size }
    requires size { length buffer.old < 2 ^ 32 }
    ensures none { IfOk result (λ found. IfNone found (IsTrue (has_free_end (raw_of geometry.now) master.now lnum prop.now) → IsUnwrittenFrom ((V.state volume.old).holds lnum) (geometry.now.leb_size - prop.now.free))) }
    ensures free { IfOk result (λ found. IfSome found (λ _. IsTrue (has_free_end (raw_of geometry.now) master.now lnum prop.now))) }
    ensures some { IfOk result (λ found. IfSome found (IsFirstWritten ((V.state volume.old).holds lnum) (geometry.now.leb_size - prop.now.free))) }
    ensures len { length buffer.new ≡ length buffer.old }
    ensures keeps { Keeps (V.state volume.old) (V.state volume.new) }
    ensures shape { SameShape (V.state volume.old) (V.state volume.new) }
    ensures cause { HasCause (V.state volume.old).faults (V.state volume.new).faults result }
    ensures sure { StaysSure (V.state volume.old) (V.state volume.new) result }
{
    if !has_free_end(geometry, master, lnum, prop) {
        return Ok(None);
    }
    let from = geometry.leb_size - prop.free;
    let end = buffer.split_at_mut(prop.free as usize).0;
    volume.read(lnum, from, end)?;
    Ok(first_written(end, from))
}

// Whether the end of a main LEB with these properties has to be unwritten.
fn has_free_end(geometry: &Geometry, master: &Master, lnum: u32, prop: &Lprop) -> bool
    ensures { result ≡ has_free_end (raw_of geometry.now) master.now lnum prop.now }
{
    if prop.free == 0 {
        return false;
    }
    if prop.free >= geometry.leb_size {
        return false;
    }
    lnum != master.ihead_lnum
}

// Of the bytes of a LEB from an offset on, the first that is written; none where all are unwritten.
fn first_written(end: &[u8], from: u32) -> Option<WrittenByte>
    requires { from + length end.now < 2 ^ 32 }
    ensures none { IfNone result ((k : ℕ) → get_or end.now k 255 ≡ 255) }
    ensures some { IfSome result (IsFirstIn end.now from) }
{
    for at in 0..end.len() {
        if end[at] != 255 {
            return Some(WrittenByte {
                offs: from + at as u32,
                byte: end[at],
            });
        }
    }
    None
}
