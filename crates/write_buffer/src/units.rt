// Whole units of a LEB.

ghost use Rattle.std.specs.Prelude.{◌≡◌, ◌+◌, ◌-◌, ◌%◌, ◌<◌, ◌≤◌, ◌^◌, ◌++◌, length, take, OnOk};
ghost use Rattle.ubifs_base.specs.Gap.{gap_of};
ghost use Rattle.ubi_volume.specs.Volume.{Only, SameShape, Torn, WorksOn, put};
ghost use Rattle.ubi_volume.specs.Faults.{HasCause, StaysSure};
ghost use Rattle.write_buffer.specs.Units.{IsPut};

use ubi_volume::{VolFault, Volume};
use ubifs_base::fill_gap;

// Writes whole units, or none, to a LEB of which a cut leaves nothing but what it holds.
pub(crate) fn write_units<V: Volume>(
    volume: &mut V,
    lnum: u32,
    offs: u32,
    bytes: &[u8],
) -> Result<(), VolFault>
    requires lnum { lnum < (V.state volume.old).leb_cnt }
    requires range { offs + length bytes.now ≤ (V.state volume.old).leb_size }
    requires whole { length bytes.now % (V.state volume.old).min_io ≡ 0 }
    requires starts { offs % (V.state volume.old).min_io ≡ 0 }
    requires open_there { (V.state volume.old).written lnum ≤ offs }
    requires settled { Only ((V.state volume.old).holds lnum) ((V.state volume.old).left_now lnum) }
    ensures done { OnOk result (IsPut (V.state volume.old) (V.state volume.new) lnum offs bytes.now) }
    ensures torn { Torn offs (length bytes.now) ((V.state volume.old).holds lnum) ((V.state volume.new).holds lnum) }
    ensures works { WorksOn (V.state volume.old) (V.state volume.new) lnum (Torn offs (length bytes.now) ((V.state volume.old).holds lnum)) }
    ensures shape { SameShape (V.state volume.old) (V.state volume.new) }
    ensures cause { HasCause (V.state volume.old).faults (V.state volume.new).faults result }
    ensures sure { StaysSure (V.state volume.old) (V.state volume.new) result }
{
    if bytes.is_empty() {
        return Ok(());
    }
    volume.write(lnum, offs, bytes)
}

// Puts bytes behind the first ones of a unit.
pub(crate) fn put_behind(unit: &mut Vec<u8>, count: usize, bytes: &[u8])
    requires { count + length bytes.now ≤ length unit.old.items }
    ensures front { take (count + length bytes.now) unit.new.items ≡ take count unit.old.items ++ bytes.now }
    ensures len { length unit.new.items ≡ length unit.old.items }
{
    copy_at(unit.as_mut_slice(), count, bytes);
}

// Fills a unit behind its first bytes with a gap.
pub(crate) fn pad_behind(unit: &mut Vec<u8>, count: usize)
    requires inside { count ≤ length unit.old.items }
    requires small { length unit.old.items < 2 ^ 32 }
    ensures padded { unit.new.items ≡ take count unit.old.items ++ gap_of (length unit.old.items - count) }
    ensures front { take count unit.new.items ≡ take count unit.old.items }
    ensures len { length unit.new.items ≡ length unit.old.items }
{
    pad(unit.as_mut_slice(), count);
}

fn copy_at(unit: &mut [u8], count: usize, bytes: &[u8])
    requires { count + length bytes.now ≤ length unit.old }
    ensures { unit.new ≡ put count bytes.now unit.old }
{
    unit[count..count + bytes.len()].copy_from_slice(bytes);
}

fn pad(unit: &mut [u8], count: usize)
    requires inside { count ≤ length unit.old }
    requires small { length unit.old < 2 ^ 32 }
    ensures { unit.new ≡ take count unit.old ++ gap_of (length unit.old - count) }
{
    fill_gap(unit.split_at_mut(count).1);
}
