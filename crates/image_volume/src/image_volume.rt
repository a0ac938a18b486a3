// The bytes of an image as a volume.

ghost use Rattle.ubifs_base.specs.NodeLaws.{IsBytes};
ghost use Rattle.ubi_volume.specs.Shape.{IsShape};

use crate::reading::{bytes_from, fill_from, is_erased};
use crate::refusals::Refusals;
use ubi_volume::{LoadFault, VolFault, VolShape, Volume};
use ubifs_base::Arm;

/// The bytes of an image as a volume that is only read. It takes no memory. `write`, `change` and `unmap` answer `Failed` and change
/// no byte, and after the first of them the volume is spent. No other call fails, `map` has nothing to do, and nothing is ever armed.
#[derive(Drop)]
pub struct ImageVolume<'a> {
    shape: VolShape,
    bytes: &'a [u8],
    refusals: Refusals,
    ghost shape_ok: { IsShape shape },
    ghost are_bytes: { IsBytes bytes.now },
}

impl<'a> ImageVolume<'a> {
    ghost use Rattle.std.specs.Prelude.{IfOk, IfErr};
    ghost use Rattle.ubi_volume.specs.Loading.{Fits, IsLoaded};
    ghost use Rattle.ubi_volume.specs.Shape.{IsShape};
    ghost use Rattle.image_volume.specs.ImageVolume.{state_of, IsMisfit};

    /// The volume that the bytes are. LEBs behind their end are unwritten, and of each LEB the part behind its last unit that isn't
    /// erased is open for writing. Errors are `Short` and `Long`, in this order.
    pub fn new(bytes: &'a [u8], shape: VolShape) -> Result<ImageVolume<'a>, LoadFault>
        requires { IsShape shape }
        ensures loaded { IfOk result (λ volume. IsLoaded shape bytes.now (state_of volume)) }
        ensures fits { IfOk result (λ _. Fits shape bytes.now) }
        ensures fault { IfErr result (IsMisfit shape bytes.now) }
    {
        let len = bytes.len() as u64;
        if len < 4096 {
            return Err(LoadFault::Short { len });
        }
        if len % shape.leb_size as u64 != 0 {
            return Err(LoadFault::Short { len });
        }
        let most = shape.leb_size as u64 * shape.leb_cnt as u64;
        if !is_erased(bytes, most as usize) {
            return Err(LoadFault::Long { len, most });
        }
        Ok(ImageVolume {
            shape,
            bytes,
            refusals: Refusals {
                first: None,
                count: 0,
            },
        })
    }
}

impl<'a> Volume for ImageVolume<'a> {
    ghost use Rattle.std.specs.Prelude.{◌≡◌, ◌+◌, ◌<◌, ◌≤◌, [], length, slice_range, OnOk, OnErr};
    ghost use Rattle.std.proofs.Common.{refl};
    ghost use Rattle.ubi_volume.specs.Volume.{Keeps, WorksOn, AreUnits, IsChanged, IsWritten, IsUnmapped, IsMapped, ChangeUnderWay, WriteUnderWay};
    ghost use Rattle.ubi_volume.specs.Faults.{HasAnswer};
    ghost use Rattle.image_volume.specs.ImageVolume.{state_of, IsRefused, IsServed};
    ghost use Rattle.image_volume.specs.ImageVolumeLaws.{leb_len_of, leb_bytes_of, left_bytes_of, none_of, blank_of};

    ghost state = { state_of };

    ghost leb_len = { leb_len_of };

    ghost leb_bytes = { leb_bytes_of };

    ghost left_bytes = { left_bytes_of };

    ghost since_bytes = { λ v t n c early inside each. left_bytes_of v n (c n) inside (each n) };

    ghost none = { none_of };

    ghost blank = { blank_of };

    ghost holds_now = { λ v n. refl };

    ghost mapped_now = { λ v n c h. h };

    ghost counts_now = { λ v t c early each. each };

    ghost only_now = { λ v c h. h };

    fn leb_size(&self) -> u32 {
        self.shape.leb_size
    }

    fn min_io(&self) -> u32 {
        self.shape.min_io
    }

    fn leb_cnt(&self) -> u32 {
        self.shape.leb_cnt
    }

    fn read(&mut self, lnum: u32, offs: u32, out: &mut [u8]) -> Result<(), VolFault>
        requires lnum { lnum < (state_of self.old).leb_cnt }
        requires range { offs + length out.old ≤ (state_of self.old).leb_size }
        ensures read { OnOk result (out.new ≡ slice_range ((state_of self.old).holds lnum) offs (offs + length out.old)) }
        ensures keeps { Keeps (state_of self.old) (state_of self.new) }
        ensures answer { HasAnswer (state_of self.old) (state_of self.new) result }
        ensures exact { IsServed self.old self.new result }
    {
        let place = lnum as u64 * self.shape.leb_size as u64 + offs as u64;
        fill_from(out, bytes_from(self.bytes, place as usize));
        Ok(())
    }

    fn write(&mut self, lnum: u32, offs: u32, bytes: &[u8]) -> Result<(), VolFault>
        requires lnum { lnum < (state_of self.old).leb_cnt }
        requires range { offs + length bytes.now ≤ (state_of self.old).leb_size }
        requires units { AreUnits (state_of self.old).min_io offs (length bytes.now) }
        requires open { (state_of self.old).written lnum ≤ offs }
        ensures done { OnOk result (IsWritten (state_of self.old) (state_of self.new) lnum offs bytes.now) }
        ensures works { WorksOn (state_of self.old) (state_of self.new) lnum (WriteUnderWay (state_of self.old) lnum offs (length bytes.now)) }
        ensures failed { OnErr result ((state_of self.new).unbroken → Keeps (state_of self.old) (state_of self.new)) }
        ensures answer { HasAnswer (state_of self.old) (state_of self.new) result }
        ensures exact { IsRefused self.old self.new lnum result }
    {
        self.refusals.refuse(lnum)
    }

    fn change(&mut self, lnum: u32, bytes: &[u8]) -> Result<(), VolFault>
        requires lnum { lnum < (state_of self.old).leb_cnt }
        requires range { length bytes.now ≤ (state_of self.old).leb_size }
        requires units { AreUnits (state_of self.old).min_io 0 (length bytes.now) }
        ensures done { OnOk result (IsChanged (state_of self.old) (state_of self.new) lnum bytes.now) }
        ensures works { WorksOn (state_of self.old) (state_of self.new) lnum (ChangeUnderWay (state_of self.old) lnum bytes.now) }
        ensures failed { OnErr result ((state_of self.new).unbroken → Keeps (state_of self.old) (state_of self.new)) }
        ensures answer { HasAnswer (state_of self.old) (state_of self.new) result }
        ensures exact { IsRefused self.old self.new lnum result }
    {
        self.refusals.refuse(lnum)
    }

    fn unmap(&mut self, lnum: u32) -> Result<(), VolFault>
        requires { lnum < (state_of self.old).leb_cnt }
        ensures done { OnOk result (IsUnmapped (state_of self.old) (state_of self.new) lnum) }
        ensures works { WorksOn (state_of self.old) (state_of self.new) lnum (ChangeUnderWay (state_of self.old) lnum []) }
        ensures failed { OnErr result ((state_of self.new).unbroken → Keeps (state_of self.old) (state_of self.new)) }
        ensures answer { HasAnswer (state_of self.old) (state_of self.new) result }
        ensures exact { IsRefused self.old self.new lnum result }
    {
        self.refusals.refuse(lnum)
    }

    fn map(&mut self, lnum: u32) -> Result<(), VolFault>
        requires { lnum < (state_of self.old).leb_cnt }
        ensures done { OnOk result (IsMapped (state_of self.old) (state_of self.new) lnum) }
        ensures works { WorksOn (state_of self.old) (state_of self.new) lnum ((state_of self.old).left_now lnum) }
        ensures failed { OnErr result ((state_of self.new).unbroken → Keeps (state_of self.old) (state_of self.new)) }
        ensures answer { HasAnswer (state_of self.old) (state_of self.new) result }
        ensures exact { IsServed self.old self.new result }
    {
        Ok(())
    }

    fn arm(&mut self, _what: &Arm) {}

    fn faults(&self) -> u64 {
        self.refusals.count
    }
}
