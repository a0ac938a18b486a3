// A volume in memory.

ghost use Rattle.std.specs.Prelude.{◌≡◌, All, length};
ghost use Rattle.ubi_volume.specs.Lebs.{IsLeb};
ghost use Rattle.ubi_volume.specs.Shape.{IsShape};

use crate::arming::{Arming, CHANGE_STEPS, Fate, MAP_STEPS, UNMAP_STEPS};
use crate::leb::{Leb, all_bytes, blank_lebs, change_leb, map_leb, unmap_leb, write_leb};
use crate::loading::loaded_lebs;
use crate::settling::settle_lebs;
use crate::tear::{Tear, tear_leb};
use crate::{VolFault, Volume};
use std::alloc::Global;
use ubifs_base::{Arm, Cut, Memory};

/// The bytes of a LEB, the bytes that are written at once, and the number of LEBs.
#[derive(Clone, Copy, Debug, PartialEq, Eq)]
pub struct VolShape {
    pub leb_size: u32,
    pub min_io: u32,
    pub leb_cnt: u32,
}

/// A volume in memory, which has all its room from the start. It fails from the step in which an armed cut falls until it is
/// revived, and at the call that was armed to fail, and nowhere else. It is never spent.
#[derive(Drop)]
pub struct MemVolume {
    shape: VolShape,
    lebs: Vec<Leb>,
    arming: Arming,
    ghost shape_ok: { IsShape shape },
    ghost all: { length lebs.items ≡ shape.leb_cnt },
    ghost sizes: { All (IsLeb shape.leb_size) lebs.items },
}

impl MemVolume {
    ghost use Rattle.std.specs.Prelude.{◌≡◌, ℕ, false, None, IfOk};
    ghost use Rattle.ubi_volume.specs.Shape.{IsShape};
    ghost use Rattle.ubi_volume.specs.MemVolume.{state_of, mem_of, arming_of, contents_left, without_fail, IsBlank};
    ghost use Rattle.ubi_volume.specs.Effects.{IsArmed, HasNoPast};
    ghost use Rattle.ubi_volume.specs.Loading.{IsFound, IsLoaded};
    ghost use Rattle.ubi_volume.specs.Volume.{Each, Keeps, SameShape, image_of};

    /// A volume of which no LEB is written.
    pub fn new(alloc: Global, shape: VolShape) -> Result<MemVolume, Memory>
        requires { IsShape shape }
        ensures blank { IfOk result (λ volume. IsBlank shape (state_of volume)) }
        ensures no_past { IfOk result (λ volume. HasNoPast (mem_of volume)) }
    {
        let lebs = blank_lebs(alloc, shape.leb_size, shape.leb_cnt)?;
        Ok(MemVolume {
            shape,
            lebs,
            arming: Arming::new(),
        })
    }

    // A volume that holds the bytes, and unwritten ones behind them.
    pub(crate) fn loaded(alloc: Global, bytes: &[u8], shape: VolShape) -> Result<MemVolume, Memory>
        requires { IsShape shape }
        ensures loaded { IfOk result (λ volume. IsLoaded shape bytes.now (state_of volume)) }
        ensures no_past { IfOk result (λ volume. HasNoPast (mem_of volume)) }
    {
        let lebs = loaded_lebs(alloc, shape, bytes)?;
        Ok(MemVolume {
            shape,
            lebs,
            arming: Arming::new(),
        })
    }

    /// Arms a power cut, in the place of one that is armed: it falls within the given step, counted from now. Each unit
    /// written, change, unmapping and mapping is one step. From then on every call answers `Failed` until `revive`, and no
    /// other cut is armed, since the pattern of the one that has struck says what it left.
    pub fn arm_cut(&mut self, cut: Cut)
        ensures keeps { Keeps (state_of self.old) (state_of self.new) }
        ensures shape { SameShape (state_of self.old) (state_of self.new) }
        ensures armed { IsArmed (mem_of self.old) (mem_of self.new) (Arm.Cut cut) }
    {
        if self.arming.is_cut {
            return;
        }
        self.arming.cut_step = cut.step;
        self.arming.pattern = cut.pattern;
        self.arming.steps = 0;
    }

    /// Arms a call, in the place of one that is armed: the one of this number, counted over all calls from now, answers
    /// `Failed` once and changes nothing. No call has the number 0.
    pub fn arm_fail(&mut self, call: u64)
        ensures keeps { Keeps (state_of self.old) (state_of self.new) }
        ensures shape { SameShape (state_of self.old) (state_of self.new) }
        ensures armed { IsArmed (mem_of self.old) (mem_of self.new) (Arm.Fail call) }
    {
        self.arming.fail = call;
    }

    /// Finds the volume after the cut that has struck, or makes the armed one here, between two steps. Each unmapping that may
    /// be undone takes a digit of the pattern behind its lowest, in order of LEB: 0 says that it stays. Then no cut is armed;
    /// a call that is armed to fail still is.
    pub fn revive(&mut self)
        ensures outcome { Each (state_of self.old).left_now (contents_left (mem_of self.old)) }
        ensures found { IsFound (contents_left (mem_of self.old)) (without_fail (state_of self.new)) }
        ensures settled { (k : ℕ) → ((mem_of self.new).leb k).pending ≡ None }
        ensures shape { SameShape (state_of self.old) (state_of self.new) }
        ensures armed { arming_of self.new ≡ record (arming_of self.old) { cut_step = 0; pattern = 0; is_cut = false } }
    {
        settle_lebs(
            &mut self.lebs,
            self.shape.leb_size,
            self.shape.min_io,
            self.arming.pattern / 4,
        );
        self.arming.cut_step = 0;
        self.arming.pattern = 0;
        self.arming.is_cut = false;
    }

    /// The steps since a cut was armed, that in which it fell included.
    pub fn steps(&self) -> u64
        ensures { result ≡ (arming_of self.now).steps }
    {
        self.arming.steps
    }

    /// Whether a cut has struck since the volume was last revived.
    pub fn is_cut(&self) -> bool
        ensures { result ≡ (arming_of self.now).is_cut }
    {
        self.arming.is_cut
    }

    // The bytes of all LEBs.
    pub(crate) fn image(&self, alloc: Global) -> Result<Vec<u8>, Memory>
        ensures { IfOk result (λ image. image.items ≡ image_of (state_of self.now).holds (state_of self.now).leb_cnt) }
    {
        let size = self.shape.leb_size as usize * self.shape.leb_cnt as usize;
        all_bytes(alloc, size, &self.lebs)
    }
}

impl Volume for MemVolume {
    ghost use Rattle.std.specs.Prelude.{◌≡◌, ◌+◌, ◌<◌, ◌≤◌, [], length, slice_get, slice_range, OnOk, OnErr};
    ghost use Rattle.std.proofs.Common.{refl};
    ghost use Rattle.ubi_volume.specs.Volume.{SameShape, Keeps, WorksOn, AreUnits, IsChanged, IsWritten, IsUnmapped, IsMapped, ChangeUnderWay, WriteUnderWay};
    ghost use Rattle.ubi_volume.specs.Faults.{HasAnswer};
    ghost use Rattle.ubi_volume.specs.Effects.{HasEffect, IsArmed, write_effect, change_effect, unmap_effect, map_effect, no_effect};
    ghost use Rattle.ubi_volume.specs.MemVolume.{state_of, mem_of};
    ghost use Rattle.ubi_volume.specs.MemVolumeLaws.{left_now, leb_len_of, leb_bytes_of, left_bytes_of, none_of, blank_of};

    ghost state = { state_of };

    ghost leb_len = { leb_len_of };

    ghost leb_bytes = { leb_bytes_of };

    ghost left_bytes = { left_bytes_of };

    ghost since_bytes = { λ v t n c early inside each. left_bytes_of v n (c n) inside (each n) };

    ghost none = { none_of };

    ghost blank = { blank_of };

    ghost holds_now = { λ v n. refl };

    ghost mapped_now = { λ v n c h. left_now (slice_get v.lebs.items n) c h };

    ghost counts_now = { λ v t c early each. each };

    ghost only_now = { λ v c h. h };

    fn leb_size(&self) -> u32 {
        self.shape.leb_size
    }

    fn min_io(&self) -> u32 {
        self.shape.min_io
    }

    fn leb_cnt(&self) -> u32 {
        self.shape.leb_cnt
    }

    fn read(&mut self, lnum: u32, offs: u32, out: &mut [u8]) -> Result<(), VolFault>
        requires lnum { lnum < (state_of self.old).leb_cnt }
        requires range { offs + length out.old ≤ (state_of self.old).leb_size }
        ensures read { OnOk result (out.new ≡ slice_range ((state_of self.old).holds lnum) offs (offs + length out.old)) }
        ensures keeps { Keeps (state_of self.old) (state_of self.new) }
        ensures answer { HasAnswer (state_of self.old) (state_of self.new) result }
        ensures exact { HasEffect (mem_of self.old) (mem_of self.new) lnum (no_effect ((mem_of self.old).leb lnum)) result }
    {
        match self.arming.next(0) {
            Fate::Runs => {
                let leb = &self.lebs[lnum as usize];
                out.copy_from_slice(&leb.content[offs as usize..offs as usize + out.len()]);
                Ok(())
            }
            Fate::Refused { count } => Err(VolFault::Failed { count }),
            Fate::Struck { count, .. } => Err(VolFault::Failed { count }),
        }
    }

    fn write(&mut self, lnum: u32, offs: u32, bytes: &[u8]) -> Result<(), VolFault>
        requires lnum { lnum < (state_of self.old).leb_cnt }
        requires range { offs + length bytes.now ≤ (state_of self.old).leb_size }
        requires units { AreUnits (state_of self.old).min_io offs (length bytes.now) }
        requires open { (state_of self.old).written lnum ≤ offs }
        ensures done { OnOk result (IsWritten (state_of self.old) (state_of self.new) lnum offs bytes.now) }
        ensures works { WorksOn (state_of self.old) (state_of self.new) lnum (WriteUnderWay (state_of self.old) lnum offs (length bytes.now)) }
        ensures failed { OnErr result ((state_of self.new).unbroken → Keeps (state_of self.old) (state_of self.new)) }
        ensures answer { HasAnswer (state_of self.old) (state_of self.new) result }
        ensures exact { HasEffect (mem_of self.old) (mem_of self.new) lnum (write_effect (state_of self.old).min_io offs bytes.now ((mem_of self.old).leb lnum)) result }
    {
        let size = self.shape.leb_size;
        let unit = self.shape.min_io as usize;
        match self.arming.next((bytes.len() / unit) as u64) {
            Fate::Runs => {
                write_leb(&mut self.lebs, size, lnum as usize, offs, bytes);
                Ok(())
            }
            Fate::Refused { count } => Err(VolFault::Failed { count }),
            Fate::Struck { done, digit, count } => {
                let done = done as usize * unit;
                let tear = Tear { done, unit, digit };
                tear_leb(&mut self.lebs, size, lnum as usize, offs, bytes, tear);
                Err(VolFault::Failed { count })
            }
        }
    }

    fn change(&mut self, lnum: u32, bytes: &[u8]) -> Result<(), VolFault>
        requires lnum { lnum < (state_of self.old).leb_cnt }
        requires range { length bytes.now ≤ (state_of self.old).leb_size }
        requires units { AreUnits (state_of self.old).min_io 0 (length bytes.now) }
        ensures done { OnOk result (IsChanged (state_of self.old) (state_of self.new) lnum bytes.now) }
        ensures works { WorksOn (state_of self.old) (state_of self.new) lnum (ChangeUnderWay (state_of self.old) lnum bytes.now) }
        ensures failed { OnErr result ((state_of self.new).unbroken → Keeps (state_of self.old) (state_of self.new)) }
        ensures answer { HasAnswer (state_of self.old) (state_of self.new) result }
        ensures exact { HasEffect (mem_of self.old) (mem_of self.new) lnum (change_effect (state_of self.old).leb_size bytes.now ((mem_of self.old).leb lnum)) result }
    {
        let size = self.shape.leb_size;
        match self.arming.next(CHANGE_STEPS) {
            Fate::Runs => {
                change_leb(&mut self.lebs, size, lnum as usize, bytes);
                Ok(())
            }
            Fate::Refused { count } => Err(VolFault::Failed { count }),
            Fate::Struck { digit, count, .. } => {
                if digit == 1 {
                    change_leb(&mut self.lebs, size, lnum as usize, bytes);
                    return Err(VolFault::Failed { count });
                }
                Err(VolFault::Failed { count })
            }
        }
    }

    fn unmap(&mut self, lnum: u32) -> Result<(), VolFault>
        requires { lnum < (state_of self.old).leb_cnt }
        ensures done { OnOk result (IsUnmapped (state_of self.old) (state_of self.new) lnum) }
        ensures works { WorksOn (state_of self.old) (state_of self.new) lnum (ChangeUnderWay (state_of self.old) lnum []) }
        ensures failed { OnErr result ((state_of self.new).unbroken → Keeps (state_of self.old) (state_of self.new)) }
        ensures answer { HasAnswer (state_of self.old) (state_of self.new) result }
        ensures exact { HasEffect (mem_of self.old) (mem_of self.new) lnum (unmap_effect (state_of self.old).leb_size ((mem_of self.old).leb lnum)) result }
    {
        let size = self.shape.leb_size;
        match self.arming.next(UNMAP_STEPS) {
            Fate::Runs => {
                unmap_leb(&mut self.lebs, size, lnum as usize);
                Ok(())
            }
            Fate::Refused { count } => Err(VolFault::Failed { count }),
            Fate::Struck { digit, count, .. } => {
                if digit == 1 {
                    unmap_leb(&mut self.lebs, size, lnum as usize);
                    return Err(VolFault::Failed { count });
                }
                Err(VolFault::Failed { count })
            }
        }
    }

    fn map(&mut self, lnum: u32) -> Result<(), VolFault>
        requires { lnum < (state_of self.old).leb_cnt }
        ensures done { OnOk result (IsMapped (state_of self.old) (state_of self.new) lnum) }
        ensures works { WorksOn (state_of self.old) (state_of self.new) lnum ((state_of self.old).left_now lnum) }
        ensures failed { OnErr result ((state_of self.new).unbroken → Keeps (state_of self.old) (state_of self.new)) }
        ensures answer { HasAnswer (state_of self.old) (state_of self.new) result }
        ensures exact { HasEffect (mem_of self.old) (mem_of self.new) lnum (map_effect ((mem_of self.old).leb lnum)) result }
    {
        let size = self.shape.leb_size;
        match self.arming.next(MAP_STEPS) {
            Fate::Runs => {
                map_leb(&mut self.lebs, size, lnum as usize);
                Ok(())
            }
            Fate::Refused { count } => Err(VolFault::Failed { count }),
            Fate::Struck { digit, count, .. } => {
                if digit == 1 {
                    map_leb(&mut self.lebs, size, lnum as usize);
                    return Err(VolFault::Failed { count });
                }
                Err(VolFault::Failed { count })
            }
        }
    }

    fn arm(&mut self, what: &Arm)
        ensures keeps { Keeps (state_of self.old) (state_of self.new) }
        ensures shape { SameShape (state_of self.old) (state_of self.new) }
        ensures faults { (state_of self.new).faults ≡ (state_of self.old).faults }
        ensures exact { IsArmed (mem_of self.old) (mem_of self.new) what.now }
    {
        match *what {
            Arm::Cut { cut } => self.arm_cut(cut),
            Arm::Fail { call } => self.arm_fail(call),
        }
    }

    fn faults(&self) -> u64 {
        self.arming.faults
    }
}
