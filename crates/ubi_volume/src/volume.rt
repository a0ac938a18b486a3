// What file systems are written against.

ghost use Rattle.std.specs.Prelude.{◌≡◌, ◌+◌, ◌-◌, ◌<◌, ◌≤◌, ℕ, List, [], length, slice_range, drop, replicate, OnOk, OnErr};
ghost use Rattle.ubifs_base.specs.NodeLaws.{IsBytes};
ghost use Rattle.ubi_volume.specs.Volume.{VolumeState, Each, IsLebBytes, SameShape, Keeps, WorksOn, AreUnits, IsChanged, IsWritten, IsUnmapped, IsMapped, ChangeUnderWay, WriteUnderWay};
ghost use Rattle.ubi_volume.specs.Faults.{HasCause, StaysSure};

use crate::VolFault;
use ubifs_base::Arm;

/// A volume of logical erase blocks (LEBs). No call takes memory. What a power cut may leave is as the UBI documentation
/// says: units that were written stay, each unit of a write under way is old, new or anything, a change is wholly done or
/// not at all, and an unmapping may be undone until the LEB is mapped, written or changed. The units of a call that
/// answered `Failed` are as under way; only while no such call is under way (`unbroken`) has it kept all (`failed`).
pub trait Volume {
    /// All that there is to say of the volume now.
    ghost state: { Self → VolumeState };

    /// The bytes of a LEB.
    fn leb_size(&self) -> u32
        ensures { result ≡ (state self.now).leb_size };

    /// The bytes of a unit: writes begin at a unit, and write whole units.
    fn min_io(&self) -> u32
        ensures { result ≡ (state self.now).min_io };

    /// The number of LEBs.
    fn leb_cnt(&self) -> u32
        ensures { result ≡ (state self.now).leb_cnt };

    /// Reads bytes of a LEB. Unwritten bytes are 0xFF.
    fn read(&mut self, lnum: u32, offs: u32, out: &mut [u8]) -> Result<(), VolFault>
        requires lnum { lnum < (state self.old).leb_cnt }
        requires range { offs + length out.old ≤ (state self.old).leb_size }
        ensures read { OnOk result (out.new ≡ slice_range ((state self.old).holds lnum) offs (offs + length out.old)) }
        ensures keeps { Keeps (state self.old) (state self.new) }
        ensures shape { SameShape (state self.old) (state self.new) }
        ensures cause { HasCause (state self.old).faults (state self.new).faults result }
        ensures sure { StaysSure (state self.old) (state self.new) result };

    /// Writes whole units at or past the end of the written part.
    fn write(&mut self, lnum: u32, offs: u32, bytes: &[u8]) -> Result<(), VolFault>
        requires lnum { lnum < (state self.old).leb_cnt }
        requires range { offs + length bytes.now ≤ (state self.old).leb_size }
        requires units { AreUnits (state self.old).min_io offs (length bytes.now) }
        requires open { (state self.old).written lnum ≤ offs }
        ensures done { OnOk result (IsWritten (state self.old) (state self.new) lnum offs bytes.now) }
        ensures works { WorksOn (state self.old) (state self.new) lnum (WriteUnderWay (state self.old) lnum offs (length bytes.now)) }
        ensures failed { OnErr result ((state self.new).unbroken → Keeps (state self.old) (state self.new)) }
        ensures shape { SameShape (state self.old) (state self.new) }
        ensures cause { HasCause (state self.old).faults (state self.new).faults result }
        ensures sure { StaysSure (state self.old) (state self.new) result };

    /// Replaces a LEB as one step, and leaves what is behind these whole units unwritten.
    fn change(&mut self, lnum: u32, bytes: &[u8]) -> Result<(), VolFault>
        requires lnum { lnum < (state self.old).leb_cnt }
        requires range { length bytes.now ≤ (state self.old).leb_size }
        requires units { AreUnits (state self.old).min_io 0 (length bytes.now) }
        ensures done { OnOk result (IsChanged (state self.old) (state self.new) lnum bytes.now) }
        ensures works { WorksOn (state self.old) (state self.new) lnum (ChangeUnderWay (state self.old) lnum bytes.now) }
        ensures failed { OnErr result ((state self.new).unbroken → Keeps (state self.old) (state self.new)) }
        ensures shape { SameShape (state self.old) (state self.new) }
        ensures cause { HasCause (state self.old).faults (state self.new).faults result }
        ensures sure { StaysSure (state self.old) (state self.new) result };

    /// Makes a LEB unwritten. A cut may undo it until the LEB is mapped, written or changed.
    fn unmap(&mut self, lnum: u32) -> Result<(), VolFault>
        requires { lnum < (state self.old).leb_cnt }
        ensures done { OnOk result (IsUnmapped (state self.old) (state self.new) lnum) }
        ensures works { WorksOn (state self.old) (state self.new) lnum (ChangeUnderWay (state self.old) lnum []) }
        ensures failed { OnErr result ((state self.new).unbroken → Keeps (state self.old) (state self.new)) }
        ensures shape { SameShape (state self.old) (state self.new) }
        ensures cause { HasCause (state self.old).faults (state self.new).faults result }
        ensures sure { StaysSure (state self.old) (state self.new) result };

    /// Makes the unmapping of a LEB final, and leaves the LEB as it reads: what is unwritten stays so.
    fn map(&mut self, lnum: u32) -> Result<(), VolFault>
        requires { lnum < (state self.old).leb_cnt }
        ensures done { OnOk result (IsMapped (state self.old) (state self.new) lnum) }
        ensures works { WorksOn (state self.old) (state self.new) lnum ((state self.old).left_now lnum) }
        ensures failed { OnErr result ((state self.new).unbroken → Keeps (state self.old) (state self.new)) }
        ensures shape { SameShape (state self.old) (state self.new) }
        ensures cause { HasCause (state self.old).faults (state self.new).faults result }
        ensures sure { StaysSure (state self.old) (state self.new) result };

    /// Arms a fault or a power cut. It changes no contents, no count and no outcome of a cut.
    fn arm(&mut self, what: &Arm)
        ensures keeps { Keeps (state self.old) (state self.new) }
        ensures shape { SameShape (state self.old) (state self.new) }
        ensures faults { (state self.new).faults ≡ (state self.old).faults };

    /// How often the volume has failed.
    fn faults(&self) -> u64
        ensures { result ≡ (state self.now).faults };

    /// A LEB has its size.
    ghost leb_len: { (volume : Self) (lnum : ℕ) → lnum < (state volume).leb_cnt → length ((state volume).holds lnum) ≡ (state volume).leb_size };

    /// And its bytes are bytes.
    ghost leb_bytes: { (volume : Self) (lnum : ℕ) → lnum < (state volume).leb_cnt → IsBytes ((state volume).holds lnum) };

    /// So is what a cut may leave of it,
    ghost left_bytes: { (volume : Self) (lnum : ℕ) (c : List ℕ) → lnum < (state volume).leb_cnt → (state volume).left_now lnum c → IsLebBytes (state volume).leb_size c };

    /// at any moment.
    ghost since_bytes: { (volume : Self) (t lnum : ℕ) (c : ℕ → List ℕ) → t ≤ (state volume).moment → lnum < (state volume).leb_cnt → (state volume).left_since t c
        → IsLebBytes (state volume).leb_size (c lnum) };

    /// Behind the last LEB nothing is held.
    ghost none: { (volume : Self) (lnum : ℕ) → (state volume).leb_cnt ≤ lnum → (state volume).holds lnum ≡ [] };

    /// What isn't written is 255.
    ghost blank: { (volume : Self) (lnum : ℕ) → lnum < (state volume).leb_cnt
        → drop ((state volume).written lnum) ((state volume).holds lnum) ≡ replicate ((state volume).leb_size - (state volume).written lnum) 255 };

    /// What is read now, a cut may leave.
    ghost holds_now: { (volume : Self) (lnum : ℕ) → (state volume).left_mapped lnum ((state volume).holds lnum) };

    /// Where no unmapping is undone is one of the outcomes.
    ghost mapped_now: { (volume : Self) (lnum : ℕ) (c : List ℕ) → (state volume).left_mapped lnum c → (state volume).left_now lnum c };

    /// This moment is one of those since an earlier one.
    ghost counts_now: { (volume : Self) (t : ℕ) (c : ℕ → List ℕ) → t ≤ (state volume).moment → Each (state volume).left_now c → (state volume).left_since t c };

    /// Since this moment there is no other.
    ghost only_now: { (volume : Self) (c : ℕ → List ℕ) → (state volume).left_since (state volume).moment c → Each (state volume).left_now c };
}
