// Clients of several calls, proved from the trait alone, and one of a volume in memory, from what its calls do exactly.

ghost use Rattle.std.specs.Prelude.{◌≡◌, ◌⊎◌, ◌+◌, ◌%◌, ◌==◌, ◌<◌, ◌≤◌, if◌then◌else◌, ℕ, [], length, OnOk, IfErr};
ghost use Rattle.ubi_volume.specs.Volume.{Only, filled, put, Torn, Leaves, AreUnits, SameShape};
ghost use Rattle.ubi_volume.specs.Shape.{IsShape};
ghost use Rattle.ubi_volume.specs.Faults.{HasCause, HasAreaCause, StaysSure, StaysSureArea};

use crate::{AreaFault, MemVolume, VolFault, VolShape, Volume};
use std::alloc::Global;
use ubifs_base::Cut;

/// Writes the bytes to LEB 1 and then to LEB 2. A cut at any moment leaves in each the old bytes or the new, whole,
/// and never the new in LEB 2 beside the old in LEB 1.
pub fn write_both<V: Volume>(volume: &mut V, bytes: &[u8]) -> Result<(), VolFault>
    requires lebs { 2 < (V.state volume.old).leb_cnt }
    requires range { length bytes.now ≤ (V.state volume.old).leb_size }
    requires units { AreUnits (V.state volume.old).min_io 0 (length bytes.now) }
    requires first { Only ((V.state volume.old).holds 1) ((V.state volume.old).left_now 1) }
    requires second { Only ((V.state volume.old).holds 2) ((V.state volume.old).left_now 2) }
    ensures done { let new = filled (V.state volume.old).leb_size bytes.now in
        OnOk result (Only new ((V.state volume.new).left_now 1) × Only new ((V.state volume.new).left_now 2)) }
    ensures any_moment { let new = filled (V.state volume.old).leb_size bytes.now in
        Leaves (V.state volume.old) (V.state volume.new) (λ c.
        ((c 1 ≡ (V.state volume.old).holds 1) × (c 2 ≡ (V.state volume.old).holds 2))
        ⊎ ((c 1 ≡ new) × ((c 2 ≡ (V.state volume.old).holds 2) ⊎ (c 2 ≡ new)))) }
    ensures cause { HasCause (V.state volume.old).faults (V.state volume.new).faults result }
{
    volume.change(1, bytes)?;
    volume.change(2, bytes)
}

/// Writes the bytes into LEB 1 and then into LEB 2, behind what is written there. A cut at any moment leaves what was
/// there before the bytes as it was, and one of the two LEBs untouched or with all of the new bytes.
pub fn append_both<V: Volume>(volume: &mut V, offs: u32, bytes: &[u8]) -> Result<(), VolFault>
    requires lebs { 2 < (V.state volume.old).leb_cnt }
    requires range { offs + length bytes.now ≤ (V.state volume.old).leb_size }
    requires units { AreUnits (V.state volume.old).min_io offs (length bytes.now) }
    requires open { (V.state volume.old).written 1 ≤ offs }
    requires open_second { (V.state volume.old).written 2 ≤ offs }
    requires first { Only ((V.state volume.old).holds 1) ((V.state volume.old).left_now 1) }
    requires second { Only ((V.state volume.old).holds 2) ((V.state volume.old).left_now 2) }
    ensures done { OnOk result (Only (put offs bytes.now ((V.state volume.old).holds 1)) ((V.state volume.new).left_now 1)
        × Only (put offs bytes.now ((V.state volume.old).holds 2)) ((V.state volume.new).left_now 2)) }
    ensures any_moment { let one = (V.state volume.old).holds 1 in let two = (V.state volume.old).holds 2 in
        Leaves (V.state volume.old) (V.state volume.new) (λ c.
        (((c 1 ≡ one) ⊎ Torn offs (length bytes.now) one (c 1)) × (c 2 ≡ two))
        ⊎ ((c 1 ≡ put offs bytes.now one) × ((c 2 ≡ two) ⊎ Torn offs (length bytes.now) two (c 2)))) }
    ensures cause { HasCause (V.state volume.old).faults (V.state volume.new).faults result }
{
    volume.write(1, offs, bytes)?;
    volume.write(2, offs, bytes)
}

/// Changes LEB 1, unmaps LEB 3 and then changes LEB 2. A cut at any moment leaves LEB 3 as it was while LEB 1 is old, and
/// LEB 2 as it was until LEB 1 is new.
pub fn change_and_unmap<V: Volume>(volume: &mut V, fresh: &[u8]) -> Result<(), VolFault>
    requires lebs { 3 < (V.state volume.old).leb_cnt }
    requires range { length fresh.now ≤ (V.state volume.old).leb_size }
    requires units { AreUnits (V.state volume.old).min_io 0 (length fresh.now) }
    requires first { Only ((V.state volume.old).holds 1) ((V.state volume.old).left_now 1) }
    requires second { Only ((V.state volume.old).holds 2) ((V.state volume.old).left_now 2) }
    requires third { Only ((V.state volume.old).holds 3) ((V.state volume.old).left_now 3) }
    ensures done { let new = filled (V.state volume.old).leb_size fresh.now in
        OnOk result (Only new ((V.state volume.new).left_now 1) × Only new ((V.state volume.new).left_now 2)
        × ((V.state volume.new).holds 3 ≡ filled (V.state volume.old).leb_size [])) }
    ensures any_moment { let new = filled (V.state volume.old).leb_size fresh.now in
        Leaves (V.state volume.old) (V.state volume.new) (λ c.
        ((c 1 ≡ (V.state volume.old).holds 1) × (c 2 ≡ (V.state volume.old).holds 2) × (c 3 ≡ (V.state volume.old).holds 3))
        ⊎ ((c 1 ≡ new) × ((c 2 ≡ (V.state volume.old).holds 2) ⊎ (c 2 ≡ new))
        × ((c 3 ≡ (V.state volume.old).holds 3) ⊎ (c 3 ≡ filled (V.state volume.old).leb_size [])))) }
    ensures cause { HasCause (V.state volume.old).faults (V.state volume.new).faults result }
    ensures sure { StaysSure (V.state volume.old) (V.state volume.new) result }
{
    volume.change(1, fresh)?;
    volume.unmap(3)?;
    volume.change(2, fresh)
}

/// Makes all LEBs unwritten.
pub fn unmap_all<V: Volume>(volume: &mut V) -> Result<(), VolFault>
    ensures done { OnOk result ((k : ℕ) → k < (V.state volume.old).leb_cnt → (V.state volume.new).holds k ≡ filled (V.state volume.old).leb_size []) }
    ensures shape { SameShape (V.state volume.old) (V.state volume.new) }
    ensures cause { HasCause (V.state volume.old).faults (V.state volume.new).faults result }
    ensures sure { StaysSure (V.state volume.old) (V.state volume.new) result }
{
    for lnum in 0..volume.leb_cnt() {
        volume.unmap(lnum)?;
    }
    Ok(())
}

/// Writes the first bytes to LEB 0 of a volume of its own, lets a cut fall into its change to the second ones, and reads what
/// was left once the volume is revived: the second bytes where the pattern's lowest digit is 1, else the first. It answers
/// `Memory` alone, since of its calls only the change fails.
pub fn read_after_cut(
    alloc: Global,
    shape: VolShape,
    first: &[u8],
    second: &[u8],
    pattern: u64,
    out: &mut [u8],
) -> Result<(), AreaFault>
    requires shape { IsShape shape }
    requires lebs { 0 < shape.leb_cnt }
    requires first { length first.now ≤ shape.leb_size × AreUnits shape.min_io 0 (length first.now) }
    requires second { length second.now ≤ shape.leb_size × AreUnits shape.min_io 0 (length second.now) }
    requires out { length out.old ≡ shape.leb_size }
    ensures read { OnOk result (out.new ≡ filled shape.leb_size (if pattern % 4 == 1 then second.now else first.now)) }
    ensures fault { IfErr result (λ fault. fault ≡ AreaFault.Memory) }
{
    let mut volume = MemVolume::new(alloc, shape)?;
    volume.write(0, 0, first)?;
    volume.arm_cut(Cut { step: 1, pattern });
    let _struck = volume.change(0, second);
    volume.revive();
    volume.read(0, 0, out)?;
    Ok(())
}
