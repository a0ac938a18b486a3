// The copy of the master that isn't the latest is mended.

ghost use Rattle.std.specs.Prelude.{◌≡◌, ◌↔◌, ◌<◌, ◌≤◌, ◌+◌, ◌-◌, ◌%◌, ◌^◌, ℕ, length, IsTrue, OnOk, Some};
ghost use Rattle.ubifs_base.specs.RawOf.{raw_of};
ghost use Rattle.ubi_volume.specs.Volume.{SameShape};
ghost use Rattle.ubi_volume.specs.Faults.{HasCause, StaysSure};
ghost use Rattle.ubi_volume.specs.Frame.{Works};
ghost use Rattle.ubi_volume.specs.Geometry.{IsGeometryOf};
ghost use Rattle.small_areas.specs.Copies.{room_of, IsOpen, IsRoom, IsMasterLeb, IsMended, IsMendNumbered, IsMendWritten, MendUnderWay, other_leb};
ghost use Rattle.small_areas.specs.Masters.{IsLatest};
ghost use Rattle.small_areas.specs.declared.placed_master.PlacedMaster.{PlacedMaster as APlacedMaster};

use crate::copies::{copy_room, spell, write_copy};
use crate::masters::master_in;
use crate::placed_master::PlacedMaster;
use leb_scan::one_text;
use media_sys::{Master, one_node};
use std::alloc::Global;
use ubi_volume::{VolFault, Volume};
use ubifs_base::{Geometry, MASTER_NODE_LEN};

/// Makes both copies say the latest master: where the other LEB's last master differs from it in a field, or that LEB has
/// none, the latest is written there with the next sequence number, as `write_master` does it. Where both say the same,
/// nothing is written and no number is taken. The buffer has the size of a LEB, and what is in it afterwards is of no use.
///
/// At every moment a power cut leaves the LEB of the latest master as before, and the other one as `write_master` does. It
/// leaves the same latest master, under what `write_master` asks for the old one.
pub fn mend_master<V: Volume>(
    alloc: Global,
    volume: &mut V,
    geometry: &Geometry,
    latest: &PlacedMaster,
    sqnum: &mut u64,
    leb: &mut [u8],
) -> Result<(), VolFault>
    requires geometry { IsGeometryOf (raw_of geometry.now) (V.state volume.old) }
    requires latest { IsLatest ((V.state volume.old).holds 1) ((V.state volume.old).holds 2) latest.now }
    requires number { sqnum.old < 2 ^ 63 + 2 ^ 56 }
    requires whole { length leb.old ≡ geometry.now.leb_size }
    requires first { IsOpen (V.state volume.old) 1 (room_of geometry.now.min_io) }
    requires second { IsOpen (V.state volume.old) 2 (room_of geometry.now.min_io) }
    ensures done { OnOk result (IsMended (V.state volume.new) (room_of geometry.now.min_io) sqnum.old latest.now
        × IsMendWritten (V.state volume.old) (V.state volume.new) (room_of geometry.now.min_io) sqnum.old latest.now) }
    ensures works { Works (V.state volume.old) (V.state volume.new) IsMasterLeb (MendUnderWay (V.state volume.old) (room_of geometry.now.min_io) sqnum.old latest.now) }
    ensures raised { IsMendNumbered (V.state volume.old) (V.state volume.new) sqnum.old sqnum.new latest.now × (length leb.new ≡ length leb.old) }
    ensures shape { SameShape (V.state volume.old) (V.state volume.new) }
    ensures cause { HasCause (V.state volume.old).faults (V.state volume.new).faults result }
    ensures sure { StaysSure (V.state volume.old) (V.state volume.new) result }
{
    let room = copy_room(geometry);
    mend_in(alloc, volume, room, latest, sqnum, leb)
}

// Mends the copy, where copies take so much room.
fn mend_in<V: Volume>(
    alloc: Global,
    volume: &mut V,
    room: u32,
    latest: &PlacedMaster,
    sqnum: &mut u64,
    leb: &mut [u8],
) -> Result<(), VolFault>
    requires lebs { 2 < (V.state volume.old).leb_cnt }
    requires latest { IsLatest ((V.state volume.old).holds 1) ((V.state volume.old).holds 2) latest.now }
    requires number { sqnum.old < 2 ^ 63 + 2 ^ 56 }
    requires whole { length leb.old ≡ (V.state volume.old).leb_size }
    requires room { IsRoom room }
    requires fits { room ≤ length leb.old }
    requires size { length leb.old < 2 ^ 32 }
    requires units { room % (V.state volume.old).min_io ≡ 0 }
    requires first { IsOpen (V.state volume.old) 1 room }
    requires second { IsOpen (V.state volume.old) 2 room }
    ensures done { OnOk result (IsMended (V.state volume.new) room sqnum.old latest.now) }
    ensures written { OnOk result (IsMendWritten (V.state volume.old) (V.state volume.new) room sqnum.old latest.now) }
    ensures works { Works (V.state volume.old) (V.state volume.new) IsMasterLeb (MendUnderWay (V.state volume.old) room sqnum.old latest.now) }
    ensures raised { IsMendNumbered (V.state volume.old) (V.state volume.new) sqnum.old sqnum.new latest.now }
    ensures len { length leb.new ≡ length leb.old }
    ensures shape { SameShape (V.state volume.old) (V.state volume.new) }
    ensures cause { HasCause (V.state volume.old).faults (V.state volume.new).faults result }
    ensures sure { StaysSure (V.state volume.old) (V.state volume.new) result }
{
    one_text();
    one_node();
    let number = *sqnum;
    let other = other_of(latest);
    let found = master_in(alloc, volume, other, leb)?;
    if says(found, &latest.master) {
        return Ok(());
    }
    *sqnum = number + 1;
    let mut node = [0u8; MASTER_NODE_LEN as usize];
    spell(&latest.master, number + 1, &mut node);
    write_copy(volume, other, room, &node, leb)
}

// The LEB with a copy in which the latest doesn't stand.
fn other_of(latest: &PlacedMaster) -> u32
    requires { latest.now.lnum ≤ 3 }
    ensures { result ≡ other_leb latest.now.lnum }
{
    3 - latest.lnum
}

// Whether a master was found that says the same.
fn says(found: Option<PlacedMaster>, master: &Master) -> bool
    ensures { IsTrue result ↔ (placed : APlacedMaster) × (found ≡ Some placed) × (placed.master ≡ master.now) }
{
    let Some(placed) = found else {
        return false;
    };
    placed.master == *master
}
