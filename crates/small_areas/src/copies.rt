// A new master is written.

ghost use Rattle.std.specs.Prelude.{◌≡◌, ◌<◌, ◌≤◌, ◌+◌, ◌%◌, ◌^◌, ℕ, length, IfSome, IfNone, OnOk};
ghost use Rattle.ubifs_base.specs.NodeLaws.{IsBytes};
ghost use Rattle.ubifs_base.specs.RawOf.{raw_of};
ghost use Rattle.ubi_volume.specs.Volume.{WorksOn, SameShape, AreUnits};
ghost use Rattle.ubi_volume.specs.Faults.{HasCause, StaysSure};
ghost use Rattle.ubi_volume.specs.Frame.{Works};
ghost use Rattle.ubi_volume.specs.Geometry.{IsGeometryOf};
ghost use Rattle.small_areas.specs.Copies.{room_of, IsRoom, IsNodeOf, master_node, copy_of, IsPlace, HasNoPlace, IsOpen, IsCopied, AreCopied, CopyUnderWay, IsMasterLeb, MasterUnderWay};
ghost use Rattle.small_areas.specs.Puts.{IsPut, PutUnderWay};

use leb_scan::{Tail, one_text, text_end};
use media_sys::{Master, one_node};
use ubi_volume::{VolFault, Volume, read_leb};
use ubifs_base::{Geometry, MASTER_NODE_LEN, fill_gap};

/// Writes a new master to LEB 1 and then to LEB 2. Each copy goes behind the text of its LEB and takes a sequence number of
/// its own, of the two next. A LEB whose text has a torn tail, or doesn't end at a place with room for a copy, is replaced
/// as one step. The number rises by two, whatever the answer. The buffer has the size of a LEB, and what is in it
/// afterwards is of no use.
///
/// At every moment a power cut leaves of each of the two LEBs what it might have left before, or that with the copy at its
/// place, whole or torn; where the LEB has no place for a copy, it leaves the copy alone. Until LEB 1 has the whole copy, LEB 2 is
/// left as before. The old latest master or the new one is left, if nothing else was left by a cut before, the sequence
/// number isn't below the old master's, and no torn node has a matching checksum. All other LEBs are as they were.
pub fn write_master<V: Volume>(
    volume: &mut V,
    geometry: &Geometry,
    master: &Master,
    sqnum: &mut u64,
    leb: &mut [u8],
) -> Result<(), VolFault>
    requires geometry { IsGeometryOf (raw_of geometry.now) (V.state volume.old) }
    requires number { sqnum.old < 2 ^ 63 + 2 ^ 56 }
    requires whole { length leb.old ≡ geometry.now.leb_size }
    requires first { IsOpen (V.state volume.old) 1 (room_of geometry.now.min_io) }
    requires second { IsOpen (V.state volume.old) 2 (room_of geometry.now.min_io) }
    ensures done { OnOk result (AreCopied (V.state volume.old) (V.state volume.new) (room_of geometry.now.min_io) sqnum.old master.now) }
    ensures works { Works (V.state volume.old) (V.state volume.new) IsMasterLeb (MasterUnderWay (V.state volume.old) (room_of geometry.now.min_io) sqnum.old master.now) }
    ensures raised { (sqnum.new ≡ sqnum.old + 2) × (length leb.new ≡ length leb.old) }
    ensures shape { SameShape (V.state volume.old) (V.state volume.new) }
    ensures cause { HasCause (V.state volume.old).faults (V.state volume.new).faults result }
    ensures sure { StaysSure (V.state volume.old) (V.state volume.new) result }
{
    let room = copy_room(geometry);
    let number = *sqnum;
    *sqnum = number + 2;
    write_copies(volume, room, master, number, leb)
}

// The bytes from one place for a copy to the next.
pub(crate) fn copy_room(geometry: &Geometry) -> u32
    ensures room { result ≡ room_of geometry.now.min_io }
    ensures is_room { IsRoom result }
    ensures fits { result ≤ geometry.now.leb_size }
    ensures whole { result % geometry.now.min_io ≡ 0 }
{
    let unit = geometry.min_io;
    (511 + unit) / unit * unit
}

// Writes both copies, with the two numbers behind this one.
fn write_copies<V: Volume>(
    volume: &mut V,
    room: u32,
    master: &Master,
    number: u64,
    leb: &mut [u8],
) -> Result<(), VolFault>
    requires lebs { 3 < (V.state volume.old).leb_cnt }
    requires number { number < 2 ^ 63 + 2 ^ 56 }
    requires whole { length leb.old ≡ (V.state volume.old).leb_size }
    requires room { IsRoom room }
    requires fits { room ≤ length leb.old }
    requires size { length leb.old < 2 ^ 32 }
    requires units { room % (V.state volume.old).min_io ≡ 0 }
    requires first { IsOpen (V.state volume.old) 1 room }
    requires second { IsOpen (V.state volume.old) 2 room }
    ensures done { OnOk result (AreCopied (V.state volume.old) (V.state volume.new) room number master.now) }
    ensures works { Works (V.state volume.old) (V.state volume.new) IsMasterLeb (MasterUnderWay (V.state volume.old) room number master.now) }
    ensures len { length leb.new ≡ length leb.old }
    ensures shape { SameShape (V.state volume.old) (V.state volume.new) }
    ensures cause { HasCause (V.state volume.old).faults (V.state volume.new).faults result }
    ensures sure { StaysSure (V.state volume.old) (V.state volume.new) result }
{
    one_text();
    one_node();
    let mut node = [0u8; MASTER_NODE_LEN as usize];
    spell(master, number + 1, &mut node);
    write_copy(volume, 1, room, &node, leb)?;
    spell(master, number + 2, &mut node);
    write_copy(volume, 2, room, &node, leb)
}

// Spells the node of a master.
pub(crate) fn spell(master: &Master, sqnum: u64, node: &mut [u8])
    requires { length node.old ≡ 512 }
    ensures spelling { node.new ≡ master_node sqnum master.now }
    ensures is_node { IsNodeOf node.new sqnum master.now }
{
    master.encode(sqnum, 0, node);
}

// Writes a node to a LEB, with a gap behind it: where the LEB has a place for a copy, and else in place of all of it.
pub(crate) fn write_copy<V: Volume>(
    volume: &mut V,
    lnum: u32,
    room: u32,
    node: &[u8],
    leb: &mut [u8],
) -> Result<(), VolFault>
    requires lnum { lnum < (V.state volume.old).leb_cnt }
    requires whole { length leb.old ≡ (V.state volume.old).leb_size }
    requires size { length leb.old < 2 ^ 32 }
    requires node { length node.now ≡ 512 }
    requires room { IsRoom room }
    requires fits { room ≤ length leb.old }
    requires units { room % (V.state volume.old).min_io ≡ 0 }
    requires open { IsOpen (V.state volume.old) lnum room }
    ensures done { OnOk result (IsCopied (V.state volume.old) (V.state volume.new) lnum room (copy_of room node.now)) }
    ensures bytes { OnOk result (IsBytes ((V.state volume.new).holds lnum)) }
    ensures works { WorksOn (V.state volume.old) (V.state volume.new) lnum (CopyUnderWay (V.state volume.old) lnum room (copy_of room node.now)) }
    ensures len { length leb.new ≡ length leb.old }
    ensures shape { SameShape (V.state volume.old) (V.state volume.new) }
    ensures cause { HasCause (V.state volume.old).faults (V.state volume.new).faults result }
    ensures sure { StaysSure (V.state volume.old) (V.state volume.new) result }
{
    read_leb(volume, lnum, leb)?;
    let place = next_place(leb, room);
    let copy = leb.split_at_mut(room as usize).0;
    lay_copy(copy, node);
    put_copy(volume, lnum, place, copy)
}

// The place for the next copy in a LEB with this text.
fn next_place(leb: &[u8], room: u32) -> Option<u32>
    requires size { length leb.now < 2 ^ 32 }
    requires room { 0 < room }
    ensures some { IfSome result (IsPlace leb.now room) }
    ensures none { IfNone result (HasNoPlace leb.now room) }
    ensures bytes { IsBytes leb.now }
{
    one_text();
    let (end, tail) = text_end(leb, 0);
    let Tail::Clean = tail else {
        return None;
    };
    if end % room != 0 {
        return None;
    }
    if end as usize + room as usize > leb.len() {
        return None;
    }
    Some(end)
}

// Lays a node, and a gap behind it.
fn lay_copy(copy: &mut [u8], node: &[u8])
    requires node { length node.now ≡ 512 }
    requires room { 512 ≤ length copy.old }
    requires size { length copy.old < 2 ^ 32 }
    ensures copy { copy.new ≡ copy_of (length copy.old) node.now }
    ensures bytes { IsBytes copy.new }
{
    let (front, gap) = copy.split_at_mut(MASTER_NODE_LEN as usize);
    front.copy_from_slice(node);
    fill_gap(gap);
}

// Writes a copy at a place, or in place of the whole LEB.
fn put_copy<V: Volume>(
    volume: &mut V,
    lnum: u32,
    place: Option<u32>,
    copy: &[u8],
) -> Result<(), VolFault>
    requires lnum { lnum < (V.state volume.old).leb_cnt }
    requires range { length copy.now ≤ (V.state volume.old).leb_size }
    requires units { AreUnits (V.state volume.old).min_io 0 (length copy.now) }
    requires place { IfSome place (λ offs. offs + length copy.now ≤ (V.state volume.old).leb_size) }
    requires starts { IfSome place (λ offs. offs % (V.state volume.old).min_io ≡ 0) }
    requires open { IfSome place (λ offs. (V.state volume.old).written lnum ≤ offs) }
    ensures done { OnOk result (IsPut (V.state volume.old) (V.state volume.new) lnum copy.now place) }
    ensures works { WorksOn (V.state volume.old) (V.state volume.new) lnum (PutUnderWay (V.state volume.old) lnum copy.now place) }
    ensures shape { SameShape (V.state volume.old) (V.state volume.new) }
    ensures cause { HasCause (V.state volume.old).faults (V.state volume.new).faults result }
    ensures sure { StaysSure (V.state volume.old) (V.state volume.new) result }
{
    match place {
        Some(offs) => volume.write(lnum, offs, copy),
        None => volume.change(lnum, copy),
    }
}
