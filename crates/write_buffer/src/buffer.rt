// A buffer in front of a LEB.

ghost use Rattle.std.specs.Prelude.{◌≡◌, ◌↔◌, ◌+◌, ◌-◌, ◌<◌, ◌≤◌, ◌^◌, ◌++◌, [], length, IfOk, OnOk, OnErr, IsTrue};
ghost use Rattle.ubifs_base.specs.Gap.{gap_of};
ghost use Rattle.ubi_volume.specs.Volume.{SameShape, Torn, WorksOn};
ghost use Rattle.ubi_volume.specs.Faults.{HasCause, StaysSure};
ghost use Rattle.write_buffer.specs.Buffer.{IsAppended, IsBuffer, IsOpenFor, IsSynced, OnlyEarlierWait, Stands, end_of, lnum_of, padding_of, whole_of};
ghost use Rattle.write_buffer.specs.Units.{IsFilled};

use crate::units::{pad_behind, put_behind, write_units};
use std::alloc::Global;
use std::marker::Model;
use ubi_volume::{VolFault, Volume};
use ubifs_base::Memory;

/// Appends bytes to a LEB in whole units of its volume. What doesn't fill a unit waits. Contracts see it as the record
/// `Buffered` of `specs/Buffer.antt`. No call but `new` takes memory.
#[derive(Drop)]
pub struct Buffer {
    // the bytes of a unit, of which the first `count` wait
    waiting: Vec<u8>,
    count: usize,
    leb: Option<u32>,
    place: u32,
}

impl Model for Buffer {
    ghost use Rattle.std.specs.Prelude.{◌<◌, length, take};
    ghost use Rattle.write_buffer.specs.Buffer.{Buffered, IsBuffer};

    ghost Value = { Buffered };

    ghost view = { λ b. record { unit = length b.waiting.items; leb = b.leb; place = b.place; tail = take b.count b.waiting.items } };

    ghost invariant = { λ b. (b.count < length b.waiting.items) × IsBuffer (record { unit = length b.waiting.items; leb = b.leb; place = b.place; tail = take b.count b.waiting.items }) };
}

impl Buffer {
    /// A buffer without a LEB, for units of so many bytes.
    pub fn new(alloc: Global, min_io: u32) -> Result<Buffer, Memory>
        requires { 0 < min_io }
        ensures { IfOk result (λ buffer. buffer ≡ record { unit = min_io; leb = None; place = 0; tail = [] }) }
    {
        Ok(Buffer {
            waiting: vec![in alloc; 0; min_io as usize]?,
            count: 0,
            leb: None,
            place: 0,
        })
    }

    /// Turns to the start of a LEB. Nothing may wait.
    pub fn attach(&mut self, lnum: u32)
        requires { self.old.tail ≡ [] }
        ensures { self.new ≡ record { unit = self.old.unit; leb = Some lnum; place = 0; tail = [] } }
    {
        self.leb = Some(lnum);
        self.place = 0;
    }

    /// The LEB to which it writes.
    pub fn leb(&self) -> Option<u32>
        ensures { result ≡ self.now.leb }
    {
        self.leb
    }

    /// Where in the LEB the next byte goes.
    pub fn end(&self) -> u32
        ensures { result ≡ end_of self.now }
    {
        self.place + self.count as u32
    }

    /// The appended bytes that aren't written yet. They end where the next byte goes.
    pub fn tail(&self) -> &[u8]
        ensures { result.now ≡ self.now.tail }
    {
        self.waiting.split_at(self.count).0
    }

    /// Appends bytes. Those that fill a unit are written, and the rest waits. After `Failed` only bytes of earlier calls
    /// wait, and a unit whose write failed counts as not written.
    pub fn append<V: Volume>(&mut self, volume: &mut V, bytes: &[u8]) -> Result<(), VolFault>
        requires open_there { IsOpenFor (V.state volume.old) self.old (lnum_of self.old) }
        requires fits { end_of self.old + length bytes.now ≤ (V.state volume.old).leb_size }
        ensures done { OnOk result (IsAppended (V.state volume.old) (V.state volume.new) self.old self.new (lnum_of self.old) bytes.now) }
        ensures stands { Stands (V.state volume.old) (V.state volume.new) self.old self.new (lnum_of self.old) bytes.now × OnErr result (OnlyEarlierWait self.old self.new) }
        ensures works { WorksOn (V.state volume.old) (V.state volume.new) (lnum_of self.old) (Torn self.old.place (whole_of self.old.unit (length self.old.tail + length bytes.now)) ((V.state volume.old).holds (lnum_of self.old))) }
        ensures shape { SameShape (V.state volume.old) (V.state volume.new) }
        ensures cause { HasCause (V.state volume.old).faults (V.state volume.new).faults result }
        ensures sure { StaysSure (V.state volume.old) (V.state volume.new) result }
    {
        match self.leb {
            Some(lnum) => self.append_to(volume, lnum, bytes),
            None => Ok(()),
        }
    }

    /// Pads what waits by a gap, and writes it. Where nothing waits it does nothing. After `Failed` the same bytes wait.
    pub fn sync<V: Volume>(&mut self, volume: &mut V) -> Result<(), VolFault>
        requires { IsOpenFor (V.state volume.old) self.old (lnum_of self.old) }
        ensures done { OnOk result (IsSynced (V.state volume.old) (V.state volume.new) self.old self.new (lnum_of self.old)) }
        ensures stands { Stands (V.state volume.old) (V.state volume.new) self.old self.new (lnum_of self.old) (padding_of self.old.unit self.old.tail) × OnErr result (self.new.tail ≡ self.old.tail) }
        ensures works { WorksOn (V.state volume.old) (V.state volume.new) (lnum_of self.old) (Torn self.old.place self.old.unit ((V.state volume.old).holds (lnum_of self.old))) }
        ensures shape { SameShape (V.state volume.old) (V.state volume.new) }
        ensures cause { HasCause (V.state volume.old).faults (V.state volume.new).faults result }
        ensures sure { StaysSure (V.state volume.old) (V.state volume.new) result }
    {
        match self.leb {
            Some(lnum) => self.sync_to(volume, lnum),
            None => Ok(()),
        }
    }

    // Appends bytes to the LEB of this number.
    fn append_to<V: Volume>(
        &mut self,
        volume: &mut V,
        lnum: u32,
        bytes: &[u8],
    ) -> Result<(), VolFault>
        requires open_there { IsOpenFor (V.state volume.old) self.old lnum }
        requires fits { end_of self.old + length bytes.now ≤ (V.state volume.old).leb_size }
        ensures done { OnOk result (IsAppended (V.state volume.old) (V.state volume.new) self.old self.new lnum bytes.now) }
        ensures stands { Stands (V.state volume.old) (V.state volume.new) self.old self.new lnum bytes.now }
        ensures failed { OnErr result (OnlyEarlierWait self.old self.new) }
        ensures works { WorksOn (V.state volume.old) (V.state volume.new) lnum (Torn self.old.place (whole_of self.old.unit (length self.old.tail + length bytes.now)) ((V.state volume.old).holds lnum)) }
        ensures shape { SameShape (V.state volume.old) (V.state volume.new) }
        ensures cause { HasCause (V.state volume.old).faults (V.state volume.new).faults result }
        ensures sure { StaysSure (V.state volume.old) (V.state volume.new) result }
    {
        let room = self.room();
        if self.is_empty() {
            return self.append_units(volume, lnum, bytes);
        }
        if bytes.len() < room {
            let _size = volume.leb_size();
            self.wait(bytes);
            return Ok(());
        }
        let (front, rest) = bytes.split_at(room);
        self.write_filled(volume, lnum, front)?;
        self.append_units(volume, lnum, rest)
    }

    // Whether nothing waits.
    fn is_empty(&self) -> bool
        ensures none { IsTrue result ↔ (self.now.tail ≡ []) }
        ensures is { IsBuffer self.now }
    {
        self.count == 0
    }

    // The bytes that fill the waiting unit.
    fn room(&self) -> usize
        ensures { length self.now.tail + result ≡ self.now.unit }
    {
        self.waiting.len() - self.count
    }

    // Lets further bytes wait.
    fn wait(&mut self, bytes: &[u8])
        requires room { length self.old.tail + length bytes.now < self.old.unit }
        requires end { end_of self.old + length bytes.now < 2 ^ 32 }
        ensures { self.new ≡ record { unit = self.old.unit; leb = self.old.leb; place = self.old.place; tail = self.old.tail ++ bytes.now } }
    {
        put_behind(&mut self.waiting, self.count, bytes);
        self.count += bytes.len();
    }

    // Writes what waits, with the bytes that fill its unit.
    fn write_filled<V: Volume>(
        &mut self,
        volume: &mut V,
        lnum: u32,
        front: &[u8],
    ) -> Result<(), VolFault>
        requires open_there { IsOpenFor (V.state volume.old) self.old lnum }
        requires fills { length self.old.tail + length front.now ≡ self.old.unit }
        requires fits { self.old.place + self.old.unit ≤ (V.state volume.old).leb_size }
        ensures done { OnOk result (IsFilled (V.state volume.old) (V.state volume.new) self.old self.new lnum front.now) }
        ensures failed { OnErr result (self.new ≡ self.old) }
        ensures torn { Torn self.old.place self.old.unit ((V.state volume.old).holds lnum) ((V.state volume.new).holds lnum) }
        ensures works { WorksOn (V.state volume.old) (V.state volume.new) lnum (Torn self.old.place self.old.unit ((V.state volume.old).holds lnum)) }
        ensures shape { SameShape (V.state volume.old) (V.state volume.new) }
        ensures cause { HasCause (V.state volume.old).faults (V.state volume.new).faults result }
        ensures sure { StaysSure (V.state volume.old) (V.state volume.new) result }
    {
        let _size = volume.leb_size();
        let count = self.count;
        put_behind(&mut self.waiting, count, front);
        write_units(volume, lnum, self.place, &self.waiting)?;
        self.place += self.waiting.len() as u32;
        self.count = 0;
        Ok(())
    }

    // Appends bytes behind whole units.
    fn append_units<V: Volume>(
        &mut self,
        volume: &mut V,
        lnum: u32,
        bytes: &[u8],
    ) -> Result<(), VolFault>
        requires open_there { IsOpenFor (V.state volume.old) self.old lnum }
        requires none { self.old.tail ≡ [] }
        requires fits { self.old.place + length bytes.now ≤ (V.state volume.old).leb_size }
        ensures done { OnOk result (IsAppended (V.state volume.old) (V.state volume.new) self.old self.new lnum bytes.now) }
        ensures failed { OnErr result (self.new ≡ self.old) }
        ensures torn { Torn self.old.place (whole_of self.old.unit (length bytes.now)) ((V.state volume.old).holds lnum) ((V.state volume.new).holds lnum) }
        ensures works { WorksOn (V.state volume.old) (V.state volume.new) lnum (Torn self.old.place (whole_of self.old.unit (length bytes.now)) ((V.state volume.old).holds lnum)) }
        ensures shape { SameShape (V.state volume.old) (V.state volume.new) }
        ensures cause { HasCause (V.state volume.old).faults (V.state volume.new).faults result }
        ensures sure { StaysSure (V.state volume.old) (V.state volume.new) result }
    {
        let _size = volume.leb_size();
        let unit = self.waiting.len();
        let (front, rest) = bytes.split_at(bytes.len() / unit * unit);
        write_units(volume, lnum, self.place, front)?;
        self.place += front.len() as u32;
        self.wait(rest);
        Ok(())
    }

    // Pads what waits for the LEB of this number, and writes it.
    fn sync_to<V: Volume>(&mut self, volume: &mut V, lnum: u32) -> Result<(), VolFault>
        requires { IsOpenFor (V.state volume.old) self.old lnum }
        ensures done { OnOk result (IsSynced (V.state volume.old) (V.state volume.new) self.old self.new lnum) }
        ensures stands { Stands (V.state volume.old) (V.state volume.new) self.old self.new lnum (padding_of self.old.unit self.old.tail) }
        ensures failed { OnErr result (self.new.tail ≡ self.old.tail) }
        ensures works { WorksOn (V.state volume.old) (V.state volume.new) lnum (Torn self.old.place self.old.unit ((V.state volume.old).holds lnum)) }
        ensures shape { SameShape (V.state volume.old) (V.state volume.new) }
        ensures cause { HasCause (V.state volume.old).faults (V.state volume.new).faults result }
        ensures sure { StaysSure (V.state volume.old) (V.state volume.new) result }
    {
        if self.is_empty() {
            return Ok(());
        }
        self.write_padded(volume, lnum)
    }

    // Writes what waits, with a gap up to the end of its unit.
    fn write_padded<V: Volume>(&mut self, volume: &mut V, lnum: u32) -> Result<(), VolFault>
        requires open_there { IsOpenFor (V.state volume.old) self.old lnum }
        requires some { 0 < length self.old.tail }
        ensures done { OnOk result (IsFilled (V.state volume.old) (V.state volume.new) self.old self.new lnum (gap_of (self.old.unit - length self.old.tail))) }
        ensures full { length self.old.tail + length (gap_of (self.old.unit - length self.old.tail)) ≡ self.old.unit }
        ensures failed { OnErr result (self.new ≡ self.old) }
        ensures torn { Torn self.old.place self.old.unit ((V.state volume.old).holds lnum) ((V.state volume.new).holds lnum) }
        ensures works { WorksOn (V.state volume.old) (V.state volume.new) lnum (Torn self.old.place self.old.unit ((V.state volume.old).holds lnum)) }
        ensures shape { SameShape (V.state volume.old) (V.state volume.new) }
        ensures cause { HasCause (V.state volume.old).faults (V.state volume.new).faults result }
        ensures sure { StaysSure (V.state volume.old) (V.state volume.new) result }
    {
        let _size = volume.leb_size();
        let count = self.count;
        pad_behind(&mut self.waiting, count);
        write_units(volume, lnum, self.place, &self.waiting)?;
        self.place += self.waiting.len() as u32;
        self.count = 0;
        Ok(())
    }
}
