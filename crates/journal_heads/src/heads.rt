// The heads of the journal.

ghost use Rattle.std.specs.Prelude.{◌≡◌, ◌⊎◌, ◌↔◌, ◌≢◌, ◌+◌, ◌<◌, ◌≤◌, ℕ, [], length, IfOk, OnOk, OnErr, IsTrue};
ghost use Rattle.ubifs_base.specs.JournalHead.{head_number};
ghost use Rattle.ubi_volume.specs.Volume.{SameShape, Torn, WorksOn};
ghost use Rattle.ubi_volume.specs.Faults.{HasCause, StaysSure};
ghost use Rattle.ubi_volume.specs.Frame.{Works};
ghost use Rattle.write_buffer.specs.Buffer.{IsAppended, IsOpenFor, IsSynced, Stands, end_of, lnum_of, padding_of, whole_of};
ghost use Rattle.journal_heads.specs.Heads.{AddsTo, AreLeft, AreOpen, ArePut, AreSynced, HasRoom, IsHeadLeft, IsHeads, IsOn, IsSyncedHead, PutUnderWay, StandsHead, attached, buffer_of, fresh, head_padding, place_of};

use crate::Place;
use std::alloc::Global;
use ubi_volume::{VolFault, Volume};
use ubifs_base::{Geometry, JournalHead, Memory};
use write_buffer::Buffer;

/// The heads of the journal. No call but `new` takes memory.
#[derive(Drop)]
pub struct Heads {
    buffers: [Buffer; 3],
    leb_size: u32,
}

impl Heads {
    /// Heads without a LEB.
    pub fn new(alloc: Global, geo: &Geometry) -> Result<Heads, Memory>
        ensures { IfOk result (λ heads. heads ≡ fresh geo.now.min_io geo.now.leb_size) }
    {
        let unit = geo.min_io;
        let leb_size = geo.leb_size;
        let collector = Buffer::new(alloc, unit)?;
        let base = Buffer::new(alloc, unit)?;
        let data = Buffer::new(alloc, unit)?;
        Ok(Heads {
            buffers: [collector, base, data],
            leb_size,
        })
    }

    /// Whether the head has a LEB, and so many bytes fit before the LEB's end.
    pub fn fits(&self, head: JournalHead, len: u32) -> bool
        ensures { IsTrue result ↔ HasRoom self.now (head_number head) len }
    {
        self.has_room(index_of(head), len)
    }

    /// Turns a head to the start of a LEB. Nothing of the head may wait.
    pub fn attach(&mut self, head: JournalHead, lnum: u32)
        requires { (buffer_of self.old (head_number head)).tail ≡ [] }
        ensures { self.new ≡ attached self.old (head_number head) lnum }
    {
        self.turn(index_of(head), lnum)
    }

    /// Where the next byte of a head goes.
    pub fn at(&self, head: JournalHead) -> Option<Place>
        ensures { result ≡ place_of self.now (head_number head) }
    {
        self.place(index_of(head))
    }

    /// The bytes of a head that aren't written yet. They end where its next byte goes.
    pub fn tail(&self, head: JournalHead) -> &[u8]
        ensures { result.now ≡ (buffer_of self.now (head_number head)).tail }
    {
        self.buffers[index_of(head) as usize].tail()
    }

    /// Puts nodes on a head, and answers where the first byte stands. After `Failed` only bytes of earlier calls wait.
    pub fn put<V: Volume>(
        &mut self,
        volume: &mut V,
        head: JournalHead,
        nodes: &[u8],
    ) -> Result<Place, VolFault>
        requires open_there { AreOpen (V.state volume.old) self.old }
        requires fits { HasRoom self.old (head_number head) (length nodes.now) }
        ensures done { IfOk result (λ place. ArePut (V.state volume.old) (V.state volume.new) self.old self.new (head_number head) nodes.now × (place_of self.old (head_number head) ≡ Some place)) }
        ensures adds { AddsTo (V.state volume.old) (V.state volume.new) self.old self.new (head_number head) nodes.now }
        ensures failed { OnErr result (((buffer_of self.new (head_number head)).tail ≡ (buffer_of self.old (head_number head)).tail) ⊎ ((buffer_of self.new (head_number head)).tail ≡ [])) }
        ensures works { WorksOn (V.state volume.old) (V.state volume.new) (lnum_of (buffer_of self.old (head_number head))) (PutUnderWay (V.state volume.old) (buffer_of self.old (head_number head)) (length nodes.now)) }
        ensures cause { HasCause (V.state volume.old).faults (V.state volume.new).faults result }
        ensures sure { StaysSure (V.state volume.old) (V.state volume.new) result }
    {
        self.put_on(volume, index_of(head), nodes)
    }

    /// Pads what waits of a head by a gap, and writes it. Where the head has no LEB it does nothing.
    pub fn sync<V: Volume>(&mut self, volume: &mut V, head: JournalHead) -> Result<(), VolFault>
        requires { AreOpen (V.state volume.old) self.old }
        ensures done { OnOk result (IsSyncedHead (V.state volume.old) (V.state volume.new) self.old self.new (head_number head)) }
        ensures adds { AddsTo (V.state volume.old) (V.state volume.new) self.old self.new (head_number head) (head_padding self.old (head_number head)) }
        ensures failed { OnErr result ((buffer_of self.new (head_number head)).tail ≡ (buffer_of self.old (head_number head)).tail) }
        ensures works { Works (V.state volume.old) (V.state volume.new) (IsOn self.old (head_number head)) (IsHeadLeft (V.state volume.old) (buffer_of self.old (head_number head))) }
        ensures cause { HasCause (V.state volume.old).faults (V.state volume.new).faults result }
        ensures sure { StaysSure (V.state volume.old) (V.state volume.new) result }
    {
        self.sync_if_attached(volume, index_of(head))
    }

    /// Syncs the heads, one after another.
    pub fn sync_all<V: Volume>(&mut self, volume: &mut V) -> Result<(), VolFault>
        requires { AreOpen (V.state volume.old) self.old }
        ensures done { OnOk result (AreSynced (V.state volume.old) (V.state volume.new) self.old self.new) }
        ensures stands { (head : ℕ) → StandsHead (V.state volume.old) (V.state volume.new) self.old self.new head }
        ensures works { Works (V.state volume.old) (V.state volume.new) (IsHeads self.old) (AreLeft (V.state volume.old) self.old) }
        ensures shape { SameShape (V.state volume.old) (V.state volume.new) }
        ensures cause { HasCause (V.state volume.old).faults (V.state volume.new).faults result }
        ensures sure { StaysSure (V.state volume.old) (V.state volume.new) result }
    {
        for head in 0..3 {
            self.sync_if_attached(volume, head)?;
        }
        Ok(())
    }

    // Whether so many bytes fit on the head of this number.
    fn has_room(&self, head: u8, len: u32) -> bool
        requires { head < 3 }
        ensures { IsTrue result ↔ HasRoom self.now head len }
    {
        let buffer = &self.buffers[head as usize];
        buffer.leb().is_some() && buffer.end() as u64 + len as u64 <= self.leb_size as u64
    }

    // Turns the head of this number to a LEB.
    fn turn(&mut self, head: u8, lnum: u32)
        requires head { head < 3 }
        requires none { (buffer_of self.old head).tail ≡ [] }
        ensures { self.new ≡ attached self.old head lnum }
    {
        self.buffers[head as usize].attach(lnum);
    }

    // Where the next byte of the head of this number goes.
    fn place(&self, head: u8) -> Option<Place>
        requires { head < 3 }
        ensures { result ≡ place_of self.now head }
    {
        let buffer = &self.buffers[head as usize];
        match buffer.leb() {
            Some(lnum) => Some(Place {
                lnum,
                offs: buffer.end(),
            }),
            None => None,
        }
    }

    // The LEB of the head of this number.
    fn leb(&self, head: u8) -> Option<u32>
        requires { head < 3 }
        ensures { result ≡ (buffer_of self.now head).leb }
    {
        self.buffers[head as usize].leb()
    }

    // Puts nodes on the head of this number.
    fn put_on<V: Volume>(
        &mut self,
        volume: &mut V,
        head: u8,
        nodes: &[u8],
    ) -> Result<Place, VolFault>
        requires head { head < 3 }
        requires open_there { AreOpen (V.state volume.old) self.old }
        requires fits { HasRoom self.old head (length nodes.now) }
        ensures done { OnOk result (ArePut (V.state volume.old) (V.state volume.new) self.old self.new head nodes.now) }
        ensures place { IfOk result (λ place. place_of self.old head ≡ Some place) }
        ensures adds { AddsTo (V.state volume.old) (V.state volume.new) self.old self.new head nodes.now }
        ensures failed { OnErr result (((buffer_of self.new head).tail ≡ (buffer_of self.old head).tail) ⊎ ((buffer_of self.new head).tail ≡ [])) }
        ensures works { WorksOn (V.state volume.old) (V.state volume.new) (lnum_of (buffer_of self.old head)) (PutUnderWay (V.state volume.old) (buffer_of self.old head) (length nodes.now)) }
        ensures cause { HasCause (V.state volume.old).faults (V.state volume.new).faults result }
        ensures sure { StaysSure (V.state volume.old) (V.state volume.new) result }
    {
        match self.place(head) {
            Some(place) => {
                self.append_on(volume, head, nodes)?;
                Ok(place)
            }
            None => Ok(Place { lnum: 0, offs: 0 }),
        }
    }

    // Syncs the head of this number, if it has a LEB.
    fn sync_if_attached<V: Volume>(&mut self, volume: &mut V, head: u8) -> Result<(), VolFault>
        requires head { head < 3 }
        requires open_there { AreOpen (V.state volume.old) self.old }
        ensures done { OnOk result (IsSyncedHead (V.state volume.old) (V.state volume.new) self.old self.new head) }
        ensures adds { AddsTo (V.state volume.old) (V.state volume.new) self.old self.new head (head_padding self.old head) }
        ensures failed { OnErr result ((buffer_of self.new head).tail ≡ (buffer_of self.old head).tail) }
        ensures works { Works (V.state volume.old) (V.state volume.new) (IsOn self.old head) (IsHeadLeft (V.state volume.old) (buffer_of self.old head)) }
        ensures cause { HasCause (V.state volume.old).faults (V.state volume.new).faults result }
        ensures sure { StaysSure (V.state volume.old) (V.state volume.new) result }
    {
        match self.leb(head) {
            Some(_) => self.sync_on(volume, head),
            None => Ok(()),
        }
    }

    // Appends nodes to the buffer of the head of this number, which is open.
    fn append_on<V: Volume>(
        &mut self,
        volume: &mut V,
        head: u8,
        nodes: &[u8],
    ) -> Result<(), VolFault>
        requires head { head < 3 }
        requires open_there { IsOpenFor (V.state volume.old) (buffer_of self.old head) (lnum_of (buffer_of self.old head)) }
        requires fits { end_of (buffer_of self.old head) + length nodes.now ≤ (V.state volume.old).leb_size }
        ensures done { OnOk result (IsAppended (V.state volume.old) (V.state volume.new) (buffer_of self.old head) (buffer_of self.new head) (lnum_of (buffer_of self.old head)) nodes.now) }
        ensures stands { Stands (V.state volume.old) (V.state volume.new) (buffer_of self.old head) (buffer_of self.new head) (lnum_of (buffer_of self.old head)) nodes.now }
        ensures failed { OnErr result (((buffer_of self.new head).tail ≡ (buffer_of self.old head).tail) ⊎ ((buffer_of self.new head).tail ≡ [])) }
        ensures buffers { (k : ℕ) → k ≢ head → buffer_of self.new k ≡ buffer_of self.old k }
        ensures size { self.new.leb_size ≡ self.old.leb_size }
        ensures works { WorksOn (V.state volume.old) (V.state volume.new) (lnum_of (buffer_of self.old head)) (PutUnderWay (V.state volume.old) (buffer_of self.old head) (length nodes.now)) }
        ensures shape { SameShape (V.state volume.old) (V.state volume.new) }
        ensures cause { HasCause (V.state volume.old).faults (V.state volume.new).faults result }
        ensures sure { StaysSure (V.state volume.old) (V.state volume.new) result }
    {
        self.buffers[head as usize].append(volume, nodes)
    }

    // Syncs the buffer of the head of this number, which is open.
    fn sync_on<V: Volume>(&mut self, volume: &mut V, head: u8) -> Result<(), VolFault>
        requires head { head < 3 }
        requires open_there { IsOpenFor (V.state volume.old) (buffer_of self.old head) (lnum_of (buffer_of self.old head)) }
        ensures done { OnOk result (IsSynced (V.state volume.old) (V.state volume.new) (buffer_of self.old head) (buffer_of self.new head) (lnum_of (buffer_of self.old head))) }
        ensures stands { Stands (V.state volume.old) (V.state volume.new) (buffer_of self.old head) (buffer_of self.new head) (lnum_of (buffer_of self.old head)) (padding_of (buffer_of self.old head).unit (buffer_of self.old head).tail) }
        ensures failed { OnErr result ((buffer_of self.new head).tail ≡ (buffer_of self.old head).tail) }
        ensures buffers { (k : ℕ) → k ≢ head → buffer_of self.new k ≡ buffer_of self.old k }
        ensures size { self.new.leb_size ≡ self.old.leb_size }
        ensures works { WorksOn (V.state volume.old) (V.state volume.new) (lnum_of (buffer_of self.old head)) (Torn (buffer_of self.old head).place (buffer_of self.old head).unit ((V.state volume.old).holds (lnum_of (buffer_of self.old head)))) }
        ensures shape { SameShape (V.state volume.old) (V.state volume.new) }
        ensures cause { HasCause (V.state volume.old).faults (V.state volume.new).faults result }
        ensures sure { StaysSure (V.state volume.old) (V.state volume.new) result }
    {
        self.buffers[head as usize].sync(volume)
    }
}

// The number of a head, which is its place among the buffers.
fn index_of(head: JournalHead) -> u8
    ensures number { result ≡ head_number head }
    ensures less { result < 3 }
{
    head.number()
}
