// The log as it is written.

ghost use Rattle.std.specs.Prelude.{◌≡◌, ◌≢◌, ◌⊎◌, ◌<◌, ◌≤◌, ◌+◌, ◌*◌, ◌%◌, ◌^◌, ℕ, IsTrue, IsFalse, false, List, [], ◌∷◌, length, fold, OnOk, OnErr};
ghost use Rattle.ubifs_base.specs.Areas.{lpt_first, main_first};
ghost use Rattle.ubifs_base.specs.RawOf.{raw_of};
ghost use Rattle.ubi_volume.specs.Volume.{Each, AreUnits, filled, Leaves, WorksOn, SameShape, ChangeUnderWay};
ghost use Rattle.ubi_volume.specs.Frame.{IsSameLeb, Works};
ghost use Rattle.ubi_volume.specs.Faults.{HasCause, StaysSure};
ghost use Rattle.media_sys.specs.SystemNode.{reference};
ghost use Rattle.bud_log.specs.AfterCut.{lebs_to, IsLeftReady, IsLeftOpened, IsLeftStarted};
ghost use Rattle.bud_log.specs.Buds.{named_also, buds_of};
ghost use Rattle.bud_log.specs.Log.{IsLogLeb, next_leb as leb_behind};
ghost use Rattle.bud_log.specs.LogAnswers.{StartsWith, IsLogCallAnswered, IsLogAnswered, IsBudOpened, IsSectionStarted, HasEnded};
ghost use Rattle.bud_log.specs.LogAt.{LogAt, IsAt, IsLogStart, IsBetween, IsOfEarlierSection, IsLogFull, IsFullExactly, IsRaised, padded_room_of, used_lebs, most_lebs, has_room as has_room_at, next_lnum, next_offs, lnum_at, offs_at, ending, references_to, section_nodes};
ghost use Rattle.bud_log.specs.LogText.{StartsCommit, IsNoLoneStart};
ghost use Rattle.bud_log.specs.LogCalls.{IsEmptied, IsLebBegun, BeginUnderWay, IsAdded, AddDuring, OpenUnderWay, StartUnderWay, UnmapUnderWay, EndUnderWay};
ghost use Rattle.bud_log.specs.Writing.{AreSpelled, AreOthersOlder, IsLogReady, IsOldOrMeant};
ghost use Rattle.bud_log.specs.declared.head_at.HeadAt.{HeadAt as AHead};

use crate::head_at::HeadAt;
use crate::laying::{lay_reference, lay_section, room_for};
use crate::log_fault::LogFault;
use crate::ring::next_leb;
use leb_scan::one_text;
use media_sys::{RefNode, one_node};
use std::marker::Model;
use ubi_volume::{VolFault, Volume};
use ubifs_base::{COMMIT_START_NODE_LEN, Geometry, JournalHead, REFERENCE_NODE_LEN};

// The most bytes that a write of the log takes: the greatest unit, into which a commit start and three references fit.
const MOST: usize = 16384;

/// Where the log is written: the LEB in which its oldest section that is still needed starts, that in which the present
/// section starts, and the place behind its last node.
#[derive(Drop)]
pub struct Log {
    geometry: Geometry,
    first: u32,
    section: u32,
    lnum: u32,
    offs: u32,
}

impl Model for Log {
    ghost use Rattle.ubifs_base.specs.RawOf.{raw_of};
    ghost use Rattle.bud_log.specs.LogAt.{LogAt};

    ghost Value = { LogAt };

    ghost view = { λ log. record { geo = raw_of log.geometry; first = log.first; section = log.section; lnum = log.lnum; offs = log.offs } };
}

impl Log {
    /// A log of one section, or of several that unfinished commits began, which starts in a LEB and ends at a place.
    pub fn at(geometry: &Geometry, from: u32, lnum: u32, offs: u32) -> Log
        ensures { result ≡ record { geo = raw_of geometry.now; first = from; section = from; lnum = lnum; offs = offs } }
    {
        Log {
            geometry: *geometry,
            first: from,
            section: from,
            lnum,
            offs,
        }
    }

    /// The LEB in which the present section starts.
    pub fn section(&self) -> u32
        ensures { result ≡ self.now.section }
    {
        self.section
    }

    /// Makes a main LEB a journal head's: unmaps and maps it, and writes a reference behind the end of the log, in the next
    /// LEB of the ring where the present one has no room; that one is unmapped first. `Full` comes before any call of the
    /// volume. Takes no memory.
    ///
    /// Whether the log is read from its oldest section on or from the present one, at every moment a power cut leaves a log
    /// that may be written on, with the old buds, or with the new one too and its LEB blank, where no torn node has a matching
    /// checksum.
    pub fn open_bud<V: Volume>(
        &mut self,
        volume: &mut V,
        head: JournalHead,
        lnum: u32,
        sqnum: &mut u64,
    ) -> Result<(), LogFault>
        requires at { IsAt (V.state volume.old) self.old }
        requires main { main_first self.old.geo ≤ lnum }
        requires bud { lnum < (V.state volume.old).leb_cnt }
        requires number { sqnum.old < 2 ^ 63 + 2 ^ 56 }
        ensures full { IsFullExactly (V.state volume.old) (V.state volume.new) self.old result }
        ensures done { OnOk result ((from : ℕ) (buds : List AHead) → IsLogStart self.old from
            → IsLogReady (V.state volume.old) self.old.geo from self.old.lnum self.old.offs sqnum.old buds
            → IsLogReady (V.state volume.new) self.new.geo from self.new.lnum self.new.offs sqnum.new (named_also buds (record { lnum = lnum; offs = 0; head = head }))) }
        ensures any_moment { (from : ℕ) (buds : List AHead) → IsLogStart self.old from
            → IsLogReady (V.state volume.old) self.old.geo from self.old.lnum self.old.offs sqnum.old buds
            → Leaves (V.state volume.old) (V.state volume.new) (λ left.
            IsOldOrMeant (V.state volume.old) (next_lnum self.old) (next_offs self.old) sqnum.old (reference (record { lnum = lnum; offs = 0; head = head }) ∷ []) (left (next_lnum self.old))
            → IsLeftOpened left self.old from sqnum.old buds (record { lnum = lnum; offs = 0; head = head })) }
        ensures works { Works (V.state volume.old) (V.state volume.new) (λ k. (k ≡ lnum) ⊎ (k ≡ next_lnum self.old))
            (OpenUnderWay (has_room_at self.old) (V.state volume.old) self.old lnum (padded_room_of self.old.geo.min_io 64)) }
        ensures opened { OnOk result (IsBudOpened (V.state volume.old) (V.state volume.new) self.old self.new lnum) }
        ensures answered { IsLogAnswered (V.state volume.old) (V.state volume.new) self.old self.new result × IsRaised sqnum.old sqnum.new (IsSameLeb (V.state volume.old) (V.state volume.new) (next_lnum self.old)) result }
    {
        one_node();
        let here = self.has_room();
        if self.is_full(here) {
            let used = self.used();
            let limit = self.limit();
            return Err(LogFault::Full { used, limit });
        }
        clear_bud(volume, lnum)?;
        let node = RefNode {
            lnum,
            offs: 0,
            head,
        };
        let number = *sqnum;
        *sqnum = number + 1;
        self.write_reference(volume, &node, number, here)?;
        Ok(())
    }

    /// Starts a section in the next LEB of the ring, for a commit of this number, with a reference for each open head, of
    /// which there are at most three. The LEB is unmapped first, and all is written at once. The sequence number rises by
    /// the number of nodes, whatever the answer. Takes no memory.
    ///
    /// At every moment a power cut leaves a log that may be written on, with the old buds and the first of these heads', where
    /// no torn node has a matching checksum. Afterwards it may be read from the new section on, where it names the buds of these heads alone;
    /// for that no other LEB of the log need be read, so long as none begins with a number above `sqnum`.
    pub fn start_section<V: Volume>(
        &mut self,
        volume: &mut V,
        cmt_no: u64,
        heads: &[HeadAt],
        sqnum: &mut u64,
    ) -> Result<(), VolFault>
        requires at { IsAt (V.state volume.old) self.old }
        requires kept { used_lebs self.old < self.old.geo.log_lebs }
        requires three { length heads.now ≤ 3 }
        requires number { sqnum.old < 2 ^ 63 + 2 ^ 56 }
        ensures done { OnOk result ((from : ℕ) (buds : List AHead) → IsLogStart self.old from
            → IsLogReady (V.state volume.old) self.old.geo from self.old.lnum self.old.offs sqnum.old buds
            → IsLogReady (V.state volume.new) self.new.geo from self.new.lnum self.new.offs sqnum.new (fold named_also buds (references_to heads.now))) }
        ensures section { OnOk result (AreOthersOlder (V.state volume.old) self.old.geo (leb_behind self.old.geo self.old.lnum) sqnum.old
            → IsLogReady (V.state volume.new) self.new.geo self.new.section self.new.lnum self.new.offs sqnum.new (buds_of (references_to heads.now))) }
        ensures any_moment { (from : ℕ) (buds : List AHead) → IsLogStart self.old from
            → IsLogReady (V.state volume.old) self.old.geo from self.old.lnum self.old.offs sqnum.old buds
            → Leaves (V.state volume.old) (V.state volume.new) (λ left.
            IsOldOrMeant (V.state volume.old) (leb_behind self.old.geo self.old.lnum) 0 sqnum.old (section_nodes cmt_no heads.now) (left (leb_behind self.old.geo self.old.lnum))
            → IsLeftStarted left self.old from sqnum.old buds (references_to heads.now)) }
        ensures works { Works (V.state volume.old) (V.state volume.new) (λ k. k ≡ leb_behind self.old.geo self.old.lnum)
            (StartUnderWay (V.state volume.old) self.old (padded_room_of self.old.geo.min_io (32 + 64 * length heads.now))) }
        ensures started { OnOk result (IsSectionStarted (V.state volume.old) (V.state volume.new) self.old self.new cmt_no (length heads.now) sqnum.old) }
        ensures answered { IsLogCallAnswered (V.state volume.old) (V.state volume.new) self.old self.new result × (sqnum.new ≡ sqnum.old + (1 + length heads.now)) }
    {
        one_node();
        let number = *sqnum;
        *sqnum = number + (1 + heads.len() as u64);
        self.write_section(volume, cmt_no, heads, number)?;
        self.section = self.lnum;
        Ok(())
    }

    /// Unmaps the LEBs of the sections before the present one, which is the oldest that is needed from then on. Takes no
    /// memory.
    ///
    /// At every moment, and whatever the answer, the log that is read from the present section on is as it was, and may be
    /// written on.
    pub fn end_section<V: Volume>(&mut self, volume: &mut V) -> Result<(), VolFault>
        requires at { IsAt (V.state volume.old) self.old }
        ensures stands { (number : ℕ) (buds : List AHead) → IsLogReady (V.state volume.old) self.old.geo self.old.section self.old.lnum self.old.offs number buds
            → IsLogReady (V.state volume.new) self.old.geo self.old.section self.old.lnum self.old.offs number buds }
        ensures any_moment { (number : ℕ) (buds : List AHead) → IsLogReady (V.state volume.old) self.old.geo self.old.section self.old.lnum self.old.offs number buds
            → Leaves (V.state volume.old) (V.state volume.new) (λ left. IsLeftReady left self.old.geo self.old.section (lebs_to self.old.geo self.old.section self.old.lnum) number buds) }
        ensures works { Works (V.state volume.old) (V.state volume.new) (IsOfEarlierSection self.old) (EndUnderWay (V.state volume.old) self.old) }
        ensures ended { OnOk result (HasEnded (V.state volume.old) (V.state volume.new) self.old self.new) }
        ensures answered { IsLogCallAnswered (V.state volume.old) (V.state volume.new) self.old self.new result }
    {
        unmap_between(volume, &self.geometry, self.first, self.section)?;
        self.first = self.section;
        Ok(())
    }

    // Writes a reference, with the number behind this one, and padding to the unit.
    fn write_reference<V: Volume>(
        &mut self,
        volume: &mut V,
        node: &RefNode,
        number: u64,
        here: bool,
    ) -> Result<(), VolFault>
        requires at { IsAt (V.state volume.old) self.old }
        requires number { number < 2 ^ 63 + 2 ^ 57 }
        requires here { here ≡ has_room_at self.old }
        requires kept { (here ≡ false) → used_lebs self.old < self.old.geo.log_lebs }
        ensures spelled { AreSpelled number (reference node.now ∷ []) }
        ensures done { OnOk result ((from : ℕ) (buds : List AHead) → IsLogLeb self.old.geo from → ((here ≡ false) → leb_behind self.old.geo self.old.lnum ≢ from)
            → IsLogReady (V.state volume.old) self.old.geo from self.old.lnum self.old.offs number buds
            → IsLogReady (V.state volume.new) self.old.geo from (lnum_at here self.old) (offs_at here self.old + padded_room_of self.old.geo.min_io 64) (number + 1) (named_also buds node.now)) }
        ensures section { OnOk result ((from known low : ℕ) (buds : List AHead) → IsLogLeb self.old.geo from → ((here ≡ false) → leb_behind self.old.geo self.old.lnum ≢ from)
            → IsLogReady (V.state volume.old) self.old.geo from self.old.lnum self.old.offs known buds → StartsWith ((V.state volume.old).holds from) from low
            → StartsWith ((V.state volume.new).holds from) from low × IsNoLoneStart ((V.state volume.new).holds (lnum_at here self.old)) (lnum_at here self.old)) }
        ensures works { WorksOn (V.state volume.old) (V.state volume.new) (lnum_at here self.old) (AddDuring here (V.state volume.old) self.old (padded_room_of self.old.geo.min_io 64)) }
        ensures moved { OnOk result (self.new ≡ ending self.old (lnum_at here self.old) (offs_at here self.old + padded_room_of self.old.geo.min_io 64)) }
        ensures stays { OnErr result (self.new ≡ self.old) }
        ensures at { OnOk result (IsAt (V.state volume.new) self.new) }
        ensures shape { SameShape (V.state volume.old) (V.state volume.new) }
        ensures cause { HasCause (V.state volume.old).faults (V.state volume.new).faults result }
        ensures sure { StaysSure (V.state volume.old) (V.state volume.new) result }
    {
        one_text();
        let room = room_for(self.geometry.min_io, REFERENCE_NODE_LEN);
        let buffer: &mut [u8] = &mut [0u8; MOST];
        let bytes = buffer.split_at_mut(room as usize).0;
        lay_reference(node, number, bytes);
        self.add(volume, bytes, here)
    }

    // Writes the nodes with which a section begins, with the numbers behind this one, and padding to the unit.
    fn write_section<V: Volume>(
        &mut self,
        volume: &mut V,
        cmt_no: u64,
        heads: &[HeadAt],
        number: u64,
    ) -> Result<(), VolFault>
        requires at { IsAt (V.state volume.old) self.old }
        requires three { length heads.now ≤ 3 }
        requires number { number < 2 ^ 63 + 2 ^ 56 }
        requires kept { used_lebs self.old < self.old.geo.log_lebs }
        ensures spelled { AreSpelled number (section_nodes cmt_no heads.now) }
        ensures done { OnOk result ((from next : ℕ) (buds : List AHead) → IsLogLeb self.old.geo from → (leb_behind self.old.geo self.old.lnum ≢ from) → (number < next)
            → IsLogReady (V.state volume.old) self.old.geo from self.old.lnum self.old.offs number buds
            → IsLogReady (V.state volume.new) self.old.geo from (leb_behind self.old.geo self.old.lnum) (padded_room_of self.old.geo.min_io (32 + 64 * length heads.now)) next (fold named_also buds (references_to heads.now))) }
        ensures commit { OnOk result (StartsCommit ((V.state volume.new).holds (leb_behind self.old.geo self.old.lnum)) (leb_behind self.old.geo self.old.lnum) cmt_no) }
        ensures starts { OnOk result (StartsWith ((V.state volume.new).holds (leb_behind self.old.geo self.old.lnum)) (leb_behind self.old.geo self.old.lnum) (number + 1)) }
        ensures section { OnOk result ((next : ℕ) → (number < next)
            → AreOthersOlder (V.state volume.old) self.old.geo (leb_behind self.old.geo self.old.lnum) number
            → let there = leb_behind self.old.geo self.old.lnum in
            IsLogReady (V.state volume.new) self.old.geo there there (padded_room_of self.old.geo.min_io (32 + 64 * length heads.now)) next (buds_of (references_to heads.now))) }
        ensures works { WorksOn (V.state volume.old) (V.state volume.new) (leb_behind self.old.geo self.old.lnum) (AddDuring false (V.state volume.old) self.old (padded_room_of self.old.geo.min_io (32 + 64 * length heads.now))) }
        ensures moved { OnOk result (self.new ≡ ending self.old (leb_behind self.old.geo self.old.lnum) (padded_room_of self.old.geo.min_io (32 + 64 * length heads.now))) }
        ensures stays { OnErr result (self.new ≡ self.old) }
        ensures at { OnOk result (IsAt (V.state volume.new) self.new) }
        ensures shape { SameShape (V.state volume.old) (V.state volume.new) }
        ensures cause { HasCause (V.state volume.old).faults (V.state volume.new).faults result }
        ensures sure { StaysSure (V.state volume.old) (V.state volume.new) result }
    {
        let len = COMMIT_START_NODE_LEN + REFERENCE_NODE_LEN * heads.len() as u32;
        let room = room_for(self.geometry.min_io, len);
        let buffer: &mut [u8] = &mut [0u8; MOST];
        let bytes = buffer.split_at_mut(room as usize).0;
        lay_section(cmt_no, heads, number, bytes);
        self.add(volume, bytes, false)
    }

    // Adds bytes behind the end of the log, or at the start of the next LEB, which is unmapped first.
    fn add<V: Volume>(&mut self, volume: &mut V, bytes: &[u8], here: bool) -> Result<(), VolFault>
        requires at { IsAt (V.state volume.old) self.old }
        requires some { 0 < length bytes.now }
        requires whole { length bytes.now % self.old.geo.min_io ≡ 0 }
        requires room { offs_at here self.old + length bytes.now ≤ self.old.geo.leb_size }
        requires kept { (here ≡ false) → used_lebs self.old < self.old.geo.log_lebs }
        ensures done { OnOk result (IsAdded here (V.state volume.old) (V.state volume.new) self.old bytes.now) }
        ensures works { WorksOn (V.state volume.old) (V.state volume.new) (lnum_at here self.old) (AddDuring here (V.state volume.old) self.old (length bytes.now)) }
        ensures moved { OnOk result (self.new ≡ ending self.old (lnum_at here self.old) (offs_at here self.old + length bytes.now)) }
        ensures stays { OnErr result (self.new ≡ self.old) }
        ensures at { OnOk result (IsAt (V.state volume.new) self.new) }
        ensures shape { SameShape (V.state volume.old) (V.state volume.new) }
        ensures cause { HasCause (V.state volume.old).faults (V.state volume.new).faults result }
        ensures sure { StaysSure (V.state volume.old) (V.state volume.new) result }
    {
        if here {
            let lnum = self.lnum;
            let offs = self.offs;
            volume.write(lnum, offs, bytes)?;
            self.offs = offs + bytes.len() as u32;
            return Ok(());
        }
        let next = next_leb(&self.geometry, self.lnum);
        begin(volume, next, bytes)?;
        self.lnum = next;
        self.offs = bytes.len() as u32;
        Ok(())
    }

    // Whether a reference has room in the present LEB.
    fn has_room(&self) -> bool
        ensures { result ≡ has_room_at self.now }
    {
        let room = room_for(self.geometry.min_io, REFERENCE_NODE_LEN);
        self.offs as u64 + room as u64 <= self.geometry.leb_size as u64
    }

    // Whether no unit is left outside the kept LEBs.
    fn is_full(&self, here: bool) -> bool
        requires in_log { IsLogLeb self.now.geo self.now.lnum }
        requires first { IsLogLeb self.now.geo self.now.first }
        requires here { here ≡ has_room_at self.now }
        ensures yes { IsTrue result → IsLogFull self.now }
        ensures no { IsFalse result → IsLogFull self.now → ⊥ }
        ensures kept { IsFalse result → (here ≡ false) → used_lebs self.now < self.now.geo.log_lebs }
    {
        !here && self.limit() <= self.used()
    }

    // The LEBs of the ring in use.
    fn used(&self) -> u32
        requires in_log { IsLogLeb self.now.geo self.now.lnum }
        requires first { IsLogLeb self.now.geo self.now.first }
        ensures { result ≡ used_lebs self.now }
    {
        if self.lnum < self.first {
            self.lnum + self.geometry.log_lebs - self.first + 1
        } else {
            self.lnum - self.first + 1
        }
    }

    // How many LEBs of the ring may be in use.
    fn limit(&self) -> u32
        ensures { result ≡ most_lebs self.now }
    {
        if self.first == self.section {
            self.geometry.log_lebs - 2
        } else {
            self.geometry.log_lebs - 1
        }
    }
}

// Empties a LEB, so that no cut undoes it.
fn clear_bud<V: Volume>(volume: &mut V, lnum: u32) -> Result<(), VolFault>
    requires lnum { lnum < (V.state volume.old).leb_cnt }
    ensures done { OnOk result (IsEmptied (V.state volume.old) (V.state volume.new) lnum) }
    ensures works { WorksOn (V.state volume.old) (V.state volume.new) lnum (ChangeUnderWay (V.state volume.old) lnum []) }
    ensures shape { SameShape (V.state volume.old) (V.state volume.new) }
    ensures cause { HasCause (V.state volume.old).faults (V.state volume.new).faults result }
    ensures sure { StaysSure (V.state volume.old) (V.state volume.new) result }
{
    volume.unmap(lnum)?;
    volume.map(lnum)
}

// Unmaps a LEB, and writes bytes at its start.
fn begin<V: Volume>(volume: &mut V, lnum: u32, bytes: &[u8]) -> Result<(), VolFault>
    requires lnum { lnum < (V.state volume.old).leb_cnt }
    requires range { length bytes.now ≤ (V.state volume.old).leb_size }
    requires units { AreUnits (V.state volume.old).min_io 0 (length bytes.now) }
    ensures done { OnOk result (IsLebBegun (V.state volume.old) (V.state volume.new) lnum bytes.now) }
    ensures works { WorksOn (V.state volume.old) (V.state volume.new) lnum (BeginUnderWay (V.state volume.old) lnum (length bytes.now)) }
    ensures shape { SameShape (V.state volume.old) (V.state volume.new) }
    ensures cause { HasCause (V.state volume.old).faults (V.state volume.new).faults result }
    ensures sure { StaysSure (V.state volume.old) (V.state volume.new) result }
{
    volume.unmap(lnum)?;
    volume.write(lnum, 0, bytes)
}

// Unmaps the LEBs of the ring from one on and before another.
fn unmap_between<V: Volume>(
    volume: &mut V,
    geometry: &Geometry,
    from: u32,
    to: u32,
) -> Result<(), VolFault>
    requires lebs { lpt_first (raw_of geometry.now) ≤ (V.state volume.old).leb_cnt }
    requires from { IsLogLeb (raw_of geometry.now) from }
    requires to { IsLogLeb (raw_of geometry.now) to }
    ensures unwritten { OnOk result ((k : ℕ) → IsBetween (raw_of geometry.now) from to k → ((V.state volume.new).holds k ≡ filled (V.state volume.old).leb_size []) × ((V.state volume.new).written k ≡ 0)) }
    ensures works { Works (V.state volume.old) (V.state volume.new) (IsBetween (raw_of geometry.now) from to) (Each (UnmapUnderWay (V.state volume.old) (raw_of geometry.now) from to)) }
    ensures shape { SameShape (V.state volume.old) (V.state volume.new) }
    ensures cause { HasCause (V.state volume.old).faults (V.state volume.new).faults result }
    ensures sure { StaysSure (V.state volume.old) (V.state volume.new) result }
{
    let mut lnum = from;
    while lnum != to {
        volume.unmap(lnum)?;
        lnum = next_leb(geometry, lnum);
    }
    Ok(())
}
