// The numbers of a store, and what it has granted.

use fs_model::{Grant, Need, NoSpace, Space};
use space_sums::{
    a_commit_keeps_what_was_granted, more_never_lowers_the_need, room, what_was_admitted_can_be_put,
};
use std::marker::Model;
use ubifs_base::Geometry;

/// The numbers of a store, and what it has granted. Contracts see it as a `BookState` (specs/Books.antt).
///
/// After each call what was granted is covered, if it was before (`covered`).
#[derive(Drop)]
pub struct Book {
    geo: Geometry,
    space: Space,
    grant: Option<Grant>,
}

impl Model for Book {
    ghost use Rattle.std.specs.Prelude.{◌<◌, ◌^◌, IfSome};
    ghost use Rattle.ubifs_base.specs.RawOf.{raw_of};
    ghost use Rattle.space_budget.specs.Books.{BookState};

    ghost Value = { BookState };

    ghost view = { λ b. record { geo = raw_of b.geo; space = b.space; grant = b.grant } };

    ghost invariant = { λ b. IfSome b.grant (λ grant. grant.nodes < 2 ^ 32) };
}

impl Book {
    ghost use Rattle.std.specs.Prelude.{◌≡◌, ◌↔◌, ◌+◌, ◌*◌, ◌≤◌, None, IsOk, IfErr, OnOk};
    ghost use Rattle.ubifs_base.specs.RawOf.{raw_of};
    ghost use Rattle.fs_model.specs.Backing.{IsModest, IsSmall};
    ghost use Rattle.fs_model.specs.Cover.{index_lebs};
    ghost use Rattle.fs_model.specs.Settled.{IsCovered};
    ghost use Rattle.space_sums.specs.Spaces.{HasRoom};
    ghost use Rattle.space_budget.specs.Books.{AreGrantsCovered, IsPaidByCredit, IsPaidByGrant, IsNeedRefused, after_admission, after_commit, after_group, after_move, after_page, after_return, after_sync};

    /// A book of these numbers, in which nothing is granted to a group.
    pub fn new(geo: Geometry, space: Space) -> Book
        ensures exactly { result ≡ record { geo = raw_of geo; space = space; grant = None } }
        ensures covered { IsCovered (raw_of geo) space → AreGrantsCovered result }
    {
        Book {
            geo,
            space,
            grant: None,
        }
    }

    /// Grants a need, in place of what was granted to a group before: its credits, and its bytes and nodes for the next group.
    /// Refuses exactly where there is no room for it, and then nothing changes (Hunter 2008, budgeting). Takes no memory.
    pub fn admit(&mut self, need: &Need) -> Result<(), NoSpace>
        requires small { IsSmall self.old.space }
        requires modest { IsModest need.now }
        ensures exactly { IsOk result ↔ HasRoom self.old.geo self.old.space need.now }
        ensures ok { OnOk result (self.new ≡ after_admission self.old need.now) }
        ensures err { IfErr result (λ sides. (self.new ≡ self.old) × IsNeedRefused self.old need.now sides) }
        ensures covered { OnOk result (AreGrantsCovered self.new) }
    {
        what_was_admitted_can_be_put();
        let sides = room(&self.geo, &self.space, need);
        if sides.need > sides.limit {
            return Err(NoSpace {
                need: sides.need,
                room: sides.limit,
            });
        }
        self.space.credits += need.credits;
        self.grant = Some(Grant {
            bytes: need.bytes,
            nodes: need.nodes,
        });
        Ok(())
    }

    /// Takes credits back. Takes no memory.
    pub fn give_back(&mut self, credits: u64)
        requires { credits ≤ self.old.space.credits }
        ensures exactly { self.new ≡ after_return self.old credits }
        ensures covered { AreGrantsCovered self.old → AreGrantsCovered self.new }
    {
        more_never_lowers_the_need();
        self.space.credits -= credits;
    }

    /// A page was put, which spends a credit: so many bytes are used and held now, and so many nodes were put. Takes no memory.
    pub fn spend_page(&mut self, used: u64, held: u64, nodes: u64)
        requires small { IsSmall self.old.space }
        requires paid { IsPaidByCredit self.old.space used held nodes }
        ensures exactly { self.new ≡ after_page self.old used held nodes }
        ensures covered { AreGrantsCovered self.old → AreGrantsCovered self.new }
    {
        what_was_admitted_can_be_put();
        self.space.used = used;
        self.space.held = held;
        self.space.credits -= 1;
        self.space.weight += nodes;
    }

    /// A group was put, which ends the grant. Takes no memory.
    pub fn spend_group(&mut self, used: u64, held: u64, nodes: u64)
        requires small { IsSmall self.old.space }
        requires paid { IsPaidByGrant self.old used held nodes }
        ensures exactly { self.new ≡ after_group self.old used held nodes }
        ensures covered { AreGrantsCovered self.old → AreGrantsCovered self.new }
    {
        what_was_admitted_can_be_put();
        self.space.used = used;
        self.space.held = held;
        self.space.weight += nodes;
        self.grant = None;
    }

    /// Leaves were dropped or moved, or LEBs were opened or emptied: so many bytes are used and held now, no more than before,
    /// and so many LEBs are empty. Takes no memory.
    pub fn moved(&mut self, used: u64, held: u64, empty: u32)
        requires { used + held ≤ self.old.space.used + self.old.space.held }
        ensures exactly { self.new ≡ after_move self.old used held empty }
        ensures covered { AreGrantsCovered self.old → AreGrantsCovered self.new }
    {
        self.space.used = used;
        self.space.held = held;
        self.space.empty = empty;
    }

    /// All that was put is synced: nothing is held any more. Takes no memory.
    pub fn synced(&mut self)
        ensures exactly { self.new ≡ after_sync self.old }
        ensures covered { AreGrantsCovered self.old → AreGrantsCovered self.new }
    {
        self.space.held = 0;
    }

    /// A commit has ended: its index and what was put since it began weigh so much, no more than before. The index takes so
    /// many LEBs, at most twice those that the weight before asks for. Takes no memory.
    pub fn committed(&mut self, weight: u64, index: u32, empty: u32)
        requires weight { weight ≤ self.old.space.weight }
        requires index { index ≤ 2 * index_lebs self.old.geo self.old.space.weight }
        ensures exactly { self.new ≡ after_commit self.old weight index empty }
        ensures covered { AreGrantsCovered self.old → AreGrantsCovered self.new }
    {
        a_commit_keeps_what_was_granted();
        self.space.weight = weight;
        self.space.index = index;
        self.space.empty = empty;
    }

    /// The numbers. Takes no memory.
    pub fn space(&self) -> Space
        ensures { result ≡ self.now.space }
    {
        self.space
    }
}
