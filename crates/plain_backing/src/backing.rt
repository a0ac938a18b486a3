// A backing in memory.

ghost use Rattle.std.specs.Prelude.{◌≡◌, ◌<◌, ◌≤◌, ◌^◌, ◌++◌, ◌-◌, true, false, None, length, take, min, replicate, IfOk, IfErr};
ghost use Rattle.std.specs.Option.{option_copied};
ghost use Rattle.fs_model.specs.declared.backing_answers.Mode.TheVariants.{ReadWrite};
ghost use Rattle.fs_model.specs.declared.backing_answers.StoreFault.TheVariants.{Memory as NoMemory};
ghost use Rattle.fs_model.specs.Cover.{tree_bytes};
ghost use Rattle.plain_backing.specs.Spending.{is_spent};
ghost use Rattle.plain_backing.specs.Story.{IsStory, HasAllGroups, is_story_idle};
ghost use Rattle.plain_backing.specs.StoryLaws.{story_prop};

use crate::Tree;
use crate::full_index::full_index_weight;
use crate::numbers::Numbers;
use crate::steps::{
    admit, changing_call, count_call, count_closed, end, has_weight_for, listed_orphans,
    spend_grant, spend_page, start,
};
use crate::story::{
    Story, add_group, add_page, begin_story, count_all, end_story, lose_group, lose_page,
    open_story, sync_story,
};
use fs_laws::a_dropped_inode_keeps_trees_proper;
use fs_model::{
    Backing, Collected, Ended, Entry, Grant, Group, Inode, Mode, Need, NoSpace, PageNode, Space,
    Started, Stepped, StoreFault,
};
use space_sums::{
    more_never_lowers_the_need, what_takes_no_more_keeps_what_was_granted,
    what_was_admitted_can_be_put,
};
use std::alloc::Global;
use told_value::Told;
use ubifs_base::{Arm, Geometry, Memory, Name};

/// A tree of files in memory, with the numbers of a store that has it. Nothing is ever held, collection gains nothing, and
/// a commit has nothing to write; so what is admitted here is what a store admits that has the same numbers.
#[derive(Drop)]
pub struct PlainBacking {
    alloc: Global,
    geo: Geometry,
    tree: Tree,
    numbers: Numbers,
    listed: Vec<u32>,
    story: Told<Story>,
    ghost few_bytes: { tree_bytes tree < 2 ^ 40 },
    ghost few_credits: { numbers.credits < 2 ^ 40 },
    ghost light: { numbers.weight < 2 ^ 40 },
    ghost light_base: { numbers.base ≤ numbers.weight },
    ghost later_of: { numbers.later ≤ numbers.nodes },
    ghost unspent: { is_spent numbers.mode ≡ false },
    ghost told: { IsStory tree story.value } by { story_prop tree-code tree story.value },
    ghost whole: { numbers.mode ≡ ReadWrite → HasAllGroups story.value },
    ghost idle: { numbers.running ≡ None → is_story_idle story.value ≡ true },
}

impl PlainBacking {
    ghost use Rattle.std.specs.Prelude.{◌≡◌, false, IfOk};
    ghost use Rattle.ubifs_base.specs.Areas.{main_lebs};
    ghost use Rattle.ubifs_base.specs.RawOf.{raw_of};
    ghost use Rattle.fs_model.specs.Backing.{IsSmall};
    ghost use Rattle.plain_backing.specs.Spending.{is_spent};
    ghost use Rattle.plain_backing.specs.PlainBacking.{backing_state_of, outlook_of, new_state};

    /// A backing of this tree, whose LEBs and weight are those of the space. `orphan_room` is how many orphans it takes. It
    /// is read-only from the start if the mode says so, but not for a number that is used up.
    pub fn new(
        alloc: Global,
        geo: Geometry,
        tree: Tree,
        space: Space,
        orphan_room: u64,
        mode: Mode,
    ) -> Result<PlainBacking, Memory>
        requires small { IsSmall space }
        requires main { space.main ≡ main_lebs (raw_of geo) }
        requires credits { space.credits ≡ 0 }
        requires unspent { is_spent mode ≡ false }
        ensures state { IfOk result (λ backing. backing_state_of backing ≡ new_state (raw_of geo) tree space orphan_room mode) }
        ensures strike { IfOk result (λ backing. (outlook_of backing).strike ≡ Some 0) }
    {
        tree.show_order();
        let _bytes = tree.bytes();
        let story = open_story(&tree);
        Ok(PlainBacking {
            alloc,
            geo,
            tree,
            numbers: Numbers {
                orphan_limit: orphan_room,
                closed: 0,
                credits: 0,
                empty: space.empty,
                index: space.index,
                weight: space.weight,
                base: space.weight,
                grant: None,
                running: None,
                ended: 0,
                nodes: 0,
                later: 0,
                mode,
                faults: 0,
                strike: 0,
            },
            listed: Vec::new(alloc),
            story,
        })
    }

    /// Makes a call fail: the one of this number, counted from now on over the calls that may answer that the volume
    /// failed, the first being 1. No other call fails; 0 makes none fail.
    pub fn fail_call(&mut self, call: u64)
        ensures state { backing_state_of self.new ≡ backing_state_of self.old }
        ensures strike { (outlook_of self.new).strike ≡ Some call }
    {
        self.numbers.strike = call;
    }

    /// Gives the tree back. Takes no memory.
    pub fn into_tree(self) -> Tree
        ensures { result ≡ (backing_state_of self).tree }
    {
        self.tree
    }
}

// Fills 4,096 bytes with those that are stored, and zeros behind them, and answers how many are stored.
fn fill_block(stored: &[u8], out: &mut [u8]) -> u32
    requires { length out.old ≡ 4096 }
    ensures count { result ≡ min (length stored.now) 4096 }
    ensures filled { out.new ≡ take 4096 stored.now ++ replicate (4096 - result) 0 }
{
    let front = front_of(stored);
    fill_with(out, front);
    front.len() as u32
}

// At most 4,096 of the bytes.
fn front_of(bytes: &[u8]) -> &[u8]
    ensures part { result.now ≡ take 4096 bytes.now }
    ensures len { length result.now ≤ 4096 }
{
    if bytes.len() <= 4096 {
        return bytes;
    }
    bytes.split_at(4096).0
}

// The bytes, and zeros behind them.
fn fill_with(out: &mut [u8], bytes: &[u8])
    requires { length bytes.now ≤ length out.old }
    ensures { out.new ≡ bytes.now ++ replicate (length out.old - length bytes.now) 0 }
{
    let (front, back) = out.split_at_mut(bytes.len());
    front.copy_from_slice(bytes);
    back.fill(0);
}

impl Backing for PlainBacking {
    ghost use Rattle.std.proofs.Common.{refl};
    ghost use Rattle.plain_backing.specs.PlainBacking.{backing_state_of, outlook_of};
    ghost use Rattle.plain_backing.specs.PlainBackingLaws.{small_of};
    ghost use Rattle.plain_backing.specs.StoryLaws.{story_journal};

    ghost state = { backing_state_of };

    ghost outlook = { outlook_of };

    ghost used = { λ b. refl };

    ghost main = { λ b. refl };

    ghost small = { small_of };

    ghost journal = { λ b. story_journal b.tree b.story.value b.told };

    fn inode(&mut self, ino: u32) -> Result<Option<Inode>, StoreFault> {
        count_call(&mut self.numbers)?;
        copy_inode(self.tree.inode(ino))
    }

    fn lookup(&mut self, dir: u32, name: &Name) -> Result<Option<Entry>, StoreFault> {
        count_call(&mut self.numbers)?;
        Ok(self.tree.entry(self.alloc, dir, name)?)
    }

    fn entries(&mut self, dir: u32) -> Result<Vec<Entry>, StoreFault> {
        count_call(&mut self.numbers)?;
        Ok(self.tree.entries_in(self.alloc, dir)?)
    }

    fn read_block(&mut self, ino: u32, block: u32, out: &mut [u8]) -> Result<u32, StoreFault> {
        count_call(&mut self.numbers)?;
        Ok(fill_block(self.tree.block(ino, block), out))
    }

    fn last_block(&mut self, ino: u32) -> Result<Option<u32>, StoreFault> {
        count_call(&mut self.numbers)?;
        Ok(self.tree.last_block(ino))
    }

    fn admit(&mut self, need: &Need) -> Result<(), NoSpace> {
        what_was_admitted_can_be_put();
        let space = self.space();
        admit(&mut self.numbers, &self.geo, &space, need)
    }

    fn give_back(&mut self, credits: u64) {
        more_never_lowers_the_need();
        self.numbers.credits -= credits;
    }

    fn put_page(&mut self, page: &PageNode) -> Result<(), StoreFault> {
        if let Err(fault) = changing_call(&mut self.numbers) {
            lose_page(&mut self.story, page, &fault);
            return Err(fault);
        }
        if !has_weight_for(&self.numbers, 2) {
            return Err(StoreFault::Memory);
        }
        what_was_admitted_can_be_put();
        self.tree.set_page(self.alloc, page)?;
        spend_page(&mut self.numbers);
        add_page(&mut self.story, page);
        count_all(&mut self.story);
        Ok(())
    }

    fn put_group(&mut self, group: &Group) -> Result<(), StoreFault> {
        if let Err(fault) = changing_call(&mut self.numbers) {
            lose_group(&mut self.story, group, &fault);
            return Err(fault);
        }
        let nodes = group.as_slice().len();
        if !has_weight_for(&self.numbers, nodes) {
            return Err(StoreFault::Memory);
        }
        what_was_admitted_can_be_put();
        self.tree.apply(self.alloc, group)?;
        spend_grant(&mut self.numbers, nodes);
        add_group(&mut self.story, group);
        count_all(&mut self.story);
        Ok(())
    }

    fn drop_orphan(&mut self, ino: u32) -> Result<(), StoreFault> {
        count_call(&mut self.numbers)?;
        a_dropped_inode_keeps_trees_proper();
        what_takes_no_more_keeps_what_was_granted();
        self.tree.drop_inode(ino);
        count_closed(&mut self.numbers, self.listed.as_slice(), ino);
        Ok(())
    }

    fn sync(&mut self) -> Result<(), StoreFault> {
        changing_call(&mut self.numbers)?;
        sync_story(&mut self.story);
        Ok(())
    }

    fn collect_step(&mut self) -> Result<Collected, StoreFault> {
        changing_call(&mut self.numbers)?;
        Ok(Collected::Nothing)
    }

    fn commit_start(&mut self) -> Result<Started, StoreFault> {
        changing_call(&mut self.numbers)?;
        if let Some(cmt_no) = self.numbers.running {
            return Ok(Started::Running { cmt_no });
        }
        self.listed = listed_orphans(self.alloc, &self.tree)?;
        start(&mut self.numbers);
        begin_story(&mut self.story, &self.tree);
        Ok(Started::Began)
    }

    fn commit_step(&mut self) -> Result<Stepped, StoreFault> {
        changing_call(&mut self.numbers)?;
        match self.numbers.running {
            Some(_) => Ok(Stepped::Ready),
            None => Ok(Stepped::Idle),
        }
    }

    fn commit_end(&mut self) -> Result<Ended, StoreFault> {
        changing_call(&mut self.numbers)?;
        let Some(cmt_no) = self.numbers.running else {
            return Ok(Ended::Idle);
        };
        let weight = full_index_weight(&self.geo, self.tree.leaves());
        what_takes_no_more_keeps_what_was_granted();
        end(&mut self.numbers, cmt_no, weight);
        end_story(&mut self.story);
        Ok(Ended::Done { cmt_no })
    }

    fn space(&self) -> Space {
        Space {
            used: self.tree.bytes(),
            held: 0,
            credits: self.numbers.credits,
            empty: self.numbers.empty,
            index: self.numbers.index,
            weight: self.numbers.weight,
            main: self.geo.main_lebs(),
        }
    }

    fn orphan_room(&self) -> u64 {
        self.numbers
            .orphan_limit
            .saturating_sub(self.tree.orphans())
            .saturating_sub(self.numbers.closed)
    }

    fn orphan_limit(&self) -> u64 {
        self.numbers.orphan_limit
    }

    fn highest(&self) -> u32 {
        self.tree.highest()
    }

    fn mode(&self) -> Mode {
        self.numbers.mode
    }

    /// Does nothing: there is no volume.
    fn arm(&mut self, _what: &Arm) {}

    fn faults(&self) -> u64 {
        self.numbers.faults
    }
}

fn copy_inode(found: Option<&Inode>) -> Result<Option<Inode>, StoreFault>
    ensures copy { IfOk result (λ copy. copy ≡ option_copied found.entry) }
    ensures fault { IfErr result (λ fault. fault ≡ NoMemory) }
{
    match found {
        Some(inode) => Ok(Some(inode.clone()?)),
        None => Ok(None),
    }
}
