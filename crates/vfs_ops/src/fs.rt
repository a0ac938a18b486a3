// Files over a backing.

ghost use Rattle.std.specs.Prelude.{◌≡◌, ◌⊎◌, ◌++◌};
ghost use Rattle.fs_model.specs.declared.refusal.Refusal.TheVariants.{Enomem, Enospc};
ghost use Rattle.fs_model.specs.declared.reply.Reply.TheVariants.{Refused};
ghost use Rattle.vfs_ops.specs.ReadyLaws.{ready_prop};
ghost use Rattle.vfs_ops.specs.Steps.{IsReady, no_space_in};

use crate::answers::call;
use crate::apply::apply_over;
use crate::background::{chore, is_chore};
use crate::done::Done;
use crate::event::{Event, Outcome};
use crate::pages::{picked, put};
use buffered_files::{Kept, inode, present_files_are_sound};
use fs_model::{Backing, Entry, Group, Inode, Mode, Need, NoSpace, Op, Refusal, Reply, StoreFault};
use std::alloc::Global;
use std::marker::PhantomData;
use ubifs_base::{Arm, Memory, Name};
use vfs_plans::walked;

/// Files over a backing, with dirty pages in memory in front of it. The present files are the backing's tree under the
/// dirty pages, with the handles. Each dirty page is paid by a covered credit. Contracts see them as the record `FilesState`
/// of `specs/FilesState.antt`.
#[derive(Drop)]
pub struct Fs<B: Backing> {
    alloc: Global,
    backing: B,
    kept: Kept,
    refused: Vec<NoSpace>,
    ghost ready: { IsReady (B.state backing) kept } by { ready_prop (B.state backing) kept },
}

impl<B: Backing> Fs<B> {
    ghost use Rattle.std.specs.Prelude.{◌≡◌, ◌+◌, ◌*◌, ◌<◌, ◌≤◌, max, false, length, Ok, IfOk, IfErr};
    ghost use Rattle.fs_model.specs.Backing.{Goes, HasCause, IsNotReadOnly, Reads};
    ghost use Rattle.fs_model.specs.Directory.{entries_in};
    ghost use Rattle.fs_model.specs.Files.{entry_at, inode_at};
    ghost use Rattle.fs_model.specs.Legal.{pages_in};
    ghost use Rattle.fs_model.specs.Path.{walked};
    ghost use Rattle.fs_model.specs.Proper.{IsProper};
    ghost use Rattle.fs_laws.specs.Sound.{IsCall};
    ghost use Rattle.buffered_files.specs.Calls.{GrowsBy, SureGoes};
    ghost use Rattle.buffered_files.specs.Present.{present};
    ghost use Rattle.vfs_plans.specs.Answers.{IsRefused, Looks};
    ghost use Rattle.vfs_ops.specs.Events.{HasSynced, IsCalled, PutsCall, grant_of};
    ghost use Rattle.vfs_ops.specs.FilesState.{IsOpened, LeavesKept, present_in};
    ghost use Rattle.vfs_ops.specs.Fs.{files_state};
    ghost use Rattle.vfs_ops.specs.Kinds.{KeepsOrphans, KeepsOthers, added_by, reply_fate};
    ghost use Rattle.vfs_ops.specs.Operations.{nodes_asked};
    ghost use Rattle.vfs_ops.specs.Passing.{IsApplied, IsStep, MayApply};
    ghost use Rattle.vfs_ops.specs.Steps.{IsAdmittedReply, IsAnswered, IsAtOnceReply, IsExact};
    ghost use Rattle.vfs_ops.specs.Writing.{BuffersReply};

    /// Files over a backing whose tree is proper, with no page dirty and no file open; at most so many clean pages are kept.
    pub fn new(alloc: Global, backing: B, clean: u32) -> Result<Fs<B>, (Memory, B)>
        requires clean { 0 < clean }
        requires proper { IsProper (B.state backing).tree }
        ensures backing { IfOk result (λ fs. fs.backing ≡ backing) }
        ensures opened { IfOk result (λ fs. IsOpened (files_state fs) clean) }
        ensures back { IfErr result (λ fault. fault.1 ≡ backing) }
    {
        present_files_are_sound();
        match Kept::new(alloc, clean) {
            Ok(kept) => Ok(Fs {
                alloc,
                backing,
                kept,
                refused: Vec::new(alloc),
            }),
            Err(fault) => Err((fault, backing)),
        }
    }

    /// Makes an event. A caller's operation answers and leaves what its definition says, but for zeros at the ends of blocks, which nobody sees. Or
    /// it is refused, for a cause that is told, and callers see the files as before. After a refusal for want of room, a fault or want of memory,
    /// some dirty pages may have been put. Over an event of the background callers see the same files. A `Drain` takes no memory.
    pub fn step(&mut self, event: &Event) -> Outcome
        requires call { IsCalled event.now }
        requires grant { length self.old.kept.pages.dirty + grant_of event.now ≤ (B.state self.old.backing).space.credits }
        ensures step { IsStep (files_state self.old) (files_state self.new) event.now result }
        ensures sure { SureGoes (B.outlook self.old.backing) (B.outlook self.new.backing) (B.state self.old.backing) (B.state self.new.backing) }
    {
        if is_chore(event) {
            return chore(&mut self.backing, &self.kept, event);
        }
        match event {
            Event::Call {
                caller,
                now,
                grant,
                op,
            } => {
                let (reply, left) = self.answer(*caller, *now, *grant, op);
                Outcome::Replied { reply, left }
            }
            Event::Pick => picked(self.alloc, &self.kept),
            Event::Put { page } => put(self.alloc, &mut self.backing, &mut self.kept, page),
            Event::Sync
            | Event::Collect
            | Event::CommitStart
            | Event::CommitStep
            | Event::CommitEnd
            | Event::Refill { .. }
            | Event::Drain { .. } => unreachable!(),
        }
    }

    /// Makes an event as `step` does, and answers the event with its outcome.
    pub fn act(&mut self, event: Event) -> Done<B>
        requires call { IsCalled event }
        requires grant { length self.old.kept.pages.dirty + grant_of event ≤ (B.state self.old.backing).space.credits }
        ensures event { result.event ≡ event }
        ensures step { IsStep (files_state self.old) (files_state self.new) event result.outcome }
        ensures sure { SureGoes (B.outlook self.old.backing) (B.outlook self.new.backing) (B.state self.old.backing) (B.state self.new.backing) }
    {
        let outcome = self.step(&event);
        Done {
            event,
            outcome,
            of: PhantomData,
        }
    }

    /// Arms the volume under the backing. Files, pages and what was refused stay. Takes no memory.
    pub fn arm(&mut self, what: &Arm)
        ensures same { files_state self.new ≡ files_state self.old }
        ensures spent { (B.outlook self.old.backing).spent → (B.outlook self.new.backing).spent }
    {
        self.backing.arm(what);
    }

    // The reply to a caller's operation, and what is left of the grant.
    fn answer(&mut self, caller: u16, now: u64, grant: u64, op: &Op) -> (Reply, u64)
        requires call { IsCall op.now }
        requires grant { length self.old.kept.pages.dirty + grant ≤ (B.state self.old.backing).space.credits }
        ensures answered { IsAnswered (B.state self.old.backing) (B.state self.new.backing) self.new.kept (present (B.state self.old.backing).tree self.old.kept) caller now grant op.now result.0 self.old.refused.items self.new.refused.items }
        ensures left { result.1 ≤ grant }
        ensures exact { IsExact (record { old = B.state self.old.backing; new = B.state self.new.backing; before = self.old.kept; after = self.new.kept }) caller now grant op.now result.0 result.1 }
        ensures issued { (B.state self.new.backing).space.credits + length self.old.kept.pages.dirty + grant ≡ (B.state self.old.backing).space.credits + length self.new.kept.pages.dirty + result.1 }
        ensures written { HasSynced (B.state self.old.backing).mode (B.state self.new.backing) self.old.kept self.new.kept caller op.now result.0 }
        ensures others { KeepsOthers self.old.kept self.new.kept caller op.now }
        ensures admitted { IsAdmittedReply (B.state self.old.backing) (B.state self.new.backing) self.old.kept caller now grant op.now result.0 }
        ensures at_once { IsAtOnceReply (B.state self.old.backing) (B.state self.new.backing) self.old.kept caller now op.now self.old.refused.items self.new.refused.items }
        ensures buffered { BuffersReply (B.state self.old.backing) (B.state self.new.backing) self.old.kept self.new.kept self.old.refused.items self.new.refused.items caller grant op.now result.0 }
        ensures weighed { GrowsBy (added_by (2 * pages_in op.now + nodes_asked (present (B.state self.old.backing).tree self.old.kept) caller now op.now) (max 2 (nodes_asked (present (B.state self.old.backing).tree self.old.kept) caller now op.now)) result.0) (B.state self.old.backing) (B.state self.new.backing) self.old.kept self.new.kept }
        ensures orphans { KeepsOrphans (B.state self.old.backing) (B.state self.new.backing) (present (B.state self.old.backing).tree self.old.kept) (present (B.state self.new.backing).tree self.new.kept) }
        ensures cut { PutsCall (B.state self.old.backing) (B.state self.new.backing) self.old.kept caller now op.now (reply_fate result.0) }
        ensures goes { Goes (2 * length self.old.kept.pages.dirty + nodes_asked (present (B.state self.old.backing).tree self.old.kept) caller now op.now) (B.state self.old.backing) (B.state self.new.backing) }
        ensures sure { SureGoes (B.outlook self.old.backing) (B.outlook self.new.backing) (B.state self.old.backing) (B.state self.new.backing) }
    {
        match call(
            self.alloc,
            &mut self.backing,
            &mut self.kept,
            caller,
            now,
            grant,
            op,
        ) {
            Ok(done) => done,
            Err(refusal) => {
                let refusal = noted(&mut self.refused, refusal);
                (Reply::Refused { refusal }, grant)
            }
        }
    }

    /// Puts a group of changes of inodes and names that was reckoned on the present files, where there is room for what it asks. It is refused by a
    /// read-only store, for want of room, for a fault of the backing, or for want of memory. The present files are then as before, but some dirty
    /// pages may have been put.
    pub fn apply_group(&mut self, group: &Group, need: &Need) -> Result<(), Refusal>
        requires group { MayApply (files_state self.old) group.now need.now }
        ensures applied { IsApplied (files_state self.old) (files_state self.new) group.now need.now result }
        ensures sure { SureGoes (B.outlook self.old.backing) (B.outlook self.new.backing) (B.state self.old.backing) (B.state self.new.backing) }
    {
        if let Mode::ReadOnly { cause } = self.backing.mode() {
            return Err(Refusal::Erofs { cause });
        }
        match apply_over(self.alloc, &mut self.backing, &mut self.kept, group, need) {
            Ok(()) => Ok(()),
            Err(refusal) => Err(noted(&mut self.refused, refusal)),
        }
    }

    /// The entry that a path names, of which none but the last may be anything but a directory; that of the root for `/`.
    pub fn walk(&mut self, path: &Name) -> Result<Entry, Refusal>
        ensures still { LeavesKept (files_state self.old) (files_state self.new) }
        ensures found { IfOk result (λ entry. walked (present_in (files_state self.old)).tree path.now ≡ Ok entry) }
        ensures refused { IfErr result (IsRefused (B.state self.old.backing) (B.state self.new.backing) (walked (present_in (files_state self.old)).tree path.now)) }
        ensures looks { Looks (B.outlook self.old.backing) (B.outlook self.new.backing) (B.state self.old.backing) (B.state self.new.backing) }
    {
        walked(self.alloc, &mut self.backing, &self.kept, path)
    }

    /// The entries of a directory, in order of name.
    pub fn entries(&mut self, dir: u32) -> Result<Vec<Entry>, StoreFault>
        ensures still { LeavesKept (files_state self.old) (files_state self.new) }
        ensures found { IfOk result (λ entries. entries.items ≡ entries_in (present_in (files_state self.old)).tree dir) }
        ensures reads { Reads (B.state self.old.backing) (B.state self.new.backing) }
        ensures cause { HasCause (B.state self.old.backing) (B.state self.new.backing) result }
        ensures mode { IsNotReadOnly result }
    {
        self.backing.entries(dir)
    }

    /// The entry of a name in a directory.
    pub fn lookup(&mut self, dir: u32, name: &Name) -> Result<Option<Entry>, StoreFault>
        ensures still { LeavesKept (files_state self.old) (files_state self.new) }
        ensures found { IfOk result (λ found. found ≡ entry_at (present_in (files_state self.old)).tree dir name.now) }
        ensures reads { Reads (B.state self.old.backing) (B.state self.new.backing) }
        ensures cause { HasCause (B.state self.old.backing) (B.state self.new.backing) result }
        ensures mode { IsNotReadOnly result }
    {
        self.backing.lookup(dir, name)
    }

    /// The inode of a number, with the size and the times that its dirty pages gave it.
    pub fn inode(&mut self, ino: u32) -> Result<Option<Inode>, StoreFault>
        ensures still { LeavesKept (files_state self.old) (files_state self.new) }
        ensures found { IfOk result (λ found. found ≡ inode_at (present_in (files_state self.old)).tree ino) }
        ensures reads { Reads (B.state self.old.backing) (B.state self.new.backing) }
        ensures cause { HasCause (B.state self.old.backing) (B.state self.new.backing) result }
        ensures mode { IsNotReadOnly result }
    {
        inode(&mut self.backing, &self.kept, ino)
    }

    /// The highest inode number that was ever used. Takes no memory.
    pub fn highest(&self) -> u32
        ensures { result ≡ (B.state self.now.backing).tree.highest }
    {
        self.backing.highest()
    }

    /// Whether the backing can be written, or why not. Takes no memory.
    pub fn mode(&self) -> Mode
        ensures { result ≡ (B.state self.now.backing).mode }
    {
        self.backing.mode()
    }

    /// The need and the room of every call that was refused for want of room so far, in order, in bytes.
    pub fn refused(&self) -> &[NoSpace]
        ensures { result.now ≡ self.now.refused.items }
    {
        self.refused.as_slice()
    }

    /// The backing, with what was put so far.
    pub fn into_parts(self) -> B
        ensures { result ≡ self.backing }
    {
        self.backing
    }
}

// Notes the sides of a refusal for want of room. Where there is no memory for that, the refusal is want of memory.
fn noted(refused: &mut Vec<NoSpace>, refusal: Refusal) -> Refusal
    ensures noted { refused.new.items ≡ refused.old.items ++ no_space_in (Refused result) }
    ensures refusal { (result ≡ refusal) ⊎ ((result ≡ Enomem) × ((space : _) × (refusal ≡ Enospc space))) }
{
    let Refusal::Enospc { space } = refusal else {
        return refusal;
    };
    match refused.push(space) {
        Ok(()) => refusal,
        Err(_) => Refusal::Enomem,
    }
}
