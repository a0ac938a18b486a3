// The session of a run: files over a volume in memory, and where the script is.

ghost use Rattle.std.specs.Prelude.{◌≡◌, ℕ, ◌<◌, ◌≤◌, ◌+◌, ◌++◌, ◌^◌, [], IfOk, OnOk, false, true, List, length};
ghost use Rattle.ubifs_base.specs.RawOf.{raw_of};
ghost use Rattle.buffered_files.specs.Alike.{IsAlike};
ghost use Rattle.buffered_files.specs.Calls.{SureGoes};
ghost use Rattle.buffered_files.specs.Present.{present};
ghost use Rattle.fs_model.specs.declared.backing_answers.Mode.TheVariants.{ReadWrite};
ghost use Rattle.fs_model.specs.declared.reply.Reply.TheVariants.{Done};
ghost use Rattle.plain_backing.specs.PlainBacking.{Covers, backing_state_of, outlook_of};
ghost use Rattle.script_text.specs.declared.part.Part.TheVariants.{Line, Mount, Unmount};
ghost use Rattle.script_text.specs.Script.{MayStand};
ghost use Rattle.vfs_ops.specs.declared.event.Event.TheVariants.{Call};
ghost use Rattle.vfs_ops.specs.declared.event.Outcome.TheVariants.{Replied};
ghost use Rattle.vfs_ops.specs.Background.{is_work};
ghost use Rattle.vfs_ops.specs.Events.{HasSynced, IsCalled as IsCalledEvent, IsReply, grant_of};
ghost use Rattle.vfs_ops.specs.Passing.{IsStep};
ghost use Rattle.script_run.specs.Replies.{IsPartCalled};
ghost use Rattle.fs_model.specs.Files.{Tree};
ghost use Rattle.fs_model.specs.Orphan.{without_nameless};
ghost use Rattle.fs_model.specs.Proper.{IsProper};
ghost use Rattle.script_run.specs.Run.{HasGrown, IsScriptPart, IsReplied, IsUnmounted, LeavesOnly, opening_on};
ghost use Rattle.script_run.specs.Sessions.{IsBare, IsSession, IsSteady, running_of, mounted_over, state_in};

use crate::nameless::without_nameless;
use crate::opening::{Opening, backing_of};
use buffered_files::{clean_files_are_those_of_the_backing, present_files_are_sound};
use fs_laws::a_mount_keeps_trees_proper;
use fs_model::{Backing, Op, Reply};
use plain_backing::PlainBacking;
use script_phase::is_memory;
use script_text::{Part, write_reply};
use space_sums::more_never_lowers_the_need;
use std::alloc::Global;
use traced_files::a_line_leaves_what_was_seen;
use ubifs_base::{Geometry, Memory};
use vfs_ops::{Event, Fs, Outcome, a_plain_answer_is_no_refusal};

/// How many clean pages are kept in memory.
const CLEAN: u32 = 1024;

/// Files over a volume in memory, its geometry, whether it is mounted, and the time in seconds since 1970. Then how many lines of the caller stand
/// behind the last line of another kind, and how many workers are at work beside the callers.
#[derive(Drop)]
pub(crate) struct Session {
    pub(crate) fs: Fs<PlainBacking>,
    pub(crate) geometry: Geometry,
    pub(crate) mounted: bool,
    pub(crate) now: u64,
    pub(crate) number: u64,
    pub(crate) workers: u16,
}

/// A session on a volume, which isn't mounted.
pub(crate) fn first_session(alloc: Global, opening: Opening) -> Result<Session, Memory>
    ensures session { IfOk result (λ session. IsSession (raw_of opening.geometry) session) }
    ensures opening { IfOk result (λ session. running_of session ≡ opening_on opening.tree (state_in session).journal opening.space.weight) }
    ensures left { IfOk result (λ session. LeavesOnly (state_in session).journal opening.tree) }
{
    let Opening {
        geometry,
        tree,
        space,
    } = opening;
    let backing = backing_of(alloc, geometry, tree, space)?;
    let fs = files_over(alloc, backing)?;
    Ok(Session {
        fs,
        geometry,
        mounted: false,
        now: 0,
        number: 0,
        workers: 0,
    })
}

/// Does what a line of a script says, and appends what it prints. The error is want of memory.
pub(crate) fn next(
    alloc: Global,
    session: Session,
    part: Part,
    text: &mut Vec<u8>,
) -> Result<Session, Memory>
    requires session { IsSession (state_in session).geometry session }
    requires call { IsPartCalled part }
    requires stands { MayStand session.mounted part }
    requires few { session.number < 2 ^ 32 }
    ensures session { IfOk result (λ new. IsSession (state_in session).geometry new) }
    ensures part { IfOk result (λ new. (line : List ℕ) × IsScriptPart (state_in session).geometry (running_of session) part line (running_of new) × (text.new.items ≡ text.old.items ++ line)) }
    ensures few { IfOk result (λ new. new.number ≤ session.number + 1) }
{
    match part {
        Part::Unmount => unmounted(alloc, session, text),
        other => went_on(session, other, text),
    }
}

// Does what a line says that is no unmount.
fn went_on(session: Session, part: Part, text: &mut Vec<u8>) -> Result<Session, Memory>
    requires session { IsSession (state_in session).geometry session }
    requires call { IsPartCalled part }
    requires stands { MayStand session.mounted part }
    requires few { session.number < 2 ^ 32 }
    requires other { part ≡ Unmount → ⊥ }
    ensures session { IfOk result (λ new. IsSession (state_in session).geometry new) }
    ensures part { IfOk result (λ new. (line : List ℕ) × IsScriptPart (state_in session).geometry (running_of session) part line (running_of new) × (text.new.items ≡ text.old.items ++ line)) }
    ensures few { IfOk result (λ new. new.number ≤ session.number + 1) }
{
    let mut session = session;
    go_on(&mut session, part, text)?;
    Ok(session)
}

// Does it where the session stands.
fn go_on(session: &mut Session, part: Part, text: &mut Vec<u8>) -> Result<(), Memory>
    requires session { IsSession (state_in session.old).geometry session.old }
    requires call { IsPartCalled part }
    requires stands { MayStand session.old.mounted part }
    requires few { session.old.number < 2 ^ 32 }
    requires other { part ≡ Unmount → ⊥ }
    ensures session { OnOk result (IsSession (state_in session.old).geometry session.new) }
    ensures part { OnOk result ((line : List ℕ) × IsScriptPart (state_in session.old).geometry (running_of session.old) part line (running_of session.new) × (text.new.items ≡ text.old.items ++ line)) }
    ensures few { OnOk result (session.new.number ≤ session.old.number + 1) }
{
    match part {
        Part::Mount => mount(session, text),
        Part::Now { now } => {
            session.now = now;
            session.number = 0;
            Ok(())
        }
        Part::Workers { count } => {
            session.workers = count;
            session.number = 0;
            Ok(())
        }
        Part::Line { caller, op } => serve(session, caller, op, text),
        Part::Unmount => unreachable!(),
    }
}

// Mounts the volume.
fn mount(session: &mut Session, text: &mut Vec<u8>) -> Result<(), Memory>
    requires session { IsSession (state_in session.old).geometry session.old }
    ensures session { OnOk result (IsSession (state_in session.old).geometry session.new) }
    ensures part { OnOk result ((line : List ℕ) × IsScriptPart (state_in session.old).geometry (running_of session.old) Mount line (running_of session.new) × (text.new.items ≡ text.old.items ++ line)) }
    ensures few { OnOk result (session.new.number ≡ 0) }
{
    text.extend_from_slice(b"mount rw\n".as_slice())?;
    session.mounted = true;
    session.number = 0;
    Ok(())
}

// Unmounts it: all is put, nobody has a file open any more, and what has no name is gone.
fn unmounted(alloc: Global, session: Session, text: &mut Vec<u8>) -> Result<Session, Memory>
    requires session { IsSession (state_in session).geometry session }
    ensures session { IfOk result (λ new. IsSession (state_in session).geometry new) }
    ensures part { IfOk result (λ new. (line : List ℕ) × IsScriptPart (state_in session).geometry (running_of session) Unmount line (running_of new) × (text.new.items ≡ text.old.items ++ line)) }
    ensures few { IfOk result (λ new. new.number ≡ 0) }
{
    text.extend_from_slice(b"unmount clean\n".as_slice())?;
    away(alloc, session)
}

// The session behind an unmount.
fn away(alloc: Global, session: Session) -> Result<Session, Memory>
    requires session { IsSession (state_in session).geometry session }
    ensures session { IfOk result (λ new. IsSession (state_in session).geometry new) }
    ensures unmounted { IfOk result (λ new. IsUnmounted (state_in session).geometry (running_of session) (running_of new)) }
    ensures few { IfOk result (λ new. new.number ≡ 0) }
{
    let fs = put_away(alloc, session.geometry, session.fs)?;
    Ok(Session {
        fs,
        geometry: session.geometry,
        mounted: false,
        now: session.now,
        number: 0,
        workers: session.workers,
    })
}

/// Does a caller's operation, and prints the reply.
pub(crate) fn serve(
    session: &mut Session,
    caller: u16,
    op: Op,
    text: &mut Vec<u8>,
) -> Result<(), Memory>
    requires session { IsSession (state_in session.old).geometry session.old }
    requires call { IsPartCalled (Line caller op) }
    requires mounted { session.old.mounted ≡ true }
    requires few { session.old.number < 2 ^ 32 }
    ensures session { OnOk result (IsSession (state_in session.old).geometry session.new) }
    ensures part { OnOk result ((line : List ℕ) × IsScriptPart (state_in session.old).geometry (running_of session.old) (Line caller op) line (running_of session.new) × (text.new.items ≡ text.old.items ++ line)) }
    ensures few { OnOk result (session.new.number ≡ session.old.number + 1) }
{
    let reply = replied(&mut session.fs, caller, session.now, op)?;
    let number = session.number + 1;
    write_reply(caller, number, &reply, text)?;
    session.number = number;
    Ok(())
}

// Puts all that is dirty and commits it, closes all that is open, and drops what has no name then. Nothing was put since on the volume.
fn put_away(
    alloc: Global,
    geometry: Geometry,
    fs: Fs<PlainBacking>,
) -> Result<Fs<PlainBacking>, Memory>
    requires steady { IsSteady (raw_of geometry) fs.backing fs.kept }
    ensures steady { IfOk result (λ new. IsSteady (raw_of geometry) new.backing new.kept) }
    ensures bare { IfOk result (λ new. IsBare new.kept) }
    ensures closed { IfOk result (λ new. (backing_state_of new.backing).closed ≡ 0) }
    ensures left { IfOk result (λ new. LeavesOnly (backing_state_of new.backing).journal (backing_state_of new.backing).tree) }
    ensures files { IfOk result (λ new. (put : Tree) × IsAlike (present (backing_state_of fs.backing).tree fs.kept) (record (present (backing_state_of fs.backing).tree fs.kept) { tree = put })
        × ((backing_state_of new.backing).tree ≡ without_nameless put) × (present (backing_state_of new.backing).tree new.kept ≡ record { tree = without_nameless put; handles = [] })) }
    ensures grown { IfOk result (λ new. HasGrown (raw_of geometry) 0 0 (mounted_over fs.backing fs.kept 0) (mounted_over new.backing new.kept 0)) }
{
    let mut fs = fs;
    put_all(&mut fs)?;
    let named = named_files(alloc, geometry, fs.into_parts())?;
    Ok(named)
}

// Puts all that is dirty and commits it.
fn put_all(fs: &mut Fs<PlainBacking>) -> Result<(), Memory>
    requires steady { IsSteady (backing_state_of fs.old.backing).geometry fs.old.backing fs.old.kept }
    ensures steady { OnOk result (IsSteady (backing_state_of fs.old.backing).geometry fs.new.backing fs.new.kept) }
    ensures clean { OnOk result (fs.new.kept.pages.dirty ≡ []) }
    ensures files { OnOk result (IsAlike (present (backing_state_of fs.old.backing).tree fs.old.kept) (record (present (backing_state_of fs.old.backing).tree fs.old.kept) { tree = (backing_state_of fs.new.backing).tree })) }
    ensures grown { OnOk result (HasGrown (backing_state_of fs.old.backing).geometry 0 0 (mounted_over fs.old.backing fs.old.kept 0) (mounted_over fs.new.backing fs.new.kept 0)) }
{
    flush(fs)?;
    commit(fs)?;
    Ok(())
}

// Files over the tree of a backing without what has no name. Nothing was put since on the volume.
fn named_files(
    alloc: Global,
    geometry: Geometry,
    backing: PlainBacking,
) -> Result<Fs<PlainBacking>, Memory>
    requires geometry { (backing_state_of backing).geometry ≡ raw_of geometry }
    requires proper { IsProper (backing_state_of backing).tree }
    requires credits { (backing_state_of backing).space.credits ≡ 0 }
    requires covers { Covers (backing_state_of backing) }
    ensures steady { IfOk result (λ new. IsSteady (raw_of geometry) new.backing new.kept) }
    ensures bare { IfOk result (λ new. IsBare new.kept) }
    ensures tree { IfOk result (λ new. (backing_state_of new.backing).tree ≡ without_nameless (backing_state_of backing).tree) }
    ensures closed { IfOk result (λ new. (backing_state_of new.backing).closed ≡ 0) }
    ensures left { IfOk result (λ new. LeavesOnly (backing_state_of new.backing).journal (backing_state_of new.backing).tree) }
    ensures weight { IfOk result (λ new. ((backing_state_of new.backing).space.weight ≡ (backing_state_of backing).space.weight) × ((backing_state_of new.backing).space.index ≡ (backing_state_of backing).space.index)) }
{
    a_mount_keeps_trees_proper();
    more_never_lowers_the_need();
    let space = backing.space();
    let tree = without_nameless(alloc, backing.into_tree())?;
    let backing = backing_of(alloc, geometry, tree, space)?;
    let fs = files_over(alloc, backing)?;
    Ok(fs)
}

// Puts all that is dirty. Want of memory alone keeps it from that.
fn flush(fs: &mut Fs<PlainBacking>) -> Result<(), Memory>
    requires steady { IsSteady (backing_state_of fs.old.backing).geometry fs.old.backing fs.old.kept }
    ensures steady { OnOk result (IsSteady (backing_state_of fs.old.backing).geometry fs.new.backing fs.new.kept) }
    ensures pages { OnOk result (fs.new.kept.pages.dirty ≡ []) }
    ensures inodes { OnOk result (fs.new.kept.inodes ≡ []) }
    ensures files { OnOk result (IsAlike (present (backing_state_of fs.old.backing).tree fs.old.kept) (present (backing_state_of fs.new.backing).tree fs.new.kept)) }
    ensures grown { OnOk result (HasGrown (backing_state_of fs.old.backing).geometry 0 0 (mounted_over fs.old.backing fs.old.kept 0) (mounted_over fs.new.backing fs.new.kept 0)) }
{
    let reply = replied(fs, 1, 0, Op::Flush)?;
    is_done(&reply)
}

// Whether a reply says that it is done. Want of memory is told of any other.
fn is_done(reply: &Reply) -> Result<(), Memory>
    ensures { OnOk result (reply.now ≡ Done) }
{
    match reply {
        Reply::Done => Ok(()),
        _ => Err(Memory),
    }
}

// Commits what was put, as a mount does that ends.
fn commit(fs: &mut Fs<PlainBacking>) -> Result<(), Memory>
    requires steady { IsSteady (backing_state_of fs.old.backing).geometry fs.old.backing fs.old.kept }
    ensures steady { OnOk result (IsSteady (backing_state_of fs.old.backing).geometry fs.new.backing fs.new.kept) }
    ensures tree { OnOk result ((backing_state_of fs.new.backing).tree ≡ (backing_state_of fs.old.backing).tree) }
    ensures kept { OnOk result (fs.new.kept ≡ fs.old.kept) }
    ensures grown { OnOk result (HasGrown (backing_state_of fs.old.backing).geometry 0 0 (mounted_over fs.old.backing fs.old.kept 0) (mounted_over fs.new.backing fs.new.kept 0)) }
{
    work(fs, &Event::CommitStart)?;
    work(fs, &Event::CommitStep)?;
    work(fs, &Event::CommitEnd)?;
    Ok(())
}

// Asks the backing for work on what was put. Want of memory alone keeps it from that.
fn work(fs: &mut Fs<PlainBacking>, event: &Event) -> Result<(), Memory>
    requires steady { IsSteady (backing_state_of fs.old.backing).geometry fs.old.backing fs.old.kept }
    requires work { is_work event.now ≡ true }
    requires call { IsCalledEvent event.now }
    requires grant { grant_of event.now ≡ 0 }
    ensures steady { IsSteady (backing_state_of fs.old.backing).geometry fs.new.backing fs.new.kept }
    ensures tree { (backing_state_of fs.new.backing).tree ≡ (backing_state_of fs.old.backing).tree }
    ensures kept { fs.new.kept ≡ fs.old.kept }
    ensures grown { HasGrown (backing_state_of fs.old.backing).geometry 0 0 (mounted_over fs.old.backing fs.old.kept 0) (mounted_over fs.new.backing fs.new.kept 0) }
{
    let outcome = fs.step(event);
    fault_of(&outcome)
}

// The fault that an outcome tells. Want of memory is the only one that comes.
fn fault_of(outcome: &Outcome) -> Result<(), Memory> {
    match outcome {
        Outcome::Fault { .. } => Err(Memory),
        _ => Ok(()),
    }
}

// The reply to a caller's operation. Want of memory ends the run.
fn replied(fs: &mut Fs<PlainBacking>, caller: u16, now: u64, op: Op) -> Result<Reply, Memory>
    requires steady { IsSteady (backing_state_of fs.old.backing).geometry fs.old.backing fs.old.kept }
    requires call { IsPartCalled (Line caller op) }
    ensures steady { OnOk result (IsSteady (backing_state_of fs.old.backing).geometry fs.new.backing fs.new.kept) }
    ensures replied { IfOk result (λ reply. IsReplied (backing_state_of fs.old.backing).geometry (mounted_over fs.old.backing fs.old.kept now) caller op reply (mounted_over fs.new.backing fs.new.kept now)) }
    ensures written { IfOk result (λ reply. HasSynced ReadWrite (backing_state_of fs.new.backing) fs.old.kept fs.new.kept caller op reply) }
{
    clean_files_are_those_of_the_backing();
    present_files_are_sound();
    a_plain_answer_is_no_refusal();
    a_line_leaves_what_was_seen();
    let reply = stepped(fs, caller, now, op);
    if is_memory(&reply) {
        return Err(Memory);
    }
    Ok(reply)
}

/// The reply to a caller's operation, as a step of the files gives it.
pub(crate) fn stepped(fs: &mut Fs<PlainBacking>, caller: u16, now: u64, op: Op) -> Reply
    requires call { IsPartCalled (Line caller op) }
    requires grant { length fs.old.kept.pages.dirty ≤ (backing_state_of fs.old.backing).space.credits }
    ensures step { (left : ℕ) × IsStep (record { backing = backing_state_of fs.old.backing; kept = fs.old.kept; refused = fs.old.refused.items }) (record { backing = backing_state_of fs.new.backing; kept = fs.new.kept; refused = fs.new.refused.items }) (Call caller now 0 op) (Replied result left) }
    ensures sure { SureGoes (outlook_of fs.old.backing) (outlook_of fs.new.backing) (backing_state_of fs.old.backing) (backing_state_of fs.new.backing) }
{
    let event = Event::Call {
        caller,
        now,
        grant: 0,
        op,
    };
    reply_in(fs.step(&event))
}

// The reply that an outcome has.
fn reply_in(outcome: Outcome) -> Reply
    requires { IsReply outcome }
    ensures { (left : ℕ) × (outcome ≡ Replied result left) }
{
    let Outcome::Replied { reply, .. } = outcome else {
        unreachable!()
    };
    reply
}

/// Files over a backing, of which nothing is kept in memory.
pub(crate) fn files_over(alloc: Global, backing: PlainBacking) -> Result<Fs<PlainBacking>, Memory>
    requires proper { IsProper (backing_state_of backing).tree }
    ensures backing { IfOk result (λ fs. fs.backing ≡ backing) }
    ensures bare { IfOk result (λ fs. IsBare fs.kept) }
{
    match Fs::new(alloc, backing, CLEAN) {
        Ok(fs) => Ok(fs),
        Err((fault, _)) => Err(fault),
    }
}
