// A caller's write.

ghost use Rattle.std.specs.Prelude.{◌≡◌, ◌⊎◌, ◌+◌, ◌-◌, ◌*◌, ◌^◌, ◌<◌, ◌≤◌, IsTrue, Some, Ok, IfOk, OnOk, OnErr, IfErr, length};
ghost use Rattle.fs_model.specs.declared.inode.Inode.{Inode as AnyInode};
ghost use Rattle.fs_model.specs.declared.inode.Kind.TheVariants.{File};
ghost use Rattle.fs_model.specs.declared.op.Op.TheVariants.{Write};
ghost use Rattle.fs_model.specs.Backing.{Goes};
ghost use Rattle.fs_model.specs.Files.{Files, handle_at, inode_at, pages_of};
ghost use Rattle.fs_model.specs.Handles.{tree_written};
ghost use Rattle.fs_model.specs.Operation.{outcome_of};
ghost use Rattle.fs_model.specs.Proper.{has_kind};
ghost use Rattle.fs_laws.specs.Sound.{IsSound};
ghost use Rattle.buffered_files.specs.Alike.{IsAlike};
ghost use Rattle.buffered_files.specs.Calls.{GrowsBy, IsCoveredAtLast, IsWithoutRoom, SureGoes, added_or_refused};
ghost use Rattle.buffered_files.specs.Cuts.{PutsSeen};
ghost use Rattle.buffered_files.specs.Present.{IsKept, newly_dirty, present};
ghost use Rattle.vfs_plans.specs.Answers.{IsFault, IsRefused, Looks};
ghost use Rattle.vfs_ops.specs.Kinds.{IsEarly, OnlyLooks};
ghost use Rattle.vfs_ops.specs.Steps.{IsLast};
ghost use Rattle.vfs_ops.specs.Writing.{HasRoom, IsBuffered, IsCovered, WasPaid, credits_need, newly_by, write_need};

use buffered_files::{
    Kept, make_room, newly, present_files_are_sound, size, write as write_pages,
    written_files_stay_alike,
};
use fs_laws::a_write_keeps_trees_proper;
use fs_model::{Backing, Class, Inode, Need, Refusal, Reply};
use op_groups::{ends_too_far, is_bad_len, is_bad_slot};
use std::alloc::Global;
use vfs_plans::inode;

/// Writes so many copies of a byte into an open file of a caller, from a place on, at this moment (pwrite(2)). `grant` is how many credits the caller
/// brings, which the backing covers beside those of dirty pages; the number that is answered is what is left of them. A page that wasn't dirty takes
/// a credit, and where the caller's are too few the rest is asked for. Where the rest isn't covered as the backing is, all dirty pages are put, a
/// commit ends, and what the write lacks then is asked for once more. The pages that are written are only dirty, and nothing of them is put. A
/// refusal is the definition's, or tells that there is no room for the credits, or that the backing failed. The files are then as they were, and the
/// caller has its credits still.
pub(crate) fn write<B: Backing>(
    alloc: Global,
    backing: &mut B,
    kept: &mut Kept,
    caller: u16,
    now: u64,
    grant: u64,
    slot: u8,
    offs: u64,
    len: u32,
    byte: u8,
) -> Result<(Reply, u64), Refusal>
    requires kept { IsKept (B.state backing.old).tree kept.old }
    requires paid { length kept.old.pages.dirty + grant ≤ (B.state backing.old).space.credits }
    requires sound { IsSound (present (B.state backing.old).tree kept.old) }
    ensures kept { IsKept (B.state backing.new).tree kept.new }
    ensures paid { length kept.new.pages.dirty ≤ (B.state backing.new).space.credits }
    ensures sound { IsSound (present (B.state backing.new).tree kept.new) }
    ensures done { IfOk result (λ r. (after : Files) × (outcome_of (present (B.state backing.old).tree kept.old) caller now (Write slot offs len byte) ≡ Ok (r.0, after)) × IsAlike after (present (B.state backing.new).tree kept.new)) }
    ensures same { OnErr result (IsAlike (present (B.state backing.old).tree kept.old) (present (B.state backing.new).tree kept.new)) }
    ensures refused { IfErr result (λ refusal. IsRefused (B.state backing.old) (B.state backing.new) (outcome_of (present (B.state backing.old).tree kept.old) caller now (Write slot offs len byte)) refusal
        ⊎ (IsWithoutRoom (B.state backing.old) (B.state backing.new) kept.new (write_need offs len grant) refusal
        × IsLast (outcome_of (present (B.state backing.old).tree kept.old) caller now (Write slot offs len byte)) refusal)) }
    ensures left { IfOk result (λ r. r.1 ≡ grant - newly_by kept.old caller (Write slot offs len byte)) }
    ensures early { IsEarly result → OnlyLooks (B.state backing.old) (B.state backing.new) kept.old kept.new }
    ensures issued { IfOk result (λ r. (B.state backing.new).space.credits + length kept.old.pages.dirty + grant ≡ (B.state backing.old).space.credits + length kept.new.pages.dirty + r.1) }
    ensures still_issued { OnErr result ((B.state backing.new).space.credits + length kept.old.pages.dirty ≡ (B.state backing.old).space.credits + length kept.new.pages.dirty) }
    ensures admitted { OnOk result ((ino : _) → handle_at (present (B.state backing.old).tree kept.old) caller slot ≡ Some ino → WasPaid (B.state backing.old) (B.state backing.new) kept.old ino offs len grant) }
    ensures buffered { (ino : _) → handle_at (present (B.state backing.old).tree kept.old) caller slot ≡ Some ino → HasRoom (B.state backing.old) kept.old ino offs len grant
        → IsBuffered (B.state backing.old) (B.state backing.new) kept.old kept.new ino offs len result }
    ensures grows { GrowsBy (added_or_refused (2 * length (pages_of offs len)) 2 result) (B.state backing.old) (B.state backing.new) kept.old kept.new }
    ensures closed { (B.state backing.new).closed ≤ (B.state backing.old).closed }
    ensures cut { PutsSeen (B.state backing.old) (B.state backing.new) kept.old }
    ensures goes { Goes (2 * length kept.old.pages.dirty) (B.state backing.old) (B.state backing.new) }
    ensures sure { SureGoes (B.outlook backing.old) (B.outlook backing.new) (B.state backing.old) (B.state backing.new) }
{
    present_files_are_sound();
    a_write_keeps_trees_proper();
    if is_bad_slot(slot) {
        return Err(Refusal::Einval);
    }
    if is_bad_len(len) {
        return Err(Refusal::Einval);
    }
    let Some(ino) = kept.handles.get(caller, slot) else {
        return Err(Refusal::Ebadf);
    };
    if ends_too_far(offs, len) {
        return Err(Refusal::Efbig);
    }
    if len == 0 {
        return Ok((Reply::Count { n: 0 }, grant));
    }
    let left = write_some(alloc, backing, kept, ino, now, grant, offs, len, byte)?;
    Ok((Reply::Count { n: len }, left))
}

// Writes at least one copy of a byte into a file, and answers what is left of the grant.
fn write_some<B: Backing>(
    alloc: Global,
    backing: &mut B,
    kept: &mut Kept,
    ino: u32,
    now: u64,
    grant: u64,
    offs: u64,
    len: u32,
    byte: u8,
) -> Result<u64, Refusal>
    requires kept { IsKept (B.state backing.old).tree kept.old }
    requires paid { length kept.old.pages.dirty + grant ≤ (B.state backing.old).space.credits }
    requires file { IsTrue (has_kind (present (B.state backing.old).tree kept.old).tree ino File) }
    requires some { 0 < len }
    requires few { len ≤ 65536 }
    requires range { offs + len ≤ 2 ^ 41 }
    ensures kept { IsKept (B.state backing.new).tree kept.new }
    ensures paid { length kept.new.pages.dirty ≤ (B.state backing.new).space.credits }
    ensures written { OnOk result ((inode : AnyInode) → inode_at (present (B.state backing.old).tree kept.old).tree ino ≡ Some inode
        → IsAlike (record (present (B.state backing.old).tree kept.old) { tree = tree_written (present (B.state backing.old).tree kept.old).tree ino inode now offs len byte }) (present (B.state backing.new).tree kept.new)) }
    ensures same { OnErr result (IsAlike (present (B.state backing.old).tree kept.old) (present (B.state backing.new).tree kept.new)) }
    ensures refused { IfErr result (λ refusal. IsFault (B.state backing.old) (B.state backing.new) refusal ⊎ IsWithoutRoom (B.state backing.old) (B.state backing.new) kept.new (write_need offs len grant) refusal) }
    ensures left { IfOk result (λ left. left ≡ grant - newly_dirty kept.old.pages.dirty ino offs len) }
    ensures issued { IfOk result (λ left. (B.state backing.new).space.credits + length kept.old.pages.dirty + grant ≡ (B.state backing.old).space.credits + length kept.new.pages.dirty + left) }
    ensures still_issued { OnErr result ((B.state backing.new).space.credits + length kept.old.pages.dirty ≡ (B.state backing.old).space.credits + length kept.new.pages.dirty) }
    ensures admitted { OnOk result (WasPaid (B.state backing.old) (B.state backing.new) kept.old ino offs len grant) }
    ensures buffered { HasRoom (B.state backing.old) kept.old ino offs len grant → IsBuffered (B.state backing.old) (B.state backing.new) kept.old kept.new ino offs len result }
    ensures grows { GrowsBy (added_or_refused (2 * length (pages_of offs len)) 2 result) (B.state backing.old) (B.state backing.new) kept.old kept.new }
    ensures closed { (B.state backing.new).closed ≤ (B.state backing.old).closed }
    ensures cut { PutsSeen (B.state backing.old) (B.state backing.new) kept.old }
    ensures goes { Goes (2 * length kept.old.pages.dirty) (B.state backing.old) (B.state backing.new) }
    ensures sure { SureGoes (B.outlook backing.old) (B.outlook backing.new) (B.state backing.old) (B.state backing.new) }
{
    written_files_stay_alike();
    let touched = newly(kept, ino, offs, len);
    let have = cover(alloc, backing, kept, ino, grant, offs, len, touched)?;
    match write_covered(alloc, backing, kept, ino, now, offs, len, byte) {
        Ok(()) => Ok(grant.saturating_sub(touched)),
        Err(refusal) => {
            backing.give_back(have - grant);
            Err(refusal)
        }
    }
}

// Covers what a write lacks, which newly touches so many pages, and answers how many credits it has then.
fn cover<B: Backing>(
    alloc: Global,
    backing: &mut B,
    kept: &mut Kept,
    ino: u32,
    grant: u64,
    offs: u64,
    len: u32,
    touched: u64,
) -> Result<u64, Refusal>
    requires kept { IsKept (B.state backing.old).tree kept.old }
    requires paid { length kept.old.pages.dirty + grant ≤ (B.state backing.old).space.credits }
    requires touched { touched ≡ newly_dirty kept.old.pages.dirty ino offs len }
    requires some { 0 < len }
    requires few { len ≤ 65536 }
    requires range { offs + len ≤ 2 ^ 41 }
    ensures kept { IsKept (B.state backing.new).tree kept.new }
    ensures enough { IfOk result (λ have. newly_dirty kept.new.pages.dirty ino offs len ≤ have) }
    ensures exact { IfOk result (λ have. have - newly_dirty kept.new.pages.dirty ino offs len ≡ grant - newly_dirty kept.old.pages.dirty ino offs len) }
    ensures more { IfOk result (λ have. grant ≤ have) }
    ensures issued { IfOk result (λ have. (B.state backing.new).space.credits + length kept.old.pages.dirty + grant ≡ (B.state backing.old).space.credits + length kept.new.pages.dirty + have) }
    ensures still_issued { OnErr result ((B.state backing.new).space.credits + length kept.old.pages.dirty ≡ (B.state backing.old).space.credits + length kept.new.pages.dirty) }
    ensures same { IsAlike (present (B.state backing.old).tree kept.old) (present (B.state backing.new).tree kept.new) }
    ensures refused { IfErr result (IsWithoutRoom (B.state backing.old) (B.state backing.new) kept.new (write_need offs len grant)) }
    ensures admitted { OnOk result (WasPaid (B.state backing.old) (B.state backing.new) kept.old ino offs len grant) }
    ensures covered { HasRoom (B.state backing.old) kept.old ino offs len grant → IsCovered (B.state backing.old) (B.state backing.new) kept.old kept.new result }
    ensures grows { GrowsBy (added_or_refused 0 2 result) (B.state backing.old) (B.state backing.new) kept.old kept.new }
    ensures closed { (B.state backing.new).closed ≤ (B.state backing.old).closed }
    ensures cut { PutsSeen (B.state backing.old) (B.state backing.new) kept.old }
    ensures goes { Goes (2 * length kept.old.pages.dirty) (B.state backing.old) (B.state backing.new) }
    ensures sure { SureGoes (B.outlook backing.old) (B.outlook backing.new) (B.state backing.old) (B.state backing.new) }
{
    let lacking = touched.saturating_sub(grant);
    if lacking == 0 {
        return Ok(grant);
    }
    match backing.admit(&credits_need(lacking)) {
        Ok(()) => Ok(grant + lacking),
        Err(_) => cover_again(alloc, backing, kept, ino, grant, offs, len),
    }
}

// Makes all the room that there is, and asks once more. No page is dirty then, and each that is touched takes a credit.
fn cover_again<B: Backing>(
    alloc: Global,
    backing: &mut B,
    kept: &mut Kept,
    ino: u32,
    grant: u64,
    offs: u64,
    len: u32,
) -> Result<u64, Refusal>
    requires kept { IsKept (B.state backing.old).tree kept.old }
    requires paid { length kept.old.pages.dirty + grant ≤ (B.state backing.old).space.credits }
    requires lacking { grant < newly_dirty kept.old.pages.dirty ino offs len }
    requires some { 0 < len }
    requires few { len ≤ 65536 }
    requires range { offs + len ≤ 2 ^ 41 }
    ensures kept { IsKept (B.state backing.new).tree kept.new }
    ensures enough { IfOk result (λ have. newly_dirty kept.new.pages.dirty ino offs len ≤ have) }
    ensures exact { IfOk result (λ have. have - newly_dirty kept.new.pages.dirty ino offs len ≡ grant - newly_dirty kept.old.pages.dirty ino offs len) }
    ensures more { IfOk result (λ have. grant ≤ have) }
    ensures issued { IfOk result (λ have. (B.state backing.new).space.credits + length kept.old.pages.dirty + grant ≡ (B.state backing.old).space.credits + length kept.new.pages.dirty + have) }
    ensures still_issued { OnErr result ((B.state backing.new).space.credits + length kept.old.pages.dirty ≡ (B.state backing.old).space.credits + length kept.new.pages.dirty) }
    ensures same { IsAlike (present (B.state backing.old).tree kept.old) (present (B.state backing.new).tree kept.new) }
    ensures admitted { OnOk result (IsCoveredAtLast (B.state backing.old) (B.state backing.new) kept.old (write_need offs len grant) 0) }
    ensures refused { IfErr result (IsWithoutRoom (B.state backing.old) (B.state backing.new) kept.new (write_need offs len grant)) }
    ensures grows { GrowsBy (added_or_refused 0 2 result) (B.state backing.old) (B.state backing.new) kept.old kept.new }
    ensures closed { (B.state backing.new).closed ≤ (B.state backing.old).closed }
    ensures cut { PutsSeen (B.state backing.old) (B.state backing.new) kept.old }
    ensures goes { Goes (2 * length kept.old.pages.dirty) (B.state backing.old) (B.state backing.new) }
    ensures sure { SureGoes (B.outlook backing.old) (B.outlook backing.new) (B.state backing.old) (B.state backing.new) }
{
    match make_room(alloc, backing, kept) {
        Ok(()) => {
            let all = newly(kept, ino, offs, len).saturating_sub(grant);
            match backing.admit(&credits_need(all)) {
                Ok(()) => Ok(grant + all),
                Err(space) => Err(Refusal::Enospc { space }),
            }
        }
        Err(fault) => Err(Refusal::from(fault)),
    }
}

// Credits for pages, and nothing else.
fn credits_need(credits: u64) -> Need
    ensures { result ≡ credits_need credits }
{
    Need {
        credits,
        bytes: 0,
        nodes: 0,
        class: Class::Ordinary,
    }
}

// Writes copies of a byte into a file, whose new dirty pages are covered.
fn write_covered<B: Backing>(
    alloc: Global,
    backing: &mut B,
    kept: &mut Kept,
    ino: u32,
    now: u64,
    offs: u64,
    len: u32,
    byte: u8,
) -> Result<(), Refusal>
    requires kept { IsKept (B.state backing.old).tree kept.old }
    requires paid { length kept.old.pages.dirty + newly_dirty kept.old.pages.dirty ino offs len ≤ (B.state backing.old).space.credits }
    requires file { IsTrue (has_kind (present (B.state backing.old).tree kept.old).tree ino File) }
    requires some { 0 < len }
    requires range { offs + len ≤ 2 ^ 41 }
    ensures kept { IsKept (B.state backing.new).tree kept.new }
    ensures written { OnOk result ((inode : AnyInode) → inode_at (present (B.state backing.old).tree kept.old).tree ino ≡ Some inode
        → present (B.state backing.new).tree kept.new ≡ record (present (B.state backing.old).tree kept.old) { tree = tree_written (present (B.state backing.old).tree kept.old).tree ino inode now offs len byte }) }
    ensures count { OnOk result (length kept.new.pages.dirty ≡ length kept.old.pages.dirty + newly_dirty kept.old.pages.dirty ino offs len) }
    ensures same { OnErr result (present (B.state backing.new).tree kept.new ≡ present (B.state backing.old).tree kept.old) }
    ensures dirty { OnErr result (kept.new.pages.dirty ≡ kept.old.pages.dirty) }
    ensures refused { IfErr result (IsFault (B.state backing.old) (B.state backing.new)) }
    ensures looks { Looks (B.outlook backing.old) (B.outlook backing.new) (B.state backing.old) (B.state backing.new) }
{
    match inode(backing, kept, ino)? {
        Some(inode) => write_at(alloc, backing, kept, ino, inode, now, offs, len, byte),
        None => Err(Refusal::Ebadf),
    }
}

// The same, where the file's inode is at hand.
fn write_at<B: Backing>(
    alloc: Global,
    backing: &mut B,
    kept: &mut Kept,
    ino: u32,
    inode: Inode,
    now: u64,
    offs: u64,
    len: u32,
    byte: u8,
) -> Result<(), Refusal>
    requires kept { IsKept (B.state backing.old).tree kept.old }
    requires paid { length kept.old.pages.dirty + newly_dirty kept.old.pages.dirty ino offs len ≤ (B.state backing.old).space.credits }
    requires present { inode_at (present (B.state backing.old).tree kept.old).tree ino ≡ Some inode }
    requires file { inode.kind ≡ File }
    requires some { 0 < len }
    requires range { offs + len ≤ 2 ^ 41 }
    ensures kept { IsKept (B.state backing.new).tree kept.new }
    ensures written { OnOk result (present (B.state backing.new).tree kept.new
        ≡ record (present (B.state backing.old).tree kept.old) { tree = tree_written (present (B.state backing.old).tree kept.old).tree ino inode now offs len byte }) }
    ensures count { OnOk result (length kept.new.pages.dirty ≡ length kept.old.pages.dirty + newly_dirty kept.old.pages.dirty ino offs len) }
    ensures same { OnErr result (present (B.state backing.new).tree kept.new ≡ present (B.state backing.old).tree kept.old) }
    ensures dirty { OnErr result (kept.new.pages.dirty ≡ kept.old.pages.dirty) }
    ensures refused { IfErr result (IsFault (B.state backing.old) (B.state backing.new)) }
    ensures looks { Looks (B.outlook backing.old) (B.outlook backing.new) (B.state backing.old) (B.state backing.new) }
{
    let size = size(backing, kept, ino, &inode)?;
    write_pages(alloc, backing, kept, ino, inode, size, offs, len, byte, now)?;
    Ok(())
}
