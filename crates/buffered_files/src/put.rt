// Dirty pages are put.

ghost use Rattle.std.specs.Prelude.{◌≡◌, ◌+◌, ◌*◌, [], ◌<◌, ◌≤◌, nat_lt, is_some, true, false, Some, if◌then◌else◌, IfOk, IfSome, OnOk, OnErr, length, drop, take};
ghost use Rattle.std.specs.Map.{lookup};
ghost use Rattle.std.specs.Option.{option_map};
ghost use Rattle.std.specs.BTreeMap.{is_at};
ghost use Rattle.std.specs.Ordering.{nat_cmp};
ghost use Rattle.page_cache.specs.Pages.{dirty_at, is_current, pages_of, with_bytes, without_dirty};
ghost use Rattle.fs_model.specs.Backing.{Goes, HasCause};
ghost use Rattle.buffered_files.specs.Alike.{IsAlike};
ghost use Rattle.buffered_files.specs.Calls.{GrowsBy, SureGoes, TellsMode, added_or_failed};
ghost use Rattle.buffered_files.specs.Cuts.{PutsSeen};
ghost use Rattle.buffered_files.specs.PagePut.{IsPutOrKept, page_at};
ghost use Rattle.buffered_files.specs.Present.{IsKept, dirty_of_others, has_dirty, present, filled};

use crate::copies::push_copies;
use crate::encoded::bytes_before_end;
use crate::kept::Kept;
use fs_laws::a_page_keeps_trees_proper;
use fs_model::{Backing, PageNode, StoreFault};
use page_cache::Ticket;
use std::alloc::Global;
use ubifs_base::{Bytes, Memory};

/// Puts the page of a ticket, with its bytes up to the file's end and the inode as it is now. It answers whether the page is dirty at the ticket's
/// version: where it isn't, all is as it was. After a fault the page is dirty and paid as before. Its bytes aren't copied: they are taken out for the
/// put, and after a fault they stand there again.
pub fn put_ticket<B: Backing>(
    alloc: Global,
    backing: &mut B,
    kept: &mut Kept,
    ticket: &Ticket,
) -> Result<bool, StoreFault>
    requires kept { IsKept (B.state backing.old).tree kept.old }
    requires paid { length kept.old.pages.dirty ≤ (B.state backing.old).space.credits }
    ensures kept { IsKept (B.state backing.new).tree kept.new }
    ensures paid { length kept.new.pages.dirty ≤ (B.state backing.new).space.credits }
    ensures same { IsAlike (present (B.state backing.old).tree kept.old) (present (B.state backing.new).tree kept.new) }
    ensures issued { (B.state backing.new).space.credits + length kept.old.pages.dirty ≡ (B.state backing.old).space.credits + length kept.new.pages.dirty }
    ensures put { IfOk result (λ put. put ≡ is_current kept.old.pages ticket.now) }
    ensures pages { IfOk result (λ put. kept.new.pages ≡ (if put then without_dirty kept.old.pages ticket.now.ino ticket.now.block else kept.old.pages)) }
    ensures inodes { kept.new.inodes ≡ kept.old.inodes }
    ensures handles { kept.new.handles ≡ kept.old.handles }
    ensures err { OnErr result (kept.new ≡ kept.old) }
    ensures placed { is_current kept.old.pages ticket.now ≡ true → (page : _) → page_at kept.old ticket.now.ino ticket.now.block ≡ Some page → IsPutOrKept (B.state backing.old) (B.state backing.new) page result }
    ensures cut { PutsSeen (B.state backing.old) (B.state backing.new) kept.old }
    ensures goes { Goes 2 (B.state backing.old) (B.state backing.new) }
    ensures grows { GrowsBy (added_or_failed 0 2 result) (B.state backing.old) (B.state backing.new) kept.old kept.new }
    ensures closed { (B.state backing.new).closed ≤ (B.state backing.old).closed }
    ensures cause { HasCause (B.state backing.old) (B.state backing.new) result }
    ensures mode { TellsMode (B.state backing.new) result }
    ensures sure { SureGoes (B.outlook backing.old) (B.outlook backing.new) (B.state backing.old) (B.state backing.new) }
{
    // Its proof knows from this that a dirty page isn't clean.
    let _dirty = kept.pages.dirty();
    let Some((page, len)) = taken_page(alloc, kept, ticket)? else {
        return Ok(false);
    };
    a_page_keeps_trees_proper();
    match backing.put_page(&page) {
        Ok(()) => {
            kept.pages.mark_clean(ticket);
            Ok(true)
        }
        Err(fault) => {
            give_back(kept, ticket, page.bytes.into_vec(), len);
            Err(fault)
        }
    }
}

/// Puts the page that became dirty first, as `put_ticket` does, and answers whether there was one. After a fault the page is
/// dirty and paid as before.
pub fn put_oldest<B: Backing>(
    alloc: Global,
    backing: &mut B,
    kept: &mut Kept,
) -> Result<bool, StoreFault>
    requires kept { IsKept (B.state backing.old).tree kept.old }
    requires paid { length kept.old.pages.dirty ≤ (B.state backing.old).space.credits }
    ensures kept { IsKept (B.state backing.new).tree kept.new }
    ensures paid { length kept.new.pages.dirty ≤ (B.state backing.new).space.credits }
    ensures same { IsAlike (present (B.state backing.old).tree kept.old) (present (B.state backing.new).tree kept.new) }
    ensures issued { (B.state backing.new).space.credits + length kept.old.pages.dirty ≡ (B.state backing.old).space.credits + length kept.new.pages.dirty }
    ensures put { IfOk result (λ put. put ≡ nat_lt 0 (length kept.old.pages.dirty)) }
    ensures pages { OnOk result (kept.new.pages.dirty ≡ drop 1 kept.old.pages.dirty) }
    ensures err { OnErr result (kept.new ≡ kept.old) }
    ensures cut { PutsSeen (B.state backing.old) (B.state backing.new) kept.old }
    ensures goes { Goes 2 (B.state backing.old) (B.state backing.new) }
    ensures grows { GrowsBy (added_or_failed 0 2 result) (B.state backing.old) (B.state backing.new) kept.old kept.new }
    ensures closed { (B.state backing.new).closed ≤ (B.state backing.old).closed }
    ensures cause { HasCause (B.state backing.old) (B.state backing.new) result }
    ensures mode { TellsMode (B.state backing.new) result }
    ensures sure { SureGoes (B.outlook backing.old) (B.outlook backing.new) (B.state backing.old) (B.state backing.new) }
{
    match kept.pages.oldest() {
        Some(ticket) => put_ticket(alloc, backing, kept, &ticket),
        None => Ok(false),
    }
}

/// Puts the dirty pages of an inode, the one that became dirty first in front. Those of other inodes stay dirty. After a
/// fault those that weren't put are dirty and paid as before. The time goes with the number of dirty pages.
pub fn write_back_file<B: Backing>(
    alloc: Global,
    backing: &mut B,
    kept: &mut Kept,
    ino: u32,
) -> Result<(), StoreFault>
    requires kept { IsKept (B.state backing.old).tree kept.old }
    requires paid { length kept.old.pages.dirty ≤ (B.state backing.old).space.credits }
    ensures kept { IsKept (B.state backing.new).tree kept.new }
    ensures paid { length kept.new.pages.dirty ≤ (B.state backing.new).space.credits }
    ensures same { IsAlike (present (B.state backing.old).tree kept.old) (present (B.state backing.new).tree kept.new) }
    ensures issued { (B.state backing.new).space.credits + length kept.old.pages.dirty ≡ (B.state backing.old).space.credits + length kept.new.pages.dirty }
    ensures pages { OnOk result (has_dirty kept.new.pages.dirty ino ≡ false) }
    ensures others { dirty_of_others kept.new.pages.dirty ino ≡ dirty_of_others kept.old.pages.dirty ino }
    ensures inodes { kept.new.inodes ≡ kept.old.inodes }
    ensures handles { kept.new.handles ≡ kept.old.handles }
    ensures cut { PutsSeen (B.state backing.old) (B.state backing.new) kept.old }
    ensures goes { Goes (2 * length (pages_of kept.old.pages.dirty ino)) (B.state backing.old) (B.state backing.new) }
    ensures grows { GrowsBy (added_or_failed 0 2 result) (B.state backing.old) (B.state backing.new) kept.old kept.new }
    ensures closed { (B.state backing.new).closed ≤ (B.state backing.old).closed }
    ensures cause { HasCause (B.state backing.old) (B.state backing.new) result }
    ensures mode { TellsMode (B.state backing.new) result }
    ensures sure { SureGoes (B.outlook backing.old) (B.outlook backing.new) (B.state backing.old) (B.state backing.new) }
{
    let tickets = kept.pages.tickets_of(alloc, ino)?;
    for ticket in tickets {
        put_ticket(alloc, backing, kept, &ticket)?;
    }
    Ok(())
}

/// Puts all dirty pages, the one that became dirty first in front. After a fault those that weren't put are dirty and paid
/// as before.
pub fn write_back<B: Backing>(
    alloc: Global,
    backing: &mut B,
    kept: &mut Kept,
) -> Result<(), StoreFault>
    requires kept { IsKept (B.state backing.old).tree kept.old }
    requires paid { length kept.old.pages.dirty ≤ (B.state backing.old).space.credits }
    ensures kept { IsKept (B.state backing.new).tree kept.new }
    ensures paid { length kept.new.pages.dirty ≤ (B.state backing.new).space.credits }
    ensures same { IsAlike (present (B.state backing.old).tree kept.old) (present (B.state backing.new).tree kept.new) }
    ensures issued { (B.state backing.new).space.credits + length kept.old.pages.dirty ≡ (B.state backing.old).space.credits + length kept.new.pages.dirty }
    ensures pages { OnOk result (kept.new.pages.dirty ≡ []) }
    ensures inodes { OnOk result (kept.new.inodes ≡ []) }
    ensures cut { PutsSeen (B.state backing.old) (B.state backing.new) kept.old }
    ensures goes { Goes (2 * length kept.old.pages.dirty) (B.state backing.old) (B.state backing.new) }
    ensures grows { GrowsBy (added_or_failed 0 2 result) (B.state backing.old) (B.state backing.new) kept.old kept.new }
    ensures closed { (B.state backing.new).closed ≤ (B.state backing.old).closed }
    ensures cause { HasCause (B.state backing.old) (B.state backing.new) result }
    ensures mode { TellsMode (B.state backing.new) result }
    ensures sure { SureGoes (B.outlook backing.old) (B.outlook backing.new) (B.state backing.old) (B.state backing.new) }
{
    let mut left = kept.pages.dirty();
    while left > 0 {
        left -= 1;
        put_oldest(alloc, backing, kept)?;
    }
    kept.inodes.clear();
    Ok(())
}

// Takes the page of a ticket out as it is put, and answers it with the number of its dirty bytes: where it is dirty at the ticket's version. No byte is
// in its place then. After a fault all is as it was.
fn taken_page(
    alloc: Global,
    kept: &mut Kept,
    ticket: &Ticket,
) -> Result<Option<(PageNode, usize)>, Memory>
    requires { is_current kept.old.pages ticket.now ≡ true → is_some (lookup (is_at (nat_cmp ticket.now.ino)) kept.old.inodes) ≡ true }
    ensures some { IfOk result (λ taken. is_some taken ≡ is_current kept.old.pages ticket.now) }
    ensures page { IfOk result (λ taken. IfSome taken (λ page. page_at kept.old ticket.now.ino ticket.now.block ≡ Some page.0)) }
    ensures len { IfOk result (λ taken. IfSome taken (λ page. option_map (λ dirty. dirty.bytes) (dirty_at kept.old.pages ticket.now.ino ticket.now.block) ≡ Some (take page.1 page.0.bytes))) }
    ensures left { OnOk result (kept.new ≡ (if is_current kept.old.pages ticket.now then record kept.old { pages = with_bytes kept.old.pages ticket.now [] } else kept.old)) }
    ensures err { OnErr result (kept.new ≡ kept.old) }
{
    let Some(inode) = kept.inodes.get(ticket.ino) else {
        return Ok(None);
    };
    let inode = inode.clone()?;
    let Some(bytes) = kept
        .pages
        .exchange(ticket, Bytes::from_vec(Vec::new(alloc)))
    else {
        return Ok(None);
    };
    let mut bytes = bytes.into_vec();
    let len = bytes.len();
    match fill(&mut bytes, bytes_before_end(inode.size, ticket.block)) {
        Ok(()) => Ok(Some((
            PageNode {
                ino: ticket.ino,
                block: ticket.block,
                bytes: Bytes::from_vec(bytes),
                inode,
            },
            len,
        ))),
        Err(fault) => {
            give_back(kept, ticket, bytes, len);
            Err(fault)
        }
    }
}

// Gives a ticket's page the first of these bytes, so many.
fn give_back(kept: &mut Kept, ticket: &Ticket, mut bytes: Vec<u8>, len: usize)
    ensures { kept.new ≡ (if is_current kept.old.pages ticket.now then record kept.old { pages = with_bytes kept.old.pages ticket.now (take len bytes.items) } else kept.old) }
{
    bytes.truncate(len);
    kept.pages.exchange(ticket, Bytes::from_vec(bytes));
}

// Fills bytes with zeros up to this length, which ends in a page. Where there is no memory they are as they were.
pub(crate) fn fill(bytes: &mut Vec<u8>, len: usize) -> Result<(), Memory>
    requires { len ≤ 4096 }
    ensures ok { OnOk result (bytes.new.items ≡ filled bytes.old.items len) }
    ensures err { OnErr result (bytes.new.items ≡ bytes.old.items) }
{
    let more = len.saturating_sub(bytes.len());
    if more > 0 {
        push_copies(bytes, 0, more)?;
    }
    Ok(())
}
