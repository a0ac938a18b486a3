// Dirty pages are picked and put.

ghost use Rattle.std.specs.Prelude.{◌≡◌, ◌≢◌, ◌==◌, ◌+◌, ◌≤◌, true, false, length, IfOk, Some};
ghost use Rattle.std.specs.List.{AllByRecursion};
ghost use Rattle.fs_model.specs.declared.backing_answers.Mode.TheVariants.{ReadWrite};
ghost use Rattle.fs_model.specs.Backing.{Goes, next_orphans};
ghost use Rattle.page_cache.specs.Pages.{oldest_of};
ghost use Rattle.buffered_files.specs.Alike.{IsAlike};
ghost use Rattle.buffered_files.specs.Calls.{GrowsBy, SureGoes};
ghost use Rattle.buffered_files.specs.Cuts.{PutsSeen};
ghost use Rattle.buffered_files.specs.Present.{FitsPages, present};
ghost use Rattle.vfs_ops.specs.Background.{IsPicked, IsPut, added_in, encoded_at, version_at};
ghost use Rattle.vfs_ops.specs.declared.event.Event.TheVariants.{Put};
ghost use Rattle.vfs_ops.specs.Steps.{IsReady};

use crate::event::{Encoded, Outcome};
use buffered_files::{Kept, Ticket, has_bytes, page_bytes, present_files_are_sound, put_ticket};
use fs_model::{Backing, Mode, StoreFault};
use std::alloc::Global;
use ubifs_base::Memory;

/// The page that became dirty first, as it is put now.
pub(crate) fn picked(alloc: Global, kept: &Kept) -> Outcome
    requires { AllByRecursion (FitsPages kept.now.inodes) kept.now.pages.dirty }
    ensures { IsPicked kept.now result }
{
    match kept.pages.oldest() {
        None => Outcome::NoPage,
        Some(ticket) => match encoded(alloc, kept, &ticket) {
            Ok(page) => Outcome::Page { page },
            Err(_) => Outcome::Fault {
                fault: StoreFault::Memory,
            },
        },
    }
}

// The page of a ticket, which became dirty first.
fn encoded(alloc: Global, kept: &Kept, ticket: &Ticket) -> Result<Encoded, Memory>
    requires pages { AllByRecursion (FitsPages kept.now.inodes) kept.now.pages.dirty }
    requires oldest { oldest_of kept.now.pages ≡ Some ticket.now }
    ensures page { IfOk result (λ page. encoded_at kept.now page.ino page.block ≡ Some page) }
    ensures ticket { IfOk result (λ page. ticket.now ≡ record { ino = page.ino; block = page.block; version = page.version }) }
{
    let found = page_bytes(alloc, kept, ticket.ino, ticket.block)?;
    let bytes = found.unwrap();
    Ok(Encoded {
        ino: ticket.ino,
        block: ticket.block,
        version: ticket.version,
        bytes,
    })
}

/// Puts a page that is still as it was picked, with its file's inode as that is now. Callers see the same files in any case.
pub(crate) fn put<B: Backing>(
    alloc: Global,
    backing: &mut B,
    kept: &mut Kept,
    page: &Encoded,
) -> Outcome
    requires ready { IsReady (B.state backing.old) kept.old }
    ensures ready { IsReady (B.state backing.new) kept.new }
    ensures put { IsPut (record { old = B.state backing.old; new = B.state backing.new; before = kept.old; after = kept.new }) page.now result }
    ensures same { IsAlike (present (B.state backing.old).tree kept.old) (present (B.state backing.new).tree kept.new) }
    ensures issued { (B.state backing.new).space.credits + length kept.old.pages.dirty ≡ (B.state backing.old).space.credits + length kept.new.pages.dirty }
    ensures weighed { GrowsBy (added_in (Put page.now) result) (B.state backing.old) (B.state backing.new) kept.old kept.new }
    ensures orphans { next_orphans (B.state backing.new) ≤ next_orphans (B.state backing.old) }
    ensures cut { PutsSeen (B.state backing.old) (B.state backing.new) kept.old }
    ensures goes { Goes 2 (B.state backing.old) (B.state backing.new) }
    ensures sure { SureGoes (B.outlook backing.old) (B.outlook backing.new) (B.state backing.old) (B.state backing.new) }
{
    let now = version_at(kept, page.ino, page.block);
    if !is_as_picked(kept, page, now) {
        return Outcome::Stale {
            kept: page.version,
            now,
        };
    }
    put_current(alloc, backing, kept, page)
}

// Puts a page that is still as it was picked. A store that is read-only isn't asked.
fn put_current<B: Backing>(
    alloc: Global,
    backing: &mut B,
    kept: &mut Kept,
    page: &Encoded,
) -> Outcome
    requires ready { IsReady (B.state backing.old) kept.old }
    requires current { encoded_at kept.old page.now.ino page.now.block ≡ Some page.now }
    ensures ready { IsReady (B.state backing.new) kept.new }
    ensures put { IsPut (record { old = B.state backing.old; new = B.state backing.new; before = kept.old; after = kept.new }) page.now result }
    ensures same { IsAlike (present (B.state backing.old).tree kept.old) (present (B.state backing.new).tree kept.new) }
    ensures issued { (B.state backing.new).space.credits + length kept.old.pages.dirty ≡ (B.state backing.old).space.credits + length kept.new.pages.dirty }
    ensures weighed { GrowsBy (added_in (Put page.now) result) (B.state backing.old) (B.state backing.new) kept.old kept.new }
    ensures orphans { next_orphans (B.state backing.new) ≤ next_orphans (B.state backing.old) }
    ensures cut { PutsSeen (B.state backing.old) (B.state backing.new) kept.old }
    ensures goes { Goes 2 (B.state backing.old) (B.state backing.new) }
    ensures sure { SureGoes (B.outlook backing.old) (B.outlook backing.new) (B.state backing.old) (B.state backing.new) }
{
    match backing.mode() {
        Mode::ReadWrite => put_open(alloc, backing, kept, page),
        Mode::ReadOnly { cause } => Outcome::Fault {
            fault: StoreFault::ReadOnly { cause },
        },
    }
}

// The same on a store that can be written.
fn put_open<B: Backing>(alloc: Global, backing: &mut B, kept: &mut Kept, page: &Encoded) -> Outcome
    requires ready { IsReady (B.state backing.old) kept.old }
    requires current { encoded_at kept.old page.now.ino page.now.block ≡ Some page.now }
    requires open { (B.state backing.old).mode ≡ ReadWrite }
    ensures ready { IsReady (B.state backing.new) kept.new }
    ensures put { IsPut (record { old = B.state backing.old; new = B.state backing.new; before = kept.old; after = kept.new }) page.now result }
    ensures same { IsAlike (present (B.state backing.old).tree kept.old) (present (B.state backing.new).tree kept.new) }
    ensures issued { (B.state backing.new).space.credits + length kept.old.pages.dirty ≡ (B.state backing.old).space.credits + length kept.new.pages.dirty }
    ensures weighed { GrowsBy (added_in (Put page.now) result) (B.state backing.old) (B.state backing.new) kept.old kept.new }
    ensures orphans { next_orphans (B.state backing.new) ≤ next_orphans (B.state backing.old) }
    ensures cut { PutsSeen (B.state backing.old) (B.state backing.new) kept.old }
    ensures goes { Goes 2 (B.state backing.old) (B.state backing.new) }
    ensures sure { SureGoes (B.outlook backing.old) (B.outlook backing.new) (B.state backing.old) (B.state backing.new) }
{
    let ticket = Ticket {
        ino: page.ino,
        block: page.block,
        version: page.version,
    };
    present_files_are_sound();
    match put_ticket(alloc, backing, kept, &ticket) {
        Ok(_) => Outcome::PutDone,
        Err(fault) => Outcome::Fault { fault },
    }
}

// Whether a page is still as it was picked, of which this is the present version.
fn is_as_picked(kept: &Kept, page: &Encoded, now: u64) -> bool
    requires { now ≡ version_at kept.now page.now.ino page.now.block }
    ensures yes { result ≡ true → encoded_at kept.now page.now.ino page.now.block ≡ Some page.now }
    ensures no { result ≡ false → encoded_at kept.now page.now.ino page.now.block ≢ Some page.now }
{
    if !is_version(page, now) {
        return false;
    }
    has_bytes(kept, page.ino, page.block, &page.bytes)
}

// Whether a page had this version when it was picked.
fn is_version(page: &Encoded, now: u64) -> bool
    ensures { result ≡ (now == page.now.version) }
{
    now == page.version
}

// The version of a block's dirty page, 0 where it isn't dirty.
fn version_at(kept: &Kept, ino: u32, block: u32) -> u64
    ensures { result ≡ version_at kept.now ino block }
{
    match kept.pages.dirty_page(ino, block) {
        Some(page) => page.version,
        None => 0,
    }
}
