// The pages that are kept in memory.

ghost use Rattle.std.specs.Prelude.{◌≡◌, ◌<◌, None, ℕ, List, ◌++◌, not, [], IfOk, OnOk, OnErr, IsOk, is_some, IsSome, IsNone, length, slice_get, take, if◌then◌else◌};
ghost use Rattle.std.specs.List.{AllByRecursion};
ghost use Rattle.std.specs.Option.{option_copied, option_map};
ghost use Rattle.page_cache.specs.Pages.{IsCache, dirty_at, bytes_at, with_dirty, with_all_dirty, new_pages, old_pages, with_clean, with_used, with_bytes, IsTakenBack, oldest_of, next_of, ticket_of, tickets_of, is_current, without_dirty, without_cut, cut_count};

use crate::dirty_page::DirtyPage;
use crate::dirty_queue::DirtyQueue;
use crate::page_list::PageList;
use crate::ticket::Ticket;
use std::alloc::{AllocError, Global};
use std::marker::Model;
use std::num::NonZeroUsize;
use ubifs_base::{Bytes, Memory};

/// Pages of files: dirty ones, which the medium doesn't have yet, and clean ones. Contracts see them as the record `Pages`
/// of `specs/Pages.antt`.
#[derive(Drop)]
pub struct Cache {
    dirty: DirtyQueue,
    clean: PageList<Bytes>,
    calls: u64,
}

impl Model for Cache {
    ghost use Rattle.page_cache.specs.Pages.{Pages, IsKept};

    ghost Value = { Pages };

    ghost view = { λ c. record { dirty = c.dirty; clean = c.clean.entries; most = c.clean.cap; calls = c.calls } };

    ghost invariant = { λ c. IsKept c.dirty c.clean c.calls };
}

impl Cache {
    ghost use Rattle.std.specs.Prelude.{⊤};
    ghost use Rattle.std.specs.Borrow.{sem, follows_so};
    ghost use mathlib.Core.Option.{none};
    ghost use Rattle.page_cache.specs.contracts.cache.Cache.{the_row};

    /// No pages, of which at most `clean` clean ones are kept.
    pub fn new(alloc: Global, clean: u32) -> Result<Cache, Memory>
        requires { 0 < clean }
        ensures { IfOk result (λ cache. cache ≡ record { dirty = []; clean = []; most = clean; calls = 0 }) }
    {
        match NonZeroUsize::new(clean as usize) {
            Some(most) => Ok(Cache {
                dirty: DirtyQueue::new(alloc),
                clean: PageList::new(alloc, most)?,
                calls: 0,
            }),
            None => Err(Memory),
        }
    }

    /// Puts a page as dirty, under the next version, and answers whether it became dirty now. A page that is dirty already
    /// keeps its place in the order, and takes no memory; one that becomes dirty goes last. Where there is no memory all is
    /// as it was.
    pub fn put_dirty(&mut self, ino: u32, block: u32, page: Bytes) -> Result<bool, Memory>
        ensures new { IfOk result (λ new. new ≡ not (is_some (dirty_at self.old ino block))) }
        ensures ok { OnOk result (self.new ≡ with_dirty self.old ino block page) }
        ensures err { OnErr result (self.new ≡ self.old) }
        ensures succeeds { IsSome (dirty_at self.old ino block) → IsOk result }
    {
        let version = self.calls.saturating_add(1);
        let page = DirtyPage {
            bytes: page,
            version,
        };
        match self.dirty.put_last((ino, block), page) {
            Ok(true) => {
                self.clean.remove((ino, block));
                self.calls = version;
                Ok(true)
            }
            Ok(false) => {
                self.calls = version;
                Ok(false)
            }
            Err(fault) => Err(fault),
        }
    }

    /// Puts pages of an inode as dirty, by their blocks' numbers, all or none: first those that become dirty, and then the
    /// others, each as `put_dirty` does. Where there is no memory the dirty pages are as they were, but clean ones may be gone.
    pub fn put_all(
        &mut self,
        alloc: Global,
        ino: u32,
        pages: Vec<(u32, Bytes)>,
    ) -> Result<(), Memory>
        ensures ok { OnOk result (self.new ≡ with_all_dirty (with_all_dirty self.old ino (new_pages self.old ino pages.items)) ino (old_pages self.old ino pages.items)) }
        ensures err { OnErr result (IsTakenBack self.old self.new ino pages.items) }
    {
        if pages.len() == 1 {
            return self.put_only(ino, pages);
        }
        let (new, old) = self.parted(alloc, ino, pages)?;
        self.put_new(ino, new)?;
        self.put_old(ino, old);
        Ok(())
    }

    // The same as `put_all`, of one page.
    #[tactic(auto, using(crate::proofs::OnePage::put_one, crate::proofs::OnePage::taken_back))]
    fn put_only(&mut self, ino: u32, mut pages: Vec<(u32, Bytes)>) -> Result<(), Memory>
        requires { length pages.items ≡ 1 }
        ensures ok { OnOk result (self.new ≡ with_all_dirty (with_all_dirty self.old ino (new_pages self.old ino pages.items)) ino (old_pages self.old ino pages.items)) }
        ensures err { OnErr result (IsTakenBack self.old self.new ino pages.items) }
    {
        match pages.pop() {
            Some((block, bytes)) => {
                self.put_dirty(ino, block, bytes)?;
                Ok(())
            }
            None => Ok(()),
        }
    }

    // The pages that become dirty, and the others.
    fn parted(
        &self,
        alloc: Global,
        ino: u32,
        pages: Vec<(u32, Bytes)>,
    ) -> Result<(Vec<(u32, Bytes)>, Vec<(u32, Bytes)>), AllocError>
        ensures new { IfOk result (λ parts. parts.0.items ≡ new_pages self.now ino pages.items) }
        ensures old { IfOk result (λ parts. parts.1.items ≡ old_pages self.now ino pages.items) }
    {
        let mut new = Vec::new(alloc);
        let mut old = Vec::new(alloc);
        for (block, bytes) in pages {
            let dirty = self.dirty.contains((ino, block));
            if dirty {
                old.push((block, bytes))?;
            } else {
                new.push((block, bytes))?;
            }
        }
        Ok((new, old))
    }

    // Puts pages that become dirty, all or none.
    fn put_new(&mut self, ino: u32, pages: Vec<(u32, Bytes)>) -> Result<(), Memory>
        requires { AllByRecursion (λ page. IsNone (dirty_at self.old ino page.0)) pages.items }
        ensures ok { OnOk result (self.new ≡ with_all_dirty self.old ino pages.items) }
        ensures err { OnErr result ((first rest : List (ℕ × List ℕ)) × (first ++ rest ≡ pages.items) × (self.new ≡ record (with_all_dirty self.old ino first) { dirty = self.old.dirty })) }
    {
        let len = self.dirty.len();
        for (block, bytes) in pages {
            match self.put_dirty(ino, block, bytes) {
                Ok(_) => {}
                Err(fault) => {
                    self.keep_first(len);
                    return Err(fault);
                }
            }
        }
        Ok(())
    }

    // Puts pages that are dirty already. Takes no memory.
    fn put_old(&mut self, ino: u32, pages: Vec<(u32, Bytes)>)
        requires { AllByRecursion (λ page. IsSome (dirty_at self.old ino page.0)) pages.items }
        ensures { self.new ≡ with_all_dirty self.old ino pages.items }
    {
        for (block, bytes) in pages {
            let _ = self.put_dirty(ino, block, bytes);
        }
    }

    // Takes out the dirty pages behind so many.
    fn keep_first(&mut self, len: usize)
        ensures { self.new ≡ record self.old { dirty = take len self.old.dirty } }
    {
        self.dirty.keep_first(len);
    }

    /// Puts a page as clean. Where it is dirty nothing changes. Else it was used last, and where as many clean pages are
    /// there as are kept, the one that wasn't used for the longest time goes. Where there is no memory all is as it was.
    pub fn put_clean(&mut self, ino: u32, block: u32, page: Bytes) -> Result<(), Memory>
        ensures ok { OnOk result (self.new ≡ with_clean self.old ino block page) }
        ensures err { OnErr result (self.new ≡ self.old) }
    {
        if self.dirty.contains((ino, block)) {
            return Ok(());
        }
        self.clean.put_first((ino, block), page)
    }

    /// The bytes of a page: of the dirty one where there is one, else of the clean one, which was then used last. Takes no
    /// memory.
    pub fn get(&mut self, ino: u32, block: u32) -> Option<&Bytes>
        ensures* used { sem 𝓛 (follows_so the_row the_row self.entry.ghost_name none (λ _ _. ⊤) (λ pages. pages ≡ with_used self.old ino block)) }
        ensures bytes { option_copied result ≡ bytes_at self.old ino block }
    {
        let clean = self.use_page(ino, block);
        self.used_bytes(ino, block, clean)
    }

    // A clean page was used last. Answers whether there is one, which is the first then.
    #[tactic(auto, using(crate::proofs::Lists::found_promoted, crate::proofs::Reading::read_dirty, crate::proofs::Reading::read_clean))]
    fn use_page(&mut self, ino: u32, block: u32) -> bool
        ensures used { self.new ≡ with_used self.old ino block }
        ensures bytes { bytes_at self.new ino block ≡ bytes_at self.old ino block }
        ensures place { bytes_at self.new ino block ≡ (if result then option_map (λ e. e.1) (slice_get self.new.clean 0) else option_map (λ page. page.bytes) (dirty_at self.new ino block)) }
    {
        if !self.dirty.contains((ino, block)) {
            return self.clean.promote((ino, block));
        }
        false
    }

    // The bytes of a page, which is the first of the clean ones or a dirty one.
    fn used_bytes(&self, ino: u32, block: u32, clean: bool) -> Option<&Bytes>
        requires { bytes_at self.now ino block ≡ (if clean then option_map (λ e. e.1) (slice_get self.now.clean 0) else option_map (λ page. page.bytes) (dirty_at self.now ino block)) }
        ensures { option_copied result ≡ bytes_at self.now ino block }
    {
        if clean {
            return match self.clean.first() {
                Some((_, bytes)) => Some(bytes),
                None => None,
            };
        }
        match self.dirty.get((ino, block)) {
            Some(page) => Some(&page.bytes),
            None => None,
        }
    }

    /// The bytes of a page: of the dirty one where there is one, else of the clean one. It doesn't count as a use. Takes no
    /// memory.
    pub fn peek(&self, ino: u32, block: u32) -> Option<&Bytes>
        ensures { option_copied result ≡ bytes_at self.now ino block }
    {
        match self.dirty.get((ino, block)) {
            Some(page) => Some(&page.bytes),
            None => self.clean.get((ino, block)),
        }
    }

    /// The dirty page of an inode's block, with its version. It doesn't count as a use. Takes no memory.
    pub fn dirty_page(&self, ino: u32, block: u32) -> Option<&DirtyPage>
        ensures { option_copied result ≡ dirty_at self.now ino block }
    {
        self.dirty.get((ino, block))
    }

    /// The number of dirty pages. A caller learns from it what holds of the pages of every cache.
    pub fn dirty(&self) -> u64
        ensures count { result ≡ length self.now.dirty }
        ensures cache { IsCache self.now }
    {
        // Its proof knows from this that no two clean pages have one name.
        let _clean = self.clean.len();
        self.dirty.len() as u64
    }

    /// The page that became dirty first, with its present version. Takes no memory.
    pub fn oldest(&self) -> Option<Ticket>
        ensures { result ≡ oldest_of self.now }
    {
        self.dirty.first()
    }

    /// The page of an inode that became dirty first, with its present version, and `None` exactly where the inode has no
    /// dirty page. The time goes with the number of dirty pages. Takes no memory.
    pub fn next_of(&self, ino: u32) -> Option<Ticket>
        ensures { result ≡ next_of self.now ino }
    {
        self.dirty.first_of(ino)
    }

    /// The tickets of an inode's dirty pages, in the order in which they became dirty. The time goes with the number of dirty
    /// pages.
    pub fn tickets_of(&self, alloc: Global, ino: u32) -> Result<Vec<Ticket>, AllocError>
        ensures { IfOk result (λ tickets. tickets.items ≡ tickets_of self.now ino) }
    {
        self.dirty.tickets_of(alloc, ino)
    }

    /// Takes a page from the dirty ones if it has the ticket's version still, and answers whether it had. It isn't kept as a
    /// clean page, which would take memory; the order of the others stays. Takes no memory.
    pub fn mark_clean(&mut self, ticket: &Ticket) -> bool
        ensures current { result ≡ is_current self.old ticket.now }
        ensures pages { self.new ≡ (if result then without_dirty self.old ticket.now.ino ticket.now.block else self.old) }
    {
        self.dirty
            .remove((ticket.ino, ticket.block), ticket.version)
    }

    /// Gives a ticket's page these bytes if it has the ticket's version still, and answers the bytes that it had. It stays
    /// dirty, at its place and with its version. Takes no memory.
    pub fn exchange(&mut self, ticket: &Ticket, bytes: Bytes) -> Option<Bytes>
        ensures bytes { result ≡ (if is_current self.old ticket.now then option_map (λ page. page.bytes) (dirty_at self.old ticket.now.ino ticket.now.block) else None) }
        ensures pages { self.new ≡ (if is_current self.old ticket.now then with_bytes self.old ticket.now bytes else self.old) }
    {
        self.dirty
            .exchange((ticket.ino, ticket.block), ticket.version, bytes)
    }

    /// Whether a ticket's page is dirty and has the ticket's version. Takes no memory.
    pub fn is_current(&self, ticket: &Ticket) -> bool
        ensures { result ≡ is_current self.now ticket.now }
    {
        match self.dirty.get((ticket.ino, ticket.block)) {
            Some(page) => page.version == ticket.version,
            None => false,
        }
    }

    /// Takes out the pages of an inode from a block on, and answers how many of them were dirty. The order of the others
    /// stays. The time goes with the number of pages. Takes no memory.
    pub fn cut(&mut self, ino: u32, from: u32) -> u64
        ensures pages { self.new ≡ without_cut self.old ino from }
        ensures dirty { result ≡ cut_count self.old.dirty ino from }
    {
        self.clean.cut(ino, from);
        self.dirty.cut(ino, from)
    }
}
