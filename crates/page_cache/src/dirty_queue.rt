// Dirty pages, in the order in which they became dirty.

ghost use Rattle.std.specs.Prelude.{◌≡◌, ◌==◌, None, if◌then◌else◌, false, not, filter, [], ◌++◌, ◌∷◌, IfOk, OnOk, OnErr, IsOk, IfSome, is_some, IsSome, IsNone, length, map, slice_get, take};
ghost use Rattle.std.specs.List.{IsDistinct, list_any};
ghost use Rattle.std.specs.Option.{option_map, option_map_or, option_copied};
ghost use Rattle.std.specs.Map.{keys_of, lookup, remove_entry, set_value};
ghost use Rattle.page_cache.specs.Pages.{is_page, is_cut, pages_of, put_last, cut_list, cut_count, ticket_of};

use crate::dirty_page::DirtyPage;
use crate::place::{Place, Placed, is_within};
use crate::places::{
    add_page, exchange_bytes, first, first_of, leave_front, page_placed, set_page, take_page,
    tickets_of, tidy,
};
use crate::ticket::Ticket;
use indexmap::IndexMap;
use std::alloc::{AllocError, Global};
use std::collections::VecDeque;
use std::marker::Model;
use ubifs_base::{Bytes, Memory};

/// Dirty pages, of which contracts see the list from the one that became dirty first on.
#[derive(Drop)]
pub(crate) struct DirtyQueue {
    pages: IndexMap<(u32, u32), Placed>,
    places: VecDeque<Place>,
    next: u64,
}

impl Model for DirtyQueue {
    ghost use Rattle.std.specs.Prelude.{ℕ, List};
    ghost use Rattle.page_cache.specs.declared.dirty_page.DirtyPage.{DirtyPage};
    ghost use Rattle.page_cache.specs.Queue.{pages_by_place, IsQueue};

    ghost Value = { List ((ℕ × ℕ) × DirtyPage) };

    ghost view = { λ q. pages_by_place q.pages.entries q.places.items };

    ghost invariant = { λ q. IsQueue q.pages.entries q.places.items q.next };
}

impl DirtyQueue {
    /// No pages.
    pub(crate) fn new(alloc: Global) -> DirtyQueue
        ensures { result ≡ [] }
    {
        DirtyQueue {
            pages: IndexMap::new(alloc),
            places: VecDeque::new(alloc),
            next: 0,
        }
    }

    /// The page of a name.
    pub(crate) fn get(&self, name: (u32, u32)) -> Option<&DirtyPage>
        ensures { option_copied result ≡ lookup (is_page name) self.now }
    {
        match self.pages.get(&name) {
            Some(placed) => Some(&placed.page),
            None => None,
        }
    }

    /// Whether there is a page of a name.
    pub(crate) fn contains(&self, name: (u32, u32)) -> bool
        ensures { result ≡ is_some (lookup (is_page name) self.now) }
    {
        self.pages.contains_key(&name)
    }

    /// The ticket of the page that became dirty first.
    pub(crate) fn first(&self) -> Option<Ticket>
        ensures { result ≡ option_map ticket_of (slice_get self.now 0) }
    {
        first(&self.pages, &self.places)
    }

    /// The ticket of the page of an inode that became dirty first. The time goes with the number of pages.
    pub(crate) fn first_of(&self, ino: u32) -> Option<Ticket>
        ensures { result ≡ option_map ticket_of (slice_get (pages_of self.now ino) 0) }
    {
        first_of(&self.pages, &self.places, ino)
    }

    /// The tickets of an inode's pages, in their order. The time goes with the number of pages.
    pub(crate) fn tickets_of(&self, alloc: Global, ino: u32) -> Result<Vec<Ticket>, AllocError>
        ensures { IfOk result (λ tickets. tickets.items ≡ map ticket_of (pages_of self.now ino)) }
    {
        tickets_of(alloc, &self.pages, &self.places, ino)
    }

    /// The number of pages.
    pub(crate) fn len(&self) -> usize
        ensures len { result ≡ length self.now }
        ensures once { IsDistinct is_page (keys_of self.now) }
    {
        self.pages.len()
    }

    /// Puts a page: one that is there is set at its place, another goes to the end. Answers whether it is a new one; where
    /// there is no memory all is as it was.
    pub(crate) fn put_last(&mut self, name: (u32, u32), page: DirtyPage) -> Result<bool, Memory>
        ensures new { IfOk result (λ new. new ≡ not (is_some (lookup (is_page name) self.old))) }
        ensures ok { OnOk result (self.new ≡ put_last self.old name page) }
        ensures err { OnErr result (self.new ≡ self.old) }
        ensures succeeds { IsSome (lookup (is_page name) self.old) → IsOk result }
    {
        match self.set(name, page) {
            None => Ok(false),
            Some(page) => {
                self.add_last(name, page)?;
                Ok(true)
            }
        }
    }

    // Sets the page of a name, at its place. Where there is none the new one is given back.
    fn set(&mut self, name: (u32, u32), page: DirtyPage) -> Option<DirtyPage>
        ensures set { self.new ≡ set_value (is_page name) self.old page }
        ensures found { is_some result ≡ not (is_some (lookup (is_page name) self.old)) }
        ensures back { IfSome result (λ back. (back ≡ page) × (self.new ≡ self.old)) }
    {
        set_page(&mut self.pages, name, page)
    }

    // Adds a page of a new name at the end. Where there is no memory all is as it was.
    fn add_last(&mut self, name: (u32, u32), page: DirtyPage) -> Result<(), Memory>
        requires { IsNone (lookup (is_page name) self.old) }
        ensures ok { OnOk result (self.new ≡ self.old ++ (name, page) ∷ []) }
        ensures err { OnErr result (self.new ≡ self.old) }
    {
        let Some(next) = self.next.checked_add(1) else {
            return Err(Memory);
        };
        let place = Place {
            name,
            number: self.next,
        };
        add_page(&mut self.pages, &mut self.places, place, page)?;
        self.next = next;
        Ok(())
    }

    /// Takes the page of a name out if it has this version, and answers whether it had. Takes no memory.
    pub(crate) fn remove(&mut self, name: (u32, u32), version: u64) -> bool
        ensures current { result ≡ option_map_or (λ page. page.version == version) (lookup (is_page name) self.old) false }
        ensures rest { self.new ≡ (if result then remove_entry (is_page name) self.old else self.old) }
    {
        let current = take_page(&mut self.pages, name, version);
        if current {
            leave_front(&mut self.places, name);
            tidy(&self.pages, &mut self.places);
        }
        current
    }

    /// Gives the page of a name these bytes if it has this version, and answers those that it had. It keeps its place and its
    /// version. Takes no memory.
    pub(crate) fn exchange(&mut self, name: (u32, u32), version: u64, bytes: Bytes) -> Option<Bytes>
        ensures bytes { result ≡ (if option_map_or (λ page. page.version == version) (lookup (is_page name) self.old) false then option_map (λ page. page.bytes) (lookup (is_page name) self.old) else None) }
        ensures pages { self.new ≡ (if option_map_or (λ page. page.version == version) (lookup (is_page name) self.old) false then set_value (is_page name) self.old (record { bytes = bytes; version = version }) else self.old) }
    {
        exchange_bytes(&mut self.pages, name, version, bytes)
    }

    /// Takes out the pages behind so many from the front on. Takes no memory.
    pub(crate) fn keep_first(&mut self, len: usize)
        ensures { self.new ≡ take len self.old }
    {
        while self.pages.len() > len {
            let Some(place) = self.places.pop_back() else {
                return;
            };
            if page_placed(&self.pages, &place).is_some() {
                self.pages.swap_remove(&place.name);
            }
        }
        tidy(&self.pages, &mut self.places);
    }

    /// Takes out the pages of an inode from a block on, and answers how many there were. The others keep their order. Takes
    /// no memory.
    pub(crate) fn cut(&mut self, ino: u32, from: u32) -> u64
        ensures rest { self.new ≡ cut_list self.old ino from }
        ensures count { result ≡ cut_count self.old ino from }
    {
        if !is_any_within(&self.places, ino, from) {
            return 0;
        }
        let before = self.pages.len();
        cut_pages(&mut self.pages, ino, from);
        cut_places(&mut self.places, ino, from);
        tidy(&self.pages, &mut self.places);
        (before - self.pages.len()) as u64
    }
}

// Whether a place is that of a page of an inode, from a block on.
fn is_any_within(places: &VecDeque<Place>, ino: u32, from: u32) -> bool
    ensures { result ≡ list_any (λ place. is_cut ino from place.name) places.now.items }
{
    for place in places.iter() {
        if is_within(place.name, ino, from) {
            return true;
        }
    }
    false
}

// Takes out the pages of an inode from a block on.
fn cut_pages(pages: &mut IndexMap<(u32, u32), Placed>, ino: u32, from: u32)
    ensures { pages.new.entries ≡ cut_list pages.old.entries ino from }
{
    pages.retain(
        |name: &(u32, u32), placed: &mut Placed| -> bool
            ensures { (result ≡ not (is_cut ino from name.now)) × (placed.new ≡ placed.old) }
        { !is_within(*name, ino, from) },
    );
}

// Takes out the places of such pages.
fn cut_places(places: &mut VecDeque<Place>, ino: u32, from: u32)
    ensures { places.new.items ≡ filter (λ place. not (is_cut ino from place.name)) places.old.items }
{
    places.retain(|place: &Place| !is_within(place.name, ino, from));
}
