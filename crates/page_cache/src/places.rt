// Dirty pages by name, and their places in the order in which they became dirty.

ghost use Rattle.std.specs.Prelude.{◌≡◌, ◌<◌, ◌==◌, None, IsNone, if◌then◌else◌, ℕ, false, not, List, length, IsTrue, ◌++◌, [], ◌∷◌, Some, IfOk, OnOk, OnErr, IfSome, is_some, map, slice_get, filter};
ghost use Rattle.std.specs.Option.{option_map, option_map_or, option_copied};
ghost use Rattle.std.specs.Map.{lookup};
ghost use Rattle.page_cache.specs.declared.place.Placed.{Placed};
ghost use Rattle.page_cache.specs.declared.place.Place.{Place};
ghost use Rattle.page_cache.specs.Queue.{page_placed, pages_by_place, ArePlacesBelow, IsChangedAt, IsOrdered, IsQueue};
ghost use Rattle.page_cache.specs.Pages.{is_page, is_cut, pages_of, ticket_of};

use crate::dirty_page::DirtyPage;
use crate::place::{Place, Placed};
use crate::ticket::{Ticket, ticket_of};
use indexmap::IndexMap;
use std::alloc::{AllocError, Global};
use std::collections::VecDeque;
use std::mem::replace;
use ubifs_base::{Bytes, Memory};

/// The page of a place, unless it left the place.
pub(crate) fn page_placed<'a>(
    pages: &'a IndexMap<(u32, u32), Placed>,
    place: &Place,
) -> Option<&'a DirtyPage>
    ensures page { option_copied result ≡ page_placed pages.now.entries place.now }
    ensures there { is_some result ≡ is_some (page_placed pages.now.entries place.now) }
{
    match pages.get(&place.name) {
        Some(placed) => {
            if placed.place == place.number {
                Some(&placed.page)
            } else {
                None
            }
        }
        None => None,
    }
}

/// The ticket of the first page in the order.
pub(crate) fn first(
    pages: &IndexMap<(u32, u32), Placed>,
    places: &VecDeque<Place>,
) -> Option<Ticket>
    ensures { result ≡ option_map ticket_of (slice_get (pages_by_place pages.now.entries places.now.items) 0) }
{
    for place in places.iter() {
        if let Some(page) = page_placed(pages, place) {
            return Some(ticket_of(place.name, page));
        }
    }
    None
}

/// The ticket of an inode's first page in the order. The time goes with the number of places.
pub(crate) fn first_of(
    pages: &IndexMap<(u32, u32), Placed>,
    places: &VecDeque<Place>,
    ino: u32,
) -> Option<Ticket>
    ensures { result ≡ option_map ticket_of (slice_get (pages_of (pages_by_place pages.now.entries places.now.items) ino) 0) }
{
    for place in places.iter() {
        if place.name.0 == ino {
            if let Some(page) = page_placed(pages, place) {
                return Some(ticket_of(place.name, page));
            }
        }
    }
    None
}

/// The tickets of an inode's pages, in their order. The time goes with the number of places.
pub(crate) fn tickets_of(
    alloc: Global,
    pages: &IndexMap<(u32, u32), Placed>,
    places: &VecDeque<Place>,
    ino: u32,
) -> Result<Vec<Ticket>, AllocError>
    ensures { IfOk result (λ tickets. tickets.items ≡ map ticket_of (pages_of (pages_by_place pages.now.entries places.now.items) ino)) }
{
    let mut tickets = Vec::new(alloc);
    for place in places.iter() {
        if place.name.0 == ino {
            if let Some(page) = page_placed(pages, place) {
                tickets.push(ticket_of(place.name, page))?;
            }
        }
    }
    Ok(tickets)
}

/// Sets the page of a name, at its place. Where there is none the new one is given back.
pub(crate) fn set_page(
    pages: &mut IndexMap<(u32, u32), Placed>,
    name: (u32, u32),
    page: DirtyPage,
) -> Option<DirtyPage>
    ensures set { (placed : Placed) → lookup (is_page name) pages.old.entries ≡ Some placed → IsChangedAt name (Some (record { page = page; place = placed.place })) pages.old.entries pages.new.entries }
    ensures found { is_some result ≡ not (is_some (lookup (is_page name) pages.old.entries)) }
    ensures back { IfSome result (λ back. (back ≡ page) × (pages.new.entries ≡ pages.old.entries)) }
{
    match pages.get_mut(&name) {
        Some(placed) => {
            placed.page = page;
            None
        }
        None => Some(page),
    }
}

/// Gives the page of a name these bytes if it has this version, and answers those that it had.
pub(crate) fn exchange_bytes(
    pages: &mut IndexMap<(u32, u32), Placed>,
    name: (u32, u32),
    version: u64,
    bytes: Bytes,
) -> Option<Bytes>
    ensures bytes { result ≡ (if option_map_or (λ placed. placed.page.version == version) (lookup (is_page name) pages.old.entries) false then option_map (λ placed. placed.page.bytes) (lookup (is_page name) pages.old.entries) else None) }
    ensures set { (placed : Placed) → lookup (is_page name) pages.old.entries ≡ Some placed → placed.page.version ≡ version → IsChangedAt name (Some (record { page = record { bytes = bytes; version = version }; place = placed.place })) pages.old.entries pages.new.entries }
    ensures kept { (placed : Placed) → lookup (is_page name) pages.old.entries ≡ Some placed → (placed.page.version == version) ≡ false → IsChangedAt name (Some placed) pages.old.entries pages.new.entries }
    ensures none { IsNone (lookup (is_page name) pages.old.entries) → pages.new.entries ≡ pages.old.entries }
{
    match pages.get_mut(&name) {
        Some(placed) => {
            if placed.page.version == version {
                Some(replace(&mut placed.page.bytes, bytes))
            } else {
                None
            }
        }
        None => None,
    }
}

/// Adds a page of a new name at a new place, behind all others. Where there is no memory all is as it was.
pub(crate) fn add_page(
    pages: &mut IndexMap<(u32, u32), Placed>,
    places: &mut VecDeque<Place>,
    place: Place,
    page: DirtyPage,
) -> Result<(), Memory>
    ensures pages { OnOk result (IsChangedAt place.name (Some (record { page = page; place = place.number })) pages.old.entries pages.new.entries) }
    ensures places { OnOk result (places.new.items ≡ places.old.items ++ place ∷ []) }
    ensures err { OnErr result ((pages.new.entries ≡ pages.old.entries) × (places.new.items ≡ places.old.items)) }
{
    places.reserve(1)?;
    let placed = Placed {
        page,
        place: place.number,
    };
    if pages.insert(place.name, placed).is_err() {
        return Err(Memory);
    }
    places.push_back_reserved(place);
    Ok(())
}

/// Takes the page of a name out if it has this version, and answers whether it had.
pub(crate) fn take_page(
    pages: &mut IndexMap<(u32, u32), Placed>,
    name: (u32, u32),
    version: u64,
) -> bool
    ensures current { result ≡ option_map_or (λ placed. placed.page.version == version) (lookup (is_page name) pages.old.entries) false }
    ensures gone { IsTrue result → IsChangedAt name None pages.old.entries pages.new.entries }
    ensures same { result ≡ false → pages.new.entries ≡ pages.old.entries }
{
    match pages.get_full(&name) {
        Some((index, _, placed)) => {
            let current = placed.page.version == version;
            if current {
                pages.swap_remove_index(index);
            }
            current
        }
        None => false,
    }
}

/// Takes the place at the front away if it is of this name, of which there is no page.
pub(crate) fn leave_front(places: &mut VecDeque<Place>, name: (u32, u32))
    ensures order { (pages : List ((ℕ × ℕ) × Placed)) → IsNone (lookup (is_page name) pages) → pages_by_place pages places.new.items ≡ pages_by_place pages places.old.items }
    ensures below { (next : ℕ) → ArePlacesBelow next places.old.items → ArePlacesBelow next places.new.items }
{
    if is_front_of(places, name) {
        places.pop_front();
    }
}

// Whether the place at the front is of this name.
fn is_front_of(places: &VecDeque<Place>, name: (u32, u32)) -> bool
    ensures some { IsTrue result → 0 < length places.now.items }
    ensures named { IsTrue result → (first : Place) (rest : List Place) → places.now.items ≡ first ∷ rest → first.name ≡ name }
{
    match places.front() {
        Some(place) => place.name == name,
        None => false,
    }
}

/// Takes the places that were left away from the front, and all such places once they are more than the others.
pub(crate) fn tidy(pages: &IndexMap<(u32, u32), Placed>, places: &mut VecDeque<Place>)
    ensures order { pages_by_place pages.now.entries places.new.items ≡ pages_by_place pages.now.entries places.old.items }
    ensures queue { (next : ℕ) → IsOrdered pages.now.entries places.old.items next → IsQueue pages.now.entries places.new.items next }
{
    trim(pages, places);
    if places.len() / 2 > pages.len() {
        sweep(pages, places);
    }
}

// Takes the places that were left away from the front.
fn trim(pages: &IndexMap<(u32, u32), Placed>, places: &mut VecDeque<Place>)
    ensures order { pages_by_place pages.now.entries places.new.items ≡ pages_by_place pages.now.entries places.old.items }
    ensures below { (next : ℕ) → ArePlacesBelow next places.old.items → ArePlacesBelow next places.new.items }
{
    while is_front_left(pages, places) {
        places.pop_front();
    }
}

// Whether there is a place whose page left it at the front.
fn is_front_left(pages: &IndexMap<(u32, u32), Placed>, places: &VecDeque<Place>) -> bool
    ensures some { IsTrue result → 0 < length places.now.items }
    ensures left { IsTrue result → (first : Place) (rest : List Place) → places.now.items ≡ first ∷ rest → is_some (page_placed pages.now.entries first) ≡ false }
{
    match places.front() {
        Some(place) => page_placed(pages, place).is_none(),
        None => false,
    }
}

// Takes the places that were left away.
fn sweep(pages: &IndexMap<(u32, u32), Placed>, places: &mut VecDeque<Place>)
    ensures { places.new.items ≡ filter (λ place. is_some (page_placed pages.now.entries place)) places.old.items }
{
    places.retain(|place: &Place| page_placed(pages, place).is_some());
}
