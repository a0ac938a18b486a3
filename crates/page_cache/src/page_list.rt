// Pages by name, in an order.

ghost use Rattle.std.specs.Prelude.{◌≡◌, ◌-◌, ◌^◌, ◌<◌, ◌≤◌, ℕ, List, [], ◌∷◌, ◌++◌, if◌then◌else◌, IfOk, OnOk, OnErr, is_some, IsNone, length, slice_get, take};
ghost use Rattle.std.specs.List.{list_any};
ghost use Rattle.std.specs.Option.{option_copied, option_map};
ghost use Rattle.std.specs.NonZero.{non_zero_usize_get};
ghost use Rattle.std.specs.Map.{lookup, remove_entry};
ghost use Rattle.std.specs.Map.Iter.{deref_pair};
ghost use Rattle.lru.specs.LruCache.{lru_cache, promoted, put_entries, last_entry, IsValid};
ghost use Rattle.page_cache.specs.Pages.{is_page, is_cut, cut_list, cut_count};

use crate::place::is_within;
use lru::LruCache;
use std::alloc::Global;
use std::marker::Model;
use std::num::NonZeroUsize;
use ubifs_base::Memory;

/// Pages by inode and block, in an order, of which contracts see the entries from the front on, and how many there may be.
#[derive(Drop)]
pub(crate) struct PageList<V: Drop> {
    pages: LruCache<(u32, u32), V>,
}

impl<V: Drop> Model for PageList<V> {
    ghost use Rattle.std.specs.Prelude.{ℕ};
    ghost use Rattle.std.specs.Coded.{coded×, coded_ℕ};
    ghost use Rattle.lru.specs.LruCache.{LruCache as Entries, lru_cache_code};

    ghost Value = { Entries (ℕ × ℕ) V };

    ghost coded = { lru_cache_code (coded× coded_ℕ coded_ℕ) V.code };

    ghost view = { λ l. l.pages };
}

impl<V: Drop> PageList<V> {
    /// No pages, of which there may be so many.
    pub(crate) fn new(alloc: Global, most: NonZeroUsize) -> Result<PageList<V>, Memory>
        ensures { IfOk result (λ list. list ≡ lru_cache [] (non_zero_usize_get most)) }
    {
        Ok(PageList {
            pages: LruCache::sparse(alloc, most)?,
        })
    }

    /// The page at the front.
    pub(crate) fn first(&self) -> Option<(&(u32, u32), &V)>
        ensures { option_map deref_pair result ≡ slice_get self.now.entries 0 }
    {
        self.pages.peek_mru()
    }

    /// The page of a name. It stays at its place.
    pub(crate) fn get(&self, name: (u32, u32)) -> Option<&V>
        ensures { option_copied result ≡ lookup (is_page name) self.now.entries }
    {
        self.pages.peek(&name)
    }

    /// Puts a page at the front, with the one at the end gone where there are too many. Where there is no memory all is as
    /// it was.
    pub(crate) fn put_first(&mut self, name: (u32, u32), page: V) -> Result<(), Memory>
        ensures ok { OnOk result (self.new ≡ lru_cache (put_entries is_page self.old name page) self.old.cap) }
        ensures err { OnErr result (self.new ≡ self.old) }
    {
        match self.pages.put(name, page) {
            Ok(_) => Ok(()),
            Err(_) => Err(Memory),
        }
    }

    /// Moves the page of a name to the front, and answers whether there is one. Takes no memory.
    pub(crate) fn promote(&mut self, name: (u32, u32)) -> bool
        ensures there { result ≡ is_some (lookup (is_page name) self.old.entries) }
        ensures list { self.new ≡ lru_cache (promoted (is_page name) self.old.entries) self.old.cap }
    {
        self.pages.promote(&name)
    }

    /// Takes the page of a name out. Takes no memory.
    pub(crate) fn remove(&mut self, name: (u32, u32))
        ensures rest { self.new ≡ lru_cache (remove_entry (is_page name) self.old.entries) self.old.cap }
        ensures gone { IsNone (lookup (is_page name) self.new.entries) }
    {
        // Its proof knows from this that no two pages have one name.
        let _len = self.pages.len();
        self.pages.pop(&name);
    }

    /// The number of pages.
    pub(crate) fn len(&self) -> usize
        ensures len { result ≡ length self.now.entries }
        ensures fits { result < 2 ^ 63 }
        ensures valid { IsValid is_page self.now }
    {
        self.pages.len()
    }

    /// Takes out the pages of an inode from a block on, and answers how many there were. The others keep their order. Takes
    /// no memory.
    pub(crate) fn cut(&mut self, ino: u32, from: u32) -> u64
        ensures rest { self.new ≡ lru_cache (cut_list self.old.entries ino from) self.old.cap }
        ensures count { result ≡ cut_count self.old.entries ino from }
    {
        if !self.is_any_within(ino, from) {
            return 0;
        }
        let mut left = self.len();
        let mut gone = 0;
        while left > 0 {
            gone += self.turn(ino, from);
            left -= 1;
        }
        gone
    }

    // Whether there is a page of an inode, from a block on.
    fn is_any_within(&self, ino: u32, from: u32) -> bool
        ensures { result ≡ list_any (λ e. is_cut ino from e.0) self.now.entries }
    {
        for (name, _) in self.pages.iter() {
            if is_within(*name, ino, from) {
                return true;
            }
        }
        false
    }

    // Takes the page at the end out where it is cut, and else moves it to the front. Answers how many were taken out.
    fn turn(&mut self, ino: u32, from: u32) -> u64
        ensures turned { (e : (ℕ × ℕ) × V) (es : List ((ℕ × ℕ) × V)) → self.old.entries ≡ es ++ e ∷ [] → (result ≡ (if is_cut ino from e.0 then 1 else 0)) × (self.new ≡ lru_cache (if is_cut ino from e.0 then es else e ∷ es) self.old.cap) }
        ensures few { result ≤ 1 }
    {
        // Its proof knows from this that no two pages have one name.
        let _len = self.len();
        match self.last_name() {
            Some(name) => self.turn_last(name, ino, from),
            None => 0,
        }
    }

    // The name of the page at the end.
    fn last_name(&self) -> Option<(u32, u32)>
        ensures { result ≡ option_map (λ e. e.0) (last_entry self.now.entries) }
    {
        match self.pages.peek_lru() {
            Some((name, _)) => Some(*name),
            None => None,
        }
    }

    // The same as `turn`, for the name of the page at the end.
    fn turn_last(&mut self, name: (u32, u32), ino: u32, from: u32) -> u64
        ensures count { result ≡ (if is_cut ino from name then 1 else 0) }
        ensures list { self.new ≡ lru_cache (if is_cut ino from name then take (length self.old.entries - 1) self.old.entries else promoted (is_page name) self.old.entries) self.old.cap }
        ensures few { result ≤ 1 }
    {
        if is_within(name, ino, from) {
            self.pages.pop_lru();
            return 1;
        }
        self.pages.promote(&name);
        0
    }
}
