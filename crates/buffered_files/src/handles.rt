// Open files.

ghost use Rattle.std.specs.Prelude.{◌≡◌, ◌==◌, ℕ, List, [], Some, IfOk, OnOk, OnErr, filter, length};
ghost use Rattle.std.specs.List.{list_any};
ghost use Rattle.std.specs.Map.{lookup, remove_entry};
ghost use Rattle.std.specs.BTreeMap.{is_at, insert_entry};
ghost use Rattle.fs_model.specs.Files.{pair_cmp};

use std::alloc::Global;
use std::collections::BTreeMap;
use std::marker::Model;
use ubifs_base::Memory;

/// Which inode each caller has open in which of its slots, which contracts see as the list of them in order of caller and
/// slot.
#[derive(Drop)]
pub struct Handles {
    map: BTreeMap<(u16, u8), u32>,
}

impl Model for Handles {
    ghost Value = { List ((ℕ × ℕ) × ℕ) };

    ghost view = { λ b. b.map.entries };
}

impl Handles {
    /// No open files.
    pub fn new(alloc: Global) -> Handles
        ensures { result ≡ [] }
    {
        Handles {
            map: BTreeMap::new(alloc),
        }
    }

    /// The inode that a caller has open in a slot. Takes no memory.
    pub fn get(&self, caller: u16, slot: u8) -> Option<u32>
        ensures { result ≡ lookup (is_at (pair_cmp (caller, slot))) self.now }
    {
        found(&self.map, caller, slot)
    }

    /// Whether somebody has an inode open. Takes no memory.
    pub fn has_open(&self, ino: u32) -> bool
        ensures { result ≡ list_any (λ handle. handle.1 == ino) self.now }
    {
        holds(&self.map, ino)
    }

    /// Whether an inode that is open in a slot of a caller is open in another slot too. Takes no memory.
    pub fn is_open_beside(&self, caller: u16, slot: u8, ino: u32) -> bool
        requires { lookup (is_at (pair_cmp (caller, slot))) self.now ≡ Some ino }
        ensures { result ≡ list_any (λ handle. handle.1 == ino) (remove_entry (is_at (pair_cmp (caller, slot))) self.now) }
    {
        holds_beside(&self.map, caller, slot, ino)
    }

    /// Opens an inode in a slot of a caller, in place of what was open there. Where there is no memory all is as it was.
    pub fn insert(&mut self, caller: u16, slot: u8, ino: u32) -> Result<(), Memory>
        ensures ok { OnOk result (self.new ≡ insert_entry pair_cmp self.old (caller, slot) ino) }
        ensures err { OnErr result (self.new ≡ self.old) }
    {
        put(&mut self.map, caller, slot, ino)
    }

    /// Closes a slot, and answers the inode that was open there. Takes no memory.
    pub fn remove(&mut self, caller: u16, slot: u8) -> Option<u32>
        ensures found { result ≡ lookup (is_at (pair_cmp (caller, slot))) self.old }
        ensures gone { self.new ≡ remove_entry (is_at (pair_cmp (caller, slot))) self.old }
    {
        take(&mut self.map, caller, slot)
    }
}

fn found(map: &BTreeMap<(u16, u8), u32>, caller: u16, slot: u8) -> Option<u32>
    ensures { result ≡ lookup (is_at (pair_cmp (caller, slot))) map.now.entries }
{
    map.get(&(caller, slot)).copied()
}

fn holds(map: &BTreeMap<(u16, u8), u32>, ino: u32) -> bool
    ensures { result ≡ list_any (λ handle. handle.1 == ino) map.now.entries }
{
    map.iter().any(|(_, held)| *held == ino)
}

fn holds_beside(map: &BTreeMap<(u16, u8), u32>, caller: u16, slot: u8, ino: u32) -> bool
    requires { lookup (is_at (pair_cmp (caller, slot))) map.now.entries ≡ Some ino }
    ensures { result ≡ list_any (λ handle. handle.1 == ino) (remove_entry (is_at (pair_cmp (caller, slot))) map.now.entries) }
{
    count_of(map, ino) > 1
}

// How many slots have an inode open.
fn count_of(map: &BTreeMap<(u16, u8), u32>, ino: u32) -> usize
    ensures { result ≡ length (filter (λ handle. handle.1 == ino) map.now.entries) }
{
    map.iter().filter(|(_, held)| **held == ino).count()
}

fn put(map: &mut BTreeMap<(u16, u8), u32>, caller: u16, slot: u8, ino: u32) -> Result<(), Memory>
    ensures ok { OnOk result (map.new.entries ≡ insert_entry pair_cmp map.old.entries (caller, slot) ino) }
    ensures err { OnErr result (map.new.entries ≡ map.old.entries) }
{
    match map.insert((caller, slot), ino) {
        Ok(_) => Ok(()),
        Err(_) => Err(Memory),
    }
}

fn take(map: &mut BTreeMap<(u16, u8), u32>, caller: u16, slot: u8) -> Option<u32>
    ensures found { result ≡ lookup (is_at (pair_cmp (caller, slot))) map.old.entries }
    ensures gone { map.new.entries ≡ remove_entry (is_at (pair_cmp (caller, slot))) map.old.entries }
{
    map.remove(&(caller, slot))
}
