// Inodes of files with dirty pages.

ghost use Rattle.std.specs.Prelude.{◌≡◌, ℕ, List, [], IfOk, OnOk, OnErr, IsSome};
ghost use Rattle.std.specs.Map.{lookup, set_value, remove_entry};
ghost use Rattle.std.specs.Ordering.{nat_cmp};
ghost use Rattle.std.specs.Option.{option_copied, option_map_or};
ghost use Rattle.std.specs.BTreeMap.{is_at, insert_entry};

use fs_model::Inode;
use std::alloc::Global;
use std::collections::BTreeMap;
use std::marker::Model;
use ubifs_base::Memory;

/// The inodes of files with dirty pages, as they are now, by number. Contracts see them as the list of them in order.
#[derive(Drop)]
pub struct DirtyInodes {
    map: BTreeMap<u32, Inode>,
}

impl Model for DirtyInodes {
    ghost use Rattle.std.specs.Prelude.{ℕ, List};
    ghost use Rattle.fs_model.specs.declared.inode.Inode.{Inode as Held};

    ghost Value = { List (ℕ × Held) };

    ghost view = { λ b. b.map.entries };
}

impl DirtyInodes {
    /// None.
    pub fn new(alloc: Global) -> DirtyInodes
        ensures { result ≡ [] }
    {
        DirtyInodes {
            map: BTreeMap::new(alloc),
        }
    }

    /// The inode of a number.
    pub fn get(&self, ino: u32) -> Option<&Inode>
        ensures { option_copied result ≡ lookup (is_at (nat_cmp ino)) self.now }
    {
        self.map.get(&ino)
    }

    /// Sets the inode of a number, and answers the one that it had. Where there is no memory all is as it was.
    pub fn insert(&mut self, ino: u32, inode: Inode) -> Result<Option<Inode>, Memory>
        ensures old { IfOk result (λ old. old ≡ lookup (is_at (nat_cmp ino)) self.old) }
        ensures ok { OnOk result (self.new ≡ insert_entry nat_cmp self.old ino inode) }
        ensures err { OnErr result (self.new ≡ self.old) }
    {
        match self.map.insert(ino, inode) {
            Ok(old) => Ok(old),
            Err(_) => Err(Memory),
        }
    }

    /// Sets the inode of a number where it has one. Takes no memory.
    pub fn set(&mut self, ino: u32, inode: Inode)
        ensures { self.new ≡ set_value (is_at (nat_cmp ino)) self.old inode }
    {
        set(&mut self.map, ino, inode);
    }

    /// Takes the inode of a number out. Takes no memory.
    pub fn remove(&mut self, ino: u32)
        ensures { self.new ≡ remove_entry (is_at (nat_cmp ino)) self.old }
    {
        self.map.remove(&ino);
    }

    /// Puts back what an insertion answered: the inode of a number, or that it has none. Takes no memory.
    pub fn restore(&mut self, ino: u32, old: Option<Inode>)
        requires { IsSome (lookup (is_at (nat_cmp ino)) self.old) }
        ensures { self.new ≡ option_map_or (λ inode. insert_entry nat_cmp self.old ino inode) old (remove_entry (is_at (nat_cmp ino)) self.old) }
    {
        match old {
            Some(inode) => {
                let _ = self.map.insert(ino, inode);
            }
            None => {
                self.map.remove(&ino);
            }
        }
    }

    /// Takes all out. Takes no memory.
    pub fn clear(&mut self)
        ensures { self.new ≡ [] }
    {
        self.map.clear();
    }
}

fn set(map: &mut BTreeMap<u32, Inode>, ino: u32, inode: Inode)
    ensures { map.new.entries ≡ set_value (is_at (nat_cmp ino)) map.old.entries inode }
{
    if let Some(place) = map.get_mut(&ino) {
        *place = inode;
    }
}
