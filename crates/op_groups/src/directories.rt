// What is reckoned from the entries of a directory. None of it takes memory.

ghost use Rattle.std.specs.Prelude.{◌≡◌, ◌+◌, ◌<◌, ◌^◌, ℕ, sum_by, count_by};
ghost use Rattle.fs_model.specs.Cover.{entry_bytes};
ghost use Rattle.fs_model.specs.Directory.{dir_links, dir_size, entries_in, has_no_entry};
ghost use Rattle.fs_model.specs.Files.{Tree};
ghost use Rattle.fs_model.specs.Path.{is_dir};

use crate::needs::name_bytes;
use fs_model::{Entry, Kind};

/// Whether nothing is in the directory that has these entries.
pub fn has_no_entry(entries: &[Entry]) -> bool
    ensures { (tree : Tree) (dir : ℕ) → entries_in tree dir ≡ entries.now → result ≡ has_no_entry tree dir }
{
    entries.is_empty()
}

/// The links of the directory that has these entries: its name and itself, and one for each directory in it.
pub fn dir_links(entries: &[Entry]) -> u64
    ensures { (tree : Tree) (dir : ℕ) → entries_in tree dir ≡ entries.now → result ≡ dir_links tree dir }
{
    2 + dirs_among(entries)
}

/// The size of the directory that has these entries, in bytes.
pub fn dir_size(entries: &[Entry]) -> u64
    requires { 160 + sum_by entry_bytes entries.now < 2 ^ 64 }
    ensures { (tree : Tree) (dir : ℕ) → entries_in tree dir ≡ entries.now → result ≡ dir_size tree dir }
{
    160 + all_bytes(entries)
}

// How many of the entries name directories.
fn dirs_among(entries: &[Entry]) -> u64
    ensures count { result ≡ count_by (λ entry. is_dir entry.kind) entries.now }
    ensures few { result < 2 ^ 63 }
{
    entries.iter().filter(|entry| is_dir(entry.kind)).count() as u64
}

// The bytes of the nodes of entries.
fn all_bytes(entries: &[Entry]) -> u64
    requires { sum_by entry_bytes entries.now < 2 ^ 64 }
    ensures { result ≡ sum_by entry_bytes entries.now }
{
    entries.iter().map(|entry| name_bytes(&entry.name)).sum()
}

fn is_dir(kind: Kind) -> bool
    ensures { result ≡ is_dir kind }
{
    matches!(kind, Kind::Dir)
}
