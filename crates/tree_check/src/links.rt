// The entries that leaves show.

ghost use Rattle.std.specs.Prelude.{◌≡◌, ◌++◌, IfOk, IsTrue, OnOk};
ghost use Rattle.std.specs.List.Sorted.{IsPermutation};
ghost use Rattle.tree_check.specs.KeyOrder.{ShowNothingTwice};
ghost use Rattle.tree_check.specs.Links.{entries_shown, entry_link, entry_links, links_shown, with_link};

use crate::link::Link;
use crate::shown_leaf::{Shown, ShownLeaf};
use fs_model::OrderedName;
use std::alloc::Global;
use std::collections::BTreeMap;
use ubifs_base::{Memory, Name};

/// What the entries of leaves lead to, in some order. Of leaves that show one name the first counts. Where it is known that none shows
/// what one before it shows, no map is made and no name is copied.
pub(crate) fn links_of(
    alloc: Global,
    leaves: &[ShownLeaf],
    go_up: bool,
) -> Result<Vec<Link>, Memory>
    requires { IsTrue go_up → ShowNothingTwice leaves.now }
    ensures { IfOk result (λ links. IsPermutation links.items (links_shown leaves.now)) }
{
    if go_up {
        let links = entry_links(alloc, leaves)?;
        return Ok(links);
    }
    let named = links_by_name(alloc, leaves)?;
    Ok(named)
}

// What the entries of leaves lead to, leaf by leaf.
fn entry_links(alloc: Global, leaves: &[ShownLeaf]) -> Result<Vec<Link>, Memory>
    ensures { IfOk result (λ links. links.items ≡ entry_links leaves.now) }
{
    let mut links = Vec::new(alloc);
    let mut left = leaves;
    'adding: while let Some((leaf, rest)) = left.split_first() {
        add_link(&mut links, &leaf.shown)?;
        left = rest;
    }
    Ok(links)
}

// Adds what the entry leads to that a leaf shows, if it shows one.
fn add_link(links: &mut Vec<Link>, shown: &Shown) -> Result<(), Memory>
    ensures { OnOk result (links.new.items ≡ links.old.items ++ entry_link shown.now) }
{
    let Shown::Entry { dir, ino, .. } = shown else {
        return Ok(());
    };
    links.push(Link {
        dir: *dir,
        ino: *ino,
    })?;
    Ok(())
}

// What the entries of leaves lead to, in order of directory and name.
fn links_by_name(alloc: Global, leaves: &[ShownLeaf]) -> Result<Vec<Link>, Memory>
    ensures { IfOk result (λ links. links.items ≡ links_shown leaves.now) }
{
    let entries = entries_of(alloc, leaves)?;
    let links = entries.into_values().collect(alloc)?;
    Ok(links)
}

// The entries by directory and name.
fn entries_of(
    alloc: Global,
    leaves: &[ShownLeaf],
) -> Result<BTreeMap<(u32, OrderedName), Link>, Memory>
    ensures { IfOk result (λ entries. entries.entries ≡ entries_shown leaves.now) }
{
    let mut entries = BTreeMap::new(alloc);
    let mut left = leaves;
    'setting: while let Some((leaf, front)) = left.split_last() {
        set_entry(&mut entries, &leaf.shown)?;
        left = front;
    }
    Ok(entries)
}

// Sets the entry that a leaf shows, if it shows one.
fn set_entry(entries: &mut BTreeMap<(u32, OrderedName), Link>, shown: &Shown) -> Result<(), Memory>
    ensures { OnOk result (entries.new.entries ≡ with_link shown.now entries.old.entries) }
{
    let Shown::Entry { dir, name, ino, .. } = shown else {
        return Ok(());
    };
    let key = name_key(*dir, name)?;
    entries.insert(
        key,
        Link {
            dir: *dir,
            ino: *ino,
        },
    )?;
    Ok(())
}

/// A copy of a name, with its directory, as the key of a map.
pub(crate) fn name_key(dir: u32, name: &Name) -> Result<(u32, OrderedName), Memory>
    ensures { IfOk result (λ key. key ≡ (dir, name.now)) }
{
    let copy = name.clone()?;
    Ok((dir, OrderedName::from_name(copy)))
}
