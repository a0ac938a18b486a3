// Which inodes are reached from the root.

ghost use Rattle.std.specs.Prelude.{◌≡◌, ◌||◌, ◌&&◌, ◌==◌, ℕ, true, filter, not, IfOk, IsTrue, OnOk};
ghost use Rattle.std.specs.List.{list_any};
ghost use Rattle.std.specs.List.Sorted.{IsNonDecreasing};
ghost use Rattle.tree_check.specs.Reach.{AreDirsAmong, children_at, has, is_reached, leads, mem, reaches};

use crate::children::children_of;
use crate::counts::links_to;
use crate::link::{Link, ROOT};
use crate::links_by_inode::LinksByInode;
use crate::map_reads::is_in;
use std::alloc::Global;
use std::collections::BTreeMap;
use ubifs_base::Memory;

/// The directories with entries that one step less than so many down from the root reaches, or fewer; none where there is no step. So an inode is
/// reached in so many if one of these leads to it.
pub(crate) fn dirs_reached(
    alloc: Global,
    links: &[Link],
    steps: usize,
) -> Result<BTreeMap<u32, bool>, Memory>
    ensures { IfOk result (λ dirs. (q : ℕ) → is_reached links.now (has dirs) q ≡ reaches links.now steps q) }
{
    if steps == 0 {
        return Ok(BTreeMap::new(alloc));
    }
    let dirs = dirs_of(alloc, links)?;
    let between = links_between(alloc, links, dirs.as_slice())?;
    let reached = reached_in(alloc, between.as_slice(), steps - 1)?;
    Ok(reached)
}

// The directories of links, in order of number. One may be there more than once.
fn dirs_of(alloc: Global, links: &[Link]) -> Result<Vec<u32>, Memory>
    ensures ordered { IfOk result (λ dirs. IsNonDecreasing dirs.items) }
    ensures among { IfOk result (λ dirs. AreDirsAmong dirs.items links.now) }
{
    let mut dirs = Vec::new(alloc);
    let mut left = links;
    'adding: while let Some((link, rest)) = left.split_first() {
        add_dir(&mut dirs, link.dir)?;
        left = rest;
    }
    dirs.sort_unstable();
    Ok(dirs)
}

// Adds a directory if it isn't the last.
fn add_dir(dirs: &mut Vec<u32>, dir: u32) -> Result<(), Memory>
    ensures { OnOk result ((q : ℕ) → mem q dirs.new.items ≡ (mem q dirs.old.items || dir == q)) }
{
    if is_last(dirs.as_slice(), dir) {
        return Ok(());
    }
    dirs.push(dir)?;
    Ok(())
}

// Whether the last of some numbers is this.
fn is_last(numbers: &[u32], number: u32) -> bool
    ensures { IsTrue result → mem number numbers.now ≡ true }
{
    match numbers.last() {
        Some(last) => *last == number,
        None => false,
    }
}

// The links that lead to one of these directories.
fn links_between(alloc: Global, links: &[Link], dirs: &[u32]) -> Result<Vec<Link>, Memory>
    requires { IsNonDecreasing dirs.now }
    ensures { IfOk result (λ between. between.items ≡ filter (λ link. mem link.ino dirs.now) links.now) }
{
    let mut between = Vec::new(alloc);
    let mut left = links;
    'keeping: while let Some((link, rest)) = left.split_first() {
        if is_among(dirs, link.ino) {
            between.push(*link)?;
        }
        left = rest;
    }
    Ok(between)
}

// Whether a number is among these, which are in order.
fn is_among(numbers: &[u32], number: u32) -> bool
    requires { IsNonDecreasing numbers.now }
    ensures { result ≡ mem number numbers.now }
{
    numbers.binary_search(&number).is_ok()
}

/// Whether an inode is the root, or one of some directories leads to it.
pub(crate) fn is_reached(links: &LinksByInode, dirs: &BTreeMap<u32, bool>, ino: u32) -> bool
    ensures { result ≡ is_reached links.now.links.items (has dirs.now) ino }
{
    ino == ROOT || do_lead(links_to(links, ino), dirs)
}

// Whether one of these links leads from one of some directories.
fn do_lead(links: &[Link], dirs: &BTreeMap<u32, bool>) -> bool
    ensures { result ≡ list_any (λ link. has dirs.now link.dir) links.now }
{
    let mut left = links;
    'going: while let Some((link, rest)) = left.split_first() {
        if is_in(dirs, link.dir) {
            return true;
        }
        left = rest;
    }
    false
}

// The numbers that so many steps down from the root reach, or fewer: level by level, each number once.
fn reached_in(alloc: Global, links: &[Link], steps: usize) -> Result<BTreeMap<u32, bool>, Memory>
    ensures { IfOk result (λ reached. (q : ℕ) → has reached q ≡ reaches links.now steps q) }
{
    let children = children_of(alloc, links)?;
    let mut reached = BTreeMap::new(alloc);
    let mut level = Vec::new(alloc);
    note(&mut reached, &mut level, ROOT)?;
    for step in 0..steps {
        if level.is_empty() {
            return Ok(reached);
        }
        level = below(alloc, &children, level.as_slice(), &mut reached)?;
    }
    Ok(reached)
}

// The numbers that are reached first from those of a level.
fn below(
    alloc: Global,
    children: &BTreeMap<u32, Vec<u32>>,
    level: &[u32],
    reached: &mut BTreeMap<u32, bool>,
) -> Result<Vec<u32>, Memory>
    ensures reached { OnOk result ((q : ℕ) → has reached.new q ≡ (has reached.old q || leads children.now level.now q)) }
    ensures level { IfOk result (λ next. (q : ℕ) → mem q next.items ≡ (leads children.now level.now q && not (has reached.old q))) }
{
    let mut next = Vec::new(alloc);
    let mut left = level;
    'going: while let Some((dir, rest)) = left.split_first() {
        note_all(reached, &mut next, children_at(children, *dir))?;
        left = rest;
    }
    Ok(next)
}

// The inodes that the entries of a directory name.
fn children_at(children: &BTreeMap<u32, Vec<u32>>, dir: u32) -> &[u32]
    ensures { result.now ≡ children_at children.now dir }
{
    match children.get(&dir) {
        Some(numbers) => numbers.as_slice(),
        None => &[],
    }
}

// Reaches numbers.
fn note_all(
    reached: &mut BTreeMap<u32, bool>,
    next: &mut Vec<u32>,
    numbers: &[u32],
) -> Result<(), Memory>
    ensures reached { OnOk result ((q : ℕ) → has reached.new q ≡ (has reached.old q || mem q numbers.now)) }
    ensures next { OnOk result ((q : ℕ) → mem q next.new.items ≡ (mem q next.old.items || (mem q numbers.now && not (has reached.old q)))) }
{
    let mut left = numbers;
    'noting: while let Some((number, rest)) = left.split_first() {
        note(reached, next, *number)?;
        left = rest;
    }
    Ok(())
}

// Reaches a number: it goes to the next level if it wasn't reached before.
fn note(reached: &mut BTreeMap<u32, bool>, next: &mut Vec<u32>, number: u32) -> Result<(), Memory>
    ensures reached { OnOk result ((q : ℕ) → has reached.new q ≡ (has reached.old q || number == q)) }
    ensures next { OnOk result ((q : ℕ) → mem q next.new.items ≡ (mem q next.old.items || ((number == q) && not (has reached.old q)))) }
{
    if is_in(reached, number) {
        return Ok(());
    }
    reached.insert(number, true)?;
    next.push(number)?;
    Ok(())
}
