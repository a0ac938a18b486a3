// Paths are walked in a tree.

ghost use Rattle.std.specs.Prelude.{◌≡◌, Ok, IfOk};
ghost use Rattle.fs_model.specs.Path.{child, reached, root_entry};
ghost use Rattle.manifest_tree.specs.Places.{entry_found};

use fs_model::{Entry, Kind};
use op_groups::root_entry;
use plain_backing::Tree;
use std::alloc::Global;
use ubifs_base::{Memory, Name};

/// The entry to which names lead from the root, each in the directory before it; the root's own if there are none.
pub fn walk(alloc: Global, tree: &Tree, names: &[Name]) -> Result<Option<Entry>, Memory>
    ensures { IfOk result (λ entry. entry ≡ entry_found (reached tree.now (Ok root_entry) names.now)) }
{
    let mut at = root_entry(alloc);
    let mut left = names;
    'walking: while let Some((name, rest)) = left.split_first() {
        let Some(next) = child(alloc, tree, &at, name)? else {
            return Ok(None);
        };
        at = next;
        left = rest;
    }
    Ok(Some(at))
}

// One name further, below a directory.
fn child(alloc: Global, tree: &Tree, at: &Entry, name: &Name) -> Result<Option<Entry>, Memory>
    ensures { IfOk result (λ entry. entry ≡ entry_found (child tree.now name.now (Ok at.now))) }
{
    match at.kind {
        Kind::Dir => tree.entry(alloc, at.ino, name),
        _ => Ok(None),
    }
}
