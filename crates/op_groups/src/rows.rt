// The order in which a directory is listed.

ghost use Rattle.std.specs.Prelude.{◌≡◌, [], IfOk, fold};
ghost use Rattle.std.specs.BTreeMap.{insert_entry};
ghost use Rattle.ubifs_base.specs.R5.{r5_of};
ghost use Rattle.fs_model.specs.Directory.{by_hash};
ghost use Rattle.fs_model.specs.Files.{name_cmp};

use fs_model::{Entry, OrderedName, Rows};
use std::alloc::Global;
use std::collections::BTreeMap;
use ubifs_base::{Memory, r5};

/// Entries in the order in which they are listed: that of the hash of the name, and then of the name.
pub fn by_hash(alloc: Global, entries: Vec<Entry>) -> Result<Rows, Memory>
    ensures { IfOk result (λ rows. rows ≡ by_hash entries.items) }
{
    let sorted = sorted(alloc, entries)?;
    let rows = sorted.into_values().collect(alloc)?;
    Ok(Rows::from_vec(rows))
}

// Entries under the hash of the name and the name.
fn sorted(alloc: Global, entries: Vec<Entry>) -> Result<BTreeMap<(u32, OrderedName), Entry>, Memory>
    ensures { IfOk result (λ sorted. sorted.entries ≡ fold (λ sorted e. insert_entry name_cmp sorted (r5_of e.name, e.name) e) [] entries.items) }
{
    let mut sorted = BTreeMap::new(alloc);
    for entry in entries {
        let key = key_of(&entry)?;
        match sorted.insert(key, entry) {
            Ok(_) => {}
            Err(_) => return Err(Memory),
        }
    }
    Ok(sorted)
}

// The hash of an entry's name, and the name.
fn key_of(entry: &Entry) -> Result<(u32, OrderedName), Memory>
    ensures { IfOk result (λ key. key ≡ (r5_of entry.now.name, entry.now.name)) }
{
    let name = entry.name.clone()?;
    let hash = r5(name.as_slice());
    Ok((hash, OrderedName::from_name(name)))
}
