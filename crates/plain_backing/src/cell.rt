// Cells of a map: a place can be made before anything stands in it, and emptied without being taken out, so that a
// change needs no memory once its place is there.

ghost use Rattle.std.specs.Prelude.{◌≡◌, true, Some, IfOk, OnOk, OnErr};
ghost use Rattle.std.specs.Option.{option_copied};
ghost use Rattle.std.specs.List.Sorted.{IsStrictlySortedBy};
ghost use Rattle.std.specs.Map.{lookup, keys_of, set_value};
ghost use Rattle.std.specs.BTreeMap.{insert_entry, is_at};
ghost use Rattle.plain_backing.specs.Cells.{seen_cells, has_cell, is_empty_cell, KeepsCells};

use std::collections::BTreeMap;
use std::mem::replace;
use ubifs_base::Memory;

/// Makes an empty cell for a key that has none. Nothing that is seen changes, whether or not there is memory.
pub(crate) fn make_cell<K: Ord + Drop, V: Drop>(
    map: &mut BTreeMap<K, Option<V>>,
    key: K,
) -> Result<(), Memory>
    ensures same { seen_cells map.new.entries ≡ seen_cells map.old.entries }
    ensures keeps { KeepsCells K.cmp map.old.entries map.new.entries }
    ensures made { OnOk result (has_cell K.cmp map.new.entries key ≡ true) }
{
    if map.contains_key(&key) {
        return Ok(());
    }
    match map.insert(key, None) {
        Ok(_) => Ok(()),
        Err(_) => Err(Memory),
    }
}

/// Puts a value into the cell of a key, or empties it, and answers what it held. A key that has no cell is nothing.
/// Takes no memory.
pub(crate) fn put<K: Ord + Drop, V: Drop>(
    map: &mut BTreeMap<K, Option<V>>,
    key: &K,
    value: Option<V>,
) -> Option<V>
    ensures cells { map.new.entries ≡ set_value (is_at (K.cmp key.now)) map.old.entries value }
    ensures old { result ≡ lookup (is_at (K.cmp key.now)) (seen_cells map.old.entries) }
    ensures ordered { IsStrictlySortedBy K.cmp (keys_of map.old.entries) }
{
    match map.get_mut(key) {
        Some(cell) => replace(cell, value),
        None => None,
    }
}

/// Puts a value into the cell of a key, which is made if there is none, and answers what it held. Where there is no memory
/// the cells are as they were.
pub(crate) fn insert<K: Ord + Drop, V: Drop>(
    map: &mut BTreeMap<K, Option<V>>,
    key: K,
    value: V,
) -> Result<Option<V>, Memory>
    ensures cells { OnOk result (map.new.entries ≡ insert_entry K.cmp map.old.entries key (Some value)) }
    ensures old { IfOk result (λ old. old ≡ lookup (is_at (K.cmp key)) (seen_cells map.old.entries)) }
    ensures ordered { IsStrictlySortedBy K.cmp (keys_of map.old.entries) }
    ensures err { OnErr result (map.new.entries ≡ map.old.entries) }
{
    match map.insert(key, Some(value)) {
        Ok(old) => Ok(old.flatten()),
        Err(_) => Err(Memory),
    }
}

/// Takes the cell of a key out where it is empty. Nothing that is seen changes. Takes no memory.
pub(crate) fn sweep<K: Ord + Drop, V: Drop>(map: &mut BTreeMap<K, Option<V>>, key: &K)
    ensures same { seen_cells map.new.entries ≡ seen_cells map.old.entries }
{
    if is_empty(map, key) {
        map.remove(key);
    }
}

// Whether a key has an empty cell.
fn is_empty<K: Ord + Drop, V: Drop>(map: &BTreeMap<K, Option<V>>, key: &K) -> bool
    ensures { result ≡ is_empty_cell (lookup (is_at (K.cmp key.now)) map.now.entries) }
{
    match map.get(key) {
        Some(cell) => cell.is_none(),
        None => false,
    }
}

/// The value that the cell of a key holds.
pub(crate) fn held<'a, K: Ord + Drop, V: Drop>(
    map: &'a BTreeMap<K, Option<V>>,
    key: &K,
) -> Option<&'a V>
    ensures { option_copied result ≡ lookup (is_at (K.cmp key.now)) (seen_cells map.now.entries) }
{
    // Its proof knows from this that the keys are in order.
    let _len = map.len();
    match map.get(key) {
        Some(cell) => cell.as_ref(),
        None => None,
    }
}
