// What is read of maps by inode number.

ghost use Rattle.std.specs.Prelude.{◌≡◌, is_some};
ghost use Rattle.std.specs.BTreeMap.{get};
ghost use Rattle.std.specs.Ordering.{nat_cmp};

use std::collections::BTreeMap;

/// Whether a number is in a set.
pub(crate) fn is_in(set: &BTreeMap<u32, bool>, ino: u32) -> bool
    ensures { result ≡ is_some (get nat_cmp set.now ino) }
{
    set.contains_key(&ino)
}
