// A change of an index.

use index_tree::Leaf;
use ubifs_base::Key;

/// A change. A leaf is put after all whose key isn't greater, or is taken out if it is there. A leaf takes the place of another of its key if that
/// one is there. Or all leaves of a range of keys are taken out, both ends included.
#[derive(Clone, Copy, Debug, PartialEq, Eq)]
pub enum Change {
    Insert(Leaf),
    Remove(Leaf),
    Replace { gone: Leaf, come: Leaf },
    RemoveRange { from: Key, to: Key },
}
