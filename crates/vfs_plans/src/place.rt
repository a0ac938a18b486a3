// Places in directories.

use fs_model::Entry;
use ubifs_base::Name;

/// A name in a directory, where an entry is or could be.
#[derive(Drop)]
pub(crate) struct Place {
    pub(crate) parent: Entry,
    pub(crate) name: Name,
}
