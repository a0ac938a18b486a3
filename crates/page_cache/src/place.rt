// Where a dirty page stands in the order.

ghost use Rattle.std.specs.Prelude.{◌≡◌};
ghost use Rattle.page_cache.specs.Pages.{is_cut};

use crate::dirty_page::DirtyPage;

/// A dirty page, and the number of the place that it took.
#[derive(Debug, Drop)]
pub(crate) struct Placed {
    pub(crate) page: DirtyPage,
    pub(crate) place: u64,
}

/// A place in the order: the name of the page that took it, and its number.
#[derive(Clone, Copy, Debug)]
pub(crate) struct Place {
    pub(crate) name: (u32, u32),
    pub(crate) number: u64,
}

/// Whether a page is of an inode, from a block on.
pub(crate) fn is_within(name: (u32, u32), ino: u32, from: u32) -> bool
    ensures { result ≡ is_cut ino from name }
{
    if name.0 == ino { from <= name.1 } else { false }
}
