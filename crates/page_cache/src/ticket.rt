// Which state of which page was seen.

ghost use Rattle.std.specs.Prelude.{◌≡◌};
ghost use Rattle.page_cache.specs.Pages.{ticket_of};

use crate::dirty_page::DirtyPage;

/// A dirty page as it was seen: its inode, the block's number and the version.
#[derive(Clone, Copy, Debug, PartialEq, Eq)]
pub struct Ticket {
    pub ino: u32,
    pub block: u32,
    pub version: u64,
}

/// The ticket of a dirty page as it is now.
pub(crate) fn ticket_of(name: (u32, u32), page: &DirtyPage) -> Ticket
    ensures { result ≡ ticket_of (name, page.now) }
{
    Ticket {
        ino: name.0,
        block: name.1,
        version: page.version,
    }
}
