// What is told of buds that meet their rule.

use journal_scan::JournalRead;

/// What buds say as a mount reads them, and whether none of them holds a node, padding aside. A group that isn't whole holds nodes,
/// though a mount drops them.
#[derive(Debug, Drop)]
pub struct BudsFound {
    pub read: JournalRead,
    pub clean: bool,
}
