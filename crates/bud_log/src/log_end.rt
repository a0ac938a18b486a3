// Where a text ends.

use leb_scan::Tail;

/// The LEB, the offset in it, and what stands behind it.
#[derive(Clone, Copy, Debug, PartialEq, Eq)]
pub(crate) struct LogEnd {
    pub lnum: u32,
    pub offs: u32,
    pub tail: Tail,
}
