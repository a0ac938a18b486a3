// Why no credit was drawn.

use thiserror::Error;

/// Why no credit was drawn. Nothing has changed.
#[derive(Clone, Copy, Debug, PartialEq, Eq, Error)]
pub enum DrawFault {
    /// The room had only `seen` credits.
    #[error("only {seen} credits are left")]
    Short { seen: u64 },
    /// The exchange wanted `wanted` credits in the room, and found `found`: the room changed since it was looked at.
    #[error("the room was {found} and not {wanted}")]
    Raced { wanted: u64, found: u64 },
}
