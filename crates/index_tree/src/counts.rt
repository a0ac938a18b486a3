// The numbers of a shape that are kept.

/// The nodes of a shape, and its weight: the nodes plus the full ones.
#[derive(Clone, Copy, Debug, PartialEq, Eq)]
pub struct Counts {
    pub nodes: u64,
    pub weight: u64,
}
