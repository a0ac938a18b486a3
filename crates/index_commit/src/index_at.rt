// Where an index stands.

use media_sys::Branch;

/// Where the next index node may go: a LEB, and an offset in it at a multiple of the unit, from which on nothing is written
/// (`ihead_lnum` and `ihead_offs` of `struct ubifs_mst_node` in ubifs-media.h).
#[derive(Clone, Copy, Debug, PartialEq, Eq)]
pub struct IndexHead {
    pub lnum: u32,
    pub offs: u32,
}

/// Where an index stands: the branch to its root (none: it is empty), and its head (none: no node was written).
#[derive(Clone, Copy, Debug, PartialEq, Eq)]
pub struct IndexAt {
    pub root: Option<Branch>,
    pub head: Option<IndexHead>,
}

/// A LEB to which index nodes were written: the head behind them, and the bytes that they take, each rounded up to 8, as properties of
/// LEBs and `index_size` of a master count them.
#[derive(Clone, Copy, Debug, PartialEq, Eq)]
pub struct WrittenLeb {
    pub head: IndexHead,
    pub used: u32,
}
