// The numbers of a backing in memory.

use fs_model::{Grant, Mode};

/// What a backing in memory keeps beside its tree. `closed` counts the inodes without a name that were closed since the
/// last commit's start, if its list names them; `strike` says which call from now on fails, 0 if none does; `base` is
/// the least weight that a commit leaves.
#[derive(Clone, Copy)]
pub(crate) struct Numbers {
    pub(crate) orphan_limit: u64,
    pub(crate) closed: u64,
    pub(crate) credits: u64,
    pub(crate) empty: u32,
    pub(crate) index: u32,
    pub(crate) weight: u64,
    pub(crate) base: u64,
    pub(crate) grant: Option<Grant>,
    pub(crate) running: Option<u64>,
    pub(crate) ended: u64,
    pub(crate) nodes: u64,
    pub(crate) later: u64,
    pub(crate) mode: Mode,
    pub(crate) faults: u64,
    pub(crate) strike: u64,
}
