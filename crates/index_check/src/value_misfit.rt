// What is wrong with a node of the index.

/// The value that is wanted, and the one that was found.
#[derive(Clone, Copy, Debug)]
pub(crate) struct ValueMisfit {
    pub wanted: u64,
    pub found: u64,
}
