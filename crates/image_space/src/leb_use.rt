// What stands in a main LEB.

/// Whether a node of the index stands in a LEB, whether a leaf does, whether the log names it, and whether it does for another head
/// than the collector's.
#[derive(Clone, Copy, Debug, PartialEq, Eq)]
pub(crate) struct LebUse {
    pub indexed: bool,
    pub filled: bool,
    pub named: bool,
    pub for_others: bool,
}
