// The rules of a sound image.

/// The rules of a sound image, in the order in which a check tests them: the superblock, the masters, the tree of LEB
/// properties, the index, the log, what stands in buds, the leaves, the sums of free and dirty space, the erased ends of
/// LEBs, the orphan area, the tree of files, and its links.
#[derive(Clone, Copy, Debug, PartialEq, Eq)]
pub enum Rule {
    Superblock,
    Masters,
    Properties,
    Index,
    Log,
    Buds,
    Leaves,
    Sums,
    Ends,
    Orphans,
    Tree,
    Links,
}
