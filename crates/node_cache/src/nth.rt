// What a walk finds of the leaves of one key.

use index_tree::Leaf;

/// The leaf behind so many others, or, where there are too few, how many of these are left to pass.
#[derive(Clone, Copy, Debug, PartialEq, Eq)]
pub enum Nth {
    Found(Leaf),
    Fewer(u32),
}
