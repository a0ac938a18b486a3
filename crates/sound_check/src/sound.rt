// What is told of a sound image.

use fs_model::Space;

/// What is told of a sound image: whether no bud of it holds a node, padding aside, and its space once it is recovered and before any
/// commit.
#[derive(Clone, Copy, Debug, PartialEq, Eq)]
pub struct Sound {
    pub clean: bool,
    pub space: Space,
}
