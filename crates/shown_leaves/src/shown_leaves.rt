// What leaves show.

use image_check::WrongValue;
use tree_check::ShownLeaf;

/// What leaves show, in order; and the first of them that doesn't show what stands at its place, where the number by which it is
/// named is wanted.
#[derive(Drop)]
pub struct ShownLeaves {
    pub leaves: Vec<ShownLeaf>,
    pub unlike: Option<WrongValue>,
}
