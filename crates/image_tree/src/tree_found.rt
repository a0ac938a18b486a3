// What is found of a tree.

use image_check::WrongValue;
use tree_check::ShownLeaf;

// What the leaves after recovery show, and what is wrong first.
#[derive(Drop)]
pub(crate) struct TreeFound {
    pub(crate) shown: Vec<ShownLeaf>,
    pub(crate) wrong: Option<WrongValue>,
}
