// A leaf in a LEB that the log doesn't name.

use crate::application::Place;
use index_tree::Leaf;

// A leaf, and where a copy of its node stands, if one does.
#[derive(Clone, Copy)]
pub(crate) struct Candidate {
    pub(crate) leaf: Leaf,
    pub(crate) copy: Option<Place>,
}
