// What a whole scan gives.

use crate::found::Found;
use crate::tail::Tail;

/// The nodes of a text in order, padding nodes among them, the place where its last item ends, and
/// what stands behind it.
#[derive(Debug, Drop)]
pub struct Scan {
    pub nodes: Vec<Found>,
    pub end: u32,
    pub tail: Tail,
}
