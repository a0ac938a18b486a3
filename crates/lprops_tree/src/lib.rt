//! What is known of each main LEB, and which one is to be taken next: the properties of all main LEBs as a flat list, with
//! the lowest free LEB, the leaf LEB with the fewest used bytes, and the totals at hand.
//!
//! Each pick has a tournament over all LEBs: a list of nodes, of which the second half are the candidates in order, and each
//! node before them is the winner of its two children. So the first node has won against all, and a LEB that changes plays
//! again only on its way to it. The totals are kept beside the list: a change takes the old LEB off and adds the new one.
#![tactic(auto)]

mod candidate;
mod props;
mod totals;
mod tournament;

pub use crate::props::Props;
pub use crate::totals::Totals;
