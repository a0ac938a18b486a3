//! Do the properties of main LEBs tell the space of an image as it is, and what is wrong with it first?
//!
//! Two rules of crate sound_image speak of space: `HasSums`, that free, dirty and committed bytes are all bytes of a main LEB, and
//! `HasErasedEnds`, that the free bytes at its end are unwritten. [`check_sums`] adds the length of each leaf and of each node of
//! the index to the sum of its LEB, so that one pass over them serves all LEBs. [`check_ends`] reads the free end of each LEB once. Both go
//! from the lowest main LEB on, and the invariant is that all LEBs so far meet the rule.
#![tactic(auto)]

mod adding;
mod end_reads;
mod ends;
mod sums;
mod written_byte;

pub use crate::ends::check_ends;
pub use crate::sums::check_sums;
