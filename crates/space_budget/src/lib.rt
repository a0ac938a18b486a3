//! What was granted, and is there room for it? A book of the numbers of a store: the bytes of its leaves, the credits that were
//! granted for pages, what was granted to the next group, and the LEBs and the weight of its index.
//!
//! A need is admitted only where it has room beside all that was granted before, the index that this may lead to included
//! (`space_sums`). So what was granted can be put: whatever the store does then, each of its steps leaves the grants covered,
//! if it keeps to what the step's call asks.
#![tactic(auto)]

mod book;

pub use crate::book::Book;
