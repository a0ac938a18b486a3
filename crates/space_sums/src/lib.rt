//! Is there room? `room` gives the two sides of the test that admission makes, and `settled` says why a store may only be
//! read; both are `fs_model`'s definitions, computed without memory over a flat record of numbers. Whoever keeps the numbers
//! true keeps the promise that what was granted can be written: the laws carry the sums from one state to the next,
//! through writes, a commit, a cut and growth, and say that a full store still has LEBs for its index.
#![tactic(auto)]

mod admission;
mod commits;
mod grants;
mod law;
mod passes;
mod pigeonhole;
mod settling;
mod sides;
mod sums;

pub use crate::admission::room;
pub use crate::commits::{a_packed_store_takes_what_was_admitted, a_settled_store_can_commit};
pub use crate::grants::what_was_admitted_can_be_put;
pub use crate::law::{
    a_commit_keeps_what_was_granted, a_cut_keeps_what_was_granted, a_settled_store_has_no_cause,
    growth_keeps_what_was_granted, more_never_lowers_the_need,
    what_takes_no_more_keeps_what_was_granted,
};
pub use crate::passes::a_collection_gains;
pub use crate::pigeonhole::a_packed_store_has_spare_lebs;
pub use crate::settling::settled;
pub use crate::sides::Room;
pub use fs_model::{Cause, Scarce, Space};
