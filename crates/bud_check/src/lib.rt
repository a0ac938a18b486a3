//! Does what stands in the buds of an image meet its rule, and what is wrong with it first?
//!
//! The rule is `HasBuds` of crate sound_image: up to its tail a bud, a LEB that the log names, has leaf nodes of the grammar and padding,
//! and none needs a feature that isn't known here. [`check_buds`] takes the log's references, reads the LEBs that they name and answers
//! one of both: the rule holds, with what they say and whether none holds a node; or it is broken, with the first place at which it is.
//! The idea: of two places that which comes first is kept, node by node and bud by bud, so that the order in which the log names buds
//! doesn't matter.
#![tactic(auto)]

mod bud_wrong;
mod buds_found;
mod check;
mod clean;
mod first_wrong;
mod named_buds;
mod reads;
mod texts;

pub use crate::buds_found::BudsFound;
pub use crate::check::check_buds;
