//! Which credits are covered, and whose are they? Files over a backing are kept with the master of a pool. Each credit that is covered is that of a
//! dirty page, or was issued: it lies in the pool, or a caller holds it in its stock. A caller draws credits for its write from the pool, without the
//! files, and brings them to its call. What the write lacks is covered before the call, if there is room. Else the pool's credits go back to the
//! backing, so that the test for room doesn't count them.
#![tactic(auto)]

mod credited;
mod credits;
mod file;
mod step;
mod stock;

pub use crate::file::CreditedFs;
pub use crate::stock::Stock;
