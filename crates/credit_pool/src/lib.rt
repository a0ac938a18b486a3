//! How do many callers take credits that were granted in advance, without a lock?
//!
//! All that they share is one word, the room: the credits that nobody holds. A caller draws by one load and one exchange
//! on it, and gives back by one addition. What each seat holds, and what the master holds and issued, is known to its
//! owner alone, and exists in the proofs only. The invariant, which each step on the word keeps in any schedule: the room
//! plus what all seats and the master hold is what was issued, which is below 2^63; no caller has two seats, and one
//! with a seat is out; no seat holds more than 17 credits.
#![tactic(auto)]

mod fault;
mod master;
mod pool;
mod seat;
mod steps;
mod view;

pub use crate::fault::DrawFault;
pub use crate::master::Master;
pub use crate::pool::Pool;
pub use crate::seat::Seat;
