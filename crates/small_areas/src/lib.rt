//! What stands in the small areas of a volume: which master is the latest, do its addresses lie in their areas, and how
//! does a new one take its place?
//!
//! A volume has two copies of its master, in LEBs 1 and 2. Each LEB is written from its start on, so the last master in a
//! LEB's text is its newest, and of the two the one with the greater sequence number is the latest. `specs/Masters.antt`
//! says so of the bytes of both LEBs, and `specs/Addresses.antt` where each address of a master may lie. A new master goes
//! behind the text of LEB 1 and then of LEB 2, so one LEB is whole at every moment: `specs/Copies.antt` says what is written,
//! and that a power cut leaves the old latest master or the new one.
#![tactic(auto)]

mod copies;
mod laws;
mod masters;
mod mending;
mod misplaced;
mod orphans;
mod placed_master;

pub use crate::copies::write_master;
pub use crate::laws::meant_outcomes;
pub use crate::masters::latest;
pub use crate::mending::mend_master;
pub use crate::misplaced::{Misplaced, misplaced_address};
pub use crate::orphans::{read_orphans, write_orphans};
pub use crate::placed_master::PlacedMaster;
