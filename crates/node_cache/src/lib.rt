//! Look-ups of an index that stands on a volume, with few of its nodes in memory.
//!
//! A `NodeCache` keeps index nodes of a volume by their places, at most 256 of them. A look-up goes from a branch down. It takes each node of its way
//! out of the cache, or reads it, and gives it back once it is done below. So the nodes of the last way were used last, the topmost one at the very
//! last. The one that was used before all others goes first. So the memory of a look-up doesn't grow with the index. What is kept are nodes that no
//! change touches: `specs/Kept.antt` says how long they are good. `specs/Loaded.antt` says what has to stand on a volume so that an index is looked
//! up, or loaded from it.
#![tactic(auto)]

mod after;
mod bisect;
mod branches;
mod cache;
pub mod client;
mod find;
mod forgetting;
mod holding;
mod keeping;
mod last;
mod laws;
mod nth;
mod range_scan;
mod ranks;
mod reading;
mod scan;

pub use crate::cache::NodeCache;
pub use crate::holding::same_leaf;
pub use crate::last::is_block_of;
pub use crate::laws::kept_nodes_stay;
pub use crate::nth::Nth;
pub use crate::ranks::{last_rank, rank};
pub use crate::reading::read_node;
