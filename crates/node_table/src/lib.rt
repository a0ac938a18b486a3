//! Nodes of an index in a table, named by number: what is looked up below a root of them, and how changes add nodes.
//!
//! A change adds nodes, and none is changed where it stands but for its place, which a commit gives it once. So whoever
//! holds a root goes on seeing its index, whatever is added, and the places that its nodes get.
//! table_nodes says what is seen of the nodes, from the first one on, and what holds of each.
//! A look-up goes down loaded nodes in memory, and on on the volume below one that isn't loaded.
#![tactic(auto)]

mod after;
mod bounds;
mod change;
pub mod client;
mod compacting;
mod copying;
mod counting;
mod counts;
mod dirty;
mod exchange;
mod find;
mod holding;
mod insertion;
mod last;
mod laws;
mod opening;
mod placing;
mod pruning;
mod range_removal;
mod range_scan;
mod removal;
mod rooting;
mod scan;
mod staging;
mod table;
mod unloaded;
mod volume_counting;

pub use crate::change::Change;
pub use crate::compacting::Compacted;
pub use crate::counts::TreeCounts;
pub use crate::laws::{clean_rows_are_placed, places_are_kept, roots_stay};
pub use crate::range_removal::RangeRemoved;
pub use crate::table::NodeTable;
pub use crate::volume_counting::count_below;
