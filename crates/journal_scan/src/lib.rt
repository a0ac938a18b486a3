//! What do the LEBs that a log names say, as a mount reads them?
//!
//! Each is a text of nodes and gaps (`leb_scan`), and here only its leaf nodes count. The nodes of the heads base and data
//! stand in groups, and the group at the end of a text that lacks its last node is dropped. The collector takes nodes out of
//! their groups, so each node of its head stands by itself. The idea: what a mount applies is one list of nodes in order of
//! number, whatever head they came by, and of each node only what tells which leaf it makes obsolete; data stays where it is.
//! `specs/Journal.antt` says all of it over lists.
#![tactic(auto)]

mod bud_text;
mod content;
mod journal_node;
mod journal_read;
mod laws;
mod leaves;
mod node_content;
mod read;

pub use crate::bud_text::BudText;
pub use crate::content::read_content;
pub use crate::journal_node::JournalNode;
pub use crate::journal_read::JournalRead;
pub use crate::laws::{groups_are_whole, leaves_are_joined, nodes_have_places};
pub use crate::node_content::NodeContent;
pub use crate::read::read_journal;
