//! What is the text of a LEB: which nodes stand in it, where does it end, and is the end clean?
//!
//! From a place on, the text is nodes and gaps, one behind another, each at a multiple of 8.
//! `specs/Text.antt` says what a node, a padding node with its gap, and a word of padding bytes are,
//! and when the end is unwritten or torn. Bytes have exactly one text. [`Scanner`] gives its nodes
//! one by one and takes no memory: of each place one function tells which item begins there, if any,
//! and what stands behind the last node is told at the end alone. [`scan`] gathers the nodes.
#![tactic(auto)]

mod blank;
mod found;
mod gather;
mod item;
mod item_at;
mod laws;
mod node_at;
mod scanned;
mod scanner;
mod tail;

pub use crate::found::Found;
pub use crate::gather::{scan, text_end};
pub use crate::item::Item;
pub use crate::laws::{aligned_nodes, meant_item, one_text, untorn_is_meant, unwritten_is_meant};
pub use crate::scanned::Scan;
pub use crate::scanner::Scanner;
pub use crate::tail::Tail;
