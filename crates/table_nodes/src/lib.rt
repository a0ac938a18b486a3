//! Nodes of an index that lead to one another by number, and what is seen of them.
//!
//! A node has links: to leaves on the lowest level, and else to nodes that were added before it. What is seen of nodes is said from the first one on,
//! each over those before it (`specs/NodeView.antt`). So nodes that are added change nothing of what was seen.
//! A node may also be one that isn't loaded. It has a place and no links, and tells what the LEBs held when it was met, so that its children are the
//! row that stood there (`specs/Beyond.antt`). Such a node is opened by reading it alone.
#![tactic(auto)]

mod bisect;
mod child_links;
mod link;
mod node;
mod seen;
mod stub_client;
mod stub_node;
mod stub_reading;
mod stubs;

pub use crate::bisect::{begin_below, begin_within, links_passed, lower_links_passed};
pub use crate::child_links::push_children;
pub use crate::link::Link;
pub use crate::node::{NodePlace, Root, TableNode};
pub use crate::seen::{MediumSeen, see_medium, tell_again};
pub use crate::stub_client::{OpenedNode, open_on, open_second};
pub use crate::stub_node::{StubNode, stub_at};
pub use crate::stub_reading::open_node;
pub use crate::stubs::open_branches;
