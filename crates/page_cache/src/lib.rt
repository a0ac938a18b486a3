//! Which pages of files are kept in memory, and which of them does the medium not have yet? Dirty pages stand in the order in which they became
//! dirty, each with its bytes and the number of the call that wrote them, its version. Of clean pages those used last are kept, up to a number. Dirty
//! pages are found by name in an index map. Each took a place in a queue when it became dirty, and a page that is clean again just leaves its place
//! behind, wherever it stands. Places that were left go once they come to the front, and all of them once they are more than the others by two. So a
//! page is found, added or taken out at a cost that doesn't grow with the pages. Only what is asked of all pages of an inode goes over the places.
//! The invariant: each dirty page has one place, and places that were left are no more than the others and one. No page is both dirty and clean, and
//! no version is past the count of calls.
#![tactic(auto)]

mod cache;
mod dirty_page;
mod dirty_queue;
mod page_list;
mod place;
mod places;
mod ticket;

pub use crate::cache::Cache;
pub use crate::dirty_page::DirtyPage;
pub use crate::ticket::Ticket;
