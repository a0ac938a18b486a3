//! What are the files, where pages of them are written in memory and not yet put? A backing keeps a tree; in front of it stand the dirty pages with
//! the inodes of their files, and who has which file open. The present files are the backing's tree under what is kept here. The idea: a write
//! changes what is kept and leaves the backing alone, and a put moves a page down without a change that a caller sees. What is kept follows a group
//! of changes that is put. The invariant (`IsKept`): each dirty page has its file's inode beside it, and that inode fits the file in the tree. Each
//! dirty page is paid by a credit that the backing covers.
#![tactic(auto)]

mod admission;
mod commits;
mod copies;
mod dirty_inodes;
mod encoded;
mod groups;
mod handles;
mod kept;
mod law;
mod orphans;
mod put;
mod reads;
mod sizes;
mod truncations;
mod writes;
mod written_pages;

pub use crate::admission::{admit, make_room};
pub use crate::commits::commit;
pub use crate::dirty_inodes::DirtyInodes;
pub use crate::encoded::{has_bytes, page_bytes};
pub use crate::groups::{apply_group, put_group};
pub use crate::handles::Handles;
pub use crate::kept::Kept;
pub use crate::law::{
    a_cut_leaves_what_was_put, alike_files_are_the_same, clean_files_are_those_of_the_backing,
    groups_leave_files_alike, present_files_are_sound, resized_files_stay_alike,
    written_files_stay_alike,
};
pub use crate::orphans::drop_orphan;
pub use crate::put::{put_oldest, put_ticket, write_back, write_back_file};
pub use crate::reads::{bytes, inode, size};
pub use crate::sizes::set_size;
pub use crate::writes::{newly, write};
pub use page_cache::Ticket;
