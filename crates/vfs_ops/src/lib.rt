//! What does a caller's operation answer and leave, over any backing with dirty pages in front of it? An operation is planned
//! over the present files, its group of changes is admitted, and then it is put. The idea: the plan is the definition's own,
//! the laws of groups say that a backing takes it, and what is kept in memory follows. Whatever comes, the present files are
//! those of the definition, or as they were.
#![tactic(auto)]

mod answers;
mod apply;
mod background;
mod changes;
mod done;
mod event;
mod fs;
mod handles;
mod laws;
mod needs;
mod pages;
mod reads;
mod replies;
mod syncs;
mod truncations;
mod writes;

pub use crate::changes::change;
pub use crate::done::Done;
pub use crate::event::{Encoded, Event, Outcome};
pub use crate::fs::Fs;
pub use crate::laws::{
    a_call_adds_few_nodes, a_cut_after_a_flush_leaves_the_files,
    a_cut_leaves_old_values_or_new_ones, a_plain_answer_is_no_refusal,
    a_reply_with_bytes_leaves_the_files, alike_files_answer_alike, alike_files_ask_alike,
    an_operation_leaves_one_orphan_at_most,
};
pub use crate::replies::copied_reply;
