//! What is a store, what does it do, and what may a cut leave of it?
//!
//! A store is one plain value over lists and whole numbers (`specs/Store.antt`): the files, the index and its leaves, what
//! each master leads to, what the heads got, and what each main LEB is for. What it does are eleven events
//! (`specs/Events.antt`), each with a condition (`specs/Legal.antt`), and an invariant is to hold of it (`specs/Invariant.antt`).
//! The idea: a commit that runs is a second view beside the first, so what a mount finds is one question of one view.
#![tactic(auto)]

mod accounts;
mod backing;
mod grants;
mod invariant;
mod law;
mod lebs;
mod recovery;
mod texts;
mod whole;
mod worked;

pub use crate::accounts::{
    each_event_keeps_what_is_gone, each_event_leaves_lebs_whole_or_left,
    each_event_loses_no_committed_leaf,
};
pub use crate::backing::{
    a_commits_end_is_a_backings, a_commits_start_is_a_backings, a_drop_is_a_backings,
    a_put_is_a_backings, a_sync_is_a_backings, an_opened_leb_is_no_backings,
    each_event_keeps_what_a_commit_began_on, each_event_keeps_what_the_journal_leads_to,
};
pub use crate::grants::{
    a_commits_end_keeps_what_was_granted, a_commits_start_keeps_a_store_settled,
    a_commits_writing_changes_no_number, a_store_stays_settled,
    each_event_keeps_a_running_commits_index_small, each_event_keeps_a_store_settled,
    what_was_granted_stays_covered,
};
pub use crate::invariant::{
    a_commit_starts_with_whole_lebs, an_offered_list_has_what_may_be_empty,
    each_event_but_a_put_keeps_cut_trees_proper, each_event_keeps_a_place_for_each_node,
    each_event_keeps_a_proper_tree, each_event_keeps_leaves_apart, each_event_keeps_the_history,
    each_event_keeps_the_orphans, each_event_keeps_the_weight, each_event_keeps_what_was_committed,
    each_event_keeps_who_has_no_name,
};
pub use crate::law::{
    a_commit_keeps_what_was_committed, a_copy_keeps_what_was_committed, a_drop_keeps_the_files,
    a_lent_leb_comes_back, a_put_keeps_the_files, a_put_leaves_a_proper_tree,
    a_put_leaves_room_for_a_commit, a_put_skips_no_number, a_put_spends_what_was_granted,
    a_sync_comes_first, a_sync_keeps_the_files, an_opened_leb_keeps_the_files,
    bytes_follow_the_leaves, each_event_keeps_blocks_with_their_inodes, each_event_keeps_the_files,
    each_event_keeps_the_head_of_data, each_event_keeps_the_log, each_event_keeps_the_numbers,
};
pub use crate::lebs::{
    a_collection_keeps_what_lebs_are_for, a_commit_keeps_what_lebs_are_for,
    a_running_commit_gets_what_is_put, a_running_commit_keeps_its_lebs,
    each_event_keeps_other_lebs_bare, each_event_keeps_what_a_commit_took,
    each_event_keeps_what_came_since, each_event_keeps_what_lebs_are_for,
    each_event_keeps_what_places_a_commit_allotted, lebs_are_counted, lebs_keep_what_they_are_for,
};
pub use crate::recovery::{a_store_is_recovered, what_fits_is_recovered, what_fits_loses_no_leaf};
pub use crate::texts::{
    leaves_are_of_the_views, live_leaves_stand, nodes_of_the_index_are_written_first,
    nodes_of_the_index_stay, texts_have_what_was_put,
};
pub use crate::whole::{
    a_begin_and_an_offer_keep_a_store, a_sync_and_a_drop_keep_a_store, an_opened_leb_keeps_a_store,
    each_event_keeps_a_store,
};
pub use crate::worked::{
    a_collection_is_told, a_commit_is_told, a_long_run_is_told, a_put_is_told, a_sync_is_told,
    a_worked_store_is_one, an_orphan_closed_in_a_commit_is_told, cuts_of_a_long_run_are_told,
    worked_runs_are_legal, worked_states_stand,
};
