// Laws of the whole invariant: what each event keeps of it together.

ghost use Rattle.std.specs.Prelude.{ℕ};
ghost use Rattle.store_model.specs.Events.{after, Begin, Drop, Event, Offer, Open, Sync};
ghost use Rattle.store_model.specs.Invariant.{HasRest, IsStore};
ghost use Rattle.store_model.specs.Legal.{IsLegalEvent};
ghost use Rattle.store_model.specs.Store.{StoreIndex as AnyIndex, Store as AnyStore};

use crate::accounts::{
    each_event_keeps_what_is_gone, each_event_leaves_lebs_whole_or_left,
    each_event_loses_no_committed_leaf,
};
use crate::backing::{
    each_event_keeps_what_a_commit_began_on, each_event_keeps_what_the_journal_leads_to,
};
use crate::grants::{
    each_event_keeps_a_running_commits_index_small, each_event_keeps_a_store_settled,
    what_was_granted_stays_covered,
};
use crate::invariant::{
    each_event_but_a_put_keeps_cut_trees_proper, each_event_keeps_a_place_for_each_node,
    each_event_keeps_a_proper_tree, each_event_keeps_leaves_apart, each_event_keeps_the_history,
    each_event_keeps_the_orphans, each_event_keeps_the_weight, each_event_keeps_what_was_committed,
    each_event_keeps_who_has_no_name,
};
use crate::law::{
    each_event_keeps_blocks_with_their_inodes, each_event_keeps_the_files,
    each_event_keeps_the_head_of_data, each_event_keeps_the_log, each_event_keeps_the_numbers,
};
use crate::lebs::{
    each_event_keeps_other_lebs_bare, each_event_keeps_the_main_area,
    each_event_keeps_what_a_commit_took, each_event_keeps_what_came_since,
    each_event_keeps_what_lebs_are_for, each_event_keeps_what_places_a_commit_allotted,
};
use crate::texts::{
    leaves_are_of_the_views, live_leaves_stand, nodes_of_the_index_are_written_first,
    nodes_of_the_index_stay, texts_have_what_was_put,
};

/// After each event a store is a store again, if four things are so of it: the trees that a cut may leave, texts, the nodes of the indexes,
/// and cover. All else is kept by each event.
pub fn each_event_keeps_a_store()
    ensures { (m : AnyStore) (event : Event) → IsLegalEvent m event → IsStore m → HasRest (after event m) → IsStore (after event m) }
{
    each_event_keeps_the_main_area();
    each_event_loses_no_committed_leaf();
    each_event_keeps_what_is_gone();
    each_event_leaves_lebs_whole_or_left();
    each_event_keeps_the_files();
    each_event_keeps_blocks_with_their_inodes();
    each_event_keeps_what_was_committed();
    each_event_keeps_leaves_apart();
    each_event_keeps_a_place_for_each_node();
    live_leaves_stand();
    each_event_keeps_other_lebs_bare();
    each_event_keeps_a_proper_tree();
    each_event_keeps_the_head_of_data();
    each_event_keeps_the_history();
    each_event_keeps_what_the_journal_leads_to();
    each_event_keeps_the_numbers();
    each_event_keeps_the_orphans();
    each_event_keeps_who_has_no_name();
    each_event_keeps_what_lebs_are_for();
    each_event_keeps_what_a_commit_took();
    each_event_keeps_what_places_a_commit_allotted();
    each_event_keeps_what_came_since();
    each_event_keeps_what_a_commit_began_on();
    leaves_are_of_the_views();
    each_event_keeps_the_weight();
    each_event_keeps_a_running_commits_index_small();
    each_event_keeps_a_store_settled();
    each_event_keeps_the_log();
}

/// A LEB that is opened keeps the whole invariant: no committed leaf stood in it, since an empty LEB has no leaf node. What was
/// granted stays covered, and the store is settled, as the event asks.
pub fn an_opened_leb_keeps_a_store()
    ensures { (m : AnyStore) (head lnum : ℕ) → IsLegalEvent m (Open head lnum) → IsStore m → IsStore (after (Open head lnum) m) }
{
    each_event_keeps_a_store();
    each_event_but_a_put_keeps_cut_trees_proper();
    texts_have_what_was_put();
    nodes_of_the_index_stay();
    what_was_granted_stays_covered();
}

/// A collection's begin and the offer of a commit's master keep the whole invariant.
pub fn a_begin_and_an_offer_keep_a_store()
    ensures begun { (m : AnyStore) (victim : ℕ) → IsLegalEvent m (Begin victim) → IsStore m → IsStore (after (Begin victim) m) }
    ensures offered { (m : AnyStore) → IsLegalEvent m Offer → IsStore m → IsStore (after Offer m) }
{
    each_event_keeps_a_store();
    each_event_but_a_put_keeps_cut_trees_proper();
    nodes_of_the_index_are_written_first();
}

/// A sync and an inode without a name that goes keep the whole invariant, though both empty LEBs.
pub fn a_sync_and_a_drop_keep_a_store()
    ensures synced { (m : AnyStore) → IsStore m → IsStore (after Sync m) }
    ensures dropped { (m : AnyStore) (ino : ℕ) (index : AnyIndex) → IsLegalEvent m (Drop ino index) → IsStore m → IsStore (after (Drop ino index) m) }
{
    each_event_keeps_a_store();
    each_event_but_a_put_keeps_cut_trees_proper();
    texts_have_what_was_put();
    nodes_of_the_index_stay();
    what_was_granted_stays_covered();
}
