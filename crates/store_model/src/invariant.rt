// Laws of what is always so: fields of the invariant that each event keeps.

ghost use Rattle.std.specs.Prelude.{◌≡◌, ℕ, List, length, map};
ghost use Rattle.index_tree.specs.Distinct.{AreDistinct};
ghost use Rattle.index_tree.specs.Shape.{node_count};
ghost use Rattle.fs_model.specs.Orphan.{nameless};
ghost use Rattle.fs_model.specs.Proper.{IsProper};
ghost use Rattle.store_model.specs.Events.{after, Event, Offer, Put, Putting, Start};
ghost use Rattle.store_model.specs.Invariant.{AreProper, AreWholeOrLeft, HasListedOrphans, HasViews, IsLight, IsStore, LeadsTo, OfBoth};
ghost use Rattle.store_model.specs.Legal.{IsLegalEvent};
ghost use Rattle.store_model.specs.Store.{Store as AnyStore};

use crate::law::{
    a_commit_keeps_what_was_committed, a_copy_keeps_what_was_committed, a_drop_keeps_the_files,
    a_put_keeps_the_files, a_sync_keeps_the_files, an_opened_leb_keeps_the_files,
};
use fs_laws::{a_dropped_inode_keeps_trees_proper, a_mount_keeps_trees_proper};
use leaf_map::{leaves_stay_distinct, the_last_change_wins};

/// Each event keeps it that committed inodes without links are listed. A put revives and drops none, one that is closed is noted, and a
/// commit's list has those that have no name or were closed.
pub fn each_event_keeps_the_orphans()
    ensures { (m : AnyStore) (event : Event) → IsLegalEvent m event → IsStore m → HasListedOrphans (after event m) }
{}

/// Each event keeps it that the index weighs no more than a view's, when its commit began, and the nodes that were put since.
pub fn each_event_keeps_the_weight()
    ensures { (m : AnyStore) (event : Event) → IsLegalEvent m event → IsStore m → OfBoth (after event m) (IsLight (after event m)) }
{}

/// Each event keeps what was committed: a copied leaf stands in a LEB that is none of the journal's, so it is one of both views'.
pub fn each_event_keeps_what_was_committed()
    ensures { (m : AnyStore) (event : Event) → IsLegalEvent m event → IsStore m → HasViews (after event m) }
{
    a_put_keeps_the_files();
    a_sync_keeps_the_files();
    an_opened_leb_keeps_the_files();
    a_drop_keeps_the_files();
    a_copy_keeps_what_was_committed();
    a_commit_keeps_what_was_committed();
}

/// The open inodes that a store tells without a name are those of its tree, after each event.
pub fn each_event_keeps_who_has_no_name()
    ensures { (m : AnyStore) (event : Event) → IsLegalEvent m event → IsStore m → map (λ orphan. orphan.ino) (after event m).orphans ≡ nameless (after event m).tree }
{}

/// Once a commit's list may be on the medium, each LEB has all its committed leaves still, or none needs to stand. A leaf that needn't
/// because its inode is listed is on that list too.
pub fn an_offered_list_has_what_may_be_empty()
    ensures { (m : AnyStore) → IsStore m → OfBoth (after Offer m) (AreWholeOrLeft (after Offer m)) }
{}

/// No two live leaves stand at one place, after each event: what is put or copied stands at the end of a head, behind all that its LEB
/// has.
pub fn each_event_keeps_leaves_apart()
    ensures { (m : AnyStore) (event : Event) → IsLegalEvent m event → IsStore m → AreDistinct (map (λ x. x.leaf) (after event m).live) }
{
    leaves_stay_distinct();
}

/// Each event keeps it that each node of the index has a place, or none yet.
pub fn each_event_keeps_a_place_for_each_node()
    ensures { (m : AnyStore) (event : Event) → IsLegalEvent m event → length m.index.places ≡ node_count m.index.shape → length (after event m).index.places ≡ node_count (after event m).index.shape }
{}

/// The files are a proper tree after each event, also where an inode without a name was dropped.
pub fn each_event_keeps_a_proper_tree()
    ensures { (m : AnyStore) (event : Event) → IsLegalEvent m event → IsStore m → IsProper (after event m).tree }
{
    a_dropped_inode_keeps_trees_proper();
}

/// Each event keeps it that all groups since a view's commit began lead to the files, but for inodes without a name. A group brings back
/// no inode, so its replay makes of the committed tree what it made of the files.
pub fn each_event_keeps_the_history()
    ensures { (m : AnyStore) (event : Event) → IsLegalEvent m event → IsStore m → OfBoth (after event m) (LeadsTo (after event m).tree) }
{
    the_last_change_wins();
}

/// Each event but a put keeps it that the trees which a cut may leave are proper.
pub fn each_event_but_a_put_keeps_cut_trees_proper()
    ensures { (m : AnyStore) (event : Event) → IsLegalEvent m event → ((p : Putting) → event ≡ Put p → ⊥) → IsStore m → OfBoth (after event m) AreProper }
{
    a_mount_keeps_trees_proper();
}

/// All leaves that a commit starts with stand, in front of where the heads end in their LEBs; and those of the last commit stand as
/// before, or need not.
pub fn a_commit_starts_with_whole_lebs()
    ensures { (m : AnyStore) (taken : List ℕ) → IsLegalEvent m (Start taken) → IsStore m → OfBoth (after (Start taken) m) (AreWholeOrLeft (after (Start taken) m)) }
{}
