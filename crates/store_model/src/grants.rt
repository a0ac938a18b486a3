// Laws of what was granted, which stays covered, and of steps that leave a store settled.

ghost use Rattle.std.specs.Prelude.{ℕ, List};
ghost use Rattle.space_budget.specs.Books.{AreGrantsCovered};
ghost use Rattle.store_model.specs.Backing.{book_of};
ghost use Rattle.store_model.specs.Events.{after, Begin, Copying, Drop, End, Event, Free, Move, Open, Put, Putting, Start, Sync, Write};
ghost use Rattle.store_model.specs.Invariant.{AreRolesApart, HasFiles, HasNextIndex, IsStore};
ghost use Rattle.store_model.specs.Lebs.{IsStoreSettled};
ghost use Rattle.store_model.specs.Legal.{IsLegalEvent};
ghost use Rattle.store_model.specs.Store.{StoreIndex as AnyIndex, Store as AnyStore};

use crate::law::{a_put_spends_what_was_granted, bytes_follow_the_leaves};
use space_sums::{
    a_commit_keeps_what_was_granted, a_settled_store_can_commit,
    what_takes_no_more_keeps_what_was_granted, what_was_admitted_can_be_put,
};

/// What was granted stays covered, the credits and the next group's bytes and nodes: a put takes no more than what pays for it, and
/// neither bytes nor weight grow where a LEB is opened, all is synced, an inode goes, a victim is freed or a commit starts.
pub fn what_was_granted_stays_covered()
    ensures put { (m : AnyStore) (p : Putting) → IsLegalEvent m (Put p) → HasFiles m → AreGrantsCovered (book_of m) → AreGrantsCovered (book_of (after (Put p) m)) }
    ensures opened { (m : AnyStore) (head lnum : ℕ) → IsLegalEvent m (Open head lnum) → AreRolesApart m → AreGrantsCovered (book_of m) → AreGrantsCovered (book_of (after (Open head lnum) m)) }
    ensures synced { (m : AnyStore) → AreGrantsCovered (book_of m) → AreGrantsCovered (book_of (after Sync m)) }
    ensures dropped { (m : AnyStore) (ino : ℕ) (index : AnyIndex) → IsLegalEvent m (Drop ino index) → HasFiles m → AreGrantsCovered (book_of m) → AreGrantsCovered (book_of (after (Drop ino index) m)) }
    ensures freed { (m : AnyStore) → IsLegalEvent m Free → AreRolesApart m → AreGrantsCovered (book_of m) → AreGrantsCovered (book_of (after Free m)) }
    ensures started { (m : AnyStore) (taken : List ℕ) → IsLegalEvent m (Start taken) → AreRolesApart m → AreGrantsCovered (book_of m) → AreGrantsCovered (book_of (after (Start taken) m)) }
{
    a_put_spends_what_was_granted();
    bytes_follow_the_leaves();
    what_was_admitted_can_be_put();
    what_takes_no_more_keeps_what_was_granted();
}

/// A store stays settled, also as the end of a running commit leaves it, through all that opens no LEB and puts no node: a sync, an
/// inode that goes, and a collection, whose victim is empty at last in the place of a LEB that was lent to it.
pub fn a_store_stays_settled()
    ensures synced { (m : AnyStore) → IsStoreSettled m → IsStoreSettled (after Sync m) }
    ensures dropped { (m : AnyStore) (ino : ℕ) (index : AnyIndex) → IsStoreSettled m → IsStoreSettled (after (Drop ino index) m) }
    ensures begun { (m : AnyStore) (victim : ℕ) → IsLegalEvent m (Begin victim) → IsStoreSettled m → IsStoreSettled (after (Begin victim) m) }
    ensures moved { (m : AnyStore) (c : Copying) → IsStoreSettled m → IsStoreSettled (after (Move c) m) }
    ensures freed { (m : AnyStore) → AreRolesApart m → IsStoreSettled m → IsStoreSettled (after Free m) }
{}

/// The writing of a running commit's LEBs changes no number that admission reckons with: what was granted stays covered, and the store
/// settled.
pub fn a_commits_writing_changes_no_number()
    ensures covered { (m : AnyStore) → AreGrantsCovered (book_of m) → AreGrantsCovered (book_of (after Write m)) }
    ensures settled { (m : AnyStore) → IsStoreSettled m → IsStoreSettled (after Write m) }
{
    what_takes_no_more_keeps_what_was_granted();
}

/// Each event keeps it that a running commit's index has no more LEBs than twice what the store's weight asks for, and weighs no more
/// than the store does. At its start that is so because it writes all nodes anew where the changed ones would take more.
pub fn each_event_keeps_a_running_commits_index_small()
    ensures { (m : AnyStore) (event : Event) → IsLegalEvent m event → IsStore m → HasNextIndex (after event m) (after event m).next }
{}

/// A commit's end leaves a store settled, and what was granted covered: the index has no more LEBs than was reckoned with, since each LEB
/// that the commit took has a node of its index, and all that it had beside are empty.
pub fn a_commits_end_keeps_what_was_granted()
    ensures covered { (m : AnyStore) → IsLegalEvent m End → IsStore m → AreGrantsCovered (book_of (after End m)) }
    ensures settled { (m : AnyStore) → IsLegalEvent m End → IsStore m → IsStoreSettled (after End m) }
{
    a_commit_keeps_what_was_granted();
}

/// A commit's start leaves a store settled, also as the commit's end leaves it: as a cut leaves the store, what was taken is empty again.
pub fn a_commits_start_keeps_a_store_settled()
    ensures { (m : AnyStore) (taken : List ℕ) → IsLegalEvent m (Start taken) → IsStore m → IsStoreSettled (after (Start taken) m) }
{
    each_event_keeps_a_running_commits_index_small();
    a_settled_store_can_commit();
}

/// Each event keeps a store settled, also as the end of a running commit leaves it. A put and a LEB that is opened ask for it, and no
/// other event takes a LEB away for good.
pub fn each_event_keeps_a_store_settled()
    ensures { (m : AnyStore) (event : Event) → IsLegalEvent m event → IsStore m → IsStoreSettled (after event m) }
{
    a_store_stays_settled();
    a_commits_writing_changes_no_number();
    a_commits_start_keeps_a_store_settled();
    a_commits_end_keeps_what_was_granted();
}
