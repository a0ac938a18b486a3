// Laws of committed leaves: what becomes of each.

ghost use Rattle.store_model.specs.Events.{after, Event};
ghost use Rattle.store_model.specs.Invariant.{AreAccountedFor, AreWholeOrLeft, HasGone, IsStore, OfBoth};
ghost use Rattle.store_model.specs.Legal.{IsLegalEvent};
ghost use Rattle.store_model.specs.Store.{Store as AnyStore};

/// Each event keeps it that a committed leaf is live, or held, or copied out of a victim, or needn't stand. What is held was made obsolete by
/// groups that a sync leaves synced, what goes with a synced orphan needn't stand, and once a victim is freed its copies are synced.
pub fn each_event_loses_no_committed_leaf()
    ensures { (m : AnyStore) (event : Event) → IsLegalEvent m event → IsStore m → OfBoth (after event m) (AreAccountedFor (after event m)) }
{}

/// What is gone since a commit stays so, after each event: a committed inode without links gets none, groups since, synced or not,
/// made each held leaf that the view has obsolete, and took the last name of each orphan.
pub fn each_event_keeps_what_is_gone()
    ensures { (m : AnyStore) (event : Event) → IsLegalEvent m event → IsStore m → OfBoth (after event m) (HasGone (after event m)) }
{}

/// Of each LEB all committed leaves stand or none needs to, after each event. A LEB that is emptied has no live leaf and no held one, and is
/// no victim; so what was committed there needn't stand.
pub fn each_event_leaves_lebs_whole_or_left()
    ensures { (m : AnyStore) (event : Event) → IsLegalEvent m event → IsStore m → OfBoth (after event m) (AreWholeOrLeft (after event m)) }
{}
