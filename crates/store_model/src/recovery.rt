// Laws of recovery: what a mount may read after a cut loses no leaf that was committed.

ghost use Rattle.std.specs.Prelude.{◌≡◌, ◌==◌, ℕ, IsTrue, Some, true};
ghost use Rattle.std.specs.List.{AllByRecursion, list_any};
ghost use Rattle.fs_model.specs.Change.{apply};
ghost use Rattle.fs_model.specs.Orphan.{is_nameless};
ghost use Rattle.fs_model.specs.Recovery.{IsRecovered, by_number};
ghost use Rattle.leaf_map.specs.Allowed.{AreRead, FitsLeaves, IsSafe, in_turn};
ghost use Rattle.leaf_map.specs.Parts.{Parts};
ghost use Rattle.leaf_map.specs.Recovered.{committed_highest, nodes_in_order, tree_found};
ghost use Rattle.leaf_map.specs.Shown.{tree_of};
ghost use Rattle.store_model.specs.Fits.{Faced, FitsStore, FitsFaced, faced_now, faces};
ghost use Rattle.store_model.specs.Heads.{heads_of, synced_since};
ghost use Rattle.store_model.specs.Invariant.{AreChangesCarried, HasCommittedView, HaveOrphans, IsStore, are_other, faced_later, head_numbers};
ghost use Rattle.store_model.specs.Recovery.{IsFoundBy, read_changes};
ghost use Rattle.store_model.specs.Store.{Next as AnyNext, Store as AnyStore};

use leaf_map::{
    a_mount_finds_what_a_cut_may_leave, the_last_change_wins, what_loses_nothing_fits,
    what_makes_obsolete_touches,
};

/// What fits a view loses no committed leaf: each is found at its own place or as a copy, or the groups that were read touch
/// what it shows, or it is of a listed inode that goes. Own nodes and copies are those of committed leaves. What has no name
/// at last is listed.
pub fn what_fits_loses_no_leaf()
    ensures read { (f : Faced) (parts : Parts) → HasCommittedView f.view → FitsFaced f parts → FitsLeaves parts f.view.kept }
    ensures safe { (f : Faced) (parts : Parts) → HasCommittedView f.view → (fits : FitsFaced f parts)
        → AllByRecursion (IsSafe parts (tree_of f.view.kept (committed_highest parts)) (in_turn (read_changes f parts fits))) f.view.kept }
    ensures listed { (f : Faced) (parts : Parts) → HasCommittedView f.view → HaveOrphans f f.lists → (fits : FitsFaced f parts) → (q : ℕ)
        → is_nameless (apply (tree_of f.view.kept (committed_highest parts)) (in_turn (read_changes f parts fits))) q ≡ true → list_any (λ ino. q == ino) parts.listed ≡ true }
{
    the_last_change_wins();
    what_makes_obsolete_touches();
}

/// What fits a view is recovered to a tree that a cut may leave of the view's tree and its heads. The nodes that were read
/// carry the changes of the groups, both in order of number, since no number stands at two heads.
pub fn what_fits_is_recovered()
    ensures nodes { (f : Faced) (parts : Parts) → AreChangesCarried f.view → IsTrue (are_other (head_numbers f.view.buds 1) (head_numbers f.view.buds 2)) → (fits : FitsFaced f parts)
        → AreRead (nodes_in_order parts.nodes) (by_number (read_changes f parts fits)) }
    ensures tree { (f : Faced) (parts : Parts) → HasCommittedView f.view → AreChangesCarried f.view → IsTrue (are_other (head_numbers f.view.buds 1) (head_numbers f.view.buds 2)) → HaveOrphans f f.lists
        → FitsFaced f parts → IsRecovered f.view.tree (heads_of f.view.buds f.synced) (tree_found parts) }
{
    a_mount_finds_what_a_cut_may_leave();
    what_loses_nothing_fits();
    what_fits_loses_no_leaf();
}

/// A store is recovered to a tree that a cut may leave, by either master: of the last finished commit's tree, or of the tree on
/// which the running commit began. So it is of whatever a mount may read after a cut.
pub fn a_store_is_recovered()
    ensures now { (m : AnyStore) (parts : Parts) → IsStore m → FitsFaced (faced_now m) parts → IsRecovered m.now.tree (heads_of m.now.buds m.synced) (tree_found parts) }
    ensures next { (m : AnyStore) (next : AnyNext) (parts : Parts) → IsStore m → m.next ≡ Some next → FitsFaced (faced_later m next) parts
        → IsRecovered next.view.tree (heads_of next.view.buds (synced_since m next)) (tree_found parts) }
    ensures any { (m : AnyStore) (parts : Parts) → IsStore m → FitsStore m parts → IsFoundBy (faces m) (tree_found parts) }
{
    what_fits_is_recovered();
}
