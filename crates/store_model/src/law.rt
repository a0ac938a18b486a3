// Laws of the events: what each keeps of the invariant.

ghost use Rattle.std.specs.Prelude.{◌≡◌, ℕ, ◌+◌, ◌≤◌, List, ◌∷◌, [], length, map, None, Some};
ghost use Rattle.ubifs_base.specs.Geometry.{IsGeometry};
ghost use Rattle.index_tree.specs.Distinct.{AreDistinct};
ghost use Rattle.fs_model.specs.declared.change.Change.{Change};
ghost use Rattle.fs_model.specs.declared.change.Change.TheVariants.{SetBlock, SetInode};
ghost use Rattle.fs_model.specs.declared.page_node.PageNode.{PageNode as AnyPage};
ghost use Rattle.fs_model.specs.declared.space.Grant.{Grant as AnyGrant};
ghost use Rattle.fs_model.specs.Backing.{FitsGroup, FitsPage};
ghost use Rattle.fs_model.specs.Change.{apply};
ghost use Rattle.fs_model.specs.Files.{Tree};
ghost use Rattle.fs_model.specs.Proper.{IsProper};
ghost use Rattle.space_sums.specs.Spaces.{IsAfterGroup, IsAfterPage};
ghost use Rattle.store_model.specs.Backing.{Outside, backing_of};
ghost use Rattle.store_model.specs.Events.{after, Begin, Copying, credit, Drop, End, Event, Free, granted, Move, nodes_len, Offer, Open, Put, Putting, Start, Sync, Write};
ghost use Rattle.store_model.specs.Invariant.{AreOwned, HasDataHead, HasFiles, HasNumbers, HasViews, OfBoth};
ghost use Rattle.store_model.specs.Lebs.{IsStoreSettled, lent, space_of};
ghost use Rattle.store_model.specs.Legal.{IsAllSynced, IsLeafOf, IsLegalEvent, KeepsProper, need_of_grant, nodes_of_parts};
ghost use Rattle.store_model.specs.LogRing.{HasLogLebs};
ghost use Rattle.store_model.specs.Store.{StoreIndex as AnyIndex, Store as AnyStore};

use fs_laws::trees_built_alike_are_proper;
use leaf_map::{
    a_change_of_leaves_is_one_of_the_tree, a_copy_changes_no_tree, bytes_of_leaves_add_up,
};

/// A put keeps the files: its leaves show the tree after its changes, and the index has them. It keeps the numbers: those of its
/// groups are the next ones. What was committed stays whole, and its nodes carry its changes.
pub fn a_put_keeps_the_files()
    ensures files { (m : AnyStore) (p : Putting) → IsLegalEvent m (Put p) → HasFiles m → HasFiles (after (Put p) m) }
    ensures numbers { (m : AnyStore) (p : Putting) → IsLegalEvent m (Put p) → HasNumbers m → HasNumbers (after (Put p) m) }
    ensures views { (m : AnyStore) (p : Putting) → IsLegalEvent m (Put p) → HasViews m → HasViews (after (Put p) m) }
{
    a_change_of_leaves_is_one_of_the_tree();
}

/// A sync keeps the files, the numbers and what was committed, and all that was put is synced afterwards. As a backing the store has the tree that
/// it had.
pub fn a_sync_keeps_the_files()
    ensures files { (m : AnyStore) → HasFiles m → HasFiles (after Sync m) }
    ensures numbers { (m : AnyStore) → HasNumbers m → HasNumbers (after Sync m) }
    ensures views { (m : AnyStore) → HasViews m → HasViews (after Sync m) }
    ensures synced { (m : AnyStore) → IsAllSynced (after Sync m) }
    ensures tree { (m : AnyStore) (outside : Outside) → (backing_of (after Sync m) outside).tree ≡ (backing_of m outside).tree }
{}

/// A LEB that is opened at a head keeps the files, the numbers and what was committed.
pub fn an_opened_leb_keeps_the_files()
    ensures numbers { (m : AnyStore) (head lnum : ℕ) → IsLegalEvent m (Open head lnum) → HasNumbers m → HasNumbers (after (Open head lnum) m) }
    ensures views { (m : AnyStore) (head lnum : ℕ) → IsLegalEvent m (Open head lnum) → HasViews m → HasViews (after (Open head lnum) m) }
    ensures files { (m : AnyStore) (head lnum : ℕ) → IsLegalEvent m (Open head lnum) → HasFiles m → HasFiles (after (Open head lnum) m) }
{}

/// An inode without a name that is dropped is gone with its blocks, from the leaves as from the files. No number changes, and
/// nothing that was committed.
pub fn a_drop_keeps_the_files()
    ensures files { (m : AnyStore) (ino : ℕ) (index : AnyIndex) → IsLegalEvent m (Drop ino index) → HasFiles m → HasFiles (after (Drop ino index) m) }
    ensures numbers { (m : AnyStore) (ino : ℕ) (index : AnyIndex) → IsLegalEvent m (Drop ino index) → HasNumbers m → HasNumbers (after (Drop ino index) m) }
    ensures views { (m : AnyStore) (ino : ℕ) (index : AnyIndex) → IsLegalEvent m (Drop ino index) → HasViews m → HasViews (after (Drop ino index) m) }
{
    a_change_of_leaves_is_one_of_the_tree();
}

/// Each event keeps the files: a put and a drop change them as told, and all others leave them. A collection's copies stand for the
/// leaves that they are copies of, under the same keys.
pub fn each_event_keeps_the_files()
    ensures { (m : AnyStore) (event : Event) → IsLegalEvent m event → AreDistinct (map (λ x. x.leaf) m.live) → HasFiles m → HasFiles (after event m) }
{
    a_copy_changes_no_tree();
    a_put_keeps_the_files();
    a_drop_keeps_the_files();
}

/// Each event keeps the numbers: groups ascend and were given, none stands at two heads, and no more is synced than was put. At
/// a commit's end that is so of what came since it began.
pub fn each_event_keeps_the_numbers()
    ensures { (m : AnyStore) (event : Event) → IsLegalEvent m event → HasNumbers m → HasNumbers (after event m) }
{
    a_put_keeps_the_files();
    a_sync_keeps_the_files();
    an_opened_leb_keeps_the_files();
    a_drop_keeps_the_files();
}

/// Each event keeps the blocks with their inodes: a block of no inode becomes no leaf, and an inode goes with its blocks. No key has a
/// number above the highest.
pub fn each_event_keeps_blocks_with_their_inodes()
    ensures { (m : AnyStore) (event : Event) → IsLegalEvent m event → AreDistinct (map (λ x. x.leaf) m.live) → HasFiles m → AreOwned m → AreOwned (after event m) }
{
    a_change_of_leaves_is_one_of_the_tree();
}

/// A copy keeps what was committed, where the leaf that is copied is a committed one of both views.
pub fn a_copy_keeps_what_was_committed()
    ensures { (m : AnyStore) (c : Copying) → IsLegalEvent m (Move c) → AreOwned m → OfBoth m (λ f. IsLeafOf f.view.kept c.leaf) → HasViews m → HasViews (after (Move c) m) }
{}

/// A commit keeps what was committed: it starts on the files as they are, and its view is the one at its end. So does a collection's
/// begin and end.
pub fn a_commit_keeps_what_was_committed()
    ensures started { (m : AnyStore) (taken : List ℕ) → HasFiles m → AreOwned m → AreDistinct (map (λ x. x.leaf) m.live) → HasViews m → HasViews (after (Start taken) m) }
    ensures written { (m : AnyStore) → HasViews m → HasViews (after Write m) }
    ensures offered { (m : AnyStore) → HasViews m → HasViews (after Offer m) }
    ensures ended { (m : AnyStore) → HasViews m → HasViews (after End m) }
    ensures begun { (m : AnyStore) (victim : ℕ) → HasViews m → HasViews (after (Begin victim) m) }
    ensures freed { (m : AnyStore) → HasViews m → HasViews (after Free m) }
{}

/// Each event keeps the head of data, which has blocks alone.
pub fn each_event_keeps_the_head_of_data()
    ensures { (m : AnyStore) (event : Event) → IsLegalEvent m event → HasDataHead m → HasDataHead (after event m) }
{}

/// Each event keeps the log: it ends at a unit of a LEB of the ring, and a LEB is left for the next section and one for a mount's.
/// So a commit finds one for its section.
pub fn each_event_keeps_the_log()
    ensures { (m : AnyStore) (event : Event) → IsLegalEvent m event → IsGeometry m.geo → HasLogLebs m → HasLogLebs (after event m) }
{}

/// A put leaves a proper tree, after each of its groups. What a backing takes under a grant is such a group, and what it takes
/// under a credit is two, one for each head.
pub fn a_put_leaves_a_proper_tree()
    ensures tree { (m : AnyStore) (p : Putting) → IsLegalEvent m (Put p) → IsProper m.tree → IsProper (after (Put p) m).tree }
    ensures group { (tree : Tree) (grant : AnyGrant) (group : List Change) → FitsGroup tree grant group → KeepsProper tree group }
    ensures inode { (tree : Tree) (page : AnyPage) → IsProper tree → FitsPage tree page → KeepsProper tree (SetInode page.ino page.inode ∷ []) }
    ensures block { (tree : Tree) (page : AnyPage) → FitsPage tree page → KeepsProper (apply tree (SetInode page.ino page.inode ∷ [])) (SetBlock page.ino page.block page.bytes ∷ []) }
{
    trees_built_alike_are_proper();
}

/// A put skips no number: the last one that was given rises by its nodes.
pub fn a_put_skips_no_number()
    ensures { (m : AnyStore) (p : Putting) → IsLegalEvent m (Put p) → (after (Put p) m).sqnum ≡ m.sqnum + length (nodes_of_parts p.parts) }
{}

/// A put and a LEB that is opened leave a store from which a commit can start and end.
pub fn a_put_leaves_room_for_a_commit()
    ensures put { (m : AnyStore) (p : Putting) → IsLegalEvent m (Put p) → IsStoreSettled (after (Put p) m) }
    ensures open { (m : AnyStore) (head lnum : ℕ) → IsLegalEvent m (Open head lnum) → IsStoreSettled (after (Open head lnum) m) }
{}

/// Only what is synced is built on: a victim is freed, and a commit starts, where all groups and copies are synced.
pub fn a_sync_comes_first()
    ensures free { (m : AnyStore) → IsLegalEvent m Free → IsAllSynced m }
    ensures start { (m : AnyStore) (taken : List ℕ) → IsLegalEvent m (Start taken) → IsAllSynced m }
{}

/// A LEB that is lent to a collection comes back: no other collection begins and no commit starts before, and it is lent no more
/// once the victim is freed.
pub fn a_lent_leb_comes_back()
    ensures begin { (m : AnyStore) (victim : ℕ) → IsLegalEvent m (Begin victim) → m.moving ≡ None }
    ensures start { (m : AnyStore) (taken : List ℕ) → IsLegalEvent m (Start taken) → lent m.moving ≡ 0 }
    ensures freed { (m : AnyStore) → lent (after Free m).moving ≡ 0 }
{}

/// Used and held bytes are those of the live and the held leaves. A put adds no more to both than its nodes, a drop nothing, and
/// an opened LEB changes neither; a sync holds nothing and uses what was used.
pub fn bytes_follow_the_leaves()
    ensures put { (m : AnyStore) (p : Putting) → IsLegalEvent m (Put p) → HasFiles m
        → (space_of (after (Put p) m)).used + (space_of (after (Put p) m)).held ≤ (space_of m).used + (space_of m).held + nodes_len (nodes_of_parts p.parts) }
    ensures dropped { (m : AnyStore) (ino : ℕ) (index : AnyIndex) → IsLegalEvent m (Drop ino index) → HasFiles m
        → (space_of (after (Drop ino index) m)).used + (space_of (after (Drop ino index) m)).held ≤ (space_of m).used + (space_of m).held }
    ensures opened_used { (m : AnyStore) (head lnum : ℕ) → (space_of (after (Open head lnum) m)).used ≡ (space_of m).used }
    ensures opened_held { (m : AnyStore) (head lnum : ℕ) → (space_of (after (Open head lnum) m)).held ≡ (space_of m).held }
    ensures synced_used { (m : AnyStore) → (space_of (after Sync m)).used ≡ (space_of m).used }
    ensures synced_held { (m : AnyStore) → (space_of (after Sync m)).held ≡ 0 }
{
    a_change_of_leaves_is_one_of_the_tree();
    bytes_of_leaves_add_up();
}

/// What a put makes of the numbers of a store is what admission reckons with: a page spends its credit, a group no more than was
/// granted to it. The index has the LEBs that it had.
pub fn a_put_spends_what_was_granted()
    ensures page { (m : AnyStore) (p : Putting) → IsLegalEvent m (Put p) → HasFiles m → p.payment ≡ credit → IsAfterPage (space_of m) (space_of (after (Put p) m)) }
    ensures group { (m : AnyStore) (p : Putting) (grant : AnyGrant) → IsLegalEvent m (Put p) → HasFiles m → p.payment ≡ granted → m.grant ≡ Some grant
        → IsAfterGroup (need_of_grant grant) (space_of m) (space_of (after (Put p) m)) }
{
    a_change_of_leaves_is_one_of_the_tree();
    bytes_of_leaves_add_up();
}
