// Laws of LEBs: what each is for.

ghost use Rattle.std.specs.Prelude.{◌≡◌, ◌≤◌, ◌+◌, ℕ, List, length, map, None, Some};
ghost use Rattle.std.specs.List.{AllByRecursion};
ghost use Rattle.ubifs_base.specs.Geometry.{IsGeometry};
ghost use Rattle.index_tree.specs.Shape.{node_count};
ghost use Rattle.store_model.specs.Events.{after, Begin, Copying, Drop, End, Event, Free, Move, Offer, Open, Put, Putting, Start, Sync, Write};
ghost use Rattle.store_model.specs.Indexed.{HasLastPlaces};
ghost use Rattle.store_model.specs.Invariant.{AreRolesApart, HasAllotted, HasSince, IsBareOfLeaves, IsStore, IsTaking};
ghost use Rattle.store_model.specs.Lebs.{space_of};
ghost use Rattle.store_model.specs.Legal.{IsLegalEvent};
ghost use Rattle.store_model.specs.Store.{StoreIndex as AnyIndex, Store as AnyStore};

/// Which LEBs there are no event changes, nor the numbers of the volume: a row stays for each LEB of the main area.
pub fn each_event_keeps_the_main_area()
    ensures geometry { (m : AnyStore) (event : Event) → (after event m).geo ≡ m.geo }
    ensures lebs { (m : AnyStore) (event : Event) → map (λ leb. leb.lnum) (after event m).lebs ≡ map (λ leb. leb.lnum) m.lebs }
{}

/// A put, a LEB that is opened, a sync and an inode that is dropped leave each LEB for one thing. Leaves stand in leaf LEBs and
/// buds, heads in their last buds, and the committed index in its own LEBs; a LEB without a leaf is empty, or a victim.
pub fn lebs_keep_what_they_are_for()
    ensures put { (m : AnyStore) (p : Putting) → IsLegalEvent m (Put p) → AreRolesApart m → AreRolesApart (after (Put p) m) }
    ensures open { (m : AnyStore) (head lnum : ℕ) → IsLegalEvent m (Open head lnum) → AreRolesApart m → AreRolesApart (after (Open head lnum) m) }
    ensures sync { (m : AnyStore) → AreRolesApart m → AreRolesApart (after Sync m) }
    ensures dropped { (m : AnyStore) (ino : ℕ) (index : AnyIndex) → IsLegalEvent m (Drop ino index) → AreRolesApart m → AreRolesApart (after (Drop ino index) m) }
{}

/// A collection leaves each LEB for one thing, too: the victim is a leaf LEB until it is empty, and a copy stands in the bud of the
/// collector's head.
pub fn a_collection_keeps_what_lebs_are_for()
    ensures begun { (m : AnyStore) (victim : ℕ) → IsLegalEvent m (Begin victim) → AreRolesApart m → AreRolesApart (after (Begin victim) m) }
    ensures moved { (m : AnyStore) (c : Copying) → IsLegalEvent m (Move c) → AreRolesApart m → AreRolesApart (after (Move c) m) }
    ensures freed { (m : AnyStore) → IsLegalEvent m Free → AreRolesApart m → AreRolesApart (after Free m) }
{}

/// So do a commit's steps: what it takes was empty, and at its end its LEBs are the index's, those of the old index that hold none of
/// its nodes are empty, and buds that the log names no longer hold leaves, or are empty.
pub fn a_commit_keeps_what_lebs_are_for()
    ensures started { (m : AnyStore) (taken : List ℕ) → IsLegalEvent m (Start taken) → AreRolesApart m → AreRolesApart (after (Start taken) m) }
    ensures written { (m : AnyStore) → AreRolesApart m → AreRolesApart (after Write m) }
    ensures offered { (m : AnyStore) → AreRolesApart m → AreRolesApart (after Offer m) }
    ensures ended { (m : AnyStore) → IsTaking m m.next → HasSince m m.next → AreRolesApart m → AreRolesApart (after End m) }
{}

/// Each event leaves each LEB for one thing. At a commit's end that is so of the LEBs that it took, and of what came since it began.
pub fn each_event_keeps_what_lebs_are_for()
    ensures { (m : AnyStore) (event : Event) → IsLegalEvent m event → IsTaking m m.next → HasSince m m.next → AreRolesApart m → AreRolesApart (after event m) }
{
    lebs_keep_what_they_are_for();
    a_collection_keeps_what_lebs_are_for();
    a_commit_keeps_what_lebs_are_for();
}

/// A commit that runs keeps the LEBs that it took, through each of them, and its index is to stand in these and in those of the
/// committed one.
pub fn a_running_commit_keeps_its_lebs()
    ensures put { (m : AnyStore) (p : Putting) → IsTaking m m.next → IsTaking (after (Put p) m) (after (Put p) m).next }
    ensures open { (m : AnyStore) (head lnum : ℕ) → IsLegalEvent m (Open head lnum) → AreRolesApart m → IsTaking m m.next → IsTaking (after (Open head lnum) m) (after (Open head lnum) m).next }
    ensures sync { (m : AnyStore) → IsTaking m m.next → IsTaking (after Sync m) (after Sync m).next }
    ensures dropped { (m : AnyStore) (ino : ℕ) (index : AnyIndex) → IsTaking m m.next → IsTaking (after (Drop ino index) m) (after (Drop ino index) m).next }
{}

/// What came since a running commit began stays told: its buds get what the heads get, and all before is synced.
pub fn a_running_commit_gets_what_is_put()
    ensures put { (m : AnyStore) (p : Putting) → IsLegalEvent m (Put p) → AreRolesApart m → HasSince m m.next → HasSince (after (Put p) m) (after (Put p) m).next }
    ensures open { (m : AnyStore) (head lnum : ℕ) → HasSince m m.next → HasSince (after (Open head lnum) m) (after (Open head lnum) m).next }
    ensures sync { (m : AnyStore) → HasSince m m.next → HasSince (after Sync m) (after Sync m).next }
    ensures dropped { (m : AnyStore) (ino : ℕ) (index : AnyIndex) → HasSince m m.next → HasSince (after (Drop ino index) m) (after (Drop ino index) m).next }
{}

/// Each event keeps the LEBs that a running commit took, and where its index is to stand: in these and in those of the committed one.
/// At a commit's start each node of the index that keeps its place is one of the committed index.
pub fn each_event_keeps_what_a_commit_took()
    ensures { (m : AnyStore) (event : Event) → IsLegalEvent m event → IsGeometry m.geo → AreRolesApart m → length m.index.places ≡ node_count m.index.shape
        → HasLastPlaces m → IsTaking m m.next → IsTaking (after event m) (after event m).next }
{
    a_running_commit_keeps_its_lebs();
}

/// Each event keeps where a running commit's nodes are to stand: those that it writes one behind another in the LEBs that it took, which
/// are as many as they fill, and all others in none of these. So each LEB that it took gets a node, and no LEB more than fit.
pub fn each_event_keeps_what_places_a_commit_allotted()
    ensures { (m : AnyStore) (event : Event) → IsLegalEvent m event → IsStore m → HasAllotted (after event m).geo (after event m).next }
{}

/// Each event keeps it that leaf nodes stand in leaf LEBs and buds alone: an empty LEB, one of the index and one that a commit took have
/// none.
pub fn each_event_keeps_other_lebs_bare()
    ensures { (m : AnyStore) (event : Event) → IsLegalEvent m event → AreRolesApart m → AllByRecursion IsBareOfLeaves m.lebs → AllByRecursion IsBareOfLeaves (after event m).lebs }
{}

/// Each event keeps what came since a running commit began: at its start nothing came yet, and all before is synced; a copy stands
/// in the buds of both views; and after its end no commit runs.
pub fn each_event_keeps_what_came_since()
    ensures { (m : AnyStore) (event : Event) → IsLegalEvent m event → AreRolesApart m → HasSince m m.next → HasSince (after event m) (after event m).next }
{
    a_running_commit_gets_what_is_put();
}

/// The numbers of admission count roles. A put opens no LEB, a LEB that is opened was empty, and a sync empties some. An opened LEB, a
/// sync and a drop leave the index as many LEBs as it has; that a put does too is told of its numbers (`a_put_spends_what_was_granted`).
pub fn lebs_are_counted()
    ensures put { (m : AnyStore) (p : Putting) → (space_of (after (Put p) m)).empty ≡ (space_of m).empty }
    ensures opened { (m : AnyStore) (head lnum : ℕ) → IsLegalEvent m (Open head lnum) → AreRolesApart m → (space_of (after (Open head lnum) m)).empty + 1 ≡ (space_of m).empty }
    ensures opened_index { (m : AnyStore) (head lnum : ℕ) → IsLegalEvent m (Open head lnum) → AreRolesApart m → (space_of (after (Open head lnum) m)).index ≡ (space_of m).index }
    ensures synced { (m : AnyStore) → (space_of m).empty ≤ (space_of (after Sync m)).empty }
    ensures synced_index { (m : AnyStore) → (space_of (after Sync m)).index ≡ (space_of m).index }
    ensures dropped_index { (m : AnyStore) (ino : ℕ) (index : AnyIndex) → (space_of (after (Drop ino index) m)).index ≡ (space_of m).index }
{}
