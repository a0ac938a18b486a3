// Laws of texts: what stands in main LEBs, where heads end, and where the nodes of the index are.

ghost use Rattle.std.specs.List.{AllByRecursion};
ghost use Rattle.std.specs.Prelude.{ℕ};
ghost use Rattle.store_model.specs.Events.{after, Begin, Copying, Drop, End, Event, Free, Move, Offer, Open, Put, Putting, Sync};
ghost use Rattle.store_model.specs.Indexed.{IsIndexed};
ghost use Rattle.store_model.specs.Invariant.{AreOfViews, IsStore, LeafStands};
ghost use Rattle.store_model.specs.Legal.{IsLegalEvent};
ghost use Rattle.store_model.specs.Store.{StoreIndex as AnyIndex, Store as AnyStore};
ghost use Rattle.store_model.specs.Texts.{AreTexts};

/// A put, a LEB that is opened, a sync and an inode that is dropped keep what stands in texts. Nodes stand where they tell, a bud's
/// nodes are those of its LEB, a head ends where its LEB's text ends, and what is synced of it is written.
pub fn texts_have_what_was_put()
    ensures put { (m : AnyStore) (p : Putting) → IsLegalEvent m (Put p) → IsStore m → AreTexts (after (Put p) m) }
    ensures open { (m : AnyStore) (head lnum : ℕ) → IsLegalEvent m (Open head lnum) → IsStore m → AreTexts (after (Open head lnum) m) }
    ensures sync { (m : AnyStore) → IsStore m → AreTexts (after Sync m) }
    ensures dropped { (m : AnyStore) (ino : ℕ) (index : AnyIndex) → IsStore m → AreTexts (after (Drop ino index) m) }
{}

/// They leave the nodes of the indexes, the finished commit's and a running one's, where they stand, each with the places of its children.
/// A node of the present index keeps a place only with all that is below it.
pub fn nodes_of_the_index_stay()
    ensures put { (m : AnyStore) (p : Putting) → IsLegalEvent m (Put p) → IsStore m → IsIndexed (after (Put p) m) }
    ensures open { (m : AnyStore) (head lnum : ℕ) → IsLegalEvent m (Open head lnum) → IsStore m → IsIndexed (after (Open head lnum) m) }
    ensures sync { (m : AnyStore) → IsStore m → IsIndexed (after Sync m) }
    ensures dropped { (m : AnyStore) (ino : ℕ) (index : AnyIndex) → IsLegalEvent m (Drop ino index) → IsStore m → IsIndexed (after (Drop ino index) m) }
{}

/// So do a collection's events, the offer of a commit's master, and its end. All nodes of the commit's index are written by then.
pub fn nodes_of_the_index_are_written_first()
    ensures begun { (m : AnyStore) (victim : ℕ) → IsStore m → IsIndexed (after (Begin victim) m) }
    ensures moved { (m : AnyStore) (c : Copying) → IsLegalEvent m (Move c) → IsStore m → IsIndexed (after (Move c) m) }
    ensures freed { (m : AnyStore) → IsStore m → IsIndexed (after Free m) }
    ensures offered { (m : AnyStore) → IsStore m → IsIndexed (after Offer m) }
    ensures ended { (m : AnyStore) → IsLegalEvent m End → IsStore m → IsIndexed (after End m) }
{}

/// After each event a leaf, live or held, that stands in no bud of a view is one of the leaves which that view's master leads to.
pub fn leaves_are_of_the_views()
    ensures { (m : AnyStore) (event : Event) → IsLegalEvent m event → IsStore m → AreOfViews (after event m) }
{}

/// After each event each live leaf's node is among the items that are meant for its LEB. A leaf that is copied stands at its copy.
pub fn live_leaves_stand()
    ensures { (m : AnyStore) (event : Event) → IsLegalEvent m event → IsStore m → AllByRecursion (LeafStands (after event m).lebs) (after event m).live }
{}
