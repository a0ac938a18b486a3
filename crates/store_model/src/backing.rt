// Laws of a store as a backing: its events are what a backing's clauses say of its calls.

ghost use Rattle.std.specs.Prelude.{◌≡◌, ℕ, List, map, Some, ◌∷◌, []};
ghost use Rattle.fs_model.specs.declared.backing_answers.Started.TheVariants.{Began};
ghost use Rattle.fs_model.specs.declared.page_node.PageNode.{PageNode as AnyPage};
ghost use Rattle.fs_model.specs.Backing.{IsCommitted, IsDropped, IsGroupPut, IsPagePut, IsStarted, IsSynced, KeepsCommit, KeepsFiles, page_puts};
ghost use Rattle.fs_model.specs.Journal.{Leaves};
ghost use Rattle.fs_model.specs.Orphan.{nameless};
ghost use Rattle.fs_model.specs.Proper.{IsProper};
ghost use Rattle.store_model.specs.Backing.{Outside, backing_of, store_journal_of, puts_of};
ghost use Rattle.store_model.specs.Begun.{HasBegun, JournalLeads};
ghost use Rattle.store_model.specs.Events.{after, credit, Drop, End, Event, granted, Open, Part, Put, Putting, Start, Sync};
ghost use Rattle.store_model.specs.Heads.{changes_of};
ghost use Rattle.store_model.specs.Invariant.{AreRolesApart, HasNumbers, HasSince};
ghost use Rattle.store_model.specs.Legal.{IsLegalEvent};
ghost use Rattle.store_model.specs.Store.{StoreIndex as AnyIndex, Next as AnyNext, Store as AnyStore};

/// A put is a backing's: a group of one head that its grant pays is a group that was put, two groups that a credit pays are a page.
/// A put's groups stand last in the journal, so a cut keeps what was synced before and leaves whole groups alone.
pub fn a_put_is_a_backings()
    ensures group { (m : AnyStore) (p : Putting) (part : Part) (outside : Outside) → p.payment ≡ granted → p.parts ≡ part ∷ []
        → IsGroupPut (backing_of m outside) (backing_of (after (Put p) m) outside) (changes_of part.group) }
    ensures page { (m : AnyStore) (p : Putting) (page : AnyPage) (outside : Outside) → IsLegalEvent m (Put p) → p.payment ≡ credit → puts_of p.parts ≡ page_puts page
        → IsPagePut (backing_of m outside) (backing_of (after (Put p) m) outside) page }
    ensures cut { (m : AnyStore) (p : Putting) → IsLegalEvent m (Put p) → AreRolesApart m → Leaves (store_journal_of m) (store_journal_of (after (Put p) m)) (puts_of p.parts) }
{}

/// A sync is a backing's: all is synced and nothing is held, the files stay, a commit that runs goes on, and a cut leaves nothing
/// that it didn't leave before.
pub fn a_sync_is_a_backings()
    ensures synced { (m : AnyStore) (outside : Outside) → IsSynced (backing_of (after Sync m) outside) }
    ensures files { (m : AnyStore) (outside : Outside) → KeepsFiles (backing_of m outside) (backing_of (after Sync m) outside) }
    ensures commit { (m : AnyStore) → KeepsCommit (store_journal_of m) (store_journal_of (after Sync m)) }
    ensures cut { (m : AnyStore) → HasNumbers m → Leaves (store_journal_of m) (store_journal_of (after Sync m)) [] }
{}

/// A LEB that is opened changes no file, and a cut leaves nothing that it didn't leave before.
pub fn an_opened_leb_is_no_backings()
    ensures files { (m : AnyStore) (head lnum : ℕ) (outside : Outside) → KeepsFiles (backing_of m outside) (backing_of (after (Open head lnum) m) outside) }
    ensures cut { (m : AnyStore) (head lnum : ℕ) → Leaves (store_journal_of m) (store_journal_of (after (Open head lnum) m)) [] }
{}

/// An inode that is dropped is a backing's: it is gone from the tree, at most one more is closed, and the journal is what it was.
pub fn a_drop_is_a_backings()
    ensures dropped { (m : AnyStore) (ino : ℕ) (index : AnyIndex) (outside : Outside) → IsDropped (backing_of m outside) (backing_of (after (Drop ino index) m) outside) ino }
    ensures journal { (m : AnyStore) (ino : ℕ) (index : AnyIndex) → store_journal_of (after (Drop ino index) m) ≡ store_journal_of m }
{}

/// A commit's start is a backing's: it begins on the tree as it is, but for what has no name, with all groups that each head had, none
/// of its own, and no orphan closed since. All is synced, the files stay, and a cut leaves nothing that it didn't leave before.
pub fn a_commits_start_is_a_backings()
    ensures started { (m : AnyStore) (taken : List ℕ) (outside : Outside) → IsLegalEvent m (Start taken) → IsStarted (backing_of m outside) (backing_of (after (Start taken) m) outside) Began }
    ensures files { (m : AnyStore) (taken : List ℕ) (outside : Outside) → KeepsFiles (backing_of m outside) (backing_of (after (Start taken) m) outside) }
    ensures cut { (m : AnyStore) (taken : List ℕ) → Leaves (store_journal_of m) (store_journal_of (after (Start taken) m)) [] }
{}

/// Each event keeps what a running commit began on: of each head some groups came before, of lower numbers and all synced, and they
/// lead to the tree on which it began. At its start these are all groups.
pub fn each_event_keeps_what_a_commit_began_on()
    ensures { (m : AnyStore) (event : Event) → IsLegalEvent m event → AreRolesApart m → HasSince m m.next → HasNumbers m → JournalLeads m → HasBegun m m.next → HasBegun (after event m) (after event m).next }
{}

/// Each event keeps it that all groups, put on what was committed, lead to the files, but for what has no name. At a commit's end what
/// came since leads there from the tree on which it began.
pub fn each_event_keeps_what_the_journal_leads_to()
    ensures { (m : AnyStore) (event : Event) → IsLegalEvent m event → IsProper m.tree → map (λ orphan. orphan.ino) m.orphans ≡ nameless m.tree → AreRolesApart m → HasNumbers m → HasBegun m m.next
        → JournalLeads m → JournalLeads (after event m) }
{}

/// A commit's end is a backing's: what it began on is committed, and of each head those groups stay that came since. The files stay, and a
/// cut leaves nothing that it didn't leave before.
pub fn a_commits_end_is_a_backings()
    ensures ended { (m : AnyStore) (next : AnyNext) (outside : Outside) → m.next ≡ Some next → HasSince m m.next → IsCommitted (backing_of m outside) (backing_of (after End m) outside) }
    ensures files { (m : AnyStore) (outside : Outside) → KeepsFiles (backing_of m outside) (backing_of (after End m) outside) }
    ensures cut { (m : AnyStore) → HasBegun m m.next → Leaves (store_journal_of m) (store_journal_of (after End m)) [] }
{}
