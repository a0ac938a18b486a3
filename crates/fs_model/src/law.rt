// Laws of the definitions: of what is written and read, of changes, and of the groups of operations.

ghost use Rattle.std.specs.Prelude.{◌≡◌, ℕ, List, replicate};
ghost use Rattle.fs_model.specs.Files.{Blocks, bytes_from, blocks_written};
ghost use Rattle.fs_model.specs.Files.{Files, Tree};
ghost use Rattle.fs_model.specs.Backing.{BackingState, IsSynced, LeavesTree};
ghost use Rattle.fs_model.specs.Journal.{Journal, IfTold, IsJournalOf, Leaves, MayLeave};
ghost use Rattle.fs_model.specs.JournalLaws.{emptied};
ghost use Rattle.fs_model.specs.Law.{IsKept};
ghost use Rattle.fs_model.specs.Orphan.{without_nameless};
ghost use Rattle.fs_model.specs.declared.change.Change.{Change as AnyChange};
ghost use Rattle.fs_model.specs.Recovery.{Numbered, Head};
ghost use Rattle.fs_model.specs.RecoveryLaws.{IsParted, WouldLeave, joined, in_heads, replayed};
ghost use Rattle.fs_model.specs.ChangeLaw.{SetsInode, SetsEntry, LeavesEntries, SetsBlock, CutsBlocks, DropsInode};
ghost use Rattle.fs_model.specs.Effect.{GroupMakes};
ghost use Rattle.fs_model.specs.declared.inode.Inode.{Inode as AnyInode};
ghost use Rattle.fs_model.specs.declared.inode.Entry.{Entry as AnyEntry};
ghost use Rattle.fs_model.specs.declared.op.Op.{Op as AnyOp};

/// What is written stands there, and everything else stays as it was.
pub fn writes_are_kept()
    ensures { (blocks : Blocks) (ino place n byte : ℕ) → IsKept blocks ino place n byte }
{}

/// What is read of a place is what was last written there.
pub fn reads_are_what_was_written()
    ensures { (blocks : Blocks) (ino place n byte : ℕ) → bytes_from (blocks_written blocks ino place n byte) ino place n ≡ replicate n byte }
{}

/// What each change sets is there, and everything else stays as it was.
pub fn changes_are_seen()
    ensures inode { (tree : Tree) (ino : ℕ) (inode : AnyInode) → SetsInode tree ino inode }
    ensures entry { (tree : Tree) (entry : AnyEntry) → SetsEntry tree entry }
    ensures names { (tree : Tree) (dir : ℕ) (name : List ℕ) → LeavesEntries tree dir name }
    ensures block { (tree : Tree) (ino block : ℕ) (bytes : List ℕ) → SetsBlock tree ino block bytes }
    ensures cut { (tree : Tree) (ino old_size new_size : ℕ) → CutsBlocks tree ino old_size new_size }
    ensures dropped { (tree : Tree) (ino : ℕ) → DropsInode tree ino }
{}

/// All that an operation changes in the tree is its group, a write and a close aside.
pub fn groups_make_the_changes()
    ensures { (files : Files) (caller now : ℕ) (op : AnyOp) → GroupMakes files caller now op }
{}

/// Groups whose numbers are all above those of what came before are put on a tree of their own: a cut may leave the same of
/// them on what came before as of all on what was committed.
pub fn later_groups_stand_alone()
    ensures all { (committed : Tree) (mark sqnum : ℕ) (before : List (List Numbered)) (heads : List Head) (puts : List (ℕ × List AnyChange)) (tree : Tree) → IsParted mark sqnum before heads
        → WouldLeave (replayed committed (in_heads before)) sqnum heads puts tree → WouldLeave committed sqnum (joined before heads) puts tree }
    ensures later { (committed : Tree) (mark sqnum : ℕ) (before : List (List Numbered)) (heads : List Head) (puts : List (ℕ × List AnyChange)) (tree : Tree) → IsParted mark sqnum before heads
        → WouldLeave committed sqnum (joined before heads) puts tree → WouldLeave (replayed committed (in_heads before)) sqnum heads puts tree }
{}

/// After a sync a cut leaves the tree, but for what has no name; and whatever is called later, a cut keeps that: it leaves
/// this tree with the first groups of each head of those that were put since.
pub fn a_cut_keeps_what_was_synced()
    ensures now { (state : BackingState) → IfTold state.journal (IsJournalOf state.tree) → IsSynced state → LeavesTree state }
    ensures later { (state : BackingState) (now : Journal) (puts : List (ℕ × List AnyChange)) (left : Tree) → IfTold state.journal (IsJournalOf state.tree) → IsSynced state → Leaves state.journal now puts → MayLeave now left
        → IfTold state.journal (λ medium. WouldLeave (without_nameless state.tree) medium.sqnum (emptied medium.heads) puts left) }
{}
