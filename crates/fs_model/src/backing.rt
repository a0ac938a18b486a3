// What operations on files are written against.

ghost use Rattle.std.specs.Prelude.{◌≡◌, ◌⊎◌, ◌↔◌, ◌+◌, ◌-◌, ◌≤◌, ◌<◌, ◌++◌, ℕ, ◌∷◌, [], length, take, min, replicate, IsTrue, IsOk, IfOk, OnOk, OnErr, IfErr};
ghost use Rattle.ubifs_base.specs.Areas.{main_lebs};
ghost use Rattle.fs_model.specs.Backing.{BackingState, Outlook, Goes, HasCause, HasMode, IsNotReadOnly, StaysSure, KeepsSure, Reads, KeepsFiles, IsModest, IsSmall, granted, given_back, page_group, page_puts, put_by, orphan_room, FitsPage, IsAdmitted, IsPagePut, IsGroupPut, IsDropped, IsSynced, KeepsCommit, KeepsOrEnds, started_of, IsStarted, IsStepped, ended_of, IsEnded, IsCollected};
ghost use Rattle.fs_model.specs.Cover.{needed, room_for, tree_bytes};
ghost use Rattle.fs_model.specs.Directory.{entries_in};
ghost use Rattle.fs_model.specs.Files.{inode_at, entry_at, block_at, last_block_of};
ghost use Rattle.fs_model.specs.Journal.{Leaves, IfTold, IsJournalOf, base_head};
ghost use Rattle.fs_model.specs.Orphan.{all_revive_none, is_nameless};
ghost use Rattle.fs_model.specs.Proper.{IsProper};

use crate::{
    Collected, Ended, Entry, Group, Inode, Mode, Need, NoSpace, PageNode, Space, Started, Stepped,
    StoreFault,
};
use ubifs_base::{Arm, Name};

/// A tree of files that is kept somewhere: in memory, or on a volume (Hunter 2008). Reading calls give the tree's values.
/// What is put was admitted before: a page spends a credit that is covered, and a group has the grant of the last
/// admission; then want of space is no answer. Puts go to the journal, and a cut leaves what the last commit and, of each
/// head, a prefix of whole groups make, with all groups that were synced.
pub trait Backing {
    /// All that there is to say of the backing now.
    ghost state: { Self → BackingState };

    /// What is expected of its volume.
    ghost outlook: { Self → Outlook };

    /// The inode of a number.
    fn inode(&mut self, ino: u32) -> Result<Option<Inode>, StoreFault>
        ensures found { IfOk result (λ found. found ≡ inode_at (state self.old).tree ino) }
        ensures reads { Reads (state self.old) (state self.new) }
        ensures goes { Goes 0 (state self.old) (state self.new) }
        ensures cause { HasCause (state self.old) (state self.new) result }
        ensures mode { IsNotReadOnly result }
        ensures sure { StaysSure (outlook self.old) (outlook self.new) (state self.old) (state self.new) result };

    /// The entry of a directory under a name.
    fn lookup(&mut self, dir: u32, name: &Name) -> Result<Option<Entry>, StoreFault>
        ensures found { IfOk result (λ found. found ≡ entry_at (state self.old).tree dir name.now) }
        ensures reads { Reads (state self.old) (state self.new) }
        ensures goes { Goes 0 (state self.old) (state self.new) }
        ensures cause { HasCause (state self.old) (state self.new) result }
        ensures mode { IsNotReadOnly result }
        ensures sure { StaysSure (outlook self.old) (outlook self.new) (state self.old) (state self.new) result };

    /// The entries of a directory, in order of name.
    fn entries(&mut self, dir: u32) -> Result<Vec<Entry>, StoreFault>
        ensures found { IfOk result (λ found. found.items ≡ entries_in (state self.old).tree dir) }
        ensures reads { Reads (state self.old) (state self.new) }
        ensures goes { Goes 0 (state self.old) (state self.new) }
        ensures cause { HasCause (state self.old) (state self.new) result }
        ensures mode { IsNotReadOnly result }
        ensures sure { StaysSure (outlook self.old) (outlook self.new) (state self.old) (state self.new) result };

    /// Reads a block into 4,096 bytes, with zeros past its end, and answers how many bytes are stored, 0 for a missing one.
    fn read_block(&mut self, ino: u32, block: u32, out: &mut [u8]) -> Result<u32, StoreFault>
        requires { length out.old ≡ 4096 }
        ensures found { IfOk result (λ stored. (stored ≡ min (length (block_at (state self.old).tree.blocks ino block)) 4096)
            × (out.new ≡ take 4096 (block_at (state self.old).tree.blocks ino block) ++ replicate (4096 - stored) 0)) }
        ensures reads { Reads (state self.old) (state self.new) }
        ensures goes { Goes 0 (state self.old) (state self.new) }
        ensures cause { HasCause (state self.old) (state self.new) result }
        ensures mode { IsNotReadOnly result }
        ensures sure { StaysSure (outlook self.old) (outlook self.new) (state self.old) (state self.new) result };

    /// The greatest block number of an inode.
    fn last_block(&mut self, ino: u32) -> Result<Option<u32>, StoreFault>
        ensures found { IfOk result (λ found. found ≡ last_block_of (state self.old).tree.blocks ino) }
        ensures reads { Reads (state self.old) (state self.new) }
        ensures goes { Goes 0 (state self.old) (state self.new) }
        ensures cause { HasCause (state self.old) (state self.new) result }
        ensures mode { IsNotReadOnly result }
        ensures sure { StaysSure (outlook self.old) (outlook self.new) (state self.old) (state self.new) result };

    /// Covers the credits of a need and grants its bytes and nodes to the next group, in place of an earlier grant; refuses
    /// exactly where the sum of the admission test exceeds the room, and then nothing changes. Takes no memory.
    fn admit(&mut self, need: &Need) -> Result<(), NoSpace>
        requires modest { IsModest need.now }
        requires small { IsProper (state self.old).tree ⊎ IsSmall (state self.old).space }
        ensures covered { IsOk result ↔ (needed (state self.old).space need.now ≤ room_for (state self.old).geometry (state self.old).space need.now) }
        ensures ok { OnOk result (state self.new ≡ granted (state self.old) need.now) }
        ensures err { OnErr result (state self.new ≡ state self.old) }
        ensures told { IfErr result (λ space. (space.need ≡ needed (state self.old).space need.now) × (space.room ≡ room_for (state self.old).geometry (state self.old).space need.now)) }
        ensures sure { KeepsSure (outlook self.old) (outlook self.new) };

    /// Gives credits back that are covered. Takes no memory.
    fn give_back(&mut self, credits: u64)
        requires { credits ≤ (state self.old).space.credits }
        ensures given { state self.new ≡ given_back (state self.old) credits }
        ensures sure { KeepsSure (outlook self.old) (outlook self.new) };

    /// Spends a credit, and sets a page's block and inode. After a fault the credit stays covered. Where there was no memory,
    /// or the backing is read-only, nothing was put; where the volume failed, a cut may leave what was.
    fn put_page(&mut self, page: &PageNode) -> Result<(), StoreFault>
        requires covered { 0 < (state self.old).space.credits }
        requires revives_none { IsTrue (all_revive_none (state self.old).tree (page_group page.now)) }
        requires fits { IsProper (state self.old).tree → FitsPage (state self.old).tree page.now }
        ensures ok { OnOk result (IsPagePut (state self.old) (state self.new) page.now) }
        ensures err { OnErr result (KeepsFiles (state self.old) (state self.new)) }
        ensures cut { Leaves (state self.old).journal (state self.new).journal (put_by result (page_puts page.now)) }
        ensures goes { Goes (length (put_by result (page_group page.now))) (state self.old) (state self.new) }
        ensures cause { HasCause (state self.old) (state self.new) result }
        ensures mode { HasMode (state self.old).mode result }
        ensures sure { StaysSure (outlook self.old) (outlook self.new) (state self.old) (state self.new) result };

    /// Makes the changes of a group that was admitted, and ends its grant. After a fault the grant stays.
    fn put_group(&mut self, group: &Group) -> Result<(), StoreFault>
        requires { IsAdmitted (state self.old) group.now }
        ensures ok { OnOk result (IsGroupPut (state self.old) (state self.new) group.now) }
        ensures err { OnErr result (KeepsFiles (state self.old) (state self.new)) }
        ensures cut { Leaves (state self.old).journal (state self.new).journal (put_by result ((base_head, group.now) ∷ [])) }
        ensures goes { Goes (length (put_by result group.now)) (state self.old) (state self.new) }
        ensures cause { HasCause (state self.old) (state self.new) result }
        ensures mode { HasMode (state self.old).mode result }
        ensures sure { StaysSure (outlook self.old) (outlook self.new) (state self.old) (state self.new) result };

    /// Removes an inode without a name, with its blocks, and puts no node.
    fn drop_orphan(&mut self, ino: u32) -> Result<(), StoreFault>
        requires { IsTrue (is_nameless (state self.old).tree ino) }
        ensures ok { OnOk result (IsDropped (state self.old) (state self.new) ino) }
        ensures err { OnErr result (KeepsFiles (state self.old) (state self.new)) }
        ensures journal { (state self.new).journal ≡ (state self.old).journal }
        ensures goes { Goes 0 (state self.old) (state self.new) }
        ensures cause { HasCause (state self.old) (state self.new) result }
        ensures mode { IsNotReadOnly result }
        ensures sure { StaysSure (outlook self.old) (outlook self.new) (state self.old) (state self.new) result };

    /// Brings all that was put to the medium; then a cut leaves the tree, but for what has no name.
    fn sync(&mut self) -> Result<(), StoreFault>
        ensures ok { OnOk result (IsSynced (state self.new)) }
        ensures commit { KeepsOrEnds (state self.old) (state self.new) }
        ensures files { KeepsFiles (state self.old) (state self.new) }
        ensures cut { Leaves (state self.old).journal (state self.new).journal [] }
        ensures goes { Goes 0 (state self.old) (state self.new) }
        ensures cause { HasCause (state self.old) (state self.new) result }
        ensures mode { HasMode (state self.old).mode result }
        ensures sure { StaysSure (outlook self.old) (outlook self.new) (state self.old) (state self.new) result };

    /// Collects one LEB, where there is one with enough that is obsolete (Hunter 2008, "Garbage collection").
    fn collect_step(&mut self) -> Result<Collected, StoreFault>
        ensures ok { IfOk result (λ collected. IsCollected (state self.old) (state self.new) collected) }
        ensures commit { KeepsOrEnds (state self.old) (state self.new) }
        ensures files { KeepsFiles (state self.old) (state self.new) }
        ensures cut { Leaves (state self.old).journal (state self.new).journal [] }
        ensures goes { Goes 0 (state self.old) (state self.new) }
        ensures cause { HasCause (state self.old) (state self.new) result }
        ensures mode { HasMode (state self.old).mode result }
        ensures sure { StaysSure (outlook self.old) (outlook self.new) (state self.old) (state self.new) result };

    /// Starts a commit on the tree as it is, but for what has no name, where none runs (Hunter 2008, "The commit").
    fn commit_start(&mut self) -> Result<Started, StoreFault>
        ensures answer { IfOk result (λ started. started ≡ started_of (state self.old).journal.running) }
        ensures ok { IfOk result (λ started. IsStarted (state self.old) (state self.new) started) }
        ensures err { OnErr result (KeepsCommit (state self.old).journal (state self.new).journal) }
        ensures files { KeepsFiles (state self.old) (state self.new) }
        ensures cut { Leaves (state self.old).journal (state self.new).journal [] }
        ensures goes { Goes 0 (state self.old) (state self.new) }
        ensures cause { HasCause (state self.old) (state self.new) result }
        ensures mode { HasMode (state self.old).mode result }
        ensures sure { StaysSure (outlook self.old) (outlook self.new) (state self.old) (state self.new) result };

    /// Writes one LEB of the index of the commit that runs, where one is left.
    fn commit_step(&mut self) -> Result<Stepped, StoreFault>
        ensures ok { IfOk result (λ stepped. IsStepped (state self.old) (state self.new) stepped) }
        ensures err { OnErr result (KeepsCommit (state self.old).journal (state self.new).journal) }
        ensures files { KeepsFiles (state self.old) (state self.new) }
        ensures cut { Leaves (state self.old).journal (state self.new).journal [] }
        ensures goes { Goes 0 (state self.old) (state self.new) }
        ensures cause { HasCause (state self.old) (state self.new) result }
        ensures mode { HasMode (state self.old).mode result }
        ensures sure { StaysSure (outlook self.old) (outlook self.new) (state self.old) (state self.new) result };

    /// Ends the commit that runs, where nothing of its index is left to write.
    fn commit_end(&mut self) -> Result<Ended, StoreFault>
        ensures answer { IfOk result (λ ended. ended ≡ ended_of (state self.old).journal.running (state self.old).journal.left) }
        ensures ok { IfOk result (λ ended. IsEnded (state self.old) (state self.new) ended) }
        ensures err { OnErr result (KeepsCommit (state self.old).journal (state self.new).journal) }
        ensures files { KeepsFiles (state self.old) (state self.new) }
        ensures cut { Leaves (state self.old).journal (state self.new).journal [] }
        ensures goes { Goes 0 (state self.old) (state self.new) }
        ensures cause { HasCause (state self.old) (state self.new) result }
        ensures mode { HasMode (state self.old).mode result }
        ensures sure { StaysSure (outlook self.old) (outlook self.new) (state self.old) (state self.new) result };

    /// The numbers that admission reckons with.
    fn space(&self) -> Space
        ensures { result ≡ (state self.now).space };

    /// How many more orphans the next list of orphans takes. It has the open inodes without a name, and those closed since the
    /// last commit's start whose list names them.
    fn orphan_room(&self) -> u64
        ensures { result ≡ orphan_room (state self.now) };

    /// How many orphans a list of orphans takes.
    fn orphan_limit(&self) -> u64
        ensures { result ≡ (state self.now).orphan_limit };

    /// The highest inode number that was ever used.
    fn highest(&self) -> u32
        ensures { result ≡ (state self.now).tree.highest };

    /// Whether it can be written, or why not.
    fn mode(&self) -> Mode
        ensures { result ≡ (state self.now).mode };

    /// Arms the volume. It changes nothing but what is expected of the volume.
    fn arm(&mut self, what: &Arm)
        ensures state { state self.new ≡ state self.old }
        ensures spent { (outlook self.old).spent → (outlook self.new).spent };

    /// How often the volume has failed.
    fn faults(&self) -> u64
        ensures { result ≡ (state self.now).faults };

    /// What is used is the bytes of the tree.
    ghost used: { (backing : Self) → (state backing).space.used ≡ tree_bytes (state backing).tree };

    /// The main area is that of the layout.
    ghost main: { (backing : Self) → (state backing).space.main ≡ main_lebs (state backing).geometry };

    /// The numbers of a proper tree are small.
    ghost small: { (backing : Self) → IsProper (state backing).tree → IsSmall (state backing).space };

    /// A journal that is told has three heads, and a cut may leave the tree, but for what has no name.
    ghost journal: { (backing : Self) → IfTold (state backing).journal (IsJournalOf (state backing).tree) };
}
