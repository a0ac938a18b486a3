// Laws of the groups of operations, of pages and of mounts.

ghost use Rattle.std.specs.Prelude.{◌≡◌, ℕ, List, IsTrue, ◌<◌, map, length};
ghost use Rattle.fs_model.specs.declared.change.Change.{Change};
ghost use Rattle.fs_model.specs.declared.op.Op.{Op};
ghost use Rattle.fs_model.specs.declared.op.Op.TheVariants.{Create, Mkdir, Symlink, Link, Unlink, Rmdir, Rename, Truncate, Chmod, OpenFile, Close, Write};
ghost use Rattle.fs_model.specs.declared.page_node.PageNode.{PageNode};
ghost use Rattle.fs_model.specs.declared.space.Grant.{Grant};
ghost use Rattle.fs_model.specs.Backing.{FitsPage, FitsGroup, FitsOrphans, IsModest, page_group};
ghost use Rattle.fs_model.specs.Cover.{inode_bytes};
ghost use Rattle.fs_model.specs.Change.{apply, without_inode};
ghost use Rattle.fs_model.specs.Files.{Tree, Files, Handles};
ghost use Rattle.fs_model.specs.Need.{need_of};
ghost use Rattle.fs_model.specs.Orphan.{all_revive_none, is_nameless, nameless, without_nameless};
ghost use Rattle.fs_model.specs.Operation.{group_of, outcome_of, files_in};
ghost use Rattle.fs_model.specs.Proper.{IsInOrder, IsProper, are_bytes};
ghost use Rattle.fs_model.specs.Recovery.{as_replayed};
ghost use Rattle.fs_model.specs.Worked.{fresh};
ghost use Rattle.fs_laws.specs.Alike.{IsBuiltAlike, HasNodes, told_by};
ghost use Rattle.fs_laws.specs.Sound.{AreFiles, IsSound, IsMoment, IsCall, IsFilePage, KeepsSound, LeavesSound, Pays};

/// The files of a fresh volume are sound.
pub fn a_fresh_volume_is_sound()
    ensures { IsSound fresh }
{}

/// A new mode keeps a proper tree proper, and its changes are nodes.
pub fn a_new_mode_keeps_trees_proper()
    ensures { (files : Files) (caller now : ℕ) (path : List ℕ) (mode : ℕ) → IsSound files → IsMoment now → KeepsSound files (group_of files caller now (Chmod path mode)) }
{}

/// A new file keeps a proper tree proper, and its changes are nodes.
pub fn a_new_file_keeps_trees_proper()
    ensures { (files : Files) (caller now : ℕ) (path : List ℕ) (mode : ℕ) → IsSound files → IsMoment now → IsTrue (are_bytes path) → KeepsSound files (group_of files caller now (Create path mode)) }
{}

/// A new directory keeps a proper tree proper, and its changes are nodes.
pub fn a_new_directory_keeps_trees_proper()
    ensures { (files : Files) (caller now : ℕ) (path : List ℕ) (mode : ℕ) → IsSound files → IsMoment now → IsTrue (are_bytes path) → KeepsSound files (group_of files caller now (Mkdir path mode)) }
{}

/// A new symbolic link keeps a proper tree proper, and its changes are nodes.
pub fn a_new_symbolic_link_keeps_trees_proper()
    ensures { (files : Files) (caller now : ℕ) (path target : List ℕ) → IsSound files → IsMoment now → IsTrue (are_bytes path) → IsTrue (are_bytes target) → KeepsSound files (group_of files caller now (Symlink path target)) }
{}

/// A further name of a file keeps a proper tree proper, and its changes are nodes.
pub fn a_further_name_keeps_trees_proper()
    ensures { (files : Files) (caller now : ℕ) (old new : List ℕ) → IsSound files → IsMoment now → IsTrue (are_bytes new) → KeepsSound files (group_of files caller now (Link old new)) }
{}

/// A name of a file that is taken away keeps a proper tree proper, and its changes are nodes.
pub fn a_removed_name_keeps_trees_proper()
    ensures { (files : Files) (caller now : ℕ) (path : List ℕ) → IsSound files → IsMoment now → KeepsSound files (group_of files caller now (Unlink path)) }
{}

/// A directory that is taken away keeps a proper tree proper, and its changes are nodes.
pub fn a_removed_directory_keeps_trees_proper()
    ensures { (files : Files) (caller now : ℕ) (path : List ℕ) → IsSound files → IsMoment now → KeepsSound files (group_of files caller now (Rmdir path)) }
{}

/// A new size keeps a proper tree proper, and its changes are nodes.
pub fn a_new_size_keeps_trees_proper()
    ensures { (files : Files) (caller now : ℕ) (slot size : ℕ) → IsSound files → IsMoment now → KeepsSound files (group_of files caller now (Truncate slot size)) }
{}

/// A file that is opened leaves the files sound.
pub fn an_opened_file_keeps_trees_proper()
    ensures { (files : Files) (caller now : ℕ) (path : List ℕ) (slot : ℕ) → IsSound files → LeavesSound files (files_in files (outcome_of files caller now (OpenFile path slot))) }
{}

/// A slot that is closed leaves the files sound, also where an inode without a name goes with its last handle.
pub fn a_closed_file_keeps_trees_proper()
    ensures { (files : Files) (caller now slot : ℕ) → IsSound files → LeavesSound files (files_in files (outcome_of files caller now (Close slot))) }
{}

/// A write leaves the files sound.
pub fn a_write_keeps_trees_proper()
    ensures { (files : Files) (caller now slot offs len byte : ℕ) → IsSound files → IsMoment now → byte < 256 → LeavesSound files (files_in files (outcome_of files caller now (Write slot offs len byte))) }
{}

/// A name that moves, to where nothing stands or over another name, keeps a proper tree proper, and its changes are nodes.
pub fn a_moved_name_keeps_trees_proper()
    ensures { (files : Files) (caller now : ℕ) (old new : List ℕ) → IsSound files → IsMoment now → IsTrue (are_bytes new) → KeepsSound files (group_of files caller now (Rename old new)) }
{}

/// A page of a file that is written back keeps a proper tree proper: it is one that a backing takes.
pub fn a_page_keeps_trees_proper()
    ensures { (tree : Tree) (page : PageNode) → IsProper tree → IsFilePage tree page → FitsPage tree page }
{}

/// A page of a file that is written back leaves the files sound.
pub fn a_page_leaves_files_sound()
    ensures { (files : Files) (page : PageNode) → IsSound files → IsFilePage files.tree page → KeepsSound files (page_group page) }
{}

/// The group of any operation keeps a proper tree proper, and its changes are nodes. An operation that is refused, or
/// that has no group, puts nothing.
pub fn an_operation_keeps_trees_proper()
    ensures { (files : Files) (caller now : ℕ) (op : Op) → IsSound files → IsMoment now → IsCall op → KeepsSound files (group_of files caller now op) }
{}

/// Any operation leaves the files sound, also where it is refused.
pub fn an_operation_leaves_files_sound()
    ensures { (files : Files) (caller now : ℕ) (op : Op) → IsSound files → IsMoment now → IsCall op → LeavesSound files (files_in files (outcome_of files caller now op)) }
{}

/// The group of any operation is one that a backing takes under a grant of what the operation asks for.
pub fn an_operation_fits_its_grant()
    ensures { (files : Files) (caller now : ℕ) (op : Op) (grant : Grant) → IsSound files → IsMoment now → IsCall op → Pays grant (need_of files caller now op) → FitsGroup files.tree grant (group_of files caller now op) }
{}

/// What any operation asks for is so little that a backing takes the question.
pub fn an_operation_asks_for_little()
    ensures { (files : Files) (caller now : ℕ) (op : Op) → IsSound files → IsMoment now → IsCall op → IsModest (need_of files caller now op) }
{}

/// A mount, which drops what has no name, finds a proper tree where one was left.
pub fn a_mount_keeps_trees_proper()
    ensures { (tree : Tree) → IsProper tree → IsProper (without_nameless tree) }
{}

/// So does a close that drops an inode without a name: no entry leads to it, and it is no directory.
pub fn a_dropped_inode_keeps_trees_proper()
    ensures { (tree : Tree) (ino : ℕ) → IsProper tree → IsTrue (is_nameless tree ino) → IsProper (without_inode tree ino) }
{}

/// A tree that hangs together as a proper one does is proper where its own inodes and blocks are nodes, and what is a
/// regular file in the one is one in the other.
pub fn trees_built_alike_are_proper()
    ensures proper { (a b : Tree) → IsProper a → IsBuiltAlike a b → HasNodes b → IsProper b }
    ensures handles { (a b : Tree) (handles : Handles) → IsBuiltAlike a b → AreFiles a handles → AreFiles b handles }
{}

/// A group that its grant pays over one tree is paid over a proper one that hangs together alike, whose inodes take as
/// many bytes; and the list of orphans has room for it over both or neither.
pub fn groups_fit_trees_built_alike()
    ensures fits { (a b : Tree) (grant : Grant) (group : List Change) → IsBuiltAlike a b → told_by inode_bytes a.inodes ≡ told_by inode_bytes b.inodes → IsProper b → FitsGroup a grant group → FitsGroup b grant group }
    ensures nameless { (a b : Tree) → IsBuiltAlike a b → length (nameless a) ≡ length (nameless b) }
    ensures orphans { (a b : Tree) (closed limit : ℕ) (group : List Change) → IsBuiltAlike a b → FitsOrphans a closed limit group → FitsOrphans b closed limit group }
{}

/// Changes that bring back no inode leave, once all is forgotten that has no name, what their replay makes of the tree from
/// which that was gone before. So what a commit begins on is what the journal leads to.
pub fn a_replay_leaves_what_has_a_name()
    ensures group { (tree : Tree) (group : List Change) → IsInOrder tree → IsTrue (all_revive_none tree group) → without_nameless (apply tree group) ≡ apply (without_nameless tree) (map as_replayed group) }
    ensures dropped { (tree : Tree) (ino : ℕ) → IsInOrder tree → IsTrue (is_nameless tree ino) → without_nameless (without_inode tree ino) ≡ without_nameless tree }
    ensures twice { (tree : Tree) → IsInOrder tree → without_nameless (without_nameless tree) ≡ without_nameless tree }
{}
