// Laws of what groups ask of admission.

ghost use Rattle.std.specs.Prelude.{◌≡◌, ℕ, ◌*◌, ◌≤◌, IsTrue, List, [], ◌∷◌, Some, false, length, sum_by};
ghost use Rattle.std.specs.List.{list_all};
ghost use Rattle.fs_model.specs.declared.change.Change.{Change as AnyChange};
ghost use Rattle.fs_model.specs.declared.inode.Entry.{Entry as AnyEntry};
ghost use Rattle.fs_model.specs.declared.inode.Inode.{Inode as AnyInode};
ghost use Rattle.fs_model.specs.declared.inode.Kind.TheVariants.{Dir};
ghost use Rattle.fs_model.specs.Backing.{is_node};
ghost use Rattle.fs_model.specs.Cover.{inode_bytes};
ghost use Rattle.fs_model.specs.Files.{Tree, Files, inode_at};
ghost use Rattle.fs_model.specs.Links.{linking, losing, removing};
ghost use Rattle.fs_model.specs.Making.{making};
ghost use Rattle.fs_model.specs.Need.{change_bytes, truncation_need};
ghost use Rattle.fs_model.specs.Proper.{IsProper, has_data, has_kind};
ghost use Rattle.fs_model.specs.Rename.{moving};
ghost use Rattle.fs_model.specs.Truncation.{truncating};
ghost use Rattle.op_groups.specs.Facts.{FitsLimit, IsGone, bytes_asked};

/// A group whose changes are nodes, with an inode that goes among them or not, asks for at most 4,256 bytes a change.
pub fn a_group_of_nodes_asks_little()
    ensures { (gone : ℕ) (group : List AnyChange) → gone ≤ 4256 → IsTrue (list_all is_node group) → sum_by (bytes_asked gone) group ≤ 4256 * length group }
{}

/// What goes with a group is the inode that was looked up, of which `group_need` is told; with a new name nothing goes.
pub fn what_goes_was_looked_up()
    ensures making { (tree : Tree) (dir : ℕ) (name : List ℕ) (inode : AnyInode) (now gone : ℕ) → IsGone tree gone (making tree dir name inode now) }
    ensures linking { (tree : Tree) (entry : AnyEntry) (inode : AnyInode) (dir : ℕ) (name : List ℕ) (now gone : ℕ) → IsGone tree gone (linking tree entry inode dir name now) }
    ensures removing { (files : Files) (entry : AnyEntry) (inode : AnyInode) (now : ℕ) → inode_at files.tree entry.ino ≡ Some inode → IsGone files.tree (inode_bytes inode) (removing files entry inode now) }
    ensures moving { (files : Files) (from : AnyEntry) (dir : ℕ) (name : List ℕ) (now gone : ℕ) → IsGone files.tree gone (moving files from dir name [] now) }
    ensures moving_over { (files : Files) (from over : AnyEntry) (inode : AnyInode) (dir : ℕ) (name : List ℕ) (now : ℕ) → inode_at files.tree over.ino ≡ Some inode →
        IsGone files.tree (inode_bytes inode) (moving files from dir name (losing files over.ino now inode ∷ []) now) }
{}

/// The group of an operation takes no more bytes than a group may, where its changes are nodes and names stand in
/// directories.
pub fn groups_stay_within_the_limit()
    ensures making { (tree : Tree) (dir : ℕ) (name : List ℕ) (inode : AnyInode) (now : ℕ) → IsTrue (has_kind tree dir Dir) → FitsLimit tree (making tree dir name inode now) }
    ensures linking { (tree : Tree) (entry : AnyEntry) (inode : AnyInode) (dir : ℕ) (name : List ℕ) (now : ℕ) → IsTrue (has_kind tree dir Dir) → FitsLimit tree (linking tree entry inode dir name now) }
    ensures removing { (files : Files) (entry : AnyEntry) (inode : AnyInode) (now : ℕ) → IsProper files.tree → inode_at files.tree entry.ino ≡ Some inode → IsTrue (has_kind files.tree entry.dir Dir) →
        FitsLimit files.tree (removing files entry inode now) }
    ensures moving { (files : Files) (from : AnyEntry) (dir : ℕ) (name : List ℕ) (now : ℕ) → IsTrue (has_kind files.tree from.dir Dir) → IsTrue (has_kind files.tree dir Dir) →
        FitsLimit files.tree (moving files from dir name [] now) }
    ensures moving_over { (files : Files) (from over : AnyEntry) (inode : AnyInode) (dir : ℕ) (name : List ℕ) (now : ℕ) → IsProper files.tree → inode_at files.tree over.ino ≡ Some inode →
        IsTrue (has_kind files.tree from.dir Dir) → IsTrue (has_kind files.tree dir Dir) → FitsLimit files.tree (moving files from dir name (losing files over.ino now inode ∷ []) now) }
    ensures truncating { (tree : Tree) (ino : ℕ) (inode : AnyInode) (size now : ℕ) → has_data inode.kind ≡ false → FitsLimit tree (truncating tree ino inode size now) }
{}

/// The group of a new size takes no more than it asks for, where its changes are nodes.
pub fn a_new_size_asks_for_enough()
    ensures bytes { (tree : Tree) (ino : ℕ) (inode : AnyInode) (size now : ℕ) → has_data inode.kind ≡ false → IsTrue (list_all is_node (truncating tree ino inode size now)) →
        sum_by (change_bytes tree) (truncating tree ino inode size now) ≤ (truncation_need (truncating tree ino inode size now)).bytes }
    ensures nodes { (tree : Tree) (ino : ℕ) (inode : AnyInode) (size now : ℕ) → has_data inode.kind ≡ false → IsTrue (list_all is_node (truncating tree ino inode size now)) →
        length (truncating tree ino inode size now) ≤ (truncation_need (truncating tree ino inode size now)).nodes }
{}
