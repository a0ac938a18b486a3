// Laws of the present files.

ghost use Rattle.std.specs.Prelude.{◌≡◌, ℕ, ◌<◌, List, [], false, length, Some};
ghost use Rattle.fs_laws.specs.Sound.{AreFiles, IsSound};
ghost use Rattle.fs_model.specs.declared.change.Change.{Change};
ghost use Rattle.fs_model.specs.declared.inode.Inode.{Inode};
ghost use Rattle.fs_model.specs.Change.{apply};
ghost use Rattle.fs_model.specs.Files.{Files, Tree, inode_at};
ghost use Rattle.fs_model.specs.Journal.{IfTold, IsJournalOf, Journal, MayLeave};
ghost use Rattle.fs_model.specs.Handles.{tree_written};
ghost use Rattle.fs_model.specs.Orphan.{nameless};
ghost use Rattle.fs_model.specs.Path.{is_dir};
ghost use Rattle.fs_model.specs.Proper.{IsProper};
ghost use Rattle.fs_model.specs.Same.{IsSame};
ghost use Rattle.fs_model.specs.Truncation.{truncating};
ghost use Rattle.buffered_files.specs.declared.kept.Kept.{Kept as AnyKept};
ghost use Rattle.buffered_files.specs.Alike.{IsAlike};
ghost use Rattle.buffered_files.specs.Cuts.{GroupFate, HasValues, PutsWith, ValuesOf, ValuesWith};
ghost use Rattle.buffered_files.specs.Cuts.GroupFate.{NotPut};
ghost use Rattle.buffered_files.specs.Follow.{AreOfNames};
ghost use Rattle.buffered_files.specs.Present.{IsKept, present};

use fs_laws::{groups_fit_trees_built_alike, trees_built_alike_are_proper};

/// Files that are alike are the same to every caller.
pub fn alike_files_are_the_same()
    ensures { (a b : Files) → IsAlike a b → IsSame a b }
{}

/// A write to what is no directory leaves files alike that were alike.
pub fn written_files_stay_alike()
    ensures { (a b : Files) (ino : ℕ) (inode : Inode) (now offs n byte : ℕ) → 0 < n → inode_at a.tree ino ≡ Some inode → is_dir inode.kind ≡ false → IsAlike a b → IsAlike (record a { tree = tree_written a.tree ino inode now offs n byte }) (record b { tree = tree_written b.tree ino inode now offs n byte }) }
{}

/// A new size of what is no directory leaves files alike that were alike.
pub fn resized_files_stay_alike()
    ensures { (a b : Files) (ino : ℕ) (inode : Inode) (size now : ℕ) → IsProper a.tree → IsProper b.tree → inode_at a.tree ino ≡ Some inode → is_dir inode.kind ≡ false → IsAlike a b
        → IsAlike (record a { tree = apply a.tree (truncating a.tree ino inode size now) }) (record b { tree = apply b.tree (truncating b.tree ino inode size now) }) }
{}

/// A group of changes of inodes and names leaves files alike that were alike.
pub fn groups_leave_files_alike()
    ensures { (a b : Files) (group : List Change) → IsProper a.tree → IsProper b.tree → AreOfNames a.tree group → IsAlike a b → IsAlike (record a { tree = apply a.tree group }) (record b { tree = apply b.tree group }) }
{}

/// The present tree is proper, and has as many inodes without a name as the tree below. The present files are sound where each handle names a regular
/// file of that tree.
pub fn present_files_are_sound()
    ensures proper { (tree : Tree) (kept : AnyKept) → IsKept tree kept → IsProper (present tree kept).tree }
    ensures sound { (tree : Tree) (kept : AnyKept) → IsKept tree kept → AreFiles tree kept.handles → IsSound (present tree kept) }
    ensures nameless { (tree : Tree) (kept : AnyKept) → IsKept tree kept → length (nameless (present tree kept).tree) ≡ length (nameless tree) }
{
    trees_built_alike_are_proper();
    groups_fit_trees_built_alike();
}

/// Where no page is dirty, the present tree is the backing's own.
pub fn clean_files_are_those_of_the_backing()
    ensures { (tree : Tree) (kept : AnyKept) → IsKept tree kept → kept.pages.dirty ≡ [] → (present tree kept).tree ≡ tree }
{}

/// What a cut leaves after calls has at each place a value of a tree that it might have left before them, or one that they put. That is a value of
/// these files, or of what their group makes of them. Where the group wasn't put, it has none of the latter.
pub fn a_cut_leaves_what_was_put()
    ensures all { (old new : Journal) (tree left files : Tree) (group : List Change) (fate : GroupFate) → IfTold old (IsJournalOf tree) → PutsWith files group fate old new → MayLeave new left → HasValues old (ValuesWith files group) left }
    ensures not_put { (old new : Journal) (tree left files : Tree) (group : List Change) → IfTold old (IsJournalOf tree) → PutsWith files group NotPut old new → MayLeave new left → HasValues old (ValuesOf files) left }
{}
