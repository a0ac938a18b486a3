// Laws of steps, for whoever has many of them behind one another.

ghost use Rattle.std.specs.Prelude.{◌≡◌, ℕ, ◌+◌, ◌*◌, ◌≤◌, true, false, Ok, List, Result, length};
ghost use Rattle.fs_model.specs.declared.backing_answers.Mode.TheVariants.{ReadWrite};
ghost use Rattle.fs_model.specs.declared.change.Change.{Change};
ghost use Rattle.fs_model.specs.declared.op.Op.{Op};
ghost use Rattle.fs_model.specs.declared.op.Op.TheVariants.{Flush};
ghost use Rattle.fs_model.specs.declared.reply.Reply.{Reply};
ghost use Rattle.fs_model.specs.declared.reply.Reply.TheVariants.{Done};
ghost use Rattle.fs_model.specs.declared.refusal.Refusal.{Refusal};
ghost use Rattle.fs_model.specs.declared.space.Need.{Need};
ghost use Rattle.fs_model.specs.Files.{Files, Tree};
ghost use Rattle.fs_model.specs.Journal.{IfTold, IsJournalOf, MayLeave};
ghost use Rattle.fs_model.specs.Legal.{pages_in};
ghost use Rattle.fs_model.specs.Need.{need_of};
ghost use Rattle.fs_model.specs.Operation.{group_of, outcome_of};
ghost use Rattle.fs_model.specs.Orphan.{leaves_orphan, nameless, without_nameless};
ghost use Rattle.fs_model.specs.Proper.{IsProper};
ghost use Rattle.fs_laws.specs.Sound.{IsSound};
ghost use Rattle.buffered_files.specs.Alike.{IsAlike};
ghost use Rattle.buffered_files.specs.Calls.{GrowsBy};
ghost use Rattle.buffered_files.specs.Cuts.{HasValues, ValuesOf, ValuesWith, group_fate};
ghost use Rattle.buffered_files.specs.Cuts.GroupFate.{NotPut};
ghost use Rattle.buffered_files.specs.Present.{IsKept};
ghost use Rattle.vfs_ops.specs.declared.event.Event.{Event};
ghost use Rattle.vfs_ops.specs.declared.event.Event.TheVariants.{Call};
ghost use Rattle.vfs_ops.specs.declared.event.Outcome.{Outcome};
ghost use Rattle.vfs_ops.specs.declared.event.Outcome.TheVariants.{Replied};
ghost use Rattle.vfs_ops.specs.Events.{outcome_fate, group_in, sets_size};
ghost use Rattle.vfs_ops.specs.FilesState.{FilesState, present_in};
ghost use Rattle.vfs_ops.specs.Operations.{orphans};
ghost use Rattle.vfs_ops.specs.Passing.{IsApplied, IsStep};
ghost use Rattle.vfs_ops.specs.Replies.{IsAlikeOutcome, holds_bytes, is_refusal};
ghost use Rattle.vfs_plans.specs.Operations.{is_truncate};

use buffered_files::{
    a_cut_leaves_what_was_put, clean_files_are_those_of_the_backing, groups_leave_files_alike,
    resized_files_stay_alike, written_files_stay_alike,
};
use fs_model::a_cut_keeps_what_was_synced;

/// What the plain operation answers is never a refusal where it is done.
pub fn a_plain_answer_is_no_refusal()
    ensures { (files : Files) (caller now : ℕ) (op : Op) (reply : Reply) (after : Files) → IsSound files → outcome_of files caller now op ≡ Ok (reply, after) → is_refusal reply ≡ false }
{}

/// An operation whose reply holds bytes leaves the files.
pub fn a_reply_with_bytes_leaves_the_files()
    ensures { (files : Files) (caller now : ℕ) (op : Op) (reply : Reply) (after : Files) → IsSound files → outcome_of files caller now op ≡ Ok (reply, after) → holds_bytes reply ≡ true → after ≡ files }
{}

/// Files that are alike give the same outcome of an operation: the same reply and files that are alike, or the same refusal. So
/// a history is replayed from the files of its opening.
pub fn alike_files_answer_alike()
    ensures { (a b : Files) (caller now : ℕ) (op : Op) → IsSound a → IsProper b.tree → IsAlike a b → IsAlikeOutcome (outcome_of a caller now op) (outcome_of b caller now op) }
{
    groups_leave_files_alike();
    resized_files_stay_alike();
    written_files_stay_alike();
}

/// Files that are alike ask the same of a store for an operation: the same room, and the same group. That of a new size may
/// differ, since it may have to shorten zeros at the end of a block away.
pub fn alike_files_ask_alike()
    ensures group { (a b : Files) (caller now : ℕ) (op : Op) → is_truncate op ≡ false → IsAlike a b → group_of a caller now op ≡ group_of b caller now op }
    ensures need { (a b : Files) (caller now : ℕ) (op : Op) → (is_truncate op ≡ true → IsSound a) → IsAlike a b → need_of a caller now op ≡ need_of b caller now op }
{}

/// A caller's step adds five nodes at most, and two for each page that its words touch: the index gets no heavier, dirty pages
/// included.
pub fn a_call_adds_few_nodes()
    ensures { (old new : FilesState) (caller now grant : ℕ) (op : Op) (outcome : Outcome) → IsSound (present_in old) → IsStep old new (Call caller now grant op) outcome → GrowsBy (5 + 2 * pages_in op) old.backing new.backing old.kept new.kept }
{}

/// An operation that is done leaves one inode without a name more at most, and exactly where its group sets one. A file that is open has then lost
/// its last name. A new size sets the inode of its file again, which may have none already.
pub fn an_operation_leaves_one_orphan_at_most()
    ensures one { (files after : Files) (caller now : ℕ) (op : Op) (reply : Reply) → IsSound files → outcome_of files caller now op ≡ Ok (reply, after) → length (nameless after.tree) ≤ length (nameless files.tree) + 1 }
    ensures exact { (files after : Files) (caller now : ℕ) (op : Op) (reply : Reply) → IsSound files → is_truncate op ≡ false → outcome_of files caller now op ≡ Ok (reply, after) → leaves_orphan files after ≡ orphans (group_of files caller now op) }
{}

/// What a cut leaves after an event, or after a group, has a value for each inode, entry and block; nothing is a value too. It is one of a tree that
/// a cut might have left before, of the files that callers saw before, or of these with the call's group. An inode without a name may be gone with
/// its blocks. After a refusal that isn't a fault of the volume, nothing is left of the group.
pub fn a_cut_leaves_old_values_or_new_ones()
    ensures event { (old new : FilesState) (event : Event) (outcome : Outcome) (left : Tree) → (sets_size event ≡ true → IsSound (present_in old)) → IfTold old.backing.journal (IsJournalOf old.backing.tree) → IsStep old new event outcome → MayLeave new.backing.journal left
        → HasValues old.backing.journal (ValuesWith (present_in old).tree (group_in (present_in old) event)) left }
    ensures group { (old new : FilesState) (group : List Change) (need : Need) (result : Result (Unit {0}) Refusal) (left : Tree) → IfTold old.backing.journal (IsJournalOf old.backing.tree) → IsApplied old new group need result → MayLeave new.backing.journal left
        → HasValues old.backing.journal (ValuesWith (present_in old).tree group) left }
    ensures refused { (old new : FilesState) (event : Event) (outcome : Outcome) (left : Tree) → IfTold old.backing.journal (IsJournalOf old.backing.tree) → IsStep old new event outcome → outcome_fate outcome ≡ NotPut → MayLeave new.backing.journal left
        → HasValues old.backing.journal (ValuesOf (present_in old).tree) left }
    ensures not_applied { (old new : FilesState) (group : List Change) (need : Need) (result : Result (Unit {0}) Refusal) (left : Tree) → IfTold old.backing.journal (IsJournalOf old.backing.tree) → IsApplied old new group need result → group_fate result ≡ NotPut → MayLeave new.backing.journal left
        → HasValues old.backing.journal (ValuesOf (present_in old).tree) left }
{
    a_cut_leaves_what_was_put();
}

/// After a flush that is done on a store that could be written a cut leaves the files that callers see, without what has no
/// name, and nothing else.
pub fn a_cut_after_a_flush_leaves_the_files()
    ensures { (old new : FilesState) (caller now grant rest : ℕ) (left : Tree) → old.backing.mode ≡ ReadWrite → IsKept new.backing.tree new.kept → IfTold new.backing.journal (IsJournalOf new.backing.tree)
        → IsStep old new (Call caller now grant Flush) (Replied Done rest) → MayLeave new.backing.journal left → left ≡ without_nameless (present_in new).tree }
{
    a_cut_keeps_what_was_synced();
    clean_files_are_those_of_the_backing();
}
