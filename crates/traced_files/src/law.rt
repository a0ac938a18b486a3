// The laws of the layers below that a line rests on.

ghost use Rattle.std.specs.Prelude.{◌≡◌, ◌∷◌, ◌++◌, ℕ, true, List, []};
ghost use Rattle.fs_laws.specs.Sound.{IsCall, IsMoment};
ghost use Rattle.fs_model.specs.declared.backing_answers.Mode.TheVariants.{ReadWrite};
ghost use Rattle.fs_model.specs.declared.trace.TraceLine.{TraceLine};
ghost use Rattle.fs_model.specs.Files.{Files, Tree};
ghost use Rattle.fs_model.specs.Journal.{IfTold, IsJournalOf, Journal, MayLeave};
ghost use Rattle.buffered_files.specs.Cuts.{TreePlace, ValuesOf, value_at};
ghost use Rattle.vfs_ops.specs.declared.event.Event.TheVariants.{Call};
ghost use Rattle.vfs_ops.specs.declared.event.Outcome.TheVariants.{Replied};
ghost use Rattle.vfs_ops.specs.FilesState.{FilesState, present_in};
ghost use Rattle.vfs_ops.specs.Passing.{IsStep};
ghost use Rattle.vfs_ops.specs.Steps.{IsReady};
ghost use Rattle.traced_files.specs.History.{files_behind};
ghost use Rattle.traced_files.specs.Laws.{AreLaws};
ghost use Rattle.traced_files.specs.Seen.{LeavesSeen, is_synced_by};

use buffered_files::{a_cut_leaves_what_was_put, clean_files_are_those_of_the_backing};
use fs_laws::an_operation_leaves_files_sound;
use fs_model::{a_cut_keeps_what_was_synced, groups_make_the_changes};
use vfs_ops::{
    a_call_adds_few_nodes, a_cut_after_a_flush_leaves_the_files,
    a_cut_leaves_old_values_or_new_ones, a_plain_answer_is_no_refusal,
    a_reply_with_bytes_leaves_the_files, alike_files_answer_alike, alike_files_ask_alike,
};

// The laws hold.
pub(crate) fn laws()
    ensures { AreLaws }
{
    alike_files_answer_alike();
    alike_files_ask_alike();
    an_operation_leaves_files_sound();
    a_call_adds_few_nodes();
    a_plain_answer_is_no_refusal();
    clean_files_are_those_of_the_backing();
    a_reply_with_bytes_leaves_the_files();
    groups_make_the_changes();
    a_cut_leaves_what_was_put();
    a_cut_leaves_old_values_or_new_ones();
    a_cut_after_a_flush_leaves_the_files();
    a_cut_keeps_what_was_synced();
}

/// What a cut leaves behind a caller's step on a store that could be written was seen before its line or by it, or a cut might have left it
/// before. What a sync that was done made last is what callers see then.
pub fn a_line_leaves_what_was_seen()
    ensures { (old new : FilesState) (line : TraceLine) (grant left : ℕ) → old.backing.mode ≡ ReadWrite → IsMoment line.now → IsCall line.op → IsReady old.backing old.kept → IsReady new.backing new.kept
        → IfTold old.backing.journal (IsJournalOf old.backing.tree) → IfTold new.backing.journal (IsJournalOf new.backing.tree)
        → IsStep old new (Call line.caller line.now grant line.op) (Replied line.reply left) → LeavesSeen (present_in old) old.backing.journal (line ∷ []) new.backing.journal }
{
    laws();
}

/// If the last line is a sync that was done, a cut leaves of what it synced what callers saw last: at each such place their value, but an inode
/// without a name may be gone. A flush syncs all, an `fsync` its slot's file, names and inodes that aren't files'.
pub fn a_sync_leaves_what_was_seen_last()
    ensures { (opening : Files) (before now : Journal) (lines : List TraceLine) (line : TraceLine) (left : Tree) (place : TreePlace) → is_synced_by (files_behind opening lines) line.caller line.op line.reply place ≡ true → LeavesSeen opening before (lines ++ line ∷ []) now → MayLeave now left
        → ValuesOf (files_behind opening (lines ++ line ∷ [])).tree place (value_at left place) }
{}
