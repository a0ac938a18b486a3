// Laws of runs: when a line is refused for want of room, what a phase is, and what one caller alone does.

ghost use Rattle.std.specs.Prelude.{◌≡◌, ℕ, ◌+◌, ◌-◌, ◌*◌, ◌<◌, ◌≤◌, ◌++◌, max, true, All, List, [], ◌∷◌, codes};
ghost use Rattle.std.specs.List.{AllByRecursion};
ghost use Rattle.ubifs_base.specs.declared.raw_geometry.RawGeometry.{RawGeometry as Raw};
ghost use Rattle.ubifs_base.specs.Areas.{main_lebs};
ghost use Rattle.ubifs_base.specs.Geometry.{leb_reserve};
ghost use Rattle.fs_model.specs.declared.op.Op.{Op as AnyOp};
ghost use Rattle.fs_model.specs.declared.refusal.NoSpace.{NoSpace};
ghost use Rattle.fs_model.specs.declared.refusal.Refusal.TheVariants.{Enospc};
ghost use Rattle.fs_model.specs.declared.reply.Reply.{Reply as AnyReply};
ghost use Rattle.fs_model.specs.declared.reply.Reply.TheVariants.{Ino, Refused};
ghost use Rattle.fs_model.specs.declared.space.Need.{Need};
ghost use Rattle.fs_model.specs.declared.trace.TraceLine.{TraceLine};
ghost use Rattle.fs_model.specs.Cover.{reserve};
ghost use Rattle.fs_model.specs.Journal.{Journal};
ghost use Rattle.fs_model.specs.Legal.{IsLegal, least_room, most_asked};
ghost use Rattle.space_sums.specs.Spaces.{HasRoom};
ghost use Rattle.traced_files.specs.History.{index_growth_by, place_after};
ghost use Rattle.vfs_ops.specs.Replies.{is_refusal};
ghost use Rattle.script_text.specs.declared.part.Part.{Part};
ghost use Rattle.script_text.specs.declared.part.Part.TheVariants.{Workers};
ghost use Rattle.script_text.specs.Reply.{reply_line};
ghost use Rattle.script_phase.specs.declared.lines.CallerLine.{CallerLine};
ghost use Rattle.script_phase.specs.Phases.{callers_in};
ghost use Rattle.text_lines.specs.Lines.{ended};
ghost use Rattle.script_run.specs.Admission.{least_need, named_bytes};
ghost use Rattle.script_run.specs.Heaviest.{heaviest_space, heaviest_weight, one_create, worked_geometry};
ghost use Rattle.script_run.specs.Phases.{ArePhases, AreServedTogether, IsOfOne, left_by, opened_on};
ghost use Rattle.script_run.specs.Run.{HasNoRoom, IsReplied, IsRun, ScriptRunning, opening};

use space_sums::more_never_lowers_the_need;

/// Behind the lines of a script the index weighs no more than these add at most. So what has room beside the heaviest index
/// is not refused for want of it.
pub fn what_has_room_is_not_refused_for_want_of_it()
    ensures weight { (geo : Raw) (first last : ScriptRunning) (parts : List Part) (text : List ℕ) → IsRun geo first parts text last → last.weight ≤ heaviest_weight first parts }
    ensures room { (geo : Raw) (first last : ScriptRunning) (parts : List Part) (text : List ℕ) (need : Need) (sides : NoSpace) → IsRun geo first parts text last →
        HasRoom geo (heaviest_space geo first parts last) need → HasNoRoom geo last need sides → ⊥ }
{
    more_never_lowers_the_need();
}

/// On a fresh volume of 64 main LEBs a file is made: this text, and no other, is that of such a script.
pub fn a_first_file_is_made()
    ensures { (journal : Journal) (text : List ℕ) (last : ScriptRunning) → IsRun worked_geometry (opening journal) one_create text last → text ≡ ended (codes "mount rw") ++ reply_line 1 1 (Ino 65) }
{}

/// So it is beside a worker, whose pages may be put at any moment.
pub fn a_first_file_is_made_beside_a_worker()
    ensures { (journal : Journal) (text : List ℕ) (last : ScriptRunning) → ArePhases worked_geometry (opening journal) [] (Workers 1 ∷ one_create) text last → text ≡ ended (codes "mount rw") ++ reply_line 1 1 (Ino 65) }
{}

/// The trace of callers who were at work at once is legal, from what their phase opened on to what it left.
pub fn a_phase_is_legal()
    ensures { (geo : Raw) (before after : ScriptRunning) (lines : List CallerLine) (text : List ℕ) → (phase : AreServedTogether geo before lines text after) → IsLegal (opened_on geo (callers_in lines) before) phase.trace (left_by geo before phase.trace after) }
{}

/// However many lines of a phase neither write nor have a group, they make the index no heavier. A refusal for want of room behind such lines alone tells no less than there is beside
/// the index on which the phase opened, with what the refused line's operation may add.
pub fn what_only_looks_takes_no_room()
    ensures { (geo : Raw) (before after : ScriptRunning) (lines : List CallerLine) (text : List ℕ) (phase : AreServedTogether geo before lines text after) (first : List TraceLine) (line : TraceLine) (rest : List TraceLine) (sides : NoSpace) →
        phase.trace ≡ first ++ line ∷ rest → All (λ l. index_growth_by l.op ≡ 0) first → line.reply ≡ Refused (Enospc sides) →
        least_room (opened_on geo (callers_in lines) before) (before.weight + index_growth_by line.op) (most_asked (opened_on geo (callers_in lines) before) (place_after (opened_on geo (callers_in lines) before) first) line) ≤ sides.room }
{}

/// Where inodes and names alone take more than all main LEBs but the reserve of a class, no operation of that class is done that puts a group.
pub fn what_names_fill_takes_no_more()
    ensures { (geo : Raw) (before after : ScriptRunning) (caller : ℕ) (op : AnyOp) (reply : AnyReply) → IsReplied geo before caller op reply after → 0 < (least_need before.files caller before.now op).nodes →
        (main_lebs geo - reserve (least_need before.files caller before.now op).class) * (geo.leb_size - leb_reserve geo) < named_bytes before.files.tree → is_refusal reply ≡ true }
{}

/// A script of one caller beside no worker is a run of its lines, one after another.
pub fn a_script_of_one_caller_is_a_run()
    ensures { (geo : Raw) (one : ℕ) (first last : ScriptRunning) (parts : List Part) (text : List ℕ) → first.workers ≡ 0 → AllByRecursion (IsOfOne one) parts → ArePhases geo first [] parts text last → IsRun geo first parts text last }
{}
