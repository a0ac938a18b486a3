// The rule of the word, and what each kind of step on it tells.

use crate::view::TraceView;
use atomic_table::{Join, Play, Split, TableRule};
use fs_model::TraceLine;

/// The rule: the recorder's list is as long as the word says, all others are its beginnings, and no caller has more lines than
/// its pass has claimed.
pub struct Trace;

impl TableRule<TraceLine, TraceView, ()> for Trace {
    ghost use Rattle.trace_word.specs.Rule.{KeepsTrace, opened_recorder};

    ghost holds = { λ _. KeepsTrace };

    ghost first = { λ _. opened_recorder };
}

/// The recorder adds the line that the step announces.
pub struct Append;

impl Play<TraceLine, TraceView> for Append {
    ghost use Rattle.trace_word.specs.Steps.{Appends};

    ghost then = { Appends };
}

/// A pass claims one line more.
pub struct Claim;

impl Play<TraceLine, TraceView> for Claim {
    ghost use Rattle.trace_word.specs.Steps.{Claims};

    ghost then = { Claims };
}

/// The recorder, or a pass, is told what the rule says of its lists.
pub struct Look;

impl Play<TraceLine, TraceView> for Look {
    ghost use Rattle.trace_word.specs.Steps.{LooksAtTrace};

    ghost then = { LooksAtTrace };
}

/// A new note.
pub struct NoteOut;

impl Split<TraceView> for NoteOut {
    ghost use Rattle.trace_word.specs.Steps.{new_note};

    ghost left = { λ v. v };

    ghost right = { new_note };
}

/// The pass of the next caller.
pub struct PassOut;

impl Split<TraceView> for PassOut {
    ghost use Rattle.trace_word.specs.Steps.{with_pass_out, new_pass};

    ghost left = { with_pass_out };

    ghost right = { new_pass };
}

/// The end of a note, whose lists and claims are taken over.
pub struct NoteIn;

impl Join<TraceView> for NoteIn {
    ghost use Rattle.trace_word.specs.Steps.{with_note, spent_note};

    ghost both = { with_note };

    ghost spent = { spent_note };
}
