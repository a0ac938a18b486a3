// A note.

use crate::view::TraceView;
use atomic_table::Seat;
use fs_model::TraceLine;
use std::marker::Model;

/// A note, which carries what its writer has seen to whoever is told of it. Contracts see it as a `NoteState`: which word it
/// is of, and what it carries.
#[derive(Drop)]
pub struct Note {
    pub(crate) seat: Seat<TraceLine, TraceView>,
}

impl Model for Note {
    ghost use Rattle.trace_word.specs.States.{NoteState};

    ghost Value = { NoteState };

    ghost use Rattle.trace_word.specs.Tokens.{note_state, IsNote};

    ghost view = { λ a. note_state a.seat };

    ghost invariant = { λ a. IsNote a.seat };
}
