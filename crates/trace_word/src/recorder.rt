// The recorder of a trace.

use crate::view::TraceView;
use atomic_table::Seat;
use fs_model::TraceLine;
use std::marker::Model;

/// The recorder of a trace, which adds its lines. Contracts see it as a `RecorderState`: which word it is of, what it knows,
/// and how many passes it has made.
#[derive(Drop)]
pub struct Recorder {
    pub(crate) seat: Seat<TraceLine, TraceView>,
}

impl Model for Recorder {
    ghost use Rattle.trace_word.specs.States.{RecorderState};

    ghost Value = { RecorderState };

    ghost use Rattle.trace_word.specs.Tokens.{recorder_state, IsRecorder};

    ghost view = { λ a. recorder_state a.seat };

    ghost invariant = { λ a. IsRecorder a.seat };
}
