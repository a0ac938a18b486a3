// What the owners of the seats know of the trace. No value of these types is made.

use fs_model::TraceLine;
use std::collections::LinkedList;

/// What one knows: the trace as it was seen last, as it was seen before, and claims that were shown, each with its caller.
pub struct Known {
    pub seen: LinkedList<TraceLine>,
    pub earlier: LinkedList<LinkedList<TraceLine>>,
    pub shown: LinkedList<(u16, u64)>,
}

/// What the recorder knows: besides, how many passes were made.
pub struct RecorderView {
    pub known: Known,
    pub passes: u16,
}

/// What the owner of a pass or of a note knows. A pass has a caller, and has claimed so many lines.
pub struct GuestView {
    pub known: Known,
    pub is_pass: bool,
    pub caller: u16,
    pub claim: u64,
}

/// What one of them knows.
pub enum TraceView {
    Recorder(RecorderView),
    Guest(GuestView),
}
