// The word.

ghost use Rattle.std.specs.Prelude.{◌≡◌, ℕ, ◌+◌, ◌<◌, ◌≤◌, ◌^◌, ◌++◌, [], ◌∷◌, length, All, IfOk};
ghost use mathlib.Core.List.{IsPrefix};
ghost use Rattle.trace_word.specs.Knowledge.{lines_of, known_joined, known_told, with_line, none_known, note_of, claim_note, MayAppend};
ghost use Rattle.trace_word.specs.States.{RecorderState, PassState, NoteState};

use crate::note::Note;
use crate::pass::Pass;
use crate::recorder::Recorder;
use crate::steps::{Append, Claim, Look, NoteIn, NoteOut, PassOut, Trace};
use crate::view::TraceView;
use atomic_table::Table;
use fs_model::TraceLine;
use std::alloc::Global;
use std::marker::Model;
use ubifs_base::Memory;

/// The number of lines of a trace, on a word. Contracts see it as which word it is.
///
/// It stands on a table of its own. All steps on it are made while one lock is held, behind which the recorder stands; the rule
/// holds in any schedule all the same.
#[derive(Drop)]
pub struct TraceWord {
    table: Table<TraceLine, TraceView, (), Trace, Global>,
}

impl Model for TraceWord {
    ghost use Rattle.std.specs.Prelude.{◌≡◌};
    ghost use Rattle.atomic_table.specs.Seated.{TableId, table_id_coded};

    ghost Value = { TableId };

    ghost coded = { table_id_coded };

    ghost view = { λ w. w.table.shared.table_id };

    ghost invariant = { λ w. w.table.shared.table_id.words ≡ 1 };
}

impl TraceWord {
    /// The word of an empty trace, with its recorder.
    ///
    /// `Memory` where the word's own finds none.
    pub fn new(alloc: Global) -> Result<(TraceWord, Recorder), Memory>
        ensures { IfOk result (λ made. made.1 ≡ record { word = made.0; known = none_known; passes = 0 }) }
    {
        let (table, seat) = Table::of_words(alloc, &[0], &())?;
        Ok((TraceWord { table }, Recorder { seat }))
    }

    /// Adds a line to the trace, which has `len` lines. Its caller has shown a claim above the lines that it has.
    pub fn append(&self, recorder: &mut Recorder, len: u64, line: &TraceLine)
        requires word { recorder.old.word ≡ self.now }
        requires len { (len ≡ length recorder.old.known.seen) × (len < 2 ^ 63) }
        requires claimed { MayAppend line.now.caller recorder.old.known }
        ensures { recorder.new ≡ record { word = self.now; known = with_line line.entry.now recorder.old.known; passes = recorder.old.passes } }
    {
        self.table
            .shared
            .compare_exchange_with::<Append>(&mut recorder.seat, 0, len, len + 1, line);
    }

    /// Claims one line more.
    pub fn claim(&self, pass: &mut Pass)
        requires { pass.old.word ≡ self.now }
        ensures { pass.new ≡ record { word = self.now; known = pass.old.known; caller = pass.old.caller; claim = pass.old.claim + 1 } }
    {
        self.table.shared.load::<Claim>(&mut pass.seat, 0);
    }

    /// The pass of the next caller.
    pub fn new_pass(&self, recorder: &mut Recorder) -> Pass
        requires word { recorder.old.word ≡ self.now }
        ensures recorder { recorder.new ≡ record { word = self.now; known = recorder.old.known; passes = recorder.old.passes + 1 } }
        ensures pass { result ≡ record { word = self.now; known = none_known; caller = recorder.old.passes + 1; claim = 0 } }
    {
        let seat = self.table.shared.split_seat::<PassOut>(&mut recorder.seat);
        Pass { seat }
    }

    /// A note of all that the recorder knows.
    pub fn note_of_recorder(&self, recorder: &mut Recorder) -> Note
        requires word { recorder.old.word ≡ self.now }
        ensures recorder { recorder.new ≡ recorder.old }
        ensures note { result ≡ record { word = self.now; known = note_of recorder.old.known } }
    {
        let seat = self.table.shared.split_seat::<NoteOut>(&mut recorder.seat);
        Note { seat }
    }

    /// A note of what a pass has seen, which shows its claim.
    pub fn note_of_pass(&self, pass: &mut Pass) -> Note
        requires word { pass.old.word ≡ self.now }
        ensures pass { pass.new ≡ pass.old }
        ensures note { result ≡ record { word = self.now; known = claim_note pass.old.caller pass.old.claim pass.old.known } }
    {
        let seat = self.table.shared.split_seat::<NoteOut>(&mut pass.seat);
        Note { seat }
    }

    /// The recorder takes over what a note says.
    pub fn tell_recorder(&self, recorder: &mut Recorder, note: Note)
        requires word { recorder.old.word ≡ self.now }
        requires note { note.word ≡ self.now }
        ensures { recorder.new ≡ record { word = self.now; known = known_told recorder.old.known note.known; passes = recorder.old.passes } }
    {
        let Note { seat } = note;
        self.table
            .shared
            .join_seat::<NoteIn>(&mut recorder.seat, seat);
    }

    /// A pass takes over what a note says.
    pub fn tell_pass(&self, pass: &mut Pass, note: Note)
        requires word { pass.old.word ≡ self.now }
        requires note { note.word ≡ self.now }
        ensures { pass.new ≡ record { word = self.now; known = known_joined pass.old.known note.known; caller = pass.old.caller; claim = pass.old.claim } }
    {
        let Note { seat } = note;
        self.table.shared.join_seat::<NoteIn>(&mut pass.seat, seat);
    }

    /// The recorder is told that each earlier list is a beginning of its own.
    pub fn look_as_recorder(&self, recorder: &mut Recorder)
        requires word { recorder.old.word ≡ self.now }
        ensures same { recorder.new ≡ recorder.old }
        ensures earlier { All (λ e. IsPrefix e recorder.old.known.seen) recorder.old.known.earlier }
        ensures others { (caller : ℕ) → recorder.old.passes < caller → lines_of caller recorder.old.known.seen ≡ 0 }
    {
        self.table.shared.load::<Look>(&mut recorder.seat, 0);
    }

    /// A pass is told that no list that it keeps has more lines of its caller than it claimed.
    pub fn look_as_pass(&self, pass: &mut Pass)
        requires word { pass.old.word ≡ self.now }
        ensures same { pass.new ≡ pass.old }
        ensures seen { lines_of pass.old.caller pass.old.known.seen ≤ pass.old.claim }
        ensures earlier { All (λ e. lines_of pass.old.caller e ≤ pass.old.claim) pass.old.known.earlier }
    {
        self.table.shared.load::<Look>(&mut pass.seat, 0);
    }

    /// A pass and the recorder tell each other what they have seen.
    ///
    /// The trace then begins with what the pass had seen, and has of its caller just the lines that the pass had seen.
    pub fn meet(&self, recorder: &mut Recorder, pass: &mut Pass)
        requires word { (recorder.old.word ≡ self.now) × (pass.old.word ≡ self.now) }
        requires lines { lines_of pass.old.caller pass.old.known.seen ≡ pass.old.claim }
        ensures recorder { (recorder.new.word ≡ self.now) × (recorder.new.known.seen ≡ recorder.old.known.seen) × (recorder.new.passes ≡ recorder.old.passes) }
        ensures pass { (pass.new.word ≡ self.now) × (pass.new.caller ≡ pass.old.caller) × (pass.new.claim ≡ pass.old.claim) }
        ensures seen { pass.new.known.seen ≡ recorder.old.known.seen }
        ensures begins { IsPrefix pass.old.known.seen recorder.old.known.seen }
        ensures lines { lines_of pass.old.caller recorder.old.known.seen ≡ pass.old.claim }
    {
        let note = self.note_of_pass(pass);
        self.tell_recorder(recorder, note);
        self.look_as_recorder(recorder);
        let note = self.note_of_recorder(recorder);
        self.tell_pass(pass, note);
        self.look_as_pass(pass);
    }

    /// Adds a line of a pass's caller to the trace, which has `len` lines and all of which the pass has seen.
    pub fn enter(&self, recorder: &mut Recorder, pass: &mut Pass, len: u64, line: &TraceLine)
        requires word { (recorder.old.word ≡ self.now) × (pass.old.word ≡ self.now) }
        requires seen { pass.old.known.seen ≡ recorder.old.known.seen }
        requires lines { lines_of pass.old.caller recorder.old.known.seen ≡ pass.old.claim }
        requires len { (len ≡ length recorder.old.known.seen) × (len < 2 ^ 63) }
        requires caller { line.now.caller ≡ pass.old.caller }
        ensures recorder { (recorder.new.word ≡ self.now) × (recorder.new.passes ≡ recorder.old.passes) }
        ensures trace { recorder.new.known.seen ≡ recorder.old.known.seen ++ line.entry.now ∷ [] }
        ensures pass { (pass.new.word ≡ self.now) × (pass.new.caller ≡ pass.old.caller) × (pass.new.claim ≡ pass.old.claim + 1) }
        ensures seen { pass.new.known.seen ≡ recorder.old.known.seen ++ line.entry.now ∷ [] }
        ensures lines { lines_of pass.old.caller (recorder.old.known.seen ++ line.entry.now ∷ []) ≡ pass.old.claim + 1 }
    {
        self.claim(pass);
        let note = self.note_of_pass(pass);
        self.tell_recorder(recorder, note);
        self.append(recorder, len, line);
        let note = self.note_of_recorder(recorder);
        self.tell_pass(pass, note);
    }
}
