// The lines of a script: phases, and the lines of another kind between them.

ghost use Rattle.std.specs.Prelude.{◌≡◌, ℕ, ◌+◌, ◌≤◌, ◌++◌, ◌∷◌, IfOk, OnOk, List, [], Bool, false, length};
ghost use Rattle.std.specs.List.{AllByRecursion};
ghost use Rattle.ubifs_base.specs.RawOf.{raw_of};
ghost use Rattle.script_text.specs.Script.{IsInRange, Leads, MayStand};
ghost use Rattle.script_run.specs.Phases.{ArePhases, HasAdvanced, IsPhase, IsTurn};
ghost use Rattle.fs_model.specs.Journal.{Journal};
ghost use Rattle.script_run.specs.Run.{LeavesOnly, ScriptRunning, opening_on};
ghost use Rattle.script_run.specs.Sessions.{AreReady, IsSession, running_of, state_in};

use crate::opening::Opening;
use crate::phase::serve_phase;
use crate::session::{Session, first_session, next};
use fs_model::Op;
use script_phase::CallerLine;
use script_text::Part;
use std::alloc::Global;
use std::sync::Wait;
use std::thread::Threads;
use ubifs_base::Memory;
use writeback::Gate;

/// What the lines printed, and the session that they left.
#[derive(Drop)]
pub(crate) struct PlayedLines {
    pub(crate) text: Vec<u8>,
    pub(crate) session: Session,
}

/// A session, and the lines of the phase that has begun, which wait.
#[derive(Drop)]
pub(crate) struct Gathered {
    pub(crate) session: Session,
    pub(crate) lines: Vec<CallerLine>,
}

/// Does what the lines say, from a volume on. Want of memory is the only fault.
pub(crate) fn play_lines<R: Threads + Wait + Sync, G: Gate + Sync>(
    rt: &R,
    alloc: Global,
    opening: Opening,
    parts: Vec<Part>,
    gate: &G,
) -> Result<PlayedLines, Memory>
    requires order { (last : Bool) × Leads false parts.items last }
    requires range { AllByRecursion IsInRange parts.items }
    requires few { length parts.items ≤ 100000 }
    ensures run { IfOk result (λ played. (first : Journal) × LeavesOnly first opening.tree × ArePhases (raw_of opening.geometry) (opening_on opening.tree first opening.space.weight) [] parts.items played.text.items (running_of played.session)) }
    ensures session { IfOk result (λ played. IsSession (raw_of opening.geometry) played.session) }
{
    let session = first_session(alloc, opening)?;
    play_on(rt, alloc, session, parts, gate)
}

// Does what the lines say, from a session on for which no line waits.
fn play_on<R: Threads + Wait + Sync, G: Gate + Sync>(
    rt: &R,
    alloc: Global,
    session: Session,
    parts: Vec<Part>,
    gate: &G,
) -> Result<PlayedLines, Memory>
    requires session { IsSession (state_in session).geometry session }
    requires order { (last : Bool) × Leads session.mounted parts.items last }
    requires range { AllByRecursion IsInRange parts.items }
    requires few { session.number + length parts.items ≤ 100000 }
    ensures run { IfOk result (λ played. ArePhases (state_in session).geometry (running_of session) [] parts.items played.text.items (running_of played.session)) }
    ensures session { IfOk result (λ played. IsSession (state_in session).geometry played.session) }
{
    let mut text = Vec::new(alloc);
    let gathered = Gathered {
        session,
        lines: Vec::new(alloc),
    };
    let gathered = advance_all(rt, alloc, gathered, parts, gate, &mut text)?;
    let session = serve_phase(rt, alloc, gathered.session, gathered.lines, gate, &mut text)?;
    Ok(PlayedLines { text, session })
}

// One line after another. The phase that the last of them began waits.
fn advance_all<R: Threads + Wait + Sync, G: Gate + Sync>(
    rt: &R,
    alloc: Global,
    gathered: Gathered,
    parts: Vec<Part>,
    gate: &G,
    text: &mut Vec<u8>,
) -> Result<Gathered, Memory>
    requires ready { AreReady (state_in gathered.session).geometry gathered.session gathered.lines.items }
    requires order { (last : Bool) × Leads gathered.session.mounted parts.items last }
    requires range { AllByRecursion IsInRange parts.items }
    requires few { gathered.session.number + length gathered.lines.items + length parts.items ≤ 100000 }
    ensures ready { IfOk result (λ new. AreReady (state_in gathered.session).geometry new.session new.lines.items) }
    ensures run { IfOk result (λ new. (more : List ℕ) (last : ScriptRunning) → IsPhase (state_in gathered.session).geometry (running_of new.session) new.lines.items more last →
        (whole : List ℕ) × ArePhases (state_in gathered.session).geometry (running_of gathered.session) gathered.lines.items parts.items whole last × (text.old.items ++ whole ≡ text.new.items ++ more)) }
    ensures few { IfOk result (λ new. new.session.number + length new.lines.items ≤ 100000) }
{
    let mut gathered = gathered;
    for part in parts {
        gathered = advance(rt, alloc, gathered, part, gate, text)?;
    }
    Ok(gathered)
}

// One line: a caller's waits, and one of another kind ends the phase.
fn advance<R: Threads + Wait + Sync, G: Gate + Sync>(
    rt: &R,
    alloc: Global,
    gathered: Gathered,
    part: Part,
    gate: &G,
    text: &mut Vec<u8>,
) -> Result<Gathered, Memory>
    requires ready { AreReady (state_in gathered.session).geometry gathered.session gathered.lines.items }
    requires part { IsInRange part × MayStand gathered.session.mounted part }
    requires few { gathered.session.number + length gathered.lines.items ≤ 100000 }
    ensures ready { IfOk result (λ new. AreReady (state_in gathered.session).geometry new.session new.lines.items) }
    ensures step { IfOk result (λ new. (line : List ℕ) × HasAdvanced (state_in gathered.session).geometry (record { here = running_of gathered.session; lines = gathered.lines.items }) part line (record { here = running_of new.session; lines = new.lines.items }) × (text.new.items ≡ text.old.items ++ line)) }
    ensures few { IfOk result (λ new. new.session.number + length new.lines.items ≤ gathered.session.number + length gathered.lines.items + 1) }
{
    match part {
        Part::Line { caller, op } => waiting(gathered, caller, op),
        control => turn(rt, alloc, gathered, control, gate, text),
    }
}

// A caller's line waits behind the others.
fn waiting(gathered: Gathered, caller: u16, op: Op) -> Result<Gathered, Memory>
    ensures session { IfOk result (λ new. new.session ≡ gathered.session) }
    ensures lines { IfOk result (λ new. new.lines.items ≡ gathered.lines.items ++ (record { caller = caller; op = op }) ∷ []) }
{
    let mut gathered = gathered;
    push_line(&mut gathered.lines, caller, op)?;
    Ok(gathered)
}

// Appends a caller's line.
fn push_line(lines: &mut Vec<CallerLine>, caller: u16, op: Op) -> Result<(), Memory>
    ensures { OnOk result (lines.new.items ≡ lines.old.items ++ (record { caller = caller; op = op }) ∷ []) }
{
    lines.push(CallerLine { caller, op })?;
    Ok(())
}

// Ends the phase, and does what a line of another kind says.
fn turn<R: Threads + Wait + Sync, G: Gate + Sync>(
    rt: &R,
    alloc: Global,
    gathered: Gathered,
    part: Part,
    gate: &G,
    text: &mut Vec<u8>,
) -> Result<Gathered, Memory>
    requires ready { AreReady (state_in gathered.session).geometry gathered.session gathered.lines.items }
    requires part { IsInRange part × MayStand gathered.session.mounted part }
    requires few { gathered.session.number + length gathered.lines.items ≤ 100000 }
    ensures session { IfOk result (λ new. IsSession (state_in gathered.session).geometry new.session) }
    ensures turn { IfOk result (λ new. (more : List ℕ) × IsTurn (state_in gathered.session).geometry (running_of gathered.session) gathered.lines.items part more (running_of new.session) × (text.new.items ≡ text.old.items ++ more)) }
    ensures lines { IfOk result (λ new. new.lines.items ≡ []) }
    ensures few { IfOk result (λ new. new.session.number ≤ gathered.session.number + length gathered.lines.items + 1) }
{
    let session = turned(
        rt,
        alloc,
        gathered.session,
        gathered.lines,
        part,
        gate,
        text,
    )?;
    Ok(Gathered {
        session,
        lines: Vec::new(alloc),
    })
}

// The session behind a line that ends a phase of these lines.
fn turned<R: Threads + Wait + Sync, G: Gate + Sync>(
    rt: &R,
    alloc: Global,
    session: Session,
    lines: Vec<CallerLine>,
    part: Part,
    gate: &G,
    text: &mut Vec<u8>,
) -> Result<Session, Memory>
    requires ready { AreReady (state_in session).geometry session lines.items }
    requires part { IsInRange part × MayStand session.mounted part }
    requires few { session.number + length lines.items ≤ 100000 }
    ensures session { IfOk result (λ new. IsSession (state_in session).geometry new) }
    ensures turn { IfOk result (λ new. (more : List ℕ) × IsTurn (state_in session).geometry (running_of session) lines.items part more (running_of new) × (text.new.items ≡ text.old.items ++ more)) }
    ensures few { IfOk result (λ new. new.number ≤ session.number + length lines.items + 1) }
{
    let session = serve_phase(rt, alloc, session, lines, gate, text)?;
    next(alloc, session, part, text)
}
