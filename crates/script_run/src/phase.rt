// A phase: the lines of callers between two lines of another kind.

ghost use Rattle.std.specs.Prelude.{◌≡◌, ◌==◌, ◌<◌, ◌≤◌, ◌+◌, ◌++◌, All, IfOk, OnOk, List, ℕ, length};
ghost use Rattle.std.specs.List.{list_all};
ghost use Rattle.script_run.specs.Phases.{AreServed, AreServedTogether, IsPhase, is_alone, trace_text};
ghost use Rattle.script_run.specs.Sessions.{IsSession, IsWaiting, running_of, state_in};

use crate::session::{Session, serve};
use buffered_files::{clean_files_are_those_of_the_backing, present_files_are_sound};
use fs_model::TraceLine;
use live_fs::Closed;
use plain_backing::PlainBacking;
use script_phase::{CallerLine, serve_at_once};
use script_text::write_reply;
use std::alloc::Global;
use std::sync::Wait;
use std::thread::Threads;
use ubifs_base::Memory;
use vfs_ops::Fs;
use writeback::Gate;

/// Serves the lines of a phase, and appends what it prints: one after another, if they are of one caller beside no worker, and else all callers at
/// once. The error is want of memory.
pub(crate) fn serve_phase<R: Threads + Wait + Sync, G: Gate + Sync>(
    rt: &R,
    alloc: Global,
    session: Session,
    lines: Vec<CallerLine>,
    gate: &G,
    text: &mut Vec<u8>,
) -> Result<Session, Memory>
    requires session { IsSession (state_in session).geometry session }
    requires lines { All (IsWaiting session.mounted) lines.items }
    requires few { session.number + length lines.items ≤ 100000 }
    ensures session { IfOk result (λ new. IsSession (state_in session).geometry new) }
    ensures phase { IfOk result (λ new. (more : List ℕ) × IsPhase (state_in session).geometry (running_of session) lines.items more (running_of new) × (text.new.items ≡ text.old.items ++ more)) }
    ensures mounted { IfOk result (λ new. new.mounted ≡ session.mounted) }
    ensures few { IfOk result (λ new. new.number ≤ session.number + length lines.items) }
{
    if is_alone(session.workers, lines.as_slice()) {
        serve_in_turn(session, lines, text)
    } else {
        serve_all(rt, alloc, session, lines, gate, text)
    }
}

// Whether all lines are of this caller.
fn are_of(lines: &[CallerLine], caller: u16) -> bool
    ensures { result ≡ list_all (λ line. line.caller == caller) lines.now }
{
    lines.iter().all(|line| line.caller == caller)
}

// Whether there is no line, or one caller alone beside no worker.
fn is_alone(workers: u16, lines: &[CallerLine]) -> bool
    ensures { result ≡ is_alone workers lines.now }
{
    let Some((first, others)) = lines.split_first() else {
        return true;
    };
    workers == 0 && are_of(others, first.caller)
}

// One line after another.
fn serve_in_turn(
    session: Session,
    lines: Vec<CallerLine>,
    text: &mut Vec<u8>,
) -> Result<Session, Memory>
    requires session { IsSession (state_in session).geometry session }
    requires lines { All (IsWaiting session.mounted) lines.items }
    requires few { session.number + length lines.items ≤ 100000 }
    ensures session { IfOk result (λ new. IsSession (state_in session).geometry new) }
    ensures served { IfOk result (λ new. (more : List ℕ) × AreServed (state_in session).geometry (running_of session) lines.items more (running_of new) × (text.new.items ≡ text.old.items ++ more)) }
    ensures mounted { IfOk result (λ new. new.mounted ≡ session.mounted) }
    ensures few { IfOk result (λ new. new.number ≤ session.number + length lines.items) }
{
    let mut session = session;
    serve_lines(&mut session, lines, text)?;
    Ok(session)
}

// One line after another, on the session where it stands.
fn serve_lines(
    session: &mut Session,
    lines: Vec<CallerLine>,
    text: &mut Vec<u8>,
) -> Result<(), Memory>
    requires session { IsSession (state_in session.old).geometry session.old }
    requires lines { All (IsWaiting session.old.mounted) lines.items }
    requires few { session.old.number + length lines.items ≤ 100000 }
    ensures session { OnOk result (IsSession (state_in session.old).geometry session.new) }
    ensures served { OnOk result ((more : List ℕ) × AreServed (state_in session.old).geometry (running_of session.old) lines.items more (running_of session.new) × (text.new.items ≡ text.old.items ++ more)) }
    ensures mounted { OnOk result (session.new.mounted ≡ session.old.mounted) }
    ensures few { OnOk result (session.new.number ≤ session.old.number + length lines.items) }
{
    for line in lines {
        serve(session, line.caller, line.op, text)?;
    }
    Ok(())
}

// All callers at once.
fn serve_all<R: Threads + Wait + Sync, G: Gate + Sync>(
    rt: &R,
    alloc: Global,
    session: Session,
    lines: Vec<CallerLine>,
    gate: &G,
    text: &mut Vec<u8>,
) -> Result<Session, Memory>
    requires session { IsSession (state_in session).geometry session }
    requires some { 0 < length lines.items }
    requires lines { All (IsWaiting session.mounted) lines.items }
    ensures session { IfOk result (λ new. IsSession (state_in session).geometry new) }
    ensures phase { IfOk result (λ new. (more : List ℕ) × AreServedTogether (state_in session).geometry (running_of session) lines.items more (running_of new) × (text.new.items ≡ text.old.items ++ more)) }
    ensures mounted { IfOk result (λ new. new.mounted ≡ session.mounted) }
    ensures few { IfOk result (λ new. new.number ≤ session.number + length lines.items) }
{
    present_files_are_sound();
    clean_files_are_those_of_the_backing();
    let Session {
        fs,
        geometry,
        mounted,
        now,
        number: _,
        workers,
    } = session;
    let closed = serve_at_once(rt, alloc, fs, now, lines, workers, gate)?;
    let fs = left_files(closed, text)?;
    Ok(Session {
        fs,
        geometry,
        mounted,
        now,
        number: 0,
        workers,
    })
}

// The files that a phase left, behind what its trace prints.
fn left_files(closed: Closed<PlainBacking>, text: &mut Vec<u8>) -> Result<Fs<PlainBacking>, Memory>
    ensures files { IfOk result (λ fs. fs ≡ closed.fs) }
    ensures printed { OnOk result (text.new.items ≡ text.old.items ++ trace_text closed.trace.items) }
{
    let Closed { fs, trace } = closed;
    write_trace(trace.as_slice(), text)?;
    Ok(fs)
}

// Appends what a trace prints: each of its lines, in its order.
fn write_trace(trace: &[TraceLine], text: &mut Vec<u8>) -> Result<(), Memory>
    ensures { OnOk result (text.new.items ≡ text.old.items ++ trace_text trace.now) }
{
    for line in trace {
        write_reply(line.caller, line.number, &line.reply, text)?;
    }
    Ok(())
}
