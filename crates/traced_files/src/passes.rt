// The passes of all callers.

ghost use Rattle.std.specs.Prelude.{◌≡◌, ◌≤◌, ◌+◌, [], All, IfOk, vec_capacity};
ghost use Rattle.traced_files.specs.Calls.{StandsInTrace};
ghost use Rattle.traced_files.specs.Start.{IsNewLedger};
ghost use Rattle.traced_files.specs.States.{fresh_pass, fresh_passes};

use crate::pass::Pass;
use credit_pool::{Master, Pool};
use credited_files::Stock;
use std::alloc::Global;
use trace_word::{Recorder, TraceWord};
use ubifs_base::Memory;

/// What stays with the files: the recorder of a trace, the master of a pool, and how many callers may draw from it.
#[derive(Drop)]
pub struct Ledger {
    pub recorder: Recorder,
    pub master: Master,
    pub callers: u16,
}

/// The word of an empty trace, an empty pool, their ledger, and the passes of all callers.
#[derive(Drop)]
pub struct NewTrace {
    pub word: TraceWord,
    pub pool: Pool,
    pub ledger: Ledger,
    pub passes: Vec<Pass>,
}

/// An empty trace and an empty pool, with the passes of the callers 1 to `last`, in order. No more than `callers` of them draw at once.
pub fn open(alloc: Global, last: u16, callers: u16) -> Result<NewTrace, Memory>
    ensures ledger { IfOk result (λ made. IsNewLedger made.word made.pool callers made.ledger) }
    ensures passes { IfOk result (λ made. made.passes.items ≡ fresh_passes made.word made.pool last) }
{
    let Ok(mut passes) = Vec::with_capacity(alloc, last as usize) else {
        return Err(Memory);
    };
    let (word, mut recorder) = TraceWord::new(alloc)?;
    let (pool, master) = Pool::new(alloc)?;
    make_passes(&word, &pool, &mut recorder, &mut passes, last);
    Ok(NewTrace {
        word,
        pool,
        ledger: Ledger {
            recorder,
            master,
            callers,
        },
        passes,
    })
}

// The pass of the next caller.
fn next_pass(word: &TraceWord, pool: &Pool, recorder: &mut Recorder, caller: u16) -> Pass
    requires word { recorder.old.word ≡ word.now }
    requires caller { caller ≡ recorder.old.passes + 1 }
    ensures recorder { (recorder.new.word ≡ word.now) × (recorder.new.known.seen ≡ recorder.old.known.seen) × (recorder.new.passes ≡ caller) }
    ensures pass { result ≡ fresh_pass word.now pool.now caller }
{
    Pass {
        ticket: word.new_pass(recorder),
        stock: Stock::new(pool, caller),
        caller,
        made: 0,
        last: 0,
    }
}

// The passes of the callers 1 to `last`.
fn make_passes(
    word: &TraceWord,
    pool: &Pool,
    recorder: &mut Recorder,
    passes: &mut Vec<Pass>,
    last: u16,
)
    requires word { recorder.old.word ≡ word.now }
    requires none { (recorder.old.passes ≡ 0) × (passes.old.items ≡ []) }
    requires room { last ≤ vec_capacity passes.old }
    ensures recorder { (recorder.new.word ≡ word.now) × (recorder.new.known.seen ≡ recorder.old.known.seen) × (recorder.new.passes ≡ last) }
    ensures passes { passes.new.items ≡ fresh_passes word.now pool.now last }
{
    for caller in 0..last {
        passes.push_reserved(next_pass(word, pool, recorder, caller + 1));
    }
}

// What a pass has seen begins the trace, which has just the calls that were made with it.
fn meet_one(word: &TraceWord, recorder: &mut Recorder, pass: Pass)
    requires { (recorder.old.word ≡ word.now) × (pass.word ≡ word.now) }
    ensures recorder { (recorder.new.word ≡ word.now) × (recorder.new.known.seen ≡ recorder.old.known.seen) }
    ensures pass { StandsInTrace recorder.old.known.seen pass }
{
    let mut pass = pass;
    word.meet(recorder, &mut pass.ticket);
}

/// What each pass has seen begins the trace, which has just the calls that were made with it.
pub fn meet_all(word: &TraceWord, recorder: &mut Recorder, passes: Vec<Pass>)
    requires word { recorder.old.word ≡ word.now }
    requires passes { All (λ p. p.word ≡ word.now) passes.items }
    ensures recorder { (recorder.new.word ≡ word.now) × (recorder.new.known.seen ≡ recorder.old.known.seen) }
    ensures passes { All (λ p. StandsInTrace recorder.old.known.seen p) passes.items }
{
    for pass in passes {
        meet_one(word, recorder, pass);
    }
}
