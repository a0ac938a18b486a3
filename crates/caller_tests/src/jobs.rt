// The jobs of callers, and what is told of them.

ghost use Rattle.std.specs.Prelude.{◌≡◌, All, IfOk, IsTrue, map};
ghost use Rattle.atomic_table.specs.Seated.{TableId};
ghost use Rattle.fs_model.specs.Proper.{are_bytes};
ghost use Rattle.fs_laws.specs.Sound.{IsCall};
ghost use Rattle.traced_files.specs.Start.{IsNewLedger};
ghost use Rattle.writeback.specs.Runs.{MayRun};

use credit_pool::Pool;
use fs_model::{Op, Reply, TraceLine};
use std::alloc::Global;
use trace_word::TraceWord;
use traced_files::{Ledger, NewTrace, Pass, open};
use ubifs_base::{Memory, Name};
use writeback::Job;

// A path of these bytes.
fn path(alloc: Global, bytes: &[u8]) -> Result<Name, Memory>
    ensures { IfOk result (λ path. IsTrue (are_bytes path)) }
{
    Ok(Name::from_slice(alloc, bytes)?)
}

// The operation of a letter on the file `/F`, where F is the byte `file`: it is created, and opened in the slot 0; there 4,100 bytes
// of F are written, or one page, and 9 bytes read from 4,095 on; all is written back; any other letter closes the slot.
fn op_of(alloc: Global, file: u8, letter: u8) -> Result<Op, Memory>
    ensures { IfOk result (λ op. IsCall op) }
{
    let path = path(alloc, &[b'/', file])?;
    match letter {
        b'c' => Ok(Op::Create { path, mode: 420 }),
        b'o' => Ok(Op::OpenFile { path, slot: 0 }),
        b'w' => Ok(Op::Write {
            slot: 0,
            offs: 0,
            len: 4100,
            byte: file,
        }),
        b'p' => Ok(Op::Write {
            slot: 0,
            offs: 0,
            len: 4096,
            byte: file,
        }),
        b'r' => Ok(Op::Read {
            slot: 0,
            offs: 4095,
            len: 9,
        }),
        b'a' => Ok(Op::Flush),
        _ => Ok(Op::Close { slot: 0 }),
    }
}

// The operations of these letters.
fn ops_of(alloc: Global, file: u8, letters: &[u8]) -> Result<Vec<Op>, Memory>
    ensures { IfOk result (λ ops. All IsCall ops.items) }
{
    let mut ops = Vec::new(alloc);
    for letter in letters {
        ops.push(op_of(alloc, file, *letter)?)?;
    }
    Ok(ops)
}

// The name of a caller's file: the first caller's is `a`, and so on.
fn file_of(caller: u16) -> u8 {
    b'`'.wrapping_add((caller % 64) as u8)
}

// The job of a caller, at the moment 7.
fn job_of(alloc: Global, pass: Pass, letters: &[u8]) -> Result<Job, Memory>
    ensures pass { IfOk result (λ job. job.pass ≡ pass) }
    ensures ops { IfOk result (λ job. All IsCall job.ops.items) }
{
    let ops = ops_of(alloc, file_of(pass.caller), letters)?;
    Ok(Job { pass, now: 7, ops })
}

// Each caller's job.
pub(crate) fn jobs_of(alloc: Global, passes: Vec<Pass>, letters: &[u8]) -> Result<Vec<Job>, Memory>
    ensures passes { IfOk result (λ jobs. map (λ job. job.pass) jobs.items ≡ passes.items) }
    ensures ops { IfOk result (λ jobs. All (λ job. All IsCall job.ops.items) jobs.items) }
{
    let mut jobs = Vec::new(alloc);
    for pass in passes {
        jobs.push(job_of(alloc, pass, letters)?)?;
    }
    Ok(jobs)
}

// The job of the last caller.
fn last_job(alloc: Global, passes: Vec<Pass>, letters: &[u8]) -> Result<Job, Memory>
    ensures { (word pool : TableId) → All (λ p. (p.word ≡ word) × (p.pool ≡ pool)) passes.items → IfOk result (λ job. MayRun word pool job) }
{
    let mut passes = passes;
    let Some(pass) = passes.pop() else {
        return Err(Memory);
    };
    job_of(alloc, pass, letters)
}

// A new trace, the job of the last of its callers, and a call that this one makes behind it.
pub(crate) struct LastCaller {
    pub(crate) word: TraceWord,
    pub(crate) pool: Pool,
    pub(crate) ledger: Ledger,
    pub(crate) job: Job,
    pub(crate) later: Op,
}

// Those of a trace of so many callers.
pub(crate) fn last_of(
    alloc: Global,
    callers: u16,
    first: &[u8],
    later: u8,
) -> Result<LastCaller, Memory>
    ensures ledger { IfOk result (λ last. IsNewLedger last.word last.pool callers last.ledger) }
    ensures job { IfOk result (λ last. MayRun last.word last.pool last.job) }
    ensures later { IfOk result (λ last. IsCall last.later) }
{
    let later = op_of(alloc, file_of(callers), later)?;
    let NewTrace {
        word,
        pool,
        ledger,
        passes,
    } = open(alloc, callers, callers)?;
    let job = last_job(alloc, passes, first)?;
    Ok(LastCaller {
        word,
        pool,
        ledger,
        job,
        later,
    })
}

// What a reply tells as a number: 1 for an inode's, how many bytes were written, or a byte that was read, with 1,000 for each;
// 0 where it is done, and 9 where it is anything else.
fn number(reply: &Reply) -> u64 {
    match reply {
        Reply::Ino { .. } => 1,
        Reply::Count { n } => *n as u64,
        Reply::Bytes { bytes } => match bytes.as_slice().first() {
            Some(byte) => (bytes.len() as u64)
                .wrapping_mul(1000)
                .wrapping_add(*byte as u64),
            None => 8,
        },
        Reply::Done => 0,
        _ => 9,
    }
}

// Whether a caller's lines are numbered from 1 on, are all of the moment 7, and have these replies.
pub(crate) fn tells(trace: &[TraceLine], caller: u16, replies: &[u64]) -> bool {
    let mut made: usize = 0;
    for line in trace {
        if line.caller != caller {
            continue;
        }
        let Some(reply) = replies.get(made) else {
            return false;
        };
        made = made.wrapping_add(1);
        if line.number != made as u64 || line.now != 7 || number(&line.reply) != *reply {
            return false;
        }
    }
    made == replies.len()
}
