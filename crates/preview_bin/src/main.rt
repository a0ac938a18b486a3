//! The program `preview_bin MANIFEST SCRIPT`: it prints what `ubifs run` prints of a manifest and a script, and makes no image.
#![tactic(auto)]

mod copies;
mod lines;
mod run;
mod volume;

use crate::lines::Told;
use crate::run::run;
use io_edges::{FileKeeper, OutSink, Sink, SinkFault};
use std::process::ExitCode;
use std::{env, io};

/// The status for want of memory, and for words that the host doesn't hand over.
const OUT_OF_MEMORY: u8 = 6;

fn main(rt: HostRuntime) -> ExitCode {
    let Ok(edges) = open_edges(&rt) else {
        return ExitCode::from(OUT_OF_MEMORY);
    };
    let Edges {
        words,
        mut keeper,
        mut out,
    } = edges;
    let Ok(told) = run(&rt, rt.alloc(), &words, &mut keeper) else {
        let _ = out.write(b"memory\n".as_slice());
        return ExitCode::from(OUT_OF_MEMORY);
    };
    ExitCode::from(printed(&mut out, &told))
}

// Prints what is told, and answers the status.
fn printed<O: Sink>(out: &mut O, told: &Told) -> u8 {
    match out.write(&told.text) {
        Ok(()) => told.status,
        Err(SinkFault::Memory) if told.status == 0 => OUT_OF_MEMORY,
        Err(_) if told.status == 0 => 5,
        Err(_) => told.status,
    }
}

// What the program meets of the host: its words, the files, and standard output.
#[derive(Drop)]
struct Edges {
    words: Vec<String>,
    keeper: FileKeeper<HostRuntime>,
    out: OutSink<HostRuntime>,
}

fn open_edges(rt: &HostRuntime) -> io::Result<Edges> {
    let mut words = Vec::new(rt.alloc());
    for word in env::args(rt)?.skip(1) {
        words.push(word)?;
    }
    Ok(Edges {
        words,
        keeper: FileKeeper::new(rt.alloc(), rt.clone()?),
        out: OutSink::new(rt.clone()?),
    })
}
