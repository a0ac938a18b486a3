//! The program: `ubifs run VOLUME SCRIPT IMAGE`, `ubifs mkfs MANIFEST IMAGE`, `ubifs check IMAGE` and `ubifs dump IMAGE`, over the host's files and standard
//! output.
#![tactic(auto)]

use io_edges::{FileKeeper, OutSink};
use std::process::ExitCode;
use std::{env, io};
use ubifs_tools::ubifs;
use writeback::OpenGate;

/// The status for want of memory, and for words that the host doesn't hand over.
const OUT_OF_MEMORY: u8 = 6;

fn main(rt: HostRuntime) -> ExitCode {
    let Ok(edges) = open_edges(&rt) else {
        return ExitCode::from(OUT_OF_MEMORY);
    };
    let Edges {
        words,
        mut keeper,
        mut out,
    } = edges;
    let gate = OpenGate {};
    ExitCode::from(ubifs(&rt, rt.alloc(), &words, &mut keeper, &mut out, &gate))
}

// What the program meets of the host: its words, the files, and standard output.
#[derive(Drop)]
struct Edges {
    words: Vec<String>,
    keeper: FileKeeper<HostRuntime>,
    out: OutSink<HostRuntime>,
}

fn open_edges(rt: &HostRuntime) -> io::Result<Edges> {
    let mut words = Vec::new(rt.alloc());
    for word in env::args(rt)?.skip(1) {
        words.push(word)?;
    }
    Ok(Edges {
        words,
        keeper: FileKeeper::new(rt.alloc(), rt.clone()?),
        out: OutSink::new(rt.clone()?),
    })
}
