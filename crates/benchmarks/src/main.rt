//! Times calls of the library: `benchmarks NAME WORD..` prints what a benchmark comes to, and nanoseconds, as `bench/run` asks for them. Without a
//! word the program prints what each but the check comes to with few bytes, leaves or changes, one line for each, and no times.
#![tactic(auto)]

mod check;
mod checksum;
mod index;
mod leaves;
mod paged;
mod pages;
mod props;
mod replay;
mod scan;
mod volume;

use std::thread::Threads;
use std::{env, io};

fn main(rt: HostRuntime) -> anyhow::Result<()> {
    let words = words(&rt)?;
    match &words.0 {
        Some(name) => timed(&rt, &rt, name.as_str(), text(&words.1), text(&words.2)),
        None => few(&rt),
    }
}

// The first three words behind the program's name.
fn words(rt: &HostRuntime) -> io::Result<(Option<String>, Option<String>, Option<String>)> {
    let mut words = env::args(rt)?;
    words.next();
    Ok((words.next(), words.next(), words.next()))
}

// A word, or none.
fn text(word: &Option<String>) -> &str {
    match word {
        Some(word) => word.as_str(),
        None => "",
    }
}

// Prints what a benchmark comes to, and its times. The check has threads.
fn timed<R: Threads + Sync>(
    rt: &HostRuntime,
    threads: &R,
    name: &str,
    kind: &str,
    number: &str,
) -> anyhow::Result<()> {
    match name {
        "check" => check::timed(rt, threads, kind),
        "crc32" => checksum::timed(rt, kind),
        "index" => index::timed(rt, kind),
        "paged" => paged::timed(rt, kind),
        "pages" => pages::timed(rt, kind, number),
        "props" => props::timed(rt, kind),
        "replay" => replay::timed(rt, kind),
        "scan" => scan::timed(rt, kind),
        _ => Ok(println!(rt; "no benchmark {name}")?),
    }
}

// Prints what each comes to with little to do.
fn few(rt: &HostRuntime) -> anyhow::Result<()> {
    println!(rt; "crc32 {:08x}", checksum::few())?;
    println!(rt; "index {}", index::few(rt.alloc())?)?;
    println!(rt; "paged {}", paged::few(rt)?)?;
    println!(rt; "pages {}", pages::few(rt.alloc())?)?;
    println!(rt; "props {}", props::few(rt.alloc())?)?;
    println!(rt; "replay {}", replay::few(rt.alloc())?)?;
    println!(rt; "scan {}", scan::few(rt.alloc())?)?;
    Ok(())
}
