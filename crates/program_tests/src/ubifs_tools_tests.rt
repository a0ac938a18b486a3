// The command over files and a sink in memory.

use io_edges::{KeepFault, Keeper, MemKeeper, MemSink};
use std::alloc::Global;
use std::collections::BTreeMap;
use std::sync::Wait;
use std::thread::Threads;
use ubifs_base::{Bytes, Memory};
use ubifs_tools::ubifs;
use writeback::OpenGate;

const MANIFEST: &[u8] = b"volume 16384 512 64 8\nend\n";

const SCRIPT: &[u8] =
    b"mount\n1 create /f 644\n1 open /f 0\n1 write 0 0 4096 97\n1 flush\n1 read 0 0 4096\n1 close 0\nunmount\nend\n";

const TRACE: &[u8] =
    b"mount rw\n1 1 ok 65\n1 2 ok 65\n1 3 ok 4096\n1 4 ok\n1 5 ok 4096 4096x61\n1 6 ok\nunmount clean\n";

// The magic number with which each node begins.
const MAGIC: &[u8] = b"\x31\x18\x10\x06";

// What a check tells of the image of the run: two inodes, a name and a page, in one LEB, and an index of one node.
const SOUND: &[u8] = b"sound clean used 4528 empty 62 index 1 weight 1\n";

// What goes on where that run ended.
const MORE: &[u8] = b"mount\n1 stat /f\n1 open /f 0\n1 read 0 4095 9\nunmount\nend\n";

const MORE_TRACE: &[u8] =
    b"mount rw\n1 1 ok f 65 644 1 4096 0\n1 2 ok 65\n1 3 ok 1 1x61\nunmount clean\n";

// Two callers beside a worker, and the lines that they get in whatever order they come.
const AT_ONCE: &[u8] =
    b"mount\n1 create /f 644\nworkers 1\n1 open /f 0\n1 write 0 0 4096 97\n1 read 0 0 9000\n2 open /f 0\n2 close 0\n2 flush\nunmount\nend\n";

const LINES_AT_ONCE: &[&str] = &[
    "1 2 ok 4096",
    "1 3 ok 4096 4096x61",
    "2 1 ok 65",
    "2 2 ok",
    "2 3 ok",
];

// The texts of a run, and two more scripts.
const FILES: &[(&str, &[u8])] = &[("a", MANIFEST), ("b", SCRIPT), ("m", MORE), ("t", AT_ONCE)];

fn add_file(
    alloc: Global,
    files: &mut BTreeMap<String, Bytes>,
    name: &str,
    bytes: &[u8],
) -> Result<(), Memory> {
    let name = String::from_str(alloc, name)?;
    let bytes = Bytes::from_slice(alloc, bytes)?;
    files.insert(name, bytes)?;
    Ok(())
}

fn all_files(alloc: Global) -> Result<BTreeMap<String, Bytes>, Memory> {
    let mut files = BTreeMap::new(alloc);
    for (name, bytes) in FILES {
        add_file(alloc, &mut files, name, bytes)?;
    }
    Ok(files)
}

// A keeper that has these files, and fails at one call.
fn keeper(alloc: Global, fails_at: u64) -> Result<MemKeeper, Memory> {
    let fails = vec![in alloc; fails_at]?;
    Ok(MemKeeper::new(alloc, all_files(alloc)?, fails))
}

// A sink that fails at one call.
fn sink(alloc: Global, fails_at: u64) -> Result<MemSink, Memory> {
    Ok(MemSink::new(alloc, vec![in alloc; fails_at]?))
}

// The words of a run, a name by itself.
fn words(alloc: Global, names: &[&str]) -> Result<Vec<String>, Memory> {
    let mut words = Vec::new(alloc);
    for name in names {
        words.push(String::from_str(alloc, name)?)?;
    }
    Ok(words)
}

// The run whose image others begin on.
const RUN: &[&str] = &["run", "a", "b", "c"];

// Whether that run goes before, words, the calls of keeper and sink that fail, the status, and what is printed, which is None for callers at once. An image
// is left where the run was whole, or its text alone wasn't printed.
type Row = (
    bool,
    &'static [&'static str],
    u64,
    u64,
    u8,
    Option<&'static [u8]>,
);

const ROWS: &[Row] = &[
    (false, RUN, 0, 0, 0, Some(TRACE)),
    (false, RUN, 1, 0, 4, Some(b"file a\n")),
    (false, RUN, 2, 0, 4, Some(b"file b\n")),
    (false, RUN, 3, 0, 4, Some(b"file c\n")),
    (false, &["run", "d", "b", "c"], 0, 0, 4, Some(b"file d\n")),
    (false, &["run", "a", "d", "c"], 0, 0, 4, Some(b"file d\n")),
    (false, &["run", "d", "e", "c"], 0, 0, 4, Some(b"file d\n")),
    (
        false,
        &["run", "b", "b", "c"],
        0,
        0,
        3,
        Some(b"image short 100\n"),
    ),
    (
        false,
        &["run", "a", "a", "c"],
        0,
        0,
        2,
        Some(b"script line 1\n"),
    ),
    (false, &["run", "b", "d", "c"], 0, 0, 4, Some(b"file d\n")),
    (false, RUN, 0, 1, 5, Some(b"")),
    (false, &["run", "d", "b", "c"], 0, 1, 4, Some(b"")),
    (false, &["run", "a", "b", "-c"], 0, 0, 1, Some(b"usage\n")),
    (false, &["run", "a", "b", ""], 0, 0, 1, Some(b"usage\n")),
    (false, &["dump", "a", "b", "c"], 0, 0, 1, Some(b"usage\n")),
    (false, &["run", "a", "b", "-c"], 0, 1, 1, Some(b"")),
    (false, &["dump", "-a"], 0, 0, 1, Some(b"usage\n")),
    (false, &["dump", "d"], 0, 0, 4, Some(b"file d\n")),
    (false, &["dump", "a"], 1, 0, 4, Some(b"file a\n")),
    (false, &["dump", "a"], 0, 0, 3, Some(b"image short 26\n")),
    (false, &["dump", "a"], 0, 1, 3, Some(b"")),
    (false, &["check", "a", "b"], 0, 0, 1, Some(b"usage\n")),
    (false, &["check", "-a"], 0, 0, 1, Some(b"usage\n")),
    (false, &["check", "d"], 0, 0, 4, Some(b"file d\n")),
    (false, &["check", "a"], 0, 0, 3, Some(b"image short 26\n")),
    (false, &["run", "a", "t", "c"], 0, 0, 0, None),
    // An image of a run is told as sound, and a run begins where another ended.
    (true, &["check", "c"], 0, 0, 0, Some(SOUND)),
    (true, &["run", "c", "m", "d"], 0, 0, 0, Some(MORE_TRACE)),
];

// How often a line stands in a text.
fn times(text: &str, line: &str) -> u64 {
    let mut times = 0;
    for other in text.lines() {
        if other == line && times < 10 {
            times += 1;
        }
    }
    times
}

// Whether callers at once are answered, each line once.
fn are_lines_at_once(text: &[u8]) -> bool {
    let Ok(text) = str::from_utf8(text) else {
        return false;
    };
    for line in LINES_AT_ONCE {
        if times(text, line) != 1 {
            return false;
        }
    }
    text.starts_with("mount rw\n1 1 ok 65\n") && text.ends_with("\nunmount clean\n")
}

fn is_printed(text: &[u8], wanted: Option<&[u8]>) -> bool {
    match wanted {
        Some(wanted) => text == wanted,
        None => are_lines_at_once(text),
    }
}

// Whether an image is left where the status says so: 74 LEBs, of which the first begins with a node.
fn is_left(image: Result<Vec<u8>, KeepFault>, status: u8) -> bool {
    match image {
        Ok(image) => (status == 0 || status == 5)
            && image.len() == 74 * 16384
            && image.starts_with(MAGIC),
        Err(_) => status != 0 && status != 5,
    }
}

// The status of a command. No other function makes words, or calls the command.
fn status_of<R: Threads + Wait + Sync>(
    rt: &R,
    alloc: Global,
    names: &[&str],
    keeper: &mut MemKeeper,
    out: &mut MemSink,
) -> Result<u8, Memory> {
    let words = words(alloc, names)?;
    Ok(ubifs(rt, alloc, &words, keeper, out, &OpenGate {}))
}

// Whether what goes before, if anything, ends well.
fn is_begun<R: Threads + Wait + Sync>(
    rt: &R,
    alloc: Global,
    before: bool,
    keeper: &mut MemKeeper,
) -> Result<bool, Memory> {
    if !before {
        return Ok(true);
    }
    let mut trace = sink(alloc, 0)?;
    Ok(status_of(rt, alloc, RUN, keeper, &mut trace)? == 0)
}

fn is_as_told<R: Threads + Wait + Sync>(
    rt: &R,
    alloc: Global,
    row: &Row,
    keeper: &mut MemKeeper,
    out: &mut MemSink,
) -> Result<bool, Memory> {
    let (before, names, _, _, wanted, text) = *row;
    if !is_begun(rt, alloc, before, keeper)? {
        return Ok(false);
    }
    let status = status_of(rt, alloc, names, keeper, out)?;
    Ok(status == wanted && is_printed(out.text(), text) && is_left(keeper.read("c"), wanted))
}

// What owns the files and the text hands them on, so that no fault drops them in the midst of a call.
fn is_answered<R: Threads + Wait + Sync>(rt: &R, alloc: Global, row: &Row) -> Result<bool, Memory> {
    let (_, _, keeper_fails, sink_fails, _, _) = *row;
    let mut out = sink(alloc, sink_fails)?;
    let mut keeper = keeper(alloc, keeper_fails)?;
    is_as_told(rt, alloc, row, &mut keeper, &mut out)
}

#[test]
fn each_command_is_answered(rt: HostRuntime) {
    for (number, row) in ROWS.iter().enumerate() {
        assert_eq!(rt; is_answered(&rt, rt.alloc(), row), Ok(true), "row {number}");
    }
}
