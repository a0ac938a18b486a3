// Texts and their answers.

use fs_model::{Cause, Kind, NoSpace, Op, Refusal, Reply, Scarce, Table};
use script_text::{Manifest, Part, TextFault, read_manifest, read_script, write_reply};
use std::alloc::Global;
use ubifs_base::{Bytes, Memory};

// Every operation, each escape and the errors of a script that a reader meets are cases of tests/rows; here stand the ends of
// the ranges and the lines that none of those has.
const SCRIPT: &str =
    "now 7\nmount\n1 mkdir /%2e%25 0007\n1 symlink /s \n1 symlink /s %61//%20\n1 read 1 18446744073709551615 4294967295\n\
    1 write 255 18446744073709551615 4294967295 255\nnow 18446744073709551615\nunmount\nmount\nworkers 8\n16 flush\nend\n";

fn is_part(place: usize, part: &Part) -> bool {
    match (place, part) {
        (0, Part::Now { now }) => *now == 7,
        (1 | 9, Part::Mount) => true,
        (7, Part::Now { now }) => *now == u64::MAX,
        (8, Part::Unmount) => true,
        (10, Part::Workers { count }) => *count == 8,
        (
            11,
            Part::Line {
                caller: 16,
                op: Op::Flush,
            },
        ) => true,
        (_, Part::Line { caller: 1, op }) => is_operation(place, op),
        _ => false,
    }
}

fn is_operation(place: usize, op: &Op) -> bool {
    match (place, op) {
        (2, Op::Mkdir { path, mode: 7 }) => path.as_slice() == b"/.%".as_slice(),
        (3, Op::Symlink { path, target }) => path.as_slice() == b"/s".as_slice()
            && target.as_slice().is_empty(),
        (4, Op::Symlink { path, target }) => path.as_slice() == b"/s".as_slice()
            && target.as_slice() == b"a// ".as_slice(),
        (5, Op::Read { slot, offs, len }) => *slot == 1 && *offs == u64::MAX && *len == u32::MAX,
        (
            6,
            Op::Write {
                slot,
                offs,
                len,
                byte,
            },
        ) => *slot == 255 && *offs == u64::MAX && *len == u32::MAX && *byte == 255,
        _ => false,
    }
}

// Whether each part is the one at its place.
fn are_parts(parts: &[Part]) -> bool {
    for (place, part) in parts.iter().enumerate() {
        if !is_part(place, part) {
            return false;
        }
    }
    parts.len() == 12
}

fn is_script_read(alloc: Global) -> Result<bool, TextFault> {
    let script = read_script(alloc, SCRIPT.as_bytes())?;
    let empty = read_script(alloc, b"end\n")?;
    Ok(are_parts(&script.parts) && empty.parts.is_empty())
}

#[test]
fn a_script_is_read(rt: HostRuntime) {
    assert_eq!(rt; is_script_read(rt.alloc()), Ok(true));
}

// Texts and their first bad lines.
const TEXTS: &[(&str, u64)] = &[
    ("end", 1),
    ("mount", 1),
    (" mount\n", 1),
    ("mount \n", 1),
    ("now 01\n", 1),
    ("now +1\n", 1),
    ("workers 9\n", 1),
    ("workers 0\nmount\n0 flush\n", 3),
    ("workers 8\nmount\n16 flush\n17 flush\n", 4),
    ("end\nend\n", 2),
    ("mount\nend\nunmount\nend\n", 3),
    // Each second line is a bad operation.
    ("mount\n1 \nunmount\nend\n", 2),
    ("mount\n1 create\nunmount\nend\n", 2),
    ("mount\n1 create /f\nunmount\nend\n", 2),
    ("mount\n1 create  /f 644\nunmount\nend\n", 2),
    ("mount\n1 create  644\nunmount\nend\n", 2),
    ("mount\n1 create //f 644\nunmount\nend\n", 2),
    ("mount\n1 create /f%2f 644\nunmount\nend\n", 2),
    ("mount\n1 create /%2g 644\nunmount\nend\n", 2),
    ("mount\n1 create /\u{7f} 644\nunmount\nend\n", 2),
    ("mount\n1 create /\t 644\nunmount\nend\n", 2),
    ("mount\n1 create /f 8\nunmount\nend\n", 2),
    ("mount\n1 create /f 07777\nunmount\nend\n", 2),
    ("mount\n1 create /f \nunmount\nend\n", 2),
    ("mount\n1 stat //\nunmount\nend\n", 2),
    ("mount\n1 list \nunmount\nend\n", 2),
    ("mount\n1 symlink /s\nunmount\nend\n", 2),
    ("mount\n1 symlink /s a b\nunmount\nend\n", 2),
    ("mount\n1 symlink /s a%\nunmount\nend\n", 2),
    ("mount\n1 close 01\nunmount\nend\n", 2),
    ("mount\n1 close -1\nunmount\nend\n", 2),
    ("mount\n1 read 0 0 1 \nunmount\nend\n", 2),
    ("mount\n1 write 0 0 1\nunmount\nend\n", 2),
    ("mount\n1 write 0 01 1 97\nunmount\nend\n", 2),
    ("mount\n1 write 0 0 1 97 0\nunmount\nend\n", 2),
    ("mount\n1 write 0  0 1 97\nunmount\nend\n", 2),
];

// The first bad line of a text, or 0.
fn bad_line(alloc: Global, text: &[u8]) -> Result<u64, Memory> {
    match read_script(alloc, text) {
        Ok(_) => Ok(0),
        Err(TextFault::Line { number }) => Ok(number),
        Err(TextFault::Memory) => Err(Memory),
    }
}

#[test]
fn the_first_bad_line_is_told(rt: HostRuntime) {
    for (text, number) in TEXTS {
        assert_eq!(rt;
            bad_line(rt.alloc(), text.as_bytes()),
            Ok(*number),
            "at {text}"
        );
    }
}

// Manifests, and what they say.
const MANIFESTS: &[(&str, Result<Manifest, TextFault>)] = &[
    (
        "volume 16384 512 64 8\nend\n",
        Ok(Manifest {
            leb_size: 16384,
            min_io: 512,
            main: 64,
            fanout: 8,
            packed: false,
        }),
    ),
    (
        "volume 4294967295 0 2147483647 4294967295\nend\n",
        Ok(Manifest {
            leb_size: 4294967295,
            min_io: 0,
            main: 2147483647,
            fanout: 4294967295,
            packed: false,
        }),
    ),
    ("end\n", Err(TextFault::Line { number: 1 })),
    (
        "volume 16384 512 64 8 packed\nend\n",
        Err(TextFault::Line { number: 1 }),
    ),
    ("volume 16384 512 64 8", Err(TextFault::Line { number: 1 })),
    (
        "volume 16384 512 64 8\nend\nend\n",
        Err(TextFault::Line { number: 3 }),
    ),
];

#[test]
fn manifests_are_read(rt: HostRuntime) {
    for (text, wanted) in MANIFESTS {
        assert_eq!(rt; read_manifest(text.as_bytes()), *wanted, "at {text}");
    }
}

// What a reply says.
enum Said {
    Done,
    Ino,
    Count,
    Stat,
    Off,
    // A byte, how often it is read, and what is read behind it.
    Read(usize, u8, &'static str),
    Refused(Refusal),
}

// Replies, and their texts.
const REPLIES: &[(Said, &str)] = &[
    (Said::Done, "ok"),
    (Said::Ino, "ok 65"),
    (Said::Count, "ok 0"),
    (Said::Stat, "ok d 1 755 2 288 0"),
    (Said::Off, "off"),
    (Said::Read(0, 0, ""), "ok 0"),
    (Said::Read(4096, 0x61, ""), "ok 4096 4096x61"),
    (Said::Read(4095, 0, "bb"), "ok 4097 4095x00,2x62"),
    (Said::Read(8192, 0, "a"), "ok 8193 8192x00,1x61"),
    (Said::Read(0, 0, "a"), "ok 1 1x61"),
    (Said::Read(1, 0xfe, "aab"), "ok 4 1xfe,2x61,1x62"),
    (Said::Refused(Refusal::Enoent), "E1"),
    (
        Said::Refused(Refusal::Enospc {
            space: NoSpace {
                need: 456608,
                room: 453600,
            },
        }),
        "E6 456608 453600",
    ),
    (
        Said::Refused(Refusal::Erofs {
            cause: Cause::Tight {
                what: Scarce::Space,
                need: 160,
                room: 0,
            },
        }),
        "E7 tight space 160 0",
    ),
    (
        Said::Refused(Refusal::Erofs {
            cause: Cause::Faulted { count: 1 },
        }),
        "E7 faulted 1",
    ),
    (
        Said::Refused(Refusal::Erofs {
            cause: Cause::Spent {
                sqnum: 3,
                cmt_no: 2,
            },
        }),
        "E7 spent 3 2",
    ),
    (Said::Refused(Refusal::Eio { count: 1 }), "E8 1"),
    (Said::Refused(Refusal::Efbig), "E10"),
    (Said::Refused(Refusal::Einval), "E12"),
    (
        Said::Refused(Refusal::Enfile {
            what: Table::Inodes,
            limit: 4294967040,
        }),
        "E14 inodes 4294967040",
    ),
    (Said::Refused(Refusal::Ebadf), "E15"),
];

fn read_bytes(alloc: Global, n: usize, byte: u8, tail: &str) -> Result<Reply, Memory> {
    let mut bytes = vec![in alloc; byte; n]?;
    bytes.extend_from_slice(tail.as_bytes())?;
    Ok(Reply::Bytes {
        bytes: Bytes::from_vec(bytes),
    })
}

fn reply_of(alloc: Global, said: &Said) -> Result<Reply, Memory> {
    match said {
        Said::Done => Ok(Reply::Done),
        Said::Ino => Ok(Reply::Ino { ino: 65 }),
        Said::Count => Ok(Reply::Count { n: 0 }),
        Said::Stat => Ok(Reply::Stat {
            kind: Kind::Dir,
            ino: 1,
            mode: 0o755,
            nlink: 2,
            size: 288,
            mtime: 0,
        }),
        Said::Off => Ok(Reply::Off),
        Said::Read(n, byte, tail) => read_bytes(alloc, *n, *byte, tail),
        Said::Refused(refusal) => Ok(Reply::Refused { refusal: *refusal }),
    }
}

// The line of a reply to the tenth operation of caller 16, behind what was written before.
fn line_of(alloc: Global, said: &Said) -> Result<Vec<u8>, Memory> {
    let reply = reply_of(alloc, said)?;
    let mut out = Vec::from_slice(alloc, b"before\n")?;
    write_reply(16, 10, &reply, &mut out)?;
    Ok(out)
}

fn wanted_line(alloc: Global, text: &str) -> Result<Vec<u8>, Memory> {
    let mut wanted = Vec::from_slice(alloc, b"before\n16 10 ")?;
    wanted.extend_from_slice(text.as_bytes())?;
    wanted.push(b'\n')?;
    Ok(wanted)
}

fn is_written(alloc: Global, said: &Said, text: &str) -> Result<bool, Memory> {
    let line = line_of(alloc, said)?;
    let wanted = wanted_line(alloc, text)?;
    Ok(line.as_slice() == wanted.as_slice())
}

#[test]
fn replies_are_written(rt: HostRuntime) {
    for (said, text) in REPLIES {
        assert_eq!(rt; is_written(rt.alloc(), said, text), Ok(true), "{text}");
    }
}
