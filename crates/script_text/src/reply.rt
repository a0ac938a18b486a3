// Lines of replies.

ghost use Rattle.std.specs.Prelude.{◌≡◌, ◌<◌, ◌++◌, ◌∷◌, OnOk, OnErr};
ghost use Rattle.std.specs.Fmt.{decimal};
ghost use Rattle.text_lines.specs.Lines.{spaced};
ghost use Rattle.script_text.specs.Reply.{mount_for_reading_line, reply_line, reply_words, bytes_words, refusal_words, cause_words, scarce_word, table_word, runs_text, runs_of};

use crate::listing::{push_escaped_word, push_kind_word, push_octal_word, push_rows};
use crate::run::push_runs;
use fs_model::{Cause, Refusal, Reply, Scarce, Table};
use std::alloc::AllocError;
use text_lines::{push_number, push_number_word, push_word};
use ubifs_base::Memory;

/// Appends the line of a caller's reply: the caller, the number of its call from 1, and the reply. A fault leaves `out`
/// as it was.
pub fn write_reply(caller: u16, number: u64, reply: &Reply, out: &mut Vec<u8>) -> Result<(), Memory>
    ensures ok { OnOk result (out.new.items ≡ out.old.items ++ reply_line caller number reply.now) }
    ensures err { OnErr result (out.new.items ≡ out.old.items) }
{
    let mut line = Vec::new(*out.allocator());
    push_number(&mut line, u64::from(caller))?;
    push_number_word(&mut line, number)?;
    push_reply(&mut line, reply)?;
    line.push(b'\n')?;
    out.extend_from_slice(&line)?;
    Ok(())
}

/// Appends the line of a mount after which a volume can only be read: `mount ro`, and why. A fault leaves `out` as it was.
pub fn write_mount_for_reading(cause: Cause, out: &mut Vec<u8>) -> Result<(), Memory>
    ensures ok { OnOk result (out.new.items ≡ out.old.items ++ mount_for_reading_line cause) }
    ensures err { OnErr result (out.new.items ≡ out.old.items) }
{
    let mut line = Vec::from_slice(*out.allocator(), b"mount ro".as_slice())?;
    push_cause(&mut line, cause)?;
    line.push(b'\n')?;
    out.extend_from_slice(&line)?;
    Ok(())
}

/// Appends the words of a reply.
fn push_reply(line: &mut Vec<u8>, reply: &Reply) -> Result<(), AllocError>
    ensures { OnOk result (line.new.items ≡ line.old.items ++ spaced (reply_words reply.now)) }
{
    match reply {
        Reply::Done => push_word(line, b"ok".as_slice()),
        Reply::Ino { ino } => {
            push_word(line, b"ok".as_slice())?;
            push_number_word(line, u64::from(*ino))
        }
        Reply::Count { n } => {
            push_word(line, b"ok".as_slice())?;
            push_number_word(line, u64::from(*n))
        }
        Reply::Bytes { bytes } => {
            push_word(line, b"ok".as_slice())?;
            push_bytes(line, bytes.as_slice())
        }
        Reply::List { rows } => {
            push_word(line, b"ok".as_slice())?;
            push_rows(line, rows.as_slice())
        }
        Reply::Stat {
            kind,
            ino,
            mode,
            nlink,
            size,
            mtime,
        } => {
            push_word(line, b"ok".as_slice())?;
            push_kind_word(line, *kind)?;
            push_number_word(line, u64::from(*ino))?;
            push_octal_word(line, *mode)?;
            push_number_word(line, u64::from(*nlink))?;
            push_number_word(line, *size)?;
            push_number_word(line, *mtime)
        }
        Reply::Target { bytes } => {
            push_word(line, b"ok".as_slice())?;
            push_escaped_word(line, bytes.as_slice())
        }
        Reply::Refused { refusal } => push_refusal(line, *refusal),
        Reply::Off => push_word(line, b"off".as_slice()),
    }
}

/// Appends how many bytes there are, and their runs.
fn push_bytes(line: &mut Vec<u8>, bytes: &[u8]) -> Result<(), AllocError>
    ensures { OnOk result (line.new.items ≡ line.old.items ++ spaced (bytes_words bytes.now)) }
{
    if bytes.is_empty() {
        return push_word(line, b"0".as_slice());
    }
    push_number_word(line, bytes.len() as u64)?;
    line.push(b' ')?;
    push_runs(line, bytes)
}

/// Appends a refusal's number and what it carries.
fn push_refusal(line: &mut Vec<u8>, refusal: Refusal) -> Result<(), AllocError>
    ensures { OnOk result (line.new.items ≡ line.old.items ++ spaced (refusal_words refusal)) }
{
    match refusal {
        Refusal::Enoent => push_word(line, b"E1".as_slice()),
        Refusal::Eexist => push_word(line, b"E2".as_slice()),
        Refusal::Enotdir => push_word(line, b"E3".as_slice()),
        Refusal::Eisdir => push_word(line, b"E4".as_slice()),
        Refusal::Enotempty => push_word(line, b"E5".as_slice()),
        Refusal::Enospc { space } => {
            push_word(line, b"E6".as_slice())?;
            push_number_word(line, space.need)?;
            push_number_word(line, space.room)
        }
        Refusal::Erofs { cause } => {
            push_word(line, b"E7".as_slice())?;
            push_cause(line, cause)
        }
        Refusal::Eio { count } => {
            push_word(line, b"E8".as_slice())?;
            push_number_word(line, count)
        }
        Refusal::Enomem => push_word(line, b"E9".as_slice()),
        Refusal::Efbig => push_word(line, b"E10".as_slice()),
        Refusal::Enametoolong => push_word(line, b"E11".as_slice()),
        Refusal::Einval => push_word(line, b"E12".as_slice()),
        Refusal::Emlink => push_word(line, b"E13".as_slice()),
        Refusal::Enfile { what, limit } => {
            push_word(line, b"E14".as_slice())?;
            push_table(line, what)?;
            push_number_word(line, limit)
        }
        Refusal::Ebadf => push_word(line, b"E15".as_slice()),
    }
}

/// Appends why a store is read-only.
fn push_cause(line: &mut Vec<u8>, cause: Cause) -> Result<(), AllocError>
    ensures { OnOk result (line.new.items ≡ line.old.items ++ spaced (cause_words cause)) }
{
    match cause {
        Cause::Tight { what, need, room } => {
            push_word(line, b"tight".as_slice())?;
            push_scarce(line, what)?;
            push_number_word(line, need)?;
            push_number_word(line, room)
        }
        Cause::Faulted { count } => {
            push_word(line, b"faulted".as_slice())?;
            push_number_word(line, count)
        }
        Cause::Spent { sqnum, cmt_no } => {
            push_word(line, b"spent".as_slice())?;
            push_number_word(line, sqnum)?;
            push_number_word(line, cmt_no)
        }
    }
}

fn push_scarce(line: &mut Vec<u8>, what: Scarce) -> Result<(), AllocError>
    ensures { OnOk result (line.new.items ≡ line.old.items ++ (32 ∷ scarce_word what)) }
{
    match what {
        Scarce::Space => push_word(line, b"space".as_slice()),
        Scarce::Empty => push_word(line, b"empty".as_slice()),
        Scarce::Index => push_word(line, b"index".as_slice()),
        Scarce::Area => push_word(line, b"area".as_slice()),
    }
}

fn push_table(line: &mut Vec<u8>, what: Table) -> Result<(), AllocError>
    ensures { OnOk result (line.new.items ≡ line.old.items ++ (32 ∷ table_word what)) }
{
    match what {
        Table::Orphans => push_word(line, b"orphans".as_slice()),
        Table::Inodes => push_word(line, b"inodes".as_slice()),
    }
}
