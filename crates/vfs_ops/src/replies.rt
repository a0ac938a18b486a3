// Replies that are given and kept.

ghost use Rattle.std.specs.Prelude.{◌≡◌, IfOk};

use fs_model::{Entry, Reply, Rows};
use std::alloc::Global;
use ubifs_base::{Bytes, Memory};

/// A copy of a reply, for whoever gives one and keeps one. The error is want of memory.
pub fn copied_reply(alloc: Global, reply: &Reply) -> Result<Reply, Memory>
    ensures { IfOk result (λ copy. copy ≡ reply.now) }
{
    match reply {
        Reply::Done => Ok(Reply::Done),
        Reply::Ino { ino } => Ok(Reply::Ino { ino: *ino }),
        Reply::Count { n } => Ok(Reply::Count { n: *n }),
        Reply::Bytes { bytes } => Ok(Reply::Bytes {
            bytes: Bytes::from_slice(alloc, bytes.as_slice())?,
        }),
        Reply::List { rows } => Ok(Reply::List {
            rows: copied_rows(alloc, rows)?,
        }),
        Reply::Stat {
            kind,
            ino,
            mode,
            nlink,
            size,
            mtime,
        } => Ok(Reply::Stat {
            kind: *kind,
            ino: *ino,
            mode: *mode,
            nlink: *nlink,
            size: *size,
            mtime: *mtime,
        }),
        Reply::Target { bytes } => Ok(Reply::Target {
            bytes: Bytes::from_slice(alloc, bytes.as_slice())?,
        }),
        Reply::Refused { refusal } => Ok(Reply::Refused { refusal: *refusal }),
        Reply::Off => Ok(Reply::Off),
    }
}

// A copy of a directory's entries.
fn copied_rows(alloc: Global, rows: &Rows) -> Result<Rows, Memory>
    ensures { IfOk result (λ copy. copy ≡ rows.now) }
{
    let mut items = Vec::new(alloc);
    for entry in rows.as_slice() {
        items.push(copied_entry(entry)?)?;
    }
    Ok(Rows::from_vec(items))
}

fn copied_entry(entry: &Entry) -> Result<Entry, Memory>
    ensures { IfOk result (λ copy. copy ≡ entry.now) }
{
    Ok(entry.clone()?)
}
