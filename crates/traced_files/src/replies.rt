// Replies that are given and kept.

ghost use Rattle.std.specs.Prelude.{◌≡◌, true, IfSome, IfNone};
ghost use Rattle.fs_model.specs.declared.refusal.Refusal.TheVariants.{Enomem};
ghost use Rattle.fs_model.specs.declared.reply.Reply.TheVariants.{Refused};
ghost use Rattle.traced_files.specs.Replies.{IsToldAs};
ghost use Rattle.vfs_ops.specs.Replies.{holds_bytes};

use fs_model::{Refusal, Reply};
use std::alloc::Global;
use vfs_ops::copied_reply;

// An answer twice: to be given, and to be kept. Where there is no memory for a copy of its bytes, both are want of memory.
pub(crate) fn twice(alloc: Global, reply: Reply) -> (Reply, Reply)
    ensures same { result.1 ≡ result.0 }
    ensures told { IsToldAs reply result.0 }
{
    if let Some(copy) = small_copy(&reply) {
        return (reply, copy);
    }
    match copied_reply(alloc, &reply) {
        Ok(copy) => (reply, copy),
        Err(_) => (out_of_memory(), out_of_memory()),
    }
}

pub(crate) fn out_of_memory() -> Reply
    ensures { result ≡ Refused Enomem }
{
    Reply::Refused {
        refusal: Refusal::Enomem,
    }
}

// A copy of a reply without bytes.
fn small_copy(reply: &Reply) -> Option<Reply>
    ensures some { IfSome result (λ copy. copy ≡ reply.now) }
    ensures none { IfNone result (holds_bytes reply.now ≡ true) }
{
    match reply {
        Reply::Done => Some(Reply::Done),
        Reply::Ino { ino } => Some(Reply::Ino { ino: *ino }),
        Reply::Count { n } => Some(Reply::Count { n: *n }),
        Reply::Stat {
            kind,
            ino,
            mode,
            nlink,
            size,
            mtime,
        } => Some(Reply::Stat {
            kind: *kind,
            ino: *ino,
            mode: *mode,
            nlink: *nlink,
            size: *size,
            mtime: *mtime,
        }),
        Reply::Refused { refusal } => Some(Reply::Refused { refusal: *refusal }),
        Reply::Off => Some(Reply::Off),
        Reply::Bytes { .. } | Reply::List { .. } | Reply::Target { .. } => None,
    }
}
