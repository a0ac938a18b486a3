// Scripts.

ghost use Rattle.std.specs.Prelude.{◌≡◌, IfOk, IfErr};
ghost use Rattle.script_text.specs.Script.{IsScript, IsFirstBadLine, OnLine};

use crate::TextFault;
use crate::cut::cut;
use crate::part::{Part, mounted_after, next_part};
use std::alloc::Global;

/// The parts of a script, in order.
#[derive(Drop)]
pub struct Script {
    pub parts: Vec<Part>,
}

/// The most lines that a script has.
pub const LINES: u64 = 100_000;

/// Reads a script: lines of words with one space between them, in 100,000 lines at most, each of 10,000 bytes at most
/// before its newline. The lines are `mount`, `unmount`, `now N` and `workers W`; `C OP`, with a caller and an operation, a
/// word and its arguments; and `end` as the last. N and an offset are below 2^64, W is from 0 to 8, C from 1 to 16, a
/// length below 2^32, a slot and a byte below 256, in decimal digits without a leading zero; a mode has one to four octal
/// digits. In a path or a target a byte is itself, or `%` and two lower-case hex digits; a path is `/`, or components each
/// after a slash, none of them empty. `mount` stands while nothing is mounted, `unmount` and an operation while a volume
/// is, `now` and `workers` anywhere. The fault is want of memory, or the first line that isn't in this grammar; lines are
/// counted from 1, and a line that is missing or has no newline counts.
pub fn read_script(alloc: Global, bytes: &[u8]) -> Result<Script, TextFault>
    ensures ok { IfOk result (λ script. IsScript bytes.now script.parts.items) }
    ensures line { IfErr result (λ fault. OnLine fault (IsFirstBadLine bytes.now)) }
{
    let mut parts = Vec::new(alloc);
    let mut mounted = false;
    let mut rest = bytes;
    for before in 0..LINES {
        let Some((line, more)) = cut(rest, b'\n') else {
            return Err(TextFault::Line { number: before + 1 });
        };
        if line == b"end".as_slice() {
            if more.is_empty() {
                return Ok(Script { parts });
            }
            return Err(TextFault::Line { number: before + 2 });
        }
        let Some(part) = next_part(alloc, mounted, line)? else {
            return Err(TextFault::Line { number: before + 1 });
        };
        mounted = mounted_after(mounted, &part);
        parts.push(part)?;
        rest = more;
    }
    Err(TextFault::Line { number: LINES + 1 })
}
