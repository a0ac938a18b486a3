// Runs of equal bytes.

ghost use Rattle.std.specs.Prelude.{◌≡◌, ◌<◌, ◌++◌, OnOk};
ghost use Rattle.script_text.specs.Escapes.{hex_digit};
ghost use Rattle.script_text.specs.Reply.{run_text, runs_text, runs_of};

use std::alloc::AllocError;
use text_lines::push_number;

/// Appends the longest runs of equal bytes, joined by commas.
pub fn push_runs(line: &mut Vec<u8>, bytes: &[u8]) -> Result<(), AllocError>
    ensures { OnOk result (line.new.items ≡ line.old.items ++ runs_text (runs_of bytes.now)) }
{
    if bytes.is_empty() {
        return Ok(());
    }
    let mut n = 1;
    let mut byte = bytes[0];
    for x in bytes.split_at(1).1 {
        if *x == byte {
            n += 1;
        } else {
            push_run(line, n, byte)?;
            line.push(b',')?;
            n = 1;
            byte = *x;
        }
    }
    push_run(line, n, byte)
}

/// Appends a run: its length, an x, and its byte in two hex digits.
fn push_run(line: &mut Vec<u8>, n: u64, byte: u8) -> Result<(), AllocError>
    ensures { OnOk result (line.new.items ≡ line.old.items ++ run_text (n, byte)) }
{
    push_number(line, n)?;
    line.push(b'x')?;
    line.push(hex_digit(byte / 16))?;
    line.push(hex_digit(byte % 16))?;
    Ok(())
}

/// A lower-case hex digit.
pub fn hex_digit(n: u8) -> u8
    requires { n < 16 }
    ensures { result ≡ hex_digit n }
{
    if n < 10 { b'0' + n } else { b'a' - 10 + n }
}
