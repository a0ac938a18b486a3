// Copies of one byte.

ghost use Rattle.std.specs.Prelude.{◌≡◌, ◌≤◌, ◌++◌, OnOk, OnErr, replicate};

use std::alloc::AllocError;

// Appends so many copies of a byte, as many as a page has at most. Where there is no memory all is as it was.
pub(crate) fn push_copies(out: &mut Vec<u8>, byte: u8, n: usize) -> Result<(), AllocError>
    requires { n ≤ 4096 }
    ensures ok { OnOk result (out.new.items ≡ out.old.items ++ replicate n byte) }
    ensures err { OnErr result (out.new.items ≡ out.old.items) }
{
    let copies = [byte; 4096];
    out.extend_from_slice(&copies[..n])?;
    Ok(())
}
