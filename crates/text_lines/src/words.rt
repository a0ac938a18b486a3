// Words of a line that is written.

ghost use Rattle.std.specs.Prelude.{◌≡◌, ◌++◌, ◌∷◌, OnOk};
ghost use Rattle.std.specs.Fmt.{decimal};

use std::alloc::AllocError;

/// Appends a number in decimal digits.
pub fn push_number(line: &mut Vec<u8>, n: u64) -> Result<(), AllocError>
    ensures { OnOk result (line.new.items ≡ line.old.items ++ decimal n) }
{
    if n < 10 {
        line.push(b'0' + n as u8)?;
        return Ok(());
    }
    push_number(line, n / 10)?;
    line.push(b'0' + (n % 10) as u8)?;
    Ok(())
}

/// Appends a space and a word.
pub fn push_word(line: &mut Vec<u8>, text: &[u8]) -> Result<(), AllocError>
    ensures { OnOk result (line.new.items ≡ line.old.items ++ (32 ∷ text.now)) }
{
    line.push(b' ')?;
    line.extend_from_slice(text)
}

/// Appends a space and a number.
pub fn push_number_word(line: &mut Vec<u8>, n: u64) -> Result<(), AllocError>
    ensures { OnOk result (line.new.items ≡ line.old.items ++ (32 ∷ decimal n)) }
{
    line.push(b' ')?;
    push_number(line, n)
}
