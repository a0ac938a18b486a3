// Lines of words.

ghost use Rattle.std.specs.Prelude.{◌≡◌, ◌∷◌, [], IfOk};
ghost use Rattle.text_lines.specs.Lines.{line_of};

use std::alloc::{AllocError, Global};

/// A line of two words.
pub fn line_of_two(alloc: Global, first: &[u8], second: &[u8]) -> Result<Vec<u8>, AllocError>
    ensures { IfOk result (λ line. line.items ≡ line_of (first.now ∷ second.now ∷ [])) }
{
    let mut line = Vec::from_slice(alloc, first)?;
    line.push(b' ')?;
    line.extend_from_slice(second)?;
    line.push(b'\n')?;
    Ok(line)
}

/// A line of three words.
pub fn line_of_three(
    alloc: Global,
    first: &[u8],
    second: &[u8],
    third: &[u8],
) -> Result<Vec<u8>, AllocError>
    ensures { IfOk result (λ line. line.items ≡ line_of (first.now ∷ second.now ∷ third.now ∷ [])) }
{
    let mut line = Vec::from_slice(alloc, first)?;
    line.push(b' ')?;
    line.extend_from_slice(second)?;
    line.push(b' ')?;
    line.extend_from_slice(third)?;
    line.push(b'\n')?;
    Ok(line)
}
