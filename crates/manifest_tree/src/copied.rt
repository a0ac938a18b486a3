// The files that lines of a manifest copy.

ghost use Rattle.std.specs.Prelude.{◌≡◌, ◌<◌, ◌++◌, ◌∷◌, IfOk, List};
ghost use Rattle.script_text.specs.declared.manifest_line.ManifestLine.{ManifestLine as AnyLine};
ghost use Rattle.manifest_tree.specs.CopiedFiles.{copied_files, copied_from};

use script_text::ManifestLine;
use std::alloc::Global;
use ubifs_base::{Memory, Name};

/// A file that a manifest copies: its name, which is UTF-8, and the number of the inode that gets its bytes.
#[derive(Drop)]
pub struct CopiedFile {
    pub ino: u32,
    pub name: Name,
}

/// The files that lines copy, in order of the lines. The error is want of memory.
pub fn copied_files(alloc: Global, lines: &[ManifestLine]) -> Result<Vec<CopiedFile>, Memory>
    ensures { IfOk result (λ copied. copied.items ≡ copied_files lines.now) }
{
    let mut copied = Vec::new(alloc);
    let mut ino = 65;
    let mut left = lines;
    'copying: while let Some((line, rest)) = left.split_first() {
        if ino >= u32::MAX {
            return Err(Memory);
        }
        ino = push_copied(alloc, &mut copied, ino, line)?;
        left = rest;
    }
    Ok(copied)
}

// Appends what a line copies, if it does, and answers the number that the next inode gets.
fn push_copied(
    alloc: Global,
    copied: &mut Vec<CopiedFile>,
    ino: u32,
    line: &ManifestLine,
) -> Result<u32, Memory>
    requires { ino < 4294967295 }
    ensures { IfOk result (λ next. (rest : List AnyLine) → copied.new.items ++ copied_from next rest ≡ copied.old.items ++ copied_from ino (line.now ∷ rest)) }
{
    match line {
        ManifestLine::Dir { path: _, mode: _ } => Ok(ino + 1),
        ManifestLine::File {
            path: _,
            mode: _,
            len: _,
            byte: _,
        } => Ok(ino + 1),
        ManifestLine::Copy {
            path: _,
            mode: _,
            name,
        } => {
            let name = Name::from_slice(alloc, name.as_slice())?;
            copied.push(CopiedFile { ino, name })?;
            Ok(ino + 1)
        }
        ManifestLine::Symlink { path: _, target: _ } => Ok(ino + 1),
        ManifestLine::Link { old: _, new: _ } => Ok(ino),
    }
}
