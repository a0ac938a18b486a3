// The lines of a script on a volume that may only be read.

ghost use Rattle.std.specs.Prelude.{◌≡◌, IfOk, [], false};
ghost use Rattle.std.specs.List.{AllByRecursion};
ghost use Rattle.fs_model.specs.Proper.{IsProper};
ghost use Rattle.fs_model.specs.declared.backing_answers.Mode.TheVariants.{ReadOnly};
ghost use Rattle.plain_backing.specs.Spending.{is_spent};
ghost use Rattle.script_text.specs.Script.{IsInRange};
ghost use Rattle.script_run.specs.Played.{IsReadText};
ghost use Rattle.script_run.specs.Readers.{reading_of};
ghost use Rattle.script_run.specs.Reading.{IsReadRun, reading_on};

use crate::reader::{Reader, first_reader, read_next};
use fs_model::Cause;
use plain_backing::Tree;
use script_text::Part;
use std::alloc::Global;
use ubifs_base::{Geometry, Memory};

/// What the lines print on a volume with this tree that may only be read, for this cause. Want of memory is the only fault.
pub(crate) fn read_text(
    alloc: Global,
    geometry: Geometry,
    tree: Tree,
    cause: Cause,
    parts: Vec<Part>,
) -> Result<Vec<u8>, Memory>
    requires proper { IsProper tree }
    requires unspent { is_spent (ReadOnly cause) ≡ false }
    requires range { AllByRecursion IsInRange parts.items }
    ensures { IfOk result (λ text. IsReadText cause tree parts.items text.items) }
{
    let mut text = Vec::new(alloc);
    let _reader = read_lines(alloc, geometry, tree, cause, parts, &mut text)?;
    Ok(text)
}

// Does what the lines say, and prints it behind no other text.
fn read_lines(
    alloc: Global,
    geometry: Geometry,
    tree: Tree,
    cause: Cause,
    parts: Vec<Part>,
    text: &mut Vec<u8>,
) -> Result<Reader, Memory>
    requires proper { IsProper tree }
    requires unspent { is_spent (ReadOnly cause) ≡ false }
    requires range { AllByRecursion IsInRange parts.items }
    requires empty { text.old.items ≡ [] }
    ensures { IfOk result (λ reader. IsReadRun cause (reading_on tree) parts.items text.new.items (reading_of reader)) }
{
    let mut reader = first_reader(alloc, geometry, tree, cause)?;
    for part in parts {
        reader = read_next(alloc, reader, part, text)?;
    }
    Ok(reader)
}
