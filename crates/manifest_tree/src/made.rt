// The lines of a manifest, made one after another.

ghost use Rattle.std.specs.Prelude.{◌≡◌, Ok, Err, Some, None, IfOk, IfErr, if◌then◌else◌};
ghost use Rattle.std.specs.List.{AllByRecursion};
ghost use Rattle.fs_model.specs.Proper.{IsProper};
ghost use Rattle.fs_model.specs.Worked.{fresh};
ghost use Rattle.script_text.specs.ManifestLines.{IsGivenLine};
ghost use Rattle.script_text.specs.Script.{OnLine};
ghost use Rattle.manifest_tree.specs.ManifestTree.{line_made, manifest_tree};

use crate::making::{make_dir, make_empty_file, make_file, make_link, make_symlink};
use fs_laws::a_fresh_volume_is_sound;
use fs_model::{Change, Group};
use op_groups::new_dir;
use plain_backing::Tree;
use script_text::{ManifestLine, TextFault};
use std::alloc::Global;
use ubifs_base::Memory;

/// The tree that lines make of the root alone, which has mode 755. A file that is copied is empty in it. The fault is want of memory, or the number of the first
/// line that isn't in the grammar because of what stands in the tree; the first of the lines has number 2. An inode of more
/// than 65,000 links, and a directory behind 60,000 names, are answered by want of memory.
pub fn make_lines(alloc: Global, lines: &[ManifestLine]) -> Result<Tree, TextFault>
    requires { AllByRecursion IsGivenLine lines.now }
    ensures made { IfOk result (λ tree. manifest_tree lines.now ≡ Ok tree) }
    ensures proper { IfOk result (λ tree. IsProper tree) }
    ensures line { IfErr result (λ fault. OnLine fault (λ number. manifest_tree lines.now ≡ Err number)) }
{
    a_fresh_volume_is_sound();
    let mut tree = match root_alone(alloc) {
        Ok(tree) => tree,
        Err(Memory) => return Err(TextFault::Memory),
    };
    let mut number = 2;
    let mut left = lines;
    'making: while let Some((line, rest)) = left.split_first() {
        match make_line(alloc, &mut tree, line) {
            Ok(true) => {}
            Ok(false) => return Err(TextFault::Line { number }),
            Err(Memory) => return Err(TextFault::Memory),
        }
        number += 1;
        left = rest;
    }
    Ok(tree)
}

// Makes a line, or answers that it isn't in the grammar.
fn make_line(alloc: Global, tree: &mut Tree, line: &ManifestLine) -> Result<bool, Memory>
    requires proper { IsProper tree.old }
    requires given { IsGivenLine line.now }
    ensures made { IfOk result (λ made. line_made tree.old line.now ≡ (if made then Some tree.new else None)) }
    ensures proper { IsProper tree.new }
{
    match line {
        ManifestLine::Dir { path, mode } => make_dir(alloc, tree, path, *mode),
        ManifestLine::File {
            path,
            mode,
            len,
            byte,
        } => make_file(alloc, tree, path, *mode, *len, *byte),
        ManifestLine::Copy {
            path,
            mode,
            name: _,
        } => make_empty_file(alloc, tree, path, *mode),
        ManifestLine::Symlink { path, target } => make_symlink(alloc, tree, path, target),
        ManifestLine::Link { old, new } => make_link(alloc, tree, old, new),
    }
}

// The root alone.
fn root_alone(alloc: Global) -> Result<Tree, Memory>
    ensures { IfOk result (λ tree. tree ≡ fresh.tree) }
{
    let mut tree = Tree::new(alloc, 64);
    let mut group = Group::new(alloc);
    group.push(Change::SetInode {
        ino: 1,
        inode: new_dir(alloc, 0o755, 0),
    })?;
    tree.apply(alloc, &group)?;
    Ok(tree)
}
