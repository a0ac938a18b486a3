// A manifest, read whole.

ghost use Rattle.std.specs.Prelude.{◌≡◌, ℕ, false, List, IfOk, IfErr};
ghost use Rattle.fs_model.specs.Files.{Tree as AnyTree};
ghost use Rattle.fs_model.specs.Proper.{IsProper};
ghost use Rattle.script_text.specs.Script.{OnLine};
ghost use Rattle.script_text.specs.declared.manifest.Manifest.{Manifest as Volume};
ghost use Rattle.manifest_tree.specs.ManifestTree.{IsFirstBadTreeLine};
ghost use Rattle.manifest_tree.specs.CopiedFiles.{IsMadeManifest, IsNamedManifest, IsTreeManifest};
ghost use Rattle.manifest_tree.specs.declared.copied.CopiedFile.{CopiedFile as AnyCopied};

use crate::copied::{CopiedFile, copied_files};
use crate::made::make_lines;
use plain_backing::Tree;
use script_text::{Manifest, TextFault, list_manifest, manifest_lines_are_given, one_listing};
use std::alloc::Global;

/// The geometry that a manifest says, and its tree.
#[derive(Drop)]
pub struct MadeManifest {
    pub volume: Manifest,
    pub tree: Tree,
}

/// The geometry that a manifest says, the tree that its lines make, in which each file that is copied is empty yet, and
/// those files in order.
#[derive(Drop)]
pub struct NamedManifest {
    pub volume: Manifest,
    pub copied: Vec<CopiedFile>,
    pub tree: Tree,
}

/// Reads a manifest, and no file that it copies: the tree that its lines make of the root alone, all times being 0. A line
/// makes the inode of the next number, from 65 on, or a further name. The fault is want of memory, or the first line that isn't in the grammar, by
/// its words or by what stands in the tree: its parent isn't a directory that was made, its path is there already or has a
/// zero byte, a component of more than 255 bytes, `.` or `..`, its target is empty or has more than 4,095 bytes, or the old
/// path isn't a regular file. An inode of more than 65,000 links, and a directory behind 60,000 names, are answered by want
/// of memory.
pub fn read_names(alloc: Global, bytes: &[u8]) -> Result<NamedManifest, TextFault>
    ensures named { IfOk result (λ m. IsNamedManifest bytes.now m.volume m.copied.items m.tree) }
    ensures proper { IfOk result (λ m. IsProper m.tree) }
    ensures line { IfErr result (λ fault. OnLine fault (IsFirstBadTreeLine bytes.now)) }
{
    let listed = list_manifest(alloc, bytes)?;
    manifest_lines_are_given();
    let tree = make_lines(alloc, &listed.lines)?;
    if let Some(number) = listed.bad {
        return Err(TextFault::Line { number });
    }
    let Ok(copied) = copied_files(alloc, &listed.lines) else {
        return Err(TextFault::Memory);
    };
    Ok(NamedManifest {
        volume: listed.volume,
        copied,
        tree,
    })
}

/// Reads a manifest that copies no file and whose main area isn't packed; another one is answered by want of memory.
pub fn read_tree(alloc: Global, bytes: &[u8]) -> Result<MadeManifest, TextFault>
    ensures made { IfOk result (λ m. IsTreeManifest bytes.now m.volume m.tree) }
    ensures proper { IfOk result (λ m. IsProper m.tree) }
    ensures plain { IfOk result (λ m. m.volume.packed ≡ false) }
    ensures line { IfErr result (λ fault. OnLine fault (IsFirstBadTreeLine bytes.now)) }
{
    let named = read_names(alloc, bytes)?;
    if named.volume.packed {
        return Err(TextFault::Memory);
    }
    if !named.copied.is_empty() {
        return Err(TextFault::Memory);
    }
    Ok(MadeManifest {
        volume: named.volume,
        tree: named.tree,
    })
}

/// A text is one manifest, has no first bad line then, and makes one tree with the same bytes of the files that it copies.
pub fn one_named_manifest()
    ensures one { (text : List ℕ) → (this that : Volume) → (files others : List AnyCopied) → (these those : AnyTree) → IsNamedManifest text this files these → IsNamedManifest text that others those
        → (this ≡ that) × (files ≡ others) × (these ≡ those) }
    ensures made { (text : List ℕ) → (this that : Volume) → (files : List (List ℕ)) → (these those : AnyTree) → IsMadeManifest text this files these → IsMadeManifest text that files those
        → (this ≡ that) × (these ≡ those) }
    ensures none { (text : List ℕ) → (volume : Volume) → (files : List AnyCopied) → (tree : AnyTree) → (number : ℕ) → IsNamedManifest text volume files tree → IsFirstBadTreeLine text number → ⊥ }
{
    one_listing();
}

/// A text is one manifest, has no first bad line then, and else has one.
pub fn one_tree_manifest()
    ensures one { (text : List ℕ) → (this that : Volume) → (these those : AnyTree) → IsTreeManifest text this these → IsTreeManifest text that those → (this ≡ that) × (these ≡ those) }
    ensures none { (text : List ℕ) → (volume : Volume) → (tree : AnyTree) → (number : ℕ) → IsTreeManifest text volume tree → IsFirstBadTreeLine text number → ⊥ }
    ensures bad { (text : List ℕ) → (this that : ℕ) → IsFirstBadTreeLine text this → IsFirstBadTreeLine text that → this ≡ that }
{
    one_listing();
}
