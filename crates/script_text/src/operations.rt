// Operations of a line.

ghost use Rattle.std.specs.Prelude.{◌≡◌, ◌∷◌, IfOk, IfSome, IfNone, ℕ, List};
ghost use Rattle.fs_model.specs.declared.op.Op.{Op};
ghost use Rattle.script_text.specs.Script.{op_name, op_words};
ghost use Rattle.script_text.specs.Verbs.{SaysOperation};
ghost use Rattle.script_text.specs.Words.{AreSpacedWords, Fixed};
ghost use Rattle.script_text.specs.declared.verb.Verb.{Verb};

use crate::arguments::{
    path_and_mode, path_and_slot, path_and_target, read_words, slot_and_size, slot_word, two_paths,
    write_words,
};
use crate::cut::cut;
use crate::verb::{Verb, verb_of};
use crate::words::path_word;
use fs_model::Op;
use std::alloc::{AllocError, Global};

/// The operation that the words behind a caller spell. The error is want of memory.
pub fn operation(alloc: Global, words: &[u8]) -> Result<Option<Op>, AllocError>
    ensures found { IfOk result (λ found. IfSome found (λ op. AreSpacedWords (Fixed (op_name op) ∷ op_words op) words.now)) }
    ensures none { IfOk result (λ found. IfNone found ((op : Op) → AreSpacedWords (Fixed (op_name op) ∷ op_words op) words.now → ⊥)) }
{
    let Some((name, rest)) = cut(words, b' ') else {
        if words == b"flush".as_slice() {
            return Ok(Some(Op::Flush));
        }
        return Ok(None);
    };
    let Some(verb) = verb_of(name) else {
        return Ok(None);
    };
    let found = operation_of(alloc, verb, rest)?;
    Ok(found)
}

/// The operation of a verb that the words behind it spell.
fn operation_of(alloc: Global, verb: Verb, words: &[u8]) -> Result<Option<Op>, AllocError>
    ensures found { IfOk result (λ found. IfSome found (λ op. SaysOperation verb op words.now)) }
    ensures none { IfOk result (λ found. IfNone found ((op : Op) → SaysOperation verb op words.now → ⊥)) }
{
    match verb {
        Verb::Create => create(alloc, words),
        Verb::Mkdir => mkdir(alloc, words),
        Verb::Symlink => symlink(alloc, words),
        Verb::Link => link(alloc, words),
        Verb::Unlink => unlink(alloc, words),
        Verb::Rmdir => rmdir(alloc, words),
        Verb::Rename => rename(alloc, words),
        Verb::Open => open(alloc, words),
        Verb::Close => Ok(close(words)),
        Verb::Read => Ok(read(words)),
        Verb::Write => Ok(write(words)),
        Verb::Truncate => Ok(truncate(words)),
        Verb::Fsync => Ok(fsync(words)),
        Verb::List => list(alloc, words),
        Verb::Stat => stat(alloc, words),
        Verb::Readlink => readlink(alloc, words),
        Verb::Chmod => chmod(alloc, words),
    }
}

fn create(alloc: Global, words: &[u8]) -> Result<Option<Op>, AllocError>
    ensures found { IfOk result (λ found. IfSome found (λ op. SaysOperation Verb.Create op words.now)) }
    ensures none { IfOk result (λ found. IfNone found ((op : Op) → SaysOperation Verb.Create op words.now → ⊥)) }
{
    let Some((path, mode)) = path_and_mode(alloc, words)? else {
        return Ok(None);
    };
    Ok(Some(Op::Create { path, mode }))
}

fn mkdir(alloc: Global, words: &[u8]) -> Result<Option<Op>, AllocError>
    ensures found { IfOk result (λ found. IfSome found (λ op. SaysOperation Verb.Mkdir op words.now)) }
    ensures none { IfOk result (λ found. IfNone found ((op : Op) → SaysOperation Verb.Mkdir op words.now → ⊥)) }
{
    let Some((path, mode)) = path_and_mode(alloc, words)? else {
        return Ok(None);
    };
    Ok(Some(Op::Mkdir { path, mode }))
}

fn symlink(alloc: Global, words: &[u8]) -> Result<Option<Op>, AllocError>
    ensures found { IfOk result (λ found. IfSome found (λ op. SaysOperation Verb.Symlink op words.now)) }
    ensures none { IfOk result (λ found. IfNone found ((op : Op) → SaysOperation Verb.Symlink op words.now → ⊥)) }
{
    let Some((path, target)) = path_and_target(alloc, words)? else {
        return Ok(None);
    };
    Ok(Some(Op::Symlink { path, target }))
}

fn link(alloc: Global, words: &[u8]) -> Result<Option<Op>, AllocError>
    ensures found { IfOk result (λ found. IfSome found (λ op. SaysOperation Verb.Link op words.now)) }
    ensures none { IfOk result (λ found. IfNone found ((op : Op) → SaysOperation Verb.Link op words.now → ⊥)) }
{
    let Some((old, new)) = two_paths(alloc, words)? else {
        return Ok(None);
    };
    Ok(Some(Op::Link { old, new }))
}

fn unlink(alloc: Global, words: &[u8]) -> Result<Option<Op>, AllocError>
    ensures found { IfOk result (λ found. IfSome found (λ op. SaysOperation Verb.Unlink op words.now)) }
    ensures none { IfOk result (λ found. IfNone found ((op : Op) → SaysOperation Verb.Unlink op words.now → ⊥)) }
{
    let Some(path) = path_word(alloc, words)? else {
        return Ok(None);
    };
    Ok(Some(Op::Unlink { path }))
}

fn rmdir(alloc: Global, words: &[u8]) -> Result<Option<Op>, AllocError>
    ensures found { IfOk result (λ found. IfSome found (λ op. SaysOperation Verb.Rmdir op words.now)) }
    ensures none { IfOk result (λ found. IfNone found ((op : Op) → SaysOperation Verb.Rmdir op words.now → ⊥)) }
{
    let Some(path) = path_word(alloc, words)? else {
        return Ok(None);
    };
    Ok(Some(Op::Rmdir { path }))
}

fn rename(alloc: Global, words: &[u8]) -> Result<Option<Op>, AllocError>
    ensures found { IfOk result (λ found. IfSome found (λ op. SaysOperation Verb.Rename op words.now)) }
    ensures none { IfOk result (λ found. IfNone found ((op : Op) → SaysOperation Verb.Rename op words.now → ⊥)) }
{
    let Some((old, new)) = two_paths(alloc, words)? else {
        return Ok(None);
    };
    Ok(Some(Op::Rename { old, new }))
}

fn open(alloc: Global, words: &[u8]) -> Result<Option<Op>, AllocError>
    ensures found { IfOk result (λ found. IfSome found (λ op. SaysOperation Verb.Open op words.now)) }
    ensures none { IfOk result (λ found. IfNone found ((op : Op) → SaysOperation Verb.Open op words.now → ⊥)) }
{
    let Some((path, slot)) = path_and_slot(alloc, words)? else {
        return Ok(None);
    };
    Ok(Some(Op::OpenFile { path, slot }))
}

fn close(words: &[u8]) -> Option<Op>
    ensures found { IfSome result (λ op. SaysOperation Verb.Close op words.now) }
    ensures none { IfNone result ((op : Op) → SaysOperation Verb.Close op words.now → ⊥) }
{
    let slot = slot_word(words)?;
    Some(Op::Close { slot })
}

fn read(words: &[u8]) -> Option<Op>
    ensures found { IfSome result (λ op. SaysOperation Verb.Read op words.now) }
    ensures none { IfNone result ((op : Op) → SaysOperation Verb.Read op words.now → ⊥) }
{
    let (slot, offs, len) = read_words(words)?;
    Some(Op::Read { slot, offs, len })
}

fn write(words: &[u8]) -> Option<Op>
    ensures found { IfSome result (λ op. SaysOperation Verb.Write op words.now) }
    ensures none { IfNone result ((op : Op) → SaysOperation Verb.Write op words.now → ⊥) }
{
    let (slot, offs, len, byte) = write_words(words)?;
    Some(Op::Write {
        slot,
        offs,
        len,
        byte,
    })
}

fn truncate(words: &[u8]) -> Option<Op>
    ensures found { IfSome result (λ op. SaysOperation Verb.Truncate op words.now) }
    ensures none { IfNone result ((op : Op) → SaysOperation Verb.Truncate op words.now → ⊥) }
{
    let (slot, size) = slot_and_size(words)?;
    Some(Op::Truncate { slot, size })
}

fn fsync(words: &[u8]) -> Option<Op>
    ensures found { IfSome result (λ op. SaysOperation Verb.Fsync op words.now) }
    ensures none { IfNone result ((op : Op) → SaysOperation Verb.Fsync op words.now → ⊥) }
{
    let slot = slot_word(words)?;
    Some(Op::Fsync { slot })
}

fn list(alloc: Global, words: &[u8]) -> Result<Option<Op>, AllocError>
    ensures found { IfOk result (λ found. IfSome found (λ op. SaysOperation Verb.List op words.now)) }
    ensures none { IfOk result (λ found. IfNone found ((op : Op) → SaysOperation Verb.List op words.now → ⊥)) }
{
    let Some(path) = path_word(alloc, words)? else {
        return Ok(None);
    };
    Ok(Some(Op::List { path }))
}

fn stat(alloc: Global, words: &[u8]) -> Result<Option<Op>, AllocError>
    ensures found { IfOk result (λ found. IfSome found (λ op. SaysOperation Verb.Stat op words.now)) }
    ensures none { IfOk result (λ found. IfNone found ((op : Op) → SaysOperation Verb.Stat op words.now → ⊥)) }
{
    let Some(path) = path_word(alloc, words)? else {
        return Ok(None);
    };
    Ok(Some(Op::Stat { path }))
}

fn readlink(alloc: Global, words: &[u8]) -> Result<Option<Op>, AllocError>
    ensures found { IfOk result (λ found. IfSome found (λ op. SaysOperation Verb.Readlink op words.now)) }
    ensures none { IfOk result (λ found. IfNone found ((op : Op) → SaysOperation Verb.Readlink op words.now → ⊥)) }
{
    let Some(path) = path_word(alloc, words)? else {
        return Ok(None);
    };
    Ok(Some(Op::Readlink { path }))
}

fn chmod(alloc: Global, words: &[u8]) -> Result<Option<Op>, AllocError>
    ensures found { IfOk result (λ found. IfSome found (λ op. SaysOperation Verb.Chmod op words.now)) }
    ensures none { IfOk result (λ found. IfNone found ((op : Op) → SaysOperation Verb.Chmod op words.now → ⊥)) }
{
    let Some((path, mode)) = path_and_mode(alloc, words)? else {
        return Ok(None);
    };
    Ok(Some(Op::Chmod { path, mode }))
}
