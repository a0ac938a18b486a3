// Dirty pages as they are written back.

ghost use Rattle.std.specs.Prelude.{◌≡◌, ◌≢◌, ◌≤◌, ◌==◌, true, false, Some, IfOk, max};
ghost use Rattle.std.specs.List.{list_all};
ghost use Rattle.std.specs.Option.{option_map};
ghost use Rattle.buffered_files.specs.PagePut.{page_at};
ghost use Rattle.buffered_files.specs.Present.{bytes_before_end, filled};

use crate::kept::Kept;
use crate::put::fill;
use std::alloc::Global;
use ubifs_base::{Bytes, Memory};

/// The bytes of a block's dirty page up to its file's end, and `None` if the page isn't dirty.
pub fn page_bytes(alloc: Global, kept: &Kept, ino: u32, block: u32) -> Result<Option<Bytes>, Memory>
    ensures { IfOk result (λ bytes. bytes ≡ option_map (λ page. page.bytes) (page_at kept.now ino block)) }
{
    let Some(dirty) = kept.pages.dirty_page(ino, block) else {
        return Ok(None);
    };
    let Some(inode) = kept.inodes.get(ino) else {
        return Ok(None);
    };
    let bytes = filled(alloc, &dirty.bytes, bytes_before_end(inode.size, block))?;
    Ok(Some(bytes))
}

/// Whether a block's page is dirty, and has these bytes up to its file's end. Takes no memory.
pub fn has_bytes(kept: &Kept, ino: u32, block: u32, bytes: &Bytes) -> bool
    ensures yes { result ≡ true → option_map (λ page. page.bytes) (page_at kept.now ino block) ≡ Some bytes.now }
    ensures no { result ≡ false → option_map (λ page. page.bytes) (page_at kept.now ino block) ≢ Some bytes.now }
{
    let Some(dirty) = kept.pages.dirty_page(ino, block) else {
        return false;
    };
    let Some(inode) = kept.inodes.get(ino) else {
        return false;
    };
    let len = bytes_before_end(inode.size, block);
    is_filled(dirty.bytes.as_slice(), len, bytes.as_slice())
}

// Bytes with zeros up to this length, which ends in a page.
fn filled(alloc: Global, bytes: &Bytes, len: usize) -> Result<Bytes, Memory>
    requires { len ≤ 4096 }
    ensures { IfOk result (λ new. new ≡ filled bytes.now len) }
{
    let mut new = Vec::from_slice(alloc, bytes.as_slice())?;
    fill(&mut new, len)?;
    Ok(Bytes::from_vec(new))
}

// How many bytes of a page stand before its file's end.
pub(crate) fn bytes_before_end(size: u64, block: u32) -> usize
    ensures bytes { result ≡ bytes_before_end size block }
    ensures page { result ≤ 4096 }
{
    let start = 4096 * (block as u64);
    size.saturating_sub(start).min(4096) as usize
}

// Whether the new bytes are the old ones, with zeros up to this length.
fn is_filled(old: &[u8], len: usize, new: &[u8]) -> bool
    ensures yes { result ≡ true → filled old.now len ≡ new.now }
    ensures no { result ≡ false → filled old.now len ≢ new.now }
{
    if new.len() != old.len().max(len) {
        return false;
    }
    let (front, back) = new.split_at(old.len());
    if are_equal(front, old) {
        return are_zeros(back);
    }
    false
}

// Whether bytes are the same.
fn are_equal(a: &[u8], b: &[u8]) -> bool
    ensures yes { result ≡ true → a.now ≡ b.now }
    ensures no { result ≡ false → a.now ≢ b.now }
{
    a == b
}

// Whether each byte is 0.
fn are_zeros(bytes: &[u8]) -> bool
    ensures { result ≡ list_all (λ b. b == 0) bytes.now }
{
    bytes.iter().all(|b| *b == 0)
}
