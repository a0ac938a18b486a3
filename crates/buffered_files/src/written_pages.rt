// Pages as they are once a byte was written to them.

ghost use Rattle.std.specs.Prelude.{◌≡◌, ◌+◌, ◌*◌, ◌^◌, ◌<◌, ◌≤◌, ◌++◌, ◌∷◌, [], IfOk, OnOk, map};
ghost use Rattle.fs_model.specs.Backing.{Goes, HasCause, IsNotReadOnly, Reads};
ghost use Rattle.fs_model.specs.Files.{overlaid, page_written, pages_of};
ghost use Rattle.buffered_files.specs.Calls.{SureGoes};
ghost use Rattle.buffered_files.specs.Present.{IsKept, present};

use crate::copies::push_copies;
use crate::kept::Kept;
use crate::reads::read_page;
use fs_model::{BLOCK_SIZE, Backing, StoreFault};
use std::alloc::{AllocError, Global};
use ubifs_base::Bytes;

/// The pages that n bytes from a place of a file on touch, by number, as they are once this byte stands there.
pub(crate) fn written_pages<B: Backing>(
    alloc: Global,
    backing: &mut B,
    kept: &Kept,
    ino: u32,
    offs: u64,
    n: u32,
    byte: u8,
) -> Result<Vec<(u32, Bytes)>, StoreFault>
    requires kept { IsKept (B.state backing.old).tree kept.now }
    requires some { 0 < n }
    requires range { offs + n ≤ 2 ^ 41 }
    ensures pages { IfOk result (λ pages. pages.items ≡ map (λ page. (page, page_written (present (B.state backing.old).tree kept.now).tree.blocks ino offs n byte page)) (pages_of offs n)) }
    ensures reads { Reads (B.state backing.old) (B.state backing.new) }
    ensures goes { Goes 0 (B.state backing.old) (B.state backing.new) }
    ensures cause { HasCause (B.state backing.old) (B.state backing.new) result }
    ensures mode { IsNotReadOnly result }
    ensures sure { SureGoes (B.outlook backing.old) (B.outlook backing.new) (B.state backing.old) (B.state backing.new) }
{
    let first = (offs / BLOCK_SIZE) as u32;
    let last = ((offs + n as u64 - 1) / BLOCK_SIZE) as u32;
    let mut pages = Vec::new(alloc);
    for page in first..last + 1 {
        let bytes = written_page(alloc, backing, kept, ino, offs, n, byte, page)?;
        add_page(&mut pages, page, bytes)?;
    }
    Ok(pages)
}

// Appends a page.
fn add_page(pages: &mut Vec<(u32, Bytes)>, page: u32, bytes: Bytes) -> Result<(), AllocError>
    ensures { OnOk result (pages.new.items ≡ pages.old.items ++ (page, bytes) ∷ []) }
{
    pages.push((page, bytes))?;
    Ok(())
}

// One page of them. One that is written whole isn't read.
fn written_page<B: Backing>(
    alloc: Global,
    backing: &mut B,
    kept: &Kept,
    ino: u32,
    offs: u64,
    n: u32,
    byte: u8,
    page: u32,
) -> Result<Bytes, StoreFault>
    requires kept { IsKept (B.state backing.old).tree kept.now }
    requires range { offs + n ≤ 2 ^ 41 }
    requires starts { 4096 * page < offs + n }
    requires ends { offs < 4096 * (page + 1) }
    ensures bytes { IfOk result (λ bytes. bytes ≡ page_written (present (B.state backing.old).tree kept.now).tree.blocks ino offs n byte page) }
    ensures reads { Reads (B.state backing.old) (B.state backing.new) }
    ensures goes { Goes 0 (B.state backing.old) (B.state backing.new) }
    ensures cause { HasCause (B.state backing.old) (B.state backing.new) result }
    ensures mode { IsNotReadOnly result }
    ensures sure { SureGoes (B.outlook backing.old) (B.outlook backing.new) (B.state backing.old) (B.state backing.new) }
{
    let start = BLOCK_SIZE * page as u64;
    let from = offs.saturating_sub(start) as usize;
    let to = (offs + n as u64 - start).min(BLOCK_SIZE) as usize;
    let count = to - from;
    if count == 4096 {
        let whole = vec![in alloc; byte; count]?;
        return Ok(Bytes::from_vec(whole));
    }
    let mut old = [0; 4096];
    let stored = read_page(backing, kept, ino, page as u64, &mut old)?;
    let bytes = overlay(alloc, &old[..stored as usize], from, to, byte)?;
    Ok(Bytes::from_vec(bytes))
}

// The bytes of a page once a byte stands from one place up to another, with zeros up to it where the page was shorter.
fn overlay(
    alloc: Global,
    old: &[u8],
    from: usize,
    to: usize,
    byte: u8,
) -> Result<Vec<u8>, AllocError>
    requires order { from ≤ to }
    requires page { to ≤ 4096 }
    ensures { IfOk result (λ new. new.items ≡ overlaid old.now from to byte) }
{
    let mut new = Vec::with_capacity(alloc, old.len().max(to))?;
    new.extend_from_slice(&old[..from.min(old.len())])?;
    push_copies(&mut new, 0, from.saturating_sub(old.len()))?;
    push_copies(&mut new, byte, to - from)?;
    if to < old.len() {
        new.extend_from_slice(&old[to..])?;
    }
    Ok(new)
}
