// Files are read: what is kept of them, and else what the backing has.

ghost use Rattle.std.specs.Prelude.{◌≡◌, ◌+◌, ◌^◌, ◌<◌, ◌≤◌, ◌%◌, ◌++◌, max, [], Some, is_some, IfOk, OnOk, OnErr, length};
ghost use Rattle.std.specs.List.{IsDistinct};
ghost use Rattle.std.specs.Map.{keys_of};
ghost use Rattle.std.specs.Option.{option_map_or};
ghost use Rattle.fs_model.specs.Backing.{Goes, HasCause, IsNotReadOnly, Reads};
ghost use Rattle.fs_model.specs.Files.{block_at, blocks_end, bytes_from, inode_at, piece_of, size_of};
ghost use Rattle.fs_model.specs.Proper.{IsProper};
ghost use Rattle.page_cache.specs.Pages.{bytes_at, is_page, with_clean, with_used};
ghost use Rattle.buffered_files.specs.Calls.{SureGoes};
ghost use Rattle.buffered_files.specs.Present.{IsKept, IsSameButClean, filled, present};

use crate::copies::push_copies;
use crate::kept::Kept;
use fs_model::{BLOCK_SIZE, Backing, Inode, StoreFault};
use std::alloc::{AllocError, Global};
use ubifs_base::{Bytes, Memory};

/// The inode of a number: the one that is kept, else the backing's.
pub fn inode<B: Backing>(
    backing: &mut B,
    kept: &Kept,
    ino: u32,
) -> Result<Option<Inode>, StoreFault>
    requires { IsKept (B.state backing.old).tree kept.now }
    ensures found { IfOk result (λ found. found ≡ inode_at (present (B.state backing.old).tree kept.now).tree ino) }
    ensures reads { Reads (B.state backing.old) (B.state backing.new) }
    ensures goes { Goes 0 (B.state backing.old) (B.state backing.new) }
    ensures cause { HasCause (B.state backing.old) (B.state backing.new) result }
    ensures mode { IsNotReadOnly result }
    ensures sure { SureGoes (B.outlook backing.old) (B.outlook backing.new) (B.state backing.old) (B.state backing.new) }
{
    match kept.inodes.get(ino) {
        Some(inode) => Ok(Some(copy_of(inode)?)),
        None => backing.inode(ino),
    }
}

// An inode, once more.
pub(crate) fn copy_of(inode: &Inode) -> Result<Inode, AllocError>
    ensures { IfOk result (λ copy. copy ≡ inode.now) }
{
    inode.clone()
}

/// The size of a file in bytes, of which this is the inode: the greater of the inode's size and the end of its last block.
pub fn size<B: Backing>(
    backing: &mut B,
    kept: &Kept,
    ino: u32,
    inode: &Inode,
) -> Result<u64, StoreFault>
    requires kept { IsKept (B.state backing.old).tree kept.now }
    requires present { inode_at (present (B.state backing.old).tree kept.now).tree ino ≡ Some inode.now }
    ensures size { IfOk result (λ size. size ≡ size_of (present (B.state backing.old).tree kept.now).tree ino inode.now) }
    ensures reads { Reads (B.state backing.old) (B.state backing.new) }
    ensures goes { Goes 0 (B.state backing.old) (B.state backing.new) }
    ensures cause { HasCause (B.state backing.old) (B.state backing.new) result }
    ensures mode { IsNotReadOnly result }
    ensures sure { SureGoes (B.outlook backing.old) (B.outlook backing.new) (B.state backing.old) (B.state backing.new) }
{
    match kept.inodes.get(ino) {
        Some(_) => Ok(inode.size),
        None => {
            let size = end_past(backing, ino, inode.size)?;
            Ok(size)
        }
    }
}

// Where the last block of an inode ends in the backing, or this size, whichever is greater. The block isn't read if it can't end
// past that size.
fn end_past<B: Backing>(backing: &mut B, ino: u32, size: u64) -> Result<u64, StoreFault>
    requires { IsProper (B.state backing.old).tree }
    ensures end { IfOk result (λ end. end ≡ max size (blocks_end (B.state backing.old).tree.blocks ino)) }
    ensures reads { Reads (B.state backing.old) (B.state backing.new) }
    ensures goes { Goes 0 (B.state backing.old) (B.state backing.new) }
    ensures cause { HasCause (B.state backing.old) (B.state backing.new) result }
    ensures mode { IsNotReadOnly result }
    ensures sure { SureGoes (B.outlook backing.old) (B.outlook backing.new) (B.state backing.old) (B.state backing.new) }
{
    match backing.last_block(ino)? {
        Some(block) => {
            let start = BLOCK_SIZE * block as u64;
            if start + BLOCK_SIZE <= size {
                return Ok(size);
            }
            let mut page = [0; 4096];
            let stored = backing.read_block(ino, block, &mut page)?;
            Ok(size.max(start + stored as u64))
        }
        None => Ok(size),
    }
}

/// Reads a block of a file into 4,096 bytes, with zeros past its end, and answers how many bytes it has: none where there
/// is no such block. The backing is asked only for a page that isn't kept.
pub(crate) fn read_page<B: Backing>(
    backing: &mut B,
    kept: &Kept,
    ino: u32,
    block: u64,
    out: &mut [u8],
) -> Result<u32, StoreFault>
    requires kept { IsKept (B.state backing.old).tree kept.now }
    requires out { length out.old ≡ 4096 }
    ensures stored { IfOk result (λ stored. stored ≡ length (block_at (present (B.state backing.old).tree kept.now).tree.blocks ino block)) }
    ensures few { IfOk result (λ stored. stored ≤ 4096) }
    ensures bytes { OnOk result (out.new ≡ filled (block_at (present (B.state backing.old).tree kept.now).tree.blocks ino block) 4096) }
    ensures reads { Reads (B.state backing.old) (B.state backing.new) }
    ensures goes { Goes 0 (B.state backing.old) (B.state backing.new) }
    ensures cause { HasCause (B.state backing.old) (B.state backing.new) result }
    ensures mode { IsNotReadOnly result }
    ensures sure { SureGoes (B.outlook backing.old) (B.outlook backing.new) (B.state backing.old) (B.state backing.new) }
{
    // Its proof knows from this that no page is dirty twice.
    let _dirty = kept.pages.dirty();
    if block > u32::MAX as u64 {
        fill_with(out, &[]);
        return Ok(0);
    }
    let block = block as u32;
    match kept.pages.peek(ino, block) {
        Some(page) => {
            let bytes = page.as_slice();
            fill_with(out, bytes);
            Ok(bytes.len() as u32)
        }
        None => backing.read_block(ino, block, out),
    }
}

// The bytes, and zeros behind them.
fn fill_with(out: &mut [u8], bytes: &[u8])
    requires { length bytes.now ≤ length out.old }
    ensures { out.new ≡ filled bytes.now (length out.old) }
{
    let (front, back) = out.split_at_mut(bytes.len());
    front.copy_from_slice(bytes);
    back.fill(0);
}

/// Reads so many bytes from a place of a file on, with zeros where no block has one. A page that the backing is asked for is
/// kept as a clean one where there is memory for it, so that it is there when it is read again.
pub fn bytes<B: Backing>(
    alloc: Global,
    backing: &mut B,
    kept: &mut Kept,
    ino: u32,
    offs: u64,
    n: u32,
) -> Result<Bytes, StoreFault>
    requires kept { IsKept (B.state backing.old).tree kept.old }
    requires range { offs + n < 2 ^ 64 }
    ensures bytes { IfOk result (λ bytes. bytes ≡ bytes_from (present (B.state backing.old).tree kept.old).tree.blocks ino offs n) }
    ensures kept { IsKept (B.state backing.new).tree kept.new }
    ensures same { IsSameButClean kept.old kept.new }
    ensures reads { Reads (B.state backing.old) (B.state backing.new) }
    ensures goes { Goes 0 (B.state backing.old) (B.state backing.new) }
    ensures cause { HasCause (B.state backing.old) (B.state backing.new) result }
    ensures mode { IsNotReadOnly result }
    ensures sure { SureGoes (B.outlook backing.old) (B.outlook backing.new) (B.state backing.old) (B.state backing.new) }
{
    let n = n as usize;
    let mut out = Vec::with_capacity(alloc, n)?;
    let mut place = offs;
    while out.len() < n {
        let count = (BLOCK_SIZE - place % BLOCK_SIZE).min((n - out.len()) as u64);
        push_bytes(alloc, backing, kept, ino, place, count as usize, &mut out)?;
        place += count;
    }
    Ok(Bytes::from_vec(out))
}

// Appends so many bytes of one page, from a place of the file on.
fn push_bytes<B: Backing>(
    alloc: Global,
    backing: &mut B,
    kept: &mut Kept,
    ino: u32,
    place: u64,
    count: usize,
    out: &mut Vec<u8>,
) -> Result<(), StoreFault>
    requires kept { IsKept (B.state backing.old).tree kept.old }
    requires page { place % 4096 + count ≤ 4096 }
    ensures bytes { OnOk result (out.new.items ≡ out.old.items ++ bytes_from (present (B.state backing.old).tree kept.old).tree.blocks ino place count) }
    ensures kept { IsKept (B.state backing.new).tree kept.new }
    ensures same { IsSameButClean kept.old kept.new }
    ensures reads { Reads (B.state backing.old) (B.state backing.new) }
    ensures goes { Goes 0 (B.state backing.old) (B.state backing.new) }
    ensures cause { HasCause (B.state backing.old) (B.state backing.new) result }
    ensures mode { IsNotReadOnly result }
    ensures sure { SureGoes (B.outlook backing.old) (B.outlook backing.new) (B.state backing.old) (B.state backing.new) }
{
    let from = (place % BLOCK_SIZE) as usize;
    let block = place / BLOCK_SIZE;
    if block > u32::MAX as u64 {
        push_piece(&[], from, count, out)?;
        return Ok(());
    }
    let block = block as u32;
    if push_kept(kept, ino, block, from, count, out)? {
        return Ok(());
    }
    push_stored(alloc, backing, kept, ino, block, from, count, out)
}

// Appends so many bytes of a page that is kept, from a place of the page on, and answers whether it is kept.
fn push_kept(
    kept: &mut Kept,
    ino: u32,
    block: u32,
    from: usize,
    count: usize,
    out: &mut Vec<u8>,
) -> Result<bool, AllocError>
    requires page { from + count ≤ 4096 }
    ensures once { IsDistinct is_page (keys_of kept.old.pages.dirty) }
    ensures found { IfOk result (λ found. found ≡ is_some (bytes_at kept.old.pages ino block)) }
    ensures bytes { OnOk result (out.new.items ≡ out.old.items ++ option_map_or (λ bytes. piece_of bytes from count) (bytes_at kept.old.pages ino block) []) }
    ensures used { kept.new ≡ record kept.old { pages = with_used kept.old.pages ino block } }
{
    // A caller's proof knows from this that no page is dirty twice.
    let _dirty = kept.pages.dirty();
    match kept.pages.get(ino, block) {
        Some(bytes) => {
            push_piece(bytes.as_slice(), from, count, out)?;
            Ok(true)
        }
        None => Ok(false),
    }
}

// Appends so many bytes of a block of the backing, from a place of the block on, and keeps the block.
fn push_stored<B: Backing>(
    alloc: Global,
    backing: &mut B,
    kept: &mut Kept,
    ino: u32,
    block: u32,
    from: usize,
    count: usize,
    out: &mut Vec<u8>,
) -> Result<(), StoreFault>
    requires kept { IsKept (B.state backing.old).tree kept.old }
    requires page { from + count ≤ 4096 }
    ensures bytes { OnOk result (out.new.items ≡ out.old.items ++ piece_of (block_at (B.state backing.old).tree.blocks ino block) from count) }
    ensures kept { IsKept (B.state backing.new).tree kept.new }
    ensures same { IsSameButClean kept.old kept.new }
    ensures reads { Reads (B.state backing.old) (B.state backing.new) }
    ensures goes { Goes 0 (B.state backing.old) (B.state backing.new) }
    ensures cause { HasCause (B.state backing.old) (B.state backing.new) result }
    ensures mode { IsNotReadOnly result }
    ensures sure { SureGoes (B.outlook backing.old) (B.outlook backing.new) (B.state backing.old) (B.state backing.new) }
{
    let mut page = [0; 4096];
    let stored = backing.read_block(ino, block, &mut page)? as usize;
    push_piece(&page[..stored], from, count, out)?;
    if stored > 0 {
        let _ = keep_page(alloc, kept, ino, block, &page[..stored]);
    }
    Ok(())
}

// Keeps a page that was read. Where there is no memory for it all is as it was.
fn keep_page(
    alloc: Global,
    kept: &mut Kept,
    ino: u32,
    block: u32,
    bytes: &[u8],
) -> Result<(), Memory>
    ensures ok { OnOk result (kept.new ≡ record kept.old { pages = with_clean kept.old.pages ino block bytes.now }) }
    ensures err { OnErr result (kept.new ≡ kept.old) }
{
    let page = Bytes::from_slice(alloc, bytes)?;
    kept.pages.put_clean(ino, block, page)
}

// Appends so many of these bytes, from a place on, with zeros past their end.
fn push_piece(bytes: &[u8], from: usize, count: usize, out: &mut Vec<u8>) -> Result<(), AllocError>
    requires page { from + count ≤ 4096 }
    ensures { OnOk result (out.new.items ≡ out.old.items ++ piece_of bytes.now from count) }
{
    let start = from.min(bytes.len());
    let end = (from + count).min(bytes.len());
    out.extend_from_slice(&bytes[start..end])?;
    push_copies(out, 0, count - (end - start))?;
    Ok(())
}
