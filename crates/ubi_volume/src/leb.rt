// One logical erase block in memory.

ghost use Rattle.std.specs.Prelude.{◌≡◌, ◌⊎◌, ◌+◌, ◌-◌, ◌<◌, ◌≤◌, ◌++◌, ℕ, List, [], length, drop, replicate, All, slice_get, Some, IfOk, vec_capacity};
ghost use Rattle.std.specs.Option.{unwrap_or};
ghost use Rattle.ubifs_base.specs.NodeLaws.{IsBytes};
ghost use Rattle.ubi_volume.specs.Lebs.{bytes_in, written_in, pending_in, view_of, IsLeft, IsLeb, IsBlankLeb, IsReplaced};
ghost use Rattle.ubi_volume.specs.Effects.{final_leb, unmapped_leb};
ghost use Rattle.ubi_volume.specs.Volume.{put, filled, image_of, Torn};

use std::alloc::Global;
use std::mem::swap;
use ubifs_base::Memory;

// The bytes, how many of them aren't open for writing, and what was there before an unmapping that can be undone: until one
// can, only the room for that counts.
#[derive(Drop)]
pub(crate) struct Leb {
    pub(crate) content: Vec<u8>,
    pub(crate) written: u32,
    pub(crate) before: Vec<u8>,
    pub(crate) undo: bool,
}

// An unwritten LEB.
pub(crate) fn blank_leb(alloc: Global, size: u32) -> Result<Leb, Memory>
    ensures { IfOk result (IsBlankLeb size) }
{
    Ok(Leb {
        content: vec![in alloc; 0xff; size as usize]?,
        written: 0,
        before: Vec::with_capacity(alloc, size as usize)?,
        undo: false,
    })
}

// So many of them.
pub(crate) fn blank_lebs(alloc: Global, size: u32, count: u32) -> Result<Vec<Leb>, Memory>
    ensures blank { IfOk result (λ lebs. All (IsBlankLeb size) lebs.items) }
    ensures len { IfOk result (λ lebs. length lebs.items ≡ count) }
{
    let mut lebs = Vec::with_capacity(alloc, count as usize)?;
    for i in 0..count {
        lebs.push(blank_leb(alloc, size)?)?;
    }
    Ok(lebs)
}

// The bytes of all, one after another.
pub(crate) fn all_bytes(alloc: Global, size: usize, lebs: &[Leb]) -> Result<Vec<u8>, Memory>
    ensures { IfOk result (λ bytes. bytes.items ≡ image_of (λ k. bytes_in (slice_get lebs.now k)) (length lebs.now)) }
{
    let mut bytes = Vec::with_capacity(alloc, size)?;
    for leb in lebs {
        bytes.extend_from_slice(&leb.content)?;
    }
    Ok(bytes)
}

// The bytes, and erased bytes behind them.
pub(crate) fn fill_with(buffer: &mut [u8], bytes: &[u8])
    requires { length bytes.now ≤ length buffer.old }
    ensures filled { buffer.new ≡ filled (length buffer.old) bytes.now }
    ensures bytes { IsBytes buffer.new }
{
    let (front, back) = buffer.split_at_mut(bytes.len());
    front.copy_from_slice(bytes);
    back.fill(0xff);
}

// The bytes at an offset.
fn put_at(buffer: &mut [u8], offs: usize, bytes: &[u8])
    requires { offs + length bytes.now ≤ length buffer.old }
    ensures put { buffer.new ≡ put offs bytes.now buffer.old }
    ensures torn { Torn offs (length bytes.now) buffer.old buffer.new }
    ensures bytes { IsBytes buffer.new }
    ensures blank { (written size : ℕ) → written ≤ offs → drop written buffer.old ≡ replicate (size - written) 255
        → drop (offs + length bytes.now) buffer.new ≡ replicate (size - (offs + length bytes.now)) 255 }
{
    copy_at(buffer, offs, bytes);
}

pub(crate) fn copy_at(buffer: &mut [u8], offs: usize, bytes: &[u8])
    requires { offs + length bytes.now ≤ length buffer.old }
    ensures { buffer.new ≡ put offs bytes.now buffer.old }
{
    buffer[offs..offs + bytes.len()].copy_from_slice(bytes);
}

// Gives a LEB these bytes, and erased bytes behind them.
pub(crate) fn change_leb(lebs: &mut [Leb], size: u32, lnum: usize, bytes: &[u8])
    requires lnum { lnum < length lebs.old }
    requires sizes { All (IsLeb size) lebs.old }
    requires range { length bytes.now ≤ size }
    ensures changed { IsReplaced size lebs.old lebs.new lnum (final_leb (filled size bytes.now) (length bytes.now)) }
    ensures left { (c : List ℕ) → IsLeft (slice_get lebs.new lnum) c → c ≡ bytes_in (slice_get lebs.new lnum) }
{
    let leb = &mut lebs[lnum];
    fill_with(&mut leb.content, bytes);
    leb.written = bytes.len() as u32;
    leb.undo = false;
}

// Erases a LEB, and keeps what was there for a cut.
pub(crate) fn unmap_leb(lebs: &mut [Leb], size: u32, lnum: usize)
    requires lnum { lnum < length lebs.old }
    requires sizes { All (IsLeb size) lebs.old }
    ensures changed { IsReplaced size lebs.old lebs.new lnum (unmapped_leb size (view_of (slice_get lebs.old lnum))) }
    ensures left { (c : List ℕ) → IsLeft (slice_get lebs.new lnum) c → IsLeft (slice_get lebs.old lnum) c ⊎ (c ≡ filled size []) }
{
    erase_leb(&mut lebs[lnum], size);
}

// The same of one.
fn erase_leb(leb: &mut Leb, size: u32)
    requires { IsLeb size leb.old }
    ensures leb { IsLeb size leb.new }
    ensures bytes { leb.new.content.items ≡ filled size [] }
    ensures written { leb.new.written ≡ 0 }
    ensures pending { pending_in (Some leb.new) ≡ Some (unwrap_or (pending_in (Some leb.old)) leb.old.content.items) }
    ensures left { (c : List ℕ) → IsLeft (Some leb.new) c → IsLeft (Some leb.old) c ⊎ (c ≡ filled size []) }
{
    if !leb.undo {
        keep(&mut leb.content, &mut leb.before);
    }
    fill_with(&mut leb.content, &[]);
    leb.written = 0;
    leb.undo = true;
}

// Keeps bytes for a cut. They change places with those that were kept before, if there were any, and else are copied into room
// that is there.
fn keep(content: &mut Vec<u8>, before: &mut Vec<u8>)
    requires { length content.old.items ≤ vec_capacity before.old }
    ensures kept { before.new.items ≡ content.old.items }
    ensures len { length content.new.items ≡ length content.old.items }
    ensures room { length content.old.items ≤ vec_capacity before.new }
{
    if before.len() == content.len() {
        swap(content, before);
        return;
    }
    before.clear();
    let _ = before.extend_from_slice(content.as_slice());
}

// Makes the unmapping of a LEB final.
pub(crate) fn map_leb(lebs: &mut [Leb], size: u32, lnum: usize)
    requires lnum { lnum < length lebs.old }
    requires sizes { All (IsLeb size) lebs.old }
    ensures mapped { IsReplaced size lebs.old lebs.new lnum (final_leb (bytes_in (slice_get lebs.old lnum)) (written_in (slice_get lebs.old lnum))) }
    ensures left { (c : List ℕ) → IsLeft (slice_get lebs.new lnum) c → c ≡ bytes_in (slice_get lebs.new lnum) }
{
    lebs[lnum].undo = false;
}

// Puts bytes into a LEB.
pub(crate) fn write_leb(lebs: &mut [Leb], size: u32, lnum: usize, offs: u32, bytes: &[u8])
    requires lnum { lnum < length lebs.old }
    requires sizes { All (IsLeb size) lebs.old }
    requires range { offs + length bytes.now ≤ size }
    requires open { written_in (slice_get lebs.old lnum) ≤ offs }
    ensures torn { Torn offs (length bytes.now) (bytes_in (slice_get lebs.old lnum)) (bytes_in (slice_get lebs.new lnum)) }
    ensures left { (c : List ℕ) → IsLeft (slice_get lebs.new lnum) c → c ≡ bytes_in (slice_get lebs.new lnum) }
    ensures put { IsReplaced size lebs.old lebs.new lnum (final_leb (put offs bytes.now (bytes_in (slice_get lebs.old lnum))) (offs + length bytes.now)) }
{
    let leb = &mut lebs[lnum];
    put_at(&mut leb.content, offs as usize, bytes);
    leb.written = offs + bytes.len() as u32;
    leb.undo = false;
}
