// Blocks of files.

ghost use Rattle.std.specs.Prelude.{◌≡◌, ◌+◌, ◌-◌, ◌*◌, ◌^◌, ◌/◌, ◌<◌, ◌≤◌, ◌++◌, ℕ, List, [], length, take, drop, ◌∷◌, IfOk, IfSome, IfNone, OnOk, OnErr, min, max, sum_by, unwrap_or};
ghost use Rattle.std.specs.Option.{option_map};
ghost use Rattle.std.specs.Map.{lookup, values_of};
ghost use Rattle.std.specs.BTreeMap.{is_at};
ghost use Rattle.fs_model.specs.Files.{block_at, with_block, bytes_from, blocks_written, page_written, overlaid, piece_of, pair_cmp, blocks_end};

use std::alloc::{AllocError, Global};
use std::collections::BTreeMap;
use std::marker::Model;
use ubifs_base::{Bytes, Memory};

/// Bytes in a block (`UBIFS_BLOCK_SIZE` of ubifs-media.h).
pub const BLOCK_SIZE: u64 = 4096;

/// Blocks by inode and number, which contracts see as the list of them in order of inode and number.
#[derive(Drop)]
pub struct Blocks {
    map: BTreeMap<(u32, u32), Bytes>,
}

impl Model for Blocks {
    ghost Value = { List ((ℕ × ℕ) × List ℕ) };

    ghost view = { λ b. b.map.entries };
}

impl Blocks {
    /// No blocks.
    pub fn new(alloc: Global) -> Blocks
        ensures { result ≡ [] }
    {
        Blocks {
            map: BTreeMap::new(alloc),
        }
    }

    /// The stored bytes of a block; a missing one has none.
    pub fn get(&self, ino: u32, block: u32) -> &[u8]
        ensures { result.now ≡ block_at self.now ino block }
    {
        stored(&self.map, ino, block)
    }

    /// Sets a block, and answers the bytes that it had. Where there is no memory all is as it was. `total` says how a
    /// sum over the blocks changes.
    pub fn insert(&mut self, ino: u32, block: u32, bytes: Bytes) -> Result<Option<Bytes>, Memory>
        ensures old { IfOk result (λ old. old ≡ lookup (is_at (pair_cmp (ino, block))) self.old) }
        ensures ok { OnOk result (self.new ≡ with_block self.old ino block bytes) }
        ensures err { OnErr result (self.new ≡ self.old) }
        ensures total { (f : List ℕ → ℕ) → IfOk result (λ old. sum_by f (values_of self.new) + unwrap_or (option_map f old) 0 ≡ sum_by f (values_of self.old) + f bytes) }
    {
        put(&mut self.map, ino, block, bytes)
    }

    /// Takes the first block out.
    pub fn pop_first(&mut self) -> Option<((u32, u32), Bytes)>
        ensures first { IfSome result (λ entry. self.old ≡ entry ∷ self.new) }
        ensures none { IfNone result (self.old ≡ []) }
    {
        pop(&mut self.map)
    }

    /// Reads `n` bytes from a place of a file on, with zeros where nothing is stored.
    pub fn read(&self, alloc: Global, ino: u32, offs: u64, n: u32) -> Result<Vec<u8>, AllocError>
        requires { offs + n ≤ 2 ^ 41 }
        ensures { IfOk result (λ bytes. bytes.items ≡ bytes_from self.now ino offs n) }
    {
        read_pages(alloc, &self.map, ino, offs, n as usize)
    }

    /// Writes `n` copies of a byte from a place of a file on. Where there is no memory some pages may be written and
    /// others not.
    pub fn write(
        &mut self,
        alloc: Global,
        ino: u32,
        offs: u64,
        n: u32,
        byte: u8,
    ) -> Result<(), Memory>
        requires some { 0 < n }
        requires range { offs + n ≤ 2 ^ 41 }
        ensures ok { OnOk result (self.new ≡ blocks_written self.old ino offs n byte) }
        ensures end { OnOk result (blocks_end self.new ino ≤ max (blocks_end self.old ino) (offs + n)) }
    {
        let first = (offs / BLOCK_SIZE) as u32;
        let last = ((offs + n as u64 - 1) / BLOCK_SIZE) as u32;
        for page in first..last + 1 {
            let start = BLOCK_SIZE * page as u64;
            let from = offs.saturating_sub(start) as usize;
            let to = (offs + n as u64 - start).min(BLOCK_SIZE) as usize;
            let bytes = overlay(alloc, self.get(ino, page), from, to, byte)?;
            self.insert(ino, page, Bytes::from_vec(bytes))?;
        }
        Ok(())
    }
}

fn put(
    map: &mut BTreeMap<(u32, u32), Bytes>,
    ino: u32,
    block: u32,
    bytes: Bytes,
) -> Result<Option<Bytes>, Memory>
    ensures old { IfOk result (λ old. old ≡ lookup (is_at (pair_cmp (ino, block))) map.old.entries) }
    ensures ok { OnOk result (map.new.entries ≡ with_block map.old.entries ino block bytes) }
    ensures err { OnErr result (map.new.entries ≡ map.old.entries) }
    ensures total { (f : List ℕ → ℕ) → IfOk result (λ old. sum_by f (values_of map.new.entries) + unwrap_or (option_map f old) 0 ≡ sum_by f (values_of map.old.entries) + f bytes) }
{
    match map.insert((ino, block), bytes) {
        Ok(old) => Ok(old),
        Err(_) => Err(Memory),
    }
}

fn pop(map: &mut BTreeMap<(u32, u32), Bytes>) -> Option<((u32, u32), Bytes)>
    ensures first { IfSome result (λ entry. map.old.entries ≡ entry ∷ map.new.entries) }
    ensures none { IfNone result (map.old.entries ≡ []) }
{
    map.pop_first()
}

fn stored(map: &BTreeMap<(u32, u32), Bytes>, ino: u32, block: u32) -> &[u8]
    ensures { result.now ≡ block_at map.now.entries ino block }
{
    match map.get(&(ino, block)) {
        Some(bytes) => bytes.as_slice(),
        None => &[],
    }
}

// Page by page, what is read of a file.
fn read_pages(
    alloc: Global,
    map: &BTreeMap<(u32, u32), Bytes>,
    ino: u32,
    offs: u64,
    n: usize,
) -> Result<Vec<u8>, AllocError>
    requires { offs + n ≤ 2 ^ 41 }
    ensures { IfOk result (λ bytes. bytes.items ≡ bytes_from map.now.entries ino offs n) }
{
    let mut out = Vec::with_capacity(alloc, n)?;
    let mut place = offs;
    while out.len() < n {
        let from = place % BLOCK_SIZE;
        let count = (BLOCK_SIZE - from).min((n - out.len()) as u64);
        let block = stored(map, ino, (place / BLOCK_SIZE) as u32);
        push_piece(&mut out, block, from as usize, count as usize)?;
        place += count;
    }
    Ok(out)
}

// Appends the bytes of a block from a place on, with zeros past its end.
fn push_piece(out: &mut Vec<u8>, block: &[u8], from: usize, count: usize) -> Result<(), AllocError>
    requires { from + count ≤ 4096 }
    ensures { OnOk result (out.new.items ≡ out.old.items ++ piece_of block.now from count) }
{
    let part = part_of(block, from, count);
    out.extend_from_slice(part)?;
    let len = out.len();
    out.resize(len + (count - part.len()), 0)
}

// At most so many of the bytes from a place on.
fn part_of(block: &[u8], from: usize, count: usize) -> &[u8]
    ensures part { result.now ≡ take count (drop from block.now) }
    ensures len { length result.now ≤ count }
{
    if from >= block.len() {
        return &[];
    }
    let rest = block.split_at(from).1;
    if count >= rest.len() {
        return rest;
    }
    rest.split_at(count).0
}

// The bytes of a page once a byte stands from one place up to another, with zeros up to it where the page was shorter.
fn overlay(
    alloc: Global,
    old: &[u8],
    from: usize,
    to: usize,
    byte: u8,
) -> Result<Vec<u8>, AllocError>
    requires order { from ≤ to }
    requires page { to ≤ 4096 }
    ensures { IfOk result (λ new. new.items ≡ overlaid old.now from to byte) }
{
    let mut new = Vec::with_capacity(alloc, old.len().max(to))?;
    new.extend_from_slice(&old[..from.min(old.len())])?;
    new.resize(from, 0)?;
    new.resize(to, byte)?;
    if to < old.len() {
        new.extend_from_slice(&old[to..])?;
    }
    Ok(new)
}
