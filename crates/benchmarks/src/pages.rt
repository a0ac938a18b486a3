// Pages in memory.

use page_cache::Cache;
use std::alloc::Global;
use std::time::Instant;
use ubifs_base::{Bytes, Memory};

/// How many pages are put in all.
const MANY: u32 = 1_000_000;

/// How many without a word.
const FEW: u32 = 1000;

/// How many inodes are cut.
const CUTS: u32 = 100;

/// How many pages a thousand calls took out.
pub(crate) fn few(alloc: Global) -> Result<u64, Memory> {
    taken(alloc, b'o', FEW)
}

/// With `oldest`, `files` or `cuts` and a number it keeps so many dirty pages at once, a million in all, and prints how many were taken out and the
/// nanoseconds that all of it took. They are taken out oldest first, or those of one of two inodes first, which were written in turns; or the number
/// stays dirty while a hundred other inodes are cut.
pub(crate) fn timed(rt: &HostRuntime, kind: &str, number: &str) -> anyhow::Result<()> {
    let pages = number.parse::<u32>()?;
    let start = Instant::now(rt)?;
    let sum = in_cache(rt.alloc(), kind.as_bytes().first().copied(), pages)?;
    println!(rt; "{sum} {}", start.elapsed(rt)?.as_nanos())?;
    Ok(())
}

// How many of a million pages were taken out, or how many stay dirty.
fn in_cache(alloc: Global, kind: Option<u8>, pages: u32) -> Result<u64, Memory> {
    if kind == Some(b'c') {
        return cut(alloc, pages);
    }
    let mut sum = 0u64;
    for _ in 0..MANY.checked_div(pages).unwrap_or(0) {
        sum = sum.wrapping_add(taken(alloc, kind.unwrap_or(b'o'), pages)?);
    }
    Ok(sum)
}

// Puts so many pages and takes them out, and answers how many there were.
fn taken(alloc: Global, kind: u8, pages: u32) -> Result<u64, Memory> {
    let mut cache = Cache::new(alloc, 64)?;
    if kind == b'f' {
        put(alloc, &mut cache, pages, 2)?;
        let first = clean_file(alloc, &mut cache, 1)?;
        return Ok(first.wrapping_add(clean_file(alloc, &mut cache, 0)?));
    }
    put(alloc, &mut cache, pages, 1)?;
    Ok(clean_oldest(&mut cache, pages))
}

// Puts so many pages of so many inodes in turns.
fn put(alloc: Global, cache: &mut Cache, pages: u32, inodes: u32) -> Result<(), Memory> {
    for block in 0..pages {
        let bytes = Bytes::from_slice(alloc, &[1; 16])?;
        let ino = block.checked_rem(inodes).unwrap_or(0);
        cache.put_dirty(ino, block, bytes)?;
    }
    Ok(())
}

// Marks pages clean, the one that became dirty first in front, and answers how many.
fn clean_oldest(cache: &mut Cache, most: u32) -> u64 {
    let mut count = 0u64;
    for _ in 0..most {
        let Some(ticket) = cache.oldest() else {
            return count;
        };
        if cache.mark_clean(&ticket) {
            count = count.wrapping_add(1);
        }
    }
    count
}

// Marks the pages of an inode clean, as a sync of the file does, and answers how many.
fn clean_file(alloc: Global, cache: &mut Cache, ino: u32) -> Result<u64, Memory> {
    let mut count = 0u64;
    for ticket in cache.tickets_of(alloc, ino)? {
        if cache.mark_clean(&ticket) {
            count = count.wrapping_add(1);
        }
    }
    Ok(count)
}

// Cuts inodes that have no page, while so many pages of another are dirty.
fn cut(alloc: Global, pages: u32) -> Result<u64, Memory> {
    let mut cache = Cache::new(alloc, 64)?;
    put(alloc, &mut cache, pages, 1)?;
    for ino in 1..=CUTS {
        cache.cut(ino, 0);
    }
    Ok(cache.dirty())
}
