// The checksum of nodes.

use std::alloc::{AllocError, Global};
use std::time::{Duration, Instant};
use ubifs_base::crc32;

/// The bytes of a MiB.
const MIB: usize = 1 << 20;

/// The most MiB.
const MOST: usize = 1024;

/// How often the checksum is computed.
const TURNS: u32 = 5;

/// The checksum of `123456789`.
pub(crate) fn few() -> u32 {
    crc32(b"123456789")
}

/// Prints the checksum of so many MiB of the bytes 0 to 250 over and over, and the nanoseconds of the best of five turns.
pub(crate) fn timed(rt: &HostRuntime, size: &str) -> anyhow::Result<()> {
    let bytes = pattern(rt.alloc(), size_of(size))?;
    let mut best = Duration::MAX;
    let mut sum = 0;
    for _ in 0..TURNS {
        let start = Instant::now(rt)?;
        sum = crc32(bytes.as_slice());
        best = best.min(start.elapsed(rt)?);
    }
    println!(rt; "{sum:08x} {}", best.as_nanos())?;
    Ok(())
}

/// The bytes of so many MiB.
pub(crate) fn size_of(word: &str) -> usize {
    match word.parse::<usize>() {
        Ok(n) => n.min(MOST) * MIB,
        Err(_) => MIB,
    }
}

// The bytes 0 to 250, over and over.
fn pattern(alloc: Global, size: usize) -> Result<Vec<u8>, AllocError> {
    let mut bytes = Vec::with_capacity(alloc, size)?;
    for i in 0..size {
        bytes.push((i % 251) as u8)?;
    }
    Ok(bytes)
}
