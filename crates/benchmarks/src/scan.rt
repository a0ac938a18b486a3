// The scan of LEBs full of nodes.

ghost use Rattle.std.specs.Prelude.{◌≤◌, length};

use crate::checksum::size_of;
use leb_scan::scan;
use media_leaf::{DataNode, TrunNode};
use std::alloc::{AllocError, Global};
use std::time::{Duration, Instant};
use ubifs_base::{Bytes, crc32};

/// The most bytes of a LEB.
const LEB: usize = 131_072;

/// How often each is done.
const TURNS: u32 = 25;

/// The bytes of the node of a block of 4096 bytes.
const BLOCK: usize = 4144;

/// The bytes of a truncation node, the shortest node of the journal.
const TRUNCATION: usize = 56;

/// How many nodes are found in three blocks and in three truncations.
pub(crate) fn few(alloc: Global) -> Result<usize, AllocError> {
    let blocks = blocks(alloc, 3)?;
    let truncations = truncations(alloc, 3)?;
    let found = nodes_of(alloc, blocks.as_slice(), LEB);
    Ok(found.wrapping_add(nodes_of(alloc, truncations.as_slice(), LEB)))
}

/// Prints a line for so many MiB of blocks of 4096 bytes, and one for so many MiB of truncations, the shortest nodes of the journal: how many nodes
/// were found, the nanoseconds of the best of 25 scans, those of the best of as many turns of the checksum over the bytes of the same nodes, in
/// turns with the scans, and a sum of those checksums.
pub(crate) fn timed(rt: &HostRuntime, size: &str) -> anyhow::Result<()> {
    let size = size_of(size);
    let leb = blocks(rt.alloc(), size / BLOCK)?;
    time(rt, leb.as_slice(), BLOCK)?;
    let leb = truncations(rt.alloc(), size / TRUNCATION)?;
    time(rt, leb.as_slice(), TRUNCATION)
}

// Prints the times of LEBs whose nodes have so many bytes each.
fn time(rt: &HostRuntime, image: &[u8], len: usize) -> anyhow::Result<()>
    requires { 8 ≤ len }
{
    let leb_len = LEB / len * len;
    let mut nodes = 0;
    let mut scanned = Duration::MAX;
    let mut sum = 0u32;
    let mut summed = Duration::MAX;
    for _ in 0..TURNS {
        let start = Instant::now(rt)?;
        nodes = nodes_of(rt.alloc(), image, leb_len);
        scanned = scanned.min(start.elapsed(rt)?);
        let start = Instant::now(rt)?;
        sum = sum.wrapping_add(checksums(image, len));
        summed = summed.min(start.elapsed(rt)?);
    }
    println!(rt;
        "{nodes} {} {} {sum:08x}",
        scanned.as_nanos(),
        summed.as_nanos()
    )?;
    Ok(())
}

// How many nodes the scans of an image's LEBs find.
fn nodes_of(alloc: Global, image: &[u8], leb_len: usize) -> usize {
    let mut nodes = 0usize;
    let mut rest = image;
    while !rest.is_empty() {
        let (leb, others) = rest.split_at(leb_len.clamp(1, LEB).min(rest.len()));
        nodes = nodes.wrapping_add(nodes_in(alloc, leb));
        rest = others;
    }
    nodes
}

// How many nodes a scan finds; none where memory is out.
fn nodes_in(alloc: Global, leb: &[u8]) -> usize
    requires { length leb.now ≤ 131072 }
{
    match scan(alloc, leb, 0) {
        Ok(text) => text.nodes.len(),
        Err(_) => 0,
    }
}

// The checksums of nodes of so many bytes, which each cover a node's bytes from the ninth on.
fn checksums(leb: &[u8], len: usize) -> u32
    requires { 8 ≤ len }
{
    let mut sum = 0u32;
    let mut rest = leb;
    while rest.len() >= len {
        let (node, others) = rest.split_at(len);
        sum = sum.wrapping_add(crc32(node.split_at(8).1));
        rest = others;
    }
    sum
}

// So many nodes of one block.
fn blocks(alloc: Global, count: usize) -> Result<Vec<u8>, AllocError> {
    let node = DataNode {
        ino: 65,
        block: 3,
        bytes: Bytes::from_slice(alloc, &[7; 4096])?,
    };
    let mut out = [0; BLOCK];
    node.encode(1, 0, &mut out);
    repeated(alloc, &out, count)
}

// So many truncation nodes.
fn truncations(alloc: Global, count: usize) -> Result<Vec<u8>, AllocError> {
    let node = TrunNode {
        ino: 65,
        old_size: 10_000,
        new_size: 4_097,
    };
    let mut out = [0; TRUNCATION];
    node.encode(1, 0, &mut out);
    repeated(alloc, &out, count)
}

fn repeated(alloc: Global, node: &[u8], count: usize) -> Result<Vec<u8>, AllocError> {
    let mut leb = Vec::new(alloc);
    for _ in 0..count {
        leb.extend_from_slice(node)?;
    }
    Ok(leb)
}
