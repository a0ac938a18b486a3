// An index beside a map.

use crate::leaves::{FANOUT, FEW, MANY, leaf, mixed};
use index_tree::Index;
use std::alloc::Global;
use std::collections::BTreeMap;
use std::time::Instant;
use ubifs_base::{Key, Memory};

/// The sum of the places that a thousand finds answer.
pub(crate) fn few(alloc: Global) -> Result<u64, Memory> {
    in_index(alloc, FEW)
}

/// Puts a million leaves, with keys in random order, into a `BTreeMap` for the word `map`, and else into an `Index` of fanout 8, finds each again, and
/// prints the sum of their places and the nanoseconds that all of it took.
pub(crate) fn timed(rt: &HostRuntime, kind: &str) -> anyhow::Result<()> {
    let start = Instant::now(rt)?;
    let sum = if kind == "map" {
        in_map(rt.alloc(), MANY)?
    } else {
        in_index(rt.alloc(), MANY)?
    };
    println!(rt; "{sum} {}", start.elapsed(rt)?.as_nanos())?;
    Ok(())
}

fn in_index(alloc: Global, n: u32) -> Result<u64, Memory> {
    let index = index_of(alloc, n)?;
    Ok(sum_of(&index, n))
}

/// An index of the first `n` leaves.
pub(crate) fn index_of(alloc: Global, n: u32) -> Result<Index, Memory> {
    let mut index = Index::new(FANOUT)?;
    for i in 0..n {
        index.insert(alloc, leaf(i))?;
    }
    Ok(index)
}

/// The sum of the places that an index finds for the first `n` keys.
pub(crate) fn sum_of(index: &Index, n: u32) -> u64 {
    let mut sum = 0u64;
    for i in 0..n {
        if let Some(leaf) = index.find(&Key::Ino { ino: mixed(i) }, 0) {
            sum = sum.wrapping_add(u64::from(leaf.offs));
        }
    }
    sum
}

// The sum of the places that a map finds for the same keys.
fn in_map(alloc: Global, n: u32) -> Result<u64, Memory> {
    let mut map = BTreeMap::new(alloc);
    for i in 0..n {
        map.insert((mixed(i), 0u32), leaf(i))?;
    }
    let mut sum = 0u64;
    for i in 0..n {
        if let Some(leaf) = map.get(&(mixed(i), 0)) {
            sum = sum.wrapping_add(u64::from(leaf.offs));
        }
    }
    Ok(sum)
}
