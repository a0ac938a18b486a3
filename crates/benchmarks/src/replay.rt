// A replay, the call that a mount makes.

ghost use Rattle.std.specs.Prelude.{◌≡◌, ◌≤◌, IfOk};
ghost use Rattle.std.specs.List.{AllByRecursion};
ghost use Rattle.journal_scan.specs.Journal.{IsReadable};

use index_tree::{Index, Leaf};
use journal_scan::{BudText, JournalNode, NodeContent};
use log_replay::{CommittedLeaf, replay};
use media_leaf::{DataNode, InoNode};
use std::alloc::Global;
use std::time::{Duration, Instant};
use ubifs_base::{Bytes, JournalHead, Key, Memory, crc32};

/// How many pages there are.
const MANY: u32 = 1000;

/// How many without a word.
const FEW: u32 = 3;

/// How often each is done.
const TURNS: u32 = 25;

/// The bytes of the node of a page.
const BLOCK: usize = 4144;

/// The bytes of an inode's node.
const INODE: usize = 160;

/// The most bytes of a text.
const MOST: usize = 8_388_608;

/// The sequence number of all nodes that are committed.
const OLD: u64 = 1;

/// The fanout that `mkfs.ubifs` takes.
const FANOUT: u32 = 8;

// An index, and its leaves with what stands at their places.
#[derive(Drop)]
struct Standing {
    index: Index,
    leaves: Vec<CommittedLeaf>,
}

/// The weight of the index after a replay of three pages and their inodes.
pub(crate) fn few(alloc: Global) -> Result<u64, Memory> {
    let buds = buds_of(alloc, FEW, FEW)?;
    let standing = standing_of(alloc, FEW)?;
    replayed(alloc, &buds, standing)
}

/// Replays a thousand pages and their inodes 25 times, and takes the checksum of the same bytes in turns with it: with `first` over an empty index, and
/// with any other word over an index that has them already, with the collector's copies of their old inodes, of which every second has no node of
/// its own and so is found at its copy. Then it prints the weight of the index, the nanoseconds of the best replay and those of the best checksum,
/// and a sum of the checksums.
pub(crate) fn timed(rt: &HostRuntime, kind: &str) -> anyhow::Result<()> {
    let old = if kind == "first" { 0 } else { MANY };
    let buds = buds_of(rt.alloc(), MANY, old)?;
    let mut weight = 0;
    let mut ours = Duration::MAX;
    let mut sum = 0u32;
    let mut summed = Duration::MAX;
    for _ in 0..TURNS {
        let standing = standing_of(rt.alloc(), old)?;
        let start = Instant::now(rt)?;
        weight = replayed(rt.alloc(), &buds, standing)?;
        ours = ours.min(start.elapsed(rt)?);
        let start = Instant::now(rt)?;
        sum = sum.wrapping_add(checksums(&buds));
        summed = summed.min(start.elapsed(rt)?);
    }
    println!(rt;
        "{weight} {} {} {sum:08x}",
        ours.as_nanos(),
        summed.as_nanos()
    )?;
    Ok(())
}

// The weight of the index after a replay.
fn replayed(alloc: Global, buds: &[BudText], standing: Standing) -> Result<u64, Memory>
    requires { AllByRecursion IsReadable buds.now }
{
    let made = replay(alloc, standing.index, standing.leaves, buds, &[])?;
    Ok(made.index.weight())
}

// The checksums of the bytes of texts.
fn checksums(buds: &[BudText]) -> u32 {
    let mut sum = 0u32;
    for bud in buds {
        sum = sum.wrapping_add(crc32(bud.bytes.as_slice()));
    }
    sum
}

// A text of copies of old inodes, one of pages, and one of their inodes.
fn buds_of(alloc: Global, n: u32, old: u32) -> Result<[BudText; 3], Memory>
    ensures { IfOk result (λ buds. AllByRecursion IsReadable buds) }
{
    let copies = bud_of(JournalHead::Collector, 19, inodes(alloc, old, true)?);
    let data = bud_of(JournalHead::Data, 20, pages(alloc, n)?);
    let base = bud_of(JournalHead::Base, 21, inodes(alloc, n, false)?);
    Ok([copies, data, base])
}

fn bud_of(head: JournalHead, lnum: u32, bytes: Vec<u8>) -> BudText
    ensures { IsReadable result }
{
    let mut bytes = bytes;
    bytes.truncate(MOST);
    BudText {
        head,
        lnum,
        from: 0,
        bytes: Bytes::from_vec(bytes),
    }
}

// The nodes of so many pages, each the first of its inode.
fn pages(alloc: Global, n: u32) -> Result<Vec<u8>, Memory> {
    let mut bytes = Vec::new(alloc);
    for i in 0..n {
        let node = DataNode {
            ino: number(i),
            block: 0,
            bytes: Bytes::from_slice(alloc, &[7; 4096])?,
        };
        let mut out = [0; BLOCK];
        node.encode(new_number(i), 0, &mut out);
        bytes.extend_from_slice(&out)?;
    }
    Ok(bytes)
}

// The nodes of so many inodes: those that are committed, or those of the journal.
fn inodes(alloc: Global, n: u32, old: bool) -> Result<Vec<u8>, Memory> {
    let mut bytes = Vec::new(alloc);
    for i in 0..n {
        let node = InoNode {
            ino: number(i),
            size: 4096,
            atime: 1,
            ctime: 2,
            mtime: 3,
            nlink: 1,
            uid: 1000,
            gid: 100,
            mode: 0o100_644,
            flags: 0,
            xattr_cnt: 0,
            xattr_size: 0,
            xattr_names: 0,
            bytes: Bytes::from_vec(Vec::new(alloc)),
        };
        let mut out = [0; INODE];
        let sqnum = if old { OLD } else { new_number(i) };
        node.encode_with(&[], sqnum, 0, &mut out);
        bytes.extend_from_slice(&out)?;
    }
    Ok(bytes)
}

// The sequence number of the nodes of a page and its inode in the journal.
fn new_number(i: u32) -> u64 {
    u64::from(i).wrapping_add(2)
}

// The number of an inode, which isn't 0.
fn number(i: u32) -> u32
    ensures { 1 ≤ result }
{
    i.wrapping_add(65).max(1)
}

// An index that has these inodes and pages already, and its leaves. Every second inode has no node of its own.
fn standing_of(alloc: Global, n: u32) -> Result<Standing, Memory> {
    let mut index = Index::new(FANOUT)?;
    let mut leaves = Vec::new(alloc);
    for i in 0..n {
        let ino = number(i);
        let inode = leaf_at(Key::Ino { ino }, 10, i);
        index.insert(alloc, inode)?;
        let found = if i % 2 == 0 {
            Some(told(NodeContent::Inode { ino, linked: true }, inode))
        } else {
            None
        };
        leaves.push(CommittedLeaf { leaf: inode, found })?;
        let page = leaf_at(Key::Block { ino, block: 0 }, 11, i);
        index.insert(alloc, page)?;
        let found = Some(told(NodeContent::Block { ino, block: 0 }, page));
        leaves.push(CommittedLeaf { leaf: page, found })?;
    }
    Ok(Standing { index, leaves })
}

fn leaf_at(key: Key, lnum: u32, offs: u32) -> Leaf
    ensures { result.key ≡ key }
{
    Leaf {
        key,
        lnum,
        offs,
        len: 160,
    }
}

fn told(content: NodeContent, leaf: Leaf) -> JournalNode {
    JournalNode {
        content,
        sqnum: OLD,
        lnum: leaf.lnum,
        offs: leaf.offs,
        len: leaf.len,
    }
}
