// All LEBs that a log names.

ghost use Rattle.std.specs.Prelude.{◌≡◌, List, map, IfOk, OnOk};
ghost use Rattle.std.specs.List.{AllByRecursion};
ghost use Rattle.ubifs_base.specs.Key.{key_words};
ghost use Rattle.leaf_map.specs.Kept.{Placed, node_key};
ghost use Rattle.leaf_map.specs.Recovered.{highest_key, nodes_in_order};
ghost use Rattle.journal_scan.specs.Content.{highest_told, number_told, told};
ghost use Rattle.journal_scan.specs.Gathered.{AreGathered, IsOneMore};
ghost use Rattle.journal_scan.specs.Journal.{BudRead, IsJournalRead, IsReadable};

use crate::bud_text::BudText;
use crate::journal_node::JournalNode;
use crate::journal_read::JournalRead;
use crate::leaves::read_bud;
use crate::node_content::NodeContent;
use std::alloc::Global;
use ubifs_base::{JournalHead, Key, Memory};

/// What the LEBs that a log names say, which stand in the order in which the log first names them. The error is want of
/// memory.
pub fn read_journal(alloc: Global, buds: &[BudText]) -> Result<JournalRead, Memory>
    requires { AllByRecursion IsReadable buds.now }
    ensures { IfOk result (λ read. IsJournalRead buds.now read) }
{
    let mut read = JournalRead {
        nodes: Vec::new(alloc),
        copies: Vec::new(alloc),
        highest: 0,
        sqnum: 0,
        tails: Vec::new(alloc),
    };
    gather(alloc, buds, &mut read)?;
    sort_nodes(&mut read.nodes)?;
    read.highest = highest_in(&read.nodes);
    Ok(read)
}

// The greatest inode number in the keys of nodes, or 0.
fn highest_in(nodes: &[JournalNode]) -> u32
    ensures { (xs : List Placed) → nodes.now ≡ map told xs → result ≡ highest_key 0 (map (λ x. node_key x.node) xs) }
{
    highest_told(nodes)
}

fn highest_told(nodes: &[JournalNode]) -> u32
    ensures { result ≡ highest_told nodes.now }
{
    let mut most = 0;
    for node in nodes {
        most = most.max(number_told(&node.content));
    }
    most
}

// The inode number of a node's key.
fn number_told(content: &NodeContent) -> u32
    ensures { result ≡ number_told content.now }
{
    match content {
        NodeContent::Inode { ino, .. } => *ino,
        NodeContent::Block { ino, .. } => *ino,
        NodeContent::Entry { dir, .. } => *dir,
        NodeContent::Truncation { ino, .. } => *ino,
        NodeContent::Unknown { key, .. } => number_of(key),
    }
}

// The inode number of a key.
fn number_of(key: &Key) -> u32
    ensures { result ≡ (key_words key.now).0 }
{
    match *key {
        Key::Ino { ino } | Key::Block { ino, .. } | Key::Xent { ino, .. } => ino,
        Key::Dent { dir, .. } => dir,
    }
}

// Puts what LEBs say behind what was read.
fn gather(alloc: Global, buds: &[BudText], read: &mut JournalRead) -> Result<(), Memory>
    requires { AllByRecursion IsReadable buds.now }
    ensures { OnOk result ((reads : List BudRead) × AreGathered buds.now reads read.old read.new) }
{
    let Some((first, rest)) = buds.split_first() else {
        return Ok(());
    };
    gather_one(alloc, first, read)?;
    gather(alloc, rest, read)?;
    Ok(())
}

// Puts what one LEB says behind what was read.
fn gather_one(alloc: Global, bud: &BudText, read: &mut JournalRead) -> Result<(), Memory>
    requires { IsReadable bud.now }
    ensures { OnOk result ((one : BudRead) × IsOneMore bud.now one read.old read.new) }
{
    let mut one = read_bud(alloc, bud)?;
    read.sqnum = read.sqnum.max(one.sqnum);
    read.tails.push(one.tail)?;
    match bud.head {
        JournalHead::Collector => read.copies.append(&mut one.nodes)?,
        JournalHead::Base | JournalHead::Data => read.nodes.append(&mut one.nodes)?,
    }
    Ok(())
}

// Puts nodes in order of number. Those of one number keep their order.
fn sort_nodes(nodes: &mut Vec<JournalNode>) -> Result<(), Memory>
    ensures { OnOk result ((xs : List Placed) → nodes.old.items ≡ map told xs → nodes.new.items ≡ map told (nodes_in_order xs)) }
{
    nodes.sort_by_key(|node| node.sqnum)?;
    Ok(())
}
