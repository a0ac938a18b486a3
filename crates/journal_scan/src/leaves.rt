// The leaf nodes of one LEB.

ghost use Rattle.std.specs.Prelude.{◌≡◌, ◌<◌, List, map, take, IfOk, IfSome, IfNone};
ghost use Rattle.std.specs.List.{AllByRecursion};
ghost use Rattle.media_leaf.specs.LeafNode.{LeafNode};
ghost use Rattle.media_sys.specs.SystemNode.{SystemNode};
ghost use Rattle.leb_scan.specs.Text.{StandsAt, leaf, system};
ghost use Rattle.leaf_map.specs.Kept.{Placed};
ghost use Rattle.journal_scan.specs.Content.{told};
ghost use Rattle.journal_scan.specs.Journal.{AreLeaves, IsBudRead, IsReadable, greatest_number_found, placed_at, nodes_taken_of, whole_groups};
ghost use Rattle.journal_scan.specs.Stands.{HasNode, is_leaf_type};

use crate::bud_text::BudText;
use crate::content::read_content;
use crate::journal_node::JournalNode;
use leb_scan::{Found, Tail, scan};
use std::alloc::Global;
use ubifs_base::{JournalHead, Memory, NodeType};

// The nodes that a mount takes of a LEB, and how its text ends.
#[derive(Debug, Drop)]
pub(crate) struct BudNodes {
    pub(crate) nodes: Vec<JournalNode>,
    pub(crate) sqnum: u64,
    pub(crate) tail: Tail,
}

// Leaf nodes, and how many of them, from the first on, are of whole groups.
#[derive(Debug, Drop)]
struct Leaves {
    nodes: Vec<JournalNode>,
    whole: usize,
}

// A node of a group that isn't its last (`UBIFS_IN_NODE_GROUP`).
const IN_GROUP: u8 = 1;

// The nodes that a mount takes of a LEB that the log names.
pub(crate) fn read_bud(alloc: Global, bud: &BudText) -> Result<BudNodes, Memory>
    requires { IsReadable bud.now }
    ensures { IfOk result (λ r. (nodes : List Placed) × IsBudRead (record { bud = bud.now; nodes = nodes; sqnum = r.sqnum; tail = r.tail }) × (r.nodes.items ≡ map told (nodes_taken_of bud.now.head nodes))) }
{
    let text = scan(alloc, bud.bytes.as_slice(), bud.from)?;
    let tail = text.tail;
    let sqnum = greatest(&text.nodes);
    let leaves = leaves_of(alloc, bud, text.nodes)?;
    let nodes = whole_of(bud.head, leaves);
    Ok(BudNodes { nodes, sqnum, tail })
}

// The greatest sequence number of what was found, or 0.
fn greatest(founds: &[Found]) -> u64
    ensures { result ≡ greatest_number_found founds.now }
{
    let mut most = 0;
    for found in founds {
        most = most.max(found.sqnum);
    }
    most
}

// The nodes of whole groups, or all in the collector's head.
fn whole_of(head: JournalHead, leaves: Leaves) -> Vec<JournalNode>
    ensures { (nodes : List Placed) → leaves.nodes.items ≡ map told nodes → whole_groups nodes ≡ take leaves.whole nodes → result.items ≡ map told (nodes_taken_of head nodes) }
{
    let mut nodes = leaves.nodes;
    match head {
        JournalHead::Collector => {}
        JournalHead::Base | JournalHead::Data => nodes.truncate(leaves.whole),
    }
    nodes
}

// The leaf nodes among those that were found.
fn leaves_of(alloc: Global, bud: &BudText, founds: Vec<Found>) -> Result<Leaves, Memory>
    requires { AllByRecursion (HasNode bud.now.bytes) founds.items }
    ensures { IfOk result (λ r. (nodes : List Placed) × AreLeaves bud.now founds.items nodes × (r.nodes.items ≡ map told nodes) × (whole_groups nodes ≡ take r.whole nodes)) }
{
    let mut nodes: Vec<JournalNode> = Vec::new(alloc);
    let mut whole = 0;
    for found in founds {
        if let Some(node) = leaf_at(alloc, bud, found)? {
            nodes.push(node)?;
            if found.group != IN_GROUP {
                whole = nodes.len();
            }
        }
    }
    Ok(Leaves { nodes, whole })
}

// The leaf node that was found; none where it is a node of another kind.
fn leaf_at(alloc: Global, bud: &BudText, found: Found) -> Result<Option<JournalNode>, Memory>
    requires { HasNode bud.now.bytes found }
    ensures some { IfOk result (λ r. IfSome r (λ node. (n : LeafNode) × StandsAt bud.now.bytes found.offs found (leaf n) × (node ≡ told (placed_at bud.now found n)))) }
    ensures none { IfOk result (λ r. IfNone r ((n : SystemNode) × StandsAt bud.now.bytes found.offs found (system n))) }
{
    if !is_leaf(found.kind) {
        return Ok(None);
    }
    let bytes = bud.bytes.as_slice().split_at(found.offs as usize).1;
    let content = read_content(alloc, found.kind, bytes.split_at(found.len as usize).0)?;
    Ok(Some(JournalNode {
        content,
        sqnum: found.sqnum,
        lnum: bud.lnum,
        offs: found.offs,
        len: found.len,
    }))
}

// Whether nodes of a type are leaf nodes.
fn is_leaf(kind: NodeType) -> bool
    ensures { result ≡ is_leaf_type kind }
{
    match kind {
        NodeType::Inode
        | NodeType::Data
        | NodeType::Entry
        | NodeType::Attribute
        | NodeType::Truncation => true,
        _ => false,
    }
}
