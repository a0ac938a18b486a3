// At most how many dirty nodes stand at each node and below it: a number beside each node, which is summed as nodes are added.

ghost use Rattle.std.specs.Prelude.{◌≡◌, ◌≤◌, ◌+◌, ◌++◌, ◌∷◌, [], ℕ, List, IfOk, IfSome, IfNone, Some, if◌then◌else◌, is_ok, length, slice_get, take};
ghost use Rattle.node_table.specs.Dirty.{dirty_node, dirty_lists, dirty_among, dirty_from, dirty_below};
ghost use Rattle.node_table.specs.declared.table.NodeTable.{NodeTable as ATable};
ghost use Rattle.table_nodes.specs.Links.{AreNodesAdded};
ghost use Rattle.table_nodes.specs.declared.node.TableNode.{TableNode as ANode};

use crate::table::NodeTable;
use table_nodes::{Link, Root, TableNode};
use ubifs_base::Memory;

/// A sum; none where it passes 64 bits.
fn sum_of(x: u64, y: u64) -> Result<u64, Memory>
    ensures { IfOk result (λ sum. sum ≡ x + y) }
{
    match x.checked_add(y) {
        None => Err(Memory),
        Some(sum) => Ok(sum),
    }
}

/// Pushes a node and its bound, or neither.
pub fn push_both(
    nodes: &mut Vec<TableNode>,
    most_dirty: &mut Vec<u64>,
    node: TableNode,
    most: u64,
) -> Result<(), Memory>
    ensures nodes { nodes.new.items ≡ (if is_ok result then nodes.old.items ++ node ∷ [] else nodes.old.items) }
    ensures most_dirty { most_dirty.new.items ≡ (if is_ok result then most_dirty.old.items ++ most ∷ [] else most_dirty.old.items) }
{
    most_dirty.reserve(1)?;
    nodes.push(node)?;
    most_dirty.push_reserved(most);
    Ok(())
}

/// Keeps the first nodes, and their bounds.
fn truncate_both(nodes: &mut Vec<TableNode>, most_dirty: &mut Vec<u64>, number: usize)
    ensures nodes { nodes.new.items ≡ take number nodes.old.items }
    ensures most_dirty { most_dirty.new.items ≡ take number most_dirty.old.items }
{
    nodes.truncate(number);
    most_dirty.truncate(number);
}

impl NodeTable {
    /// Lets the nodes go that were added since there were so many.
    pub(crate) fn take_back(&mut self, number: usize)
        requires before { (before : ATable) × AreNodesAdded before.nodes.items self.old.nodes.items × (before.fanout ≡ self.old.fanout) × (number ≡ length before.nodes.items) }
        ensures nodes { (first : List ANode) → AreNodesAdded first self.old.nodes.items → number ≡ length first → self.new.nodes.items ≡ first }
        ensures fanout { self.new.fanout ≡ self.old.fanout }
    {
        truncate_both(&mut self.nodes, &mut self.most_dirty, number);
    }

    /// The bound of the node of this number; none where there is no such node.
    fn bound_at(&self, number: u64) -> Option<&u64>
        ensures some { IfSome result (λ most. slice_get self.now.most_dirty.items number ≡ Some most.now) }
        ensures none { IfNone result (length self.now.most_dirty.items ≤ number) }
    {
        self.most_dirty.get(number as usize)
    }

    /// At most how many dirty nodes stand at a node and below it.
    fn most_dirty_at(&self, number: u64) -> u64
        ensures { length (dirty_from self.now.nodes.items number) ≤ result }
    {
        match self.bound_at(number) {
            None => 0,
            Some(most) => *most,
        }
    }

    /// At most how many stand at what one link leads to and below it.
    #[tactic(auto, using(crate::proofs::Bounded::among_node))]
    fn most_dirty_of(&self, link: &Link) -> u64
        ensures { length (dirty_among (dirty_lists self.now.nodes.items) (link.now ∷ [])) ≤ result }
    {
        match *link {
            Link::ToLeaf(_) => 0,
            Link::ToNode { number, .. } => self.most_dirty_at(number),
        }
    }

    /// The same of these links together.
    fn most_dirty_among(&self, links: &[Link]) -> Result<u64, Memory>
        ensures { IfOk result (λ most. length (dirty_among (dirty_lists self.now.nodes.items) links.now) ≤ most) }
    {
        match links.split_first() {
            None => Ok(0),
            Some((link, rest)) => {
                let others = self.most_dirty_among(rest)?;
                sum_of(self.most_dirty_of(link), others)
            }
        }
    }

    /// The same of a node with these links that has a place or none, itself included.
    pub(crate) fn most_dirty_with(&self, node: &TableNode) -> Result<u64, Memory>
        ensures { IfOk result (λ most. (number : ℕ) → length (dirty_node node.now.place number (dirty_among (dirty_lists self.now.nodes.items) node.now.links.items)) ≤ most) }
    {
        if node.place.is_some() {
            return Ok(0);
        }
        let below = self.most_dirty_among(node.links.as_slice())?;
        sum_of(below, 1)
    }

    /// At most how many dirty nodes stand below a root, the topmost one included: so 64 bits tell how many there are.
    pub fn most_dirty(&self, root: Option<Root>) -> u64
        ensures { length (dirty_below self.now.nodes.items root) ≤ result }
    {
        match root {
            None => 0,
            Some(top) => self.most_dirty_at(top.number),
        }
    }
}
