// How many nodes a commit has to write.

ghost use Rattle.std.specs.Prelude.{◌≡◌, ◌∷◌, [], ◌-◌, ◌^◌, min, length};
ghost use Rattle.node_table.specs.Dirty.{dirty_lists, dirty_among, dirty_from};
ghost use Rattle.index_cache.specs.Paged.{dirty_of};

use crate::paged::PagedIndex;
use node_table::NodeTable;
use table_nodes::Link;

impl PagedIndex {
    /// How many nodes of the frozen index are dirty: as many as a commit has to write.
    ///
    /// It looks at dirty nodes and the branches from them alone.
    pub fn dirty_nodes(&self) -> u64
        ensures { result ≡ length (dirty_of self.now) }
    {
        self.table.most_dirty(self.frozen);
        match self.frozen {
            None => 0,
            Some(root) => count_at(&self.table, root.number),
        }
    }
}

/// The dirty nodes at a node and below it. `u64::MAX` stands for more as well.
#[cycle(counting)]
fn count_at(table: &NodeTable, number: u64) -> u64
    ensures { result ≡ min (length (dirty_from table.now.nodes.items number)) (2 ^ 64 - 1) }
{
    match table.node_at(number) {
        None => 0,
        Some(node) => {
            if node.place.is_some() {
                return 0;
            }
            count_among(table, node.links.as_slice()).saturating_add(1)
        }
    }
}

/// Those to which these links lead.
#[cycle(counting)]
fn count_among(table: &NodeTable, links: &[Link]) -> u64
    ensures { result ≡ min (length (dirty_among (dirty_lists table.now.nodes.items) links.now)) (2 ^ 64 - 1) }
{
    match links.split_first() {
        None => 0,
        Some((link, rest)) => {
            let here = count_link(table, link);
            let behind = count_among(table, rest);
            here.saturating_add(behind)
        }
    }
}

/// Those to which one link leads.
#[cycle(counting)]
#[tactic(auto, using(crate::proofs::DirtyCounted::node_counted))]
fn count_link(table: &NodeTable, link: &Link) -> u64
    ensures { result ≡ min (length (dirty_among (dirty_lists table.now.nodes.items) (link.now ∷ []))) (2 ^ 64 - 1) }
{
    match *link {
        Link::ToLeaf(_) => 0,
        Link::ToNode { number, .. } => count_at(table, number),
    }
}
