// The walk to the next dirty node: down dirty nodes alone.

ghost use Rattle.std.specs.Prelude.{◌≡◌, ◌<◌, ◌∷◌, [], true, IfSome, IfNone, length, slice_get};
ghost use Rattle.index_media.specs.Clean.{is_clean_row};
ghost use Rattle.node_table.specs.Clean.{is_clean_node, IsReadyNode};
ghost use Rattle.node_table.specs.Dirty.{dirty_lists, dirty_among, dirty_from, dirty_below};
ghost use Rattle.table_nodes.specs.NodeView.{node_views, row_of, tree_at, IsRootIn};
ghost use Rattle.table_nodes.specs.Links.{IsLinkIn, AreLinksIn};

use crate::table::NodeTable;
use table_nodes::{Link, Root};

impl NodeTable {
    /// The first dirty node below a root, children before their parent: all nodes below it are clean. None exactly where
    /// all nodes below the root are clean.
    ///
    /// It goes down dirty nodes alone, since below a clean node all are clean.
    pub fn next_dirty(&self, root: Option<Root>) -> Option<u64>
        ensures first { result ≡ slice_get (dirty_below self.now.nodes.items root) 0 }
        ensures ready { IfSome result (λ number. IsReadyNode self.now.nodes.items number) }
        ensures none { IsRootIn self.now.nodes.items root → IfNone result (is_clean_row (tree_at self.now.nodes.items root) ≡ true) }
    {
        match root {
            None => None,
            Some(top) => self.first_dirty(top.number),
        }
    }

    /// The first dirty node at a node or below it.
    #[cycle(seeking)]
    fn first_dirty(&self, number: u64) -> Option<u64>
        ensures first { result ≡ slice_get (dirty_from self.now.nodes.items number) 0 }
        ensures ready { IfSome result (λ found. IsReadyNode self.now.nodes.items found) }
        ensures none { number < length self.now.nodes.items → IfNone result (is_clean_node (slice_get (node_views self.now.nodes.items) number) ≡ true) }
    {
        match self.node_at(number) {
            None => None,
            Some(node) => {
                if node.place.is_some() {
                    return None;
                }
                match self.first_dirty_among(node.links.as_slice()) {
                    None => Some(number),
                    Some(below) => Some(below),
                }
            }
        }
    }

    /// The first of those to which these links lead.
    #[cycle(seeking)]
    fn first_dirty_among(&self, links: &[Link]) -> Option<u64>
        requires there { AreLinksIn (length self.now.nodes.items) links.now }
        ensures first { result ≡ slice_get (dirty_among (dirty_lists self.now.nodes.items) links.now) 0 }
        ensures ready { IfSome result (λ found. IsReadyNode self.now.nodes.items found) }
        ensures none { IfNone result (is_clean_row (row_of (node_views self.now.nodes.items) links.now) ≡ true) }
    {
        match links.split_first() {
            None => None,
            Some((link, rest)) => match self.first_dirty_link(link) {
                None => self.first_dirty_among(rest),
                Some(found) => Some(found),
            },
        }
    }

    /// The first of those to which one link leads.
    #[cycle(seeking)]
    fn first_dirty_link(&self, link: &Link) -> Option<u64>
        requires there { IsLinkIn (length self.now.nodes.items) link.now }
        ensures first { result ≡ slice_get (dirty_among (dirty_lists self.now.nodes.items) (link.now ∷ [])) 0 }
        ensures ready { IfSome result (λ found. IsReadyNode self.now.nodes.items found) }
        ensures none { IfNone result (is_clean_row (row_of (node_views self.now.nodes.items) (link.now ∷ [])) ≡ true) }
    {
        match *link {
            Link::ToLeaf(_) => None,
            Link::ToNode { number, .. } => self.first_dirty(number),
        }
    }
}
