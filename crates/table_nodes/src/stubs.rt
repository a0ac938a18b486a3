// A node that isn't loaded is opened.

ghost use Rattle.std.specs.Prelude.{◌≡◌, ◌<◌, ◌∷◌, [], OnOk, length};
ghost use Rattle.index_media.specs.KeyedRow.{KeyedRow, no_more, all_clean};
ghost use Rattle.index_media.specs.PlacedRow.{leaf_of};
ghost use Rattle.rows_below.specs.RowBelow.{row_by};
ghost use Rattle.table_nodes.specs.Beyond.{child_before, contents_told};
ghost use Rattle.table_nodes.specs.NodeView.{node_views};
ghost use Rattle.table_nodes.specs.Links.{row_before, AreLinksIn};
ghost use Rattle.table_nodes.specs.Stubs.{AreStubs};

use crate::link::Link;
use crate::node::{NodePlace, TableNode};
use crate::seen::{MediumSeen, tell_again};
use index_tree::Leaf;
use media_sys::Branch;
use std::alloc::Global;
use told_value::Told;
use ubifs_base::Memory;

/// The leaf to which a branch leads.
fn leaf_by(branch: &Branch) -> Leaf
    ensures { result ≡ leaf_of branch.now }
{
    Leaf {
        key: branch.key,
        lnum: branch.lnum,
        offs: branch.offs,
        len: branch.len,
    }
}

/// Pushes a link to what a branch leads to: a leaf where no level of nodes is left, or a node that is added, and isn't loaded.
fn push_child(
    alloc: Global,
    nodes: &mut Vec<TableNode>,
    told: &Told<MediumSeen>,
    branch: &Branch,
    levels: u16,
    links: &mut Vec<Link>,
) -> Result<(), Memory>
    requires there { AreLinksIn (length nodes.old.items) links.old.items }
    ensures pushed { (rest : KeyedRow) → OnOk result (row_before (node_views nodes.new.items) links.new.items rest ≡ row_before (node_views nodes.old.items) links.old.items (child_before told.now.value levels branch.now rest)) }
    ensures there { OnOk result (AreLinksIn (length nodes.new.items) links.new.items) }
    ensures stubs { AreStubs told.now.value levels (branch.now ∷ []) nodes.old.items nodes.new.items }
{
    if levels == 0 {
        links.push(Link::ToLeaf(leaf_by(branch)))?;
        return Ok(());
    }
    let number = nodes.len() as u64;
    let place = NodePlace {
        lnum: branch.lnum,
        offs: branch.offs,
        len: branch.len,
    };
    nodes.push(TableNode {
        level: levels - 1,
        place: Some(place),
        links: Vec::new(alloc),
        beyond: Some(tell_again(told)),
    })?;
    links.push(Link::ToNode {
        key: branch.key,
        number,
    })?;
    Ok(())
}

/// Opens a node that isn't loaded, of which these branches were read: pushes links to its children, which are leaves, or nodes
/// that are added and aren't loaded. They show the row that the node has told. To each node that was added one of the branches leads.
pub fn open_branches(
    alloc: Global,
    nodes: &mut Vec<TableNode>,
    told: &Told<MediumSeen>,
    branches: &[Branch],
    levels: u16,
    links: &mut Vec<Link>,
) -> Result<(), Memory>
    requires there { AreLinksIn (length nodes.old.items) links.old.items }
    ensures opened { OnOk result (row_before (node_views nodes.new.items) links.new.items no_more ≡ row_before (node_views nodes.old.items) links.old.items (all_clean (row_by (contents_told told.now.value) levels branches.now))) }
    ensures there { OnOk result (AreLinksIn (length nodes.new.items) links.new.items) }
    ensures stubs { AreStubs told.now.value levels branches.now nodes.old.items nodes.new.items }
{
    match branches.split_first() {
        None => Ok(()),
        Some((branch, rest)) => {
            push_child(alloc, nodes, told, branch, levels, links)?;
            open_branches(alloc, nodes, told, rest, levels, links)
        }
    }
}
