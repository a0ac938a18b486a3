// A node is added without being loaded.

ghost use Rattle.std.specs.Prelude.{◌≡◌, ◌+◌, ◌++◌, ◌∷◌, [], true, IfOk, OnOk, OnErr, Some, length};
ghost use Rattle.index_media.specs.KeyedRow.{KeyedRow, node_in, all_clean};
ghost use Rattle.index_media.specs.PlacedRow.{PlacedRow, ended, node_at, stretch_of};
ghost use Rattle.node_cache.specs.Loaded.{IsRowOn};
ghost use Rattle.node_table.specs.Unloaded.{AreStandingLinks};
ghost use Rattle.table_nodes.specs.Links.{AreNodesAdded};
ghost use Rattle.table_nodes.specs.NodeView.{node_views, linked_before};
ghost use Rattle.table_nodes.specs.Stubs.{is_stub};
ghost use Rattle.table_nodes.specs.declared.link.Link.TheVariants.{ToNode};
ghost use Rattle.table_nodes.specs.declared.node.TableNode.{TableNode as ANode};
ghost use Rattle.ubifs_base.specs.declared.key.Key.{Key as AKey};

use crate::table::NodeTable;
use media_sys::Branch;
use std::alloc::Global;
use table_nodes::{NodePlace, TableNode, see_medium};
use ubi_volume::Volume;
use ubifs_base::Memory;

impl NodeTable {
    /// Adds the node to which a branch leads, without loading it, and answers its number. It stands on the volume with all that is below it, `level`
    /// levels above the lowest one, and shows what stands there. Nothing is read.
    ///
    /// After `Memory` the table is as before.
    pub fn add_unloaded<V: Volume>(
        &mut self,
        alloc: Global,
        volume: &V,
        branch: &Branch,
        level: u16,
    ) -> Result<u64, Memory>
        requires row { (row : PlacedRow) × IsRowOn (V.state volume.now) self.old.fanout (level + 1) (node_at branch.now row ended) }
        ensures shown { (row : PlacedRow) → IsRowOn (V.state volume.now) self.old.fanout (level + 1) (node_at branch.now row ended)
            → IfOk result (λ number. (key : AKey) (rest : KeyedRow) → linked_before (node_views self.new.nodes.items) (ToNode key number) rest ≡ node_in key (Some (stretch_of branch.now)) (all_clean row) rest) }
        ensures stands { IfOk result (λ number. (key : AKey) → AreStandingLinks (V.state volume.now) self.new.nodes.items (ToNode key number ∷ [])) }
        ensures added { OnOk result ((node : ANode) × (self.new.nodes.items ≡ self.old.nodes.items ++ node ∷ []) × (is_stub node ≡ true)) }
        ensures number { IfOk result (λ number. number ≡ length self.old.nodes.items) }
        ensures nodes { AreNodesAdded self.old.nodes.items self.new.nodes.items }
        ensures fanout { self.new.fanout ≡ self.old.fanout }
        ensures err { OnErr result (self.new.nodes.items ≡ self.old.nodes.items) }
    {
        let told = see_medium(volume);
        let place = NodePlace {
            lnum: branch.lnum,
            offs: branch.offs,
            len: branch.len,
        };
        let number = self.add(TableNode {
            level,
            place: Some(place),
            links: Vec::new(alloc),
            beyond: Some(told),
        })?;
        Ok(number)
    }
}
