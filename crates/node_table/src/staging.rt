// Several changes are staged one over the other: all of them, or none.

ghost use Rattle.std.specs.Prelude.{◌≡◌, IfOk, OnErr};
ghost use Rattle.node_table.specs.Changing.{IsChange, AreChanges, changed_row, changed_by, leaves_after_change, leaves_after_all};
ghost use Rattle.node_cache.specs.Kept.{AreKept};
ghost use Rattle.node_cache.specs.Loaded.{IsReadOnlyCall};
ghost use Rattle.node_table.specs.Unloaded.{DoesRootStand};
ghost use Rattle.table_nodes.specs.NodeView.{tree_at, leaves_at};
ghost use Rattle.table_nodes.specs.Links.{AreNodesAdded};
ghost use Rattle.node_table.specs.Staging.{IsSoundRoot};

use crate::change::Change;
use crate::table::NodeTable;
use index_media::{
    a_range_removal_leaves_the_keys_of_branches, a_removal_leaves_the_keys_of_branches,
    a_replacement_leaves_the_keys_of_branches, an_insertion_goes_by_the_keys_of_branches,
};
use node_cache::NodeCache;
use std::alloc::Global;
use table_nodes::Root;
use ubi_volume::{AreaFault, Volume};

impl NodeTable {
    /// Stages one change; a root of none is the empty index.
    fn stage_one<V: Volume>(
        &mut self,
        alloc: Global,
        volume: &mut V,
        cache: &mut NodeCache,
        root: Option<Root>,
        change: &Change,
    ) -> Result<Option<Root>, AreaFault>
        requires root { IsSoundRoot self.old.nodes.items root }
        requires change { IsChange change.now }
        requires stands { DoesRootStand (V.state volume.old) self.old.nodes.items root }
        requires kept { AreKept (V.state volume.old).holds cache.old }
        ensures made { IfOk result (λ made. tree_at self.new.nodes.items made ≡ changed_row self.old.fanout change.now (tree_at self.old.nodes.items root)) }
        ensures leaves { IfOk result (λ made. leaves_at self.new.nodes.items made ≡ leaves_after_change change.now (leaves_at self.old.nodes.items root)) }
        ensures root { IfOk result (λ made. IsSoundRoot self.new.nodes.items made) }
        ensures added { AreNodesAdded self.old.nodes.items self.new.nodes.items }
        ensures stands { IfOk result (λ made. DoesRootStand (V.state volume.new) self.new.nodes.items made) }
        ensures fanout { self.new.fanout ≡ self.old.fanout }
        ensures reads { IsReadOnlyCall (V.state volume.old) (V.state volume.new) result }
        ensures kept { AreKept (V.state volume.new).holds cache.new }
    {
        an_insertion_goes_by_the_keys_of_branches();
        a_range_removal_leaves_the_keys_of_branches();
        a_removal_leaves_the_keys_of_branches();
        a_replacement_leaves_the_keys_of_branches();
        match *change {
            Change::Insert(leaf) => {
                let made = self.insert(alloc, volume, cache, root, leaf)?;
                Ok(Some(made))
            }
            Change::Remove(leaf) => self.remove(alloc, volume, cache, root, &leaf),
            Change::Replace { gone, come } => self.replace(alloc, volume, cache, root, &gone, come),
            Change::RemoveRange { from, to } => {
                let left = self.remove_range(alloc, volume, cache, root, &from, &to)?;
                Ok(left.root)
            }
        }
    }

    /// Stages these changes; after a fault some nodes may have been added.
    fn stage_all<V: Volume>(
        &mut self,
        alloc: Global,
        volume: &mut V,
        cache: &mut NodeCache,
        root: Option<Root>,
        changes: &[Change],
    ) -> Result<Option<Root>, AreaFault>
        requires root { IsSoundRoot self.old.nodes.items root }
        requires changes { AreChanges changes.now }
        requires stands { DoesRootStand (V.state volume.old) self.old.nodes.items root }
        requires kept { AreKept (V.state volume.old).holds cache.old }
        ensures made { IfOk result (λ made. tree_at self.new.nodes.items made ≡ changed_by self.old.fanout changes.now (tree_at self.old.nodes.items root)) }
        ensures leaves { IfOk result (λ made. leaves_at self.new.nodes.items made ≡ leaves_after_all changes.now (leaves_at self.old.nodes.items root)) }
        ensures root { IfOk result (λ made. IsSoundRoot self.new.nodes.items made) }
        ensures added { AreNodesAdded self.old.nodes.items self.new.nodes.items }
        ensures stands { IfOk result (λ made. DoesRootStand (V.state volume.new) self.new.nodes.items made) }
        ensures fanout { self.new.fanout ≡ self.old.fanout }
        ensures reads { IsReadOnlyCall (V.state volume.old) (V.state volume.new) result }
        ensures kept { AreKept (V.state volume.new).holds cache.new }
    {
        let mut made = root;
        for change in changes {
            made = self.stage_one(alloc, volume, cache, made, change)?;
        }
        Ok(made)
    }

    /// Stages changes, each over what the ones before it make, and answers the root that the last of them makes. To adopt them
    /// all is to keep that root. All nodes stay where they stood, so below each root stands what stood there.
    ///
    /// A node on the way that isn't loaded is read, unless it is kept, and its children are added. Nothing is written. It asks that what isn't
    /// loaded still stands where it was met (`stands`), and so does what the changes make. `Memory` and `Volume` are the faults, and the table is
    /// as before then.
    pub fn stage<V: Volume>(
        &mut self,
        alloc: Global,
        volume: &mut V,
        cache: &mut NodeCache,
        root: Option<Root>,
        changes: &[Change],
    ) -> Result<Option<Root>, AreaFault>
        requires root { IsSoundRoot self.old.nodes.items root }
        requires changes { AreChanges changes.now }
        requires stands { DoesRootStand (V.state volume.old) self.old.nodes.items root }
        requires kept { AreKept (V.state volume.old).holds cache.old }
        ensures made { IfOk result (λ made. tree_at self.new.nodes.items made ≡ changed_by self.old.fanout changes.now (tree_at self.old.nodes.items root)) }
        ensures leaves { IfOk result (λ made. leaves_at self.new.nodes.items made ≡ leaves_after_all changes.now (leaves_at self.old.nodes.items root)) }
        ensures root { IfOk result (λ made. IsSoundRoot self.new.nodes.items made) }
        ensures added { AreNodesAdded self.old.nodes.items self.new.nodes.items }
        ensures err { OnErr result (self.new.nodes.items ≡ self.old.nodes.items) }
        ensures stands { IfOk result (λ made. DoesRootStand (V.state volume.new) self.new.nodes.items made) }
        ensures fanout { self.new.fanout ≡ self.old.fanout }
        ensures reads { IsReadOnlyCall (V.state volume.old) (V.state volume.new) result }
        ensures kept { AreKept (V.state volume.new).holds cache.new }
    {
        let number = self.nodes.len();
        match self.stage_all(alloc, volume, cache, root, changes) {
            Ok(made) => Ok(made),
            Err(fault) => {
                self.take_back(number);
                Err(fault)
            }
        }
    }
}
