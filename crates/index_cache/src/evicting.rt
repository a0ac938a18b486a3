// Clean nodes are let go.

ghost use Rattle.std.specs.Prelude.{◌≡◌, ◌≤◌, ◌+◌, ◌*◌, true, OnOk, OnErr, length};
ghost use Rattle.node_cache.specs.OnVolume.{IsOnVolume};
ghost use Rattle.node_table.specs.Dirty.{dirty_below};
ghost use Rattle.node_table.specs.Unloaded.{are_unloaded_if_clean};
ghost use Rattle.index_cache.specs.Paged.{keyed_tree_of, fanout_of, DoesIndexStand};

use crate::paged::PagedIndex;
use std::alloc::Global;
use ubi_volume::Volume;
use ubifs_base::Memory;

impl PagedIndex {
    /// Lets all clean nodes go, with those that no link of the index leads to. Dirty nodes stay, and lead to clean ones that aren't loaded: at most
    /// the fanout for each dirty node, and one more, are left. What is seen is frozen then, and what was staged is of no use any more. Nothing is
    /// read. It asks that all clean nodes stand where they should.
    ///
    /// After `Memory` the index is as before.
    pub fn evict<V: Volume>(&mut self, alloc: Global, volume: &V) -> Result<(), Memory>
        requires stands { IsOnVolume (V.state volume.now) (keyed_tree_of self.old) }
        ensures tree { keyed_tree_of self.new ≡ keyed_tree_of self.old }
        ensures stands { DoesIndexStand (V.state volume.now) self.new }
        ensures frozen { OnOk result (self.new.frozen ≡ self.new.root) }
        ensures clean { OnOk result (are_unloaded_if_clean self.new.table.nodes.items ≡ true) }
        ensures few { OnOk result (length self.new.table.nodes.items ≤ fanout_of self.old * length (dirty_below self.old.table.nodes.items self.old.root) + 1) }
        ensures err { OnErr result ((self.new.table.nodes.items ≡ self.old.table.nodes.items) × (self.new.root ≡ self.old.root) × (self.new.frozen ≡ self.old.frozen)) }
        ensures fanout { fanout_of self.new ≡ fanout_of self.old }
    {
        let made = self.table.without_clean(alloc, volume, self.root)?;
        self.table = made.table;
        self.root = made.root;
        self.frozen = made.root;
        Ok(())
    }
}
