// Changes, for which nodes on their ways are loaded.

ghost use Rattle.std.specs.Prelude.{◌≡◌, ℕ, false, List, OnErr, OnOk};
ghost use Rattle.index_media.specs.KeyedRow.{KeyedRow};
ghost use Rattle.node_cache.specs.Loaded.{IsReadOnlyCall};
ghost use Rattle.node_table.specs.Changing.{AreChanges, changed_by};
ghost use Rattle.mounted_index.specs.Changed.{AreChangesMade, AreChangesStaged};
ghost use Rattle.mounted_index.specs.Running.{IsCommitRunning, KeepsRunning};
ghost use Rattle.mounted_index.specs.Shown.{KeepsOutside, Shows, ShowsStaged, on_volume_alone};

use crate::mounted::{IndexNodes, MountedIndex};
use index_cache::{PagedIndex, Staged};
use index_commit::changes_keep_what_stands;
use index_media::{
    a_range_removal_keeps_what_nodes_are, a_removal_keeps_what_nodes_are,
    a_replacement_keeps_what_nodes_are, an_insertion_keeps_what_nodes_are,
};
use node_cache::kept_nodes_stay;
use node_table::{Change, places_are_kept};
use std::alloc::Global;
use ubi_volume::{AreaFault, Volume};

impl MountedIndex {
    /// Makes changes beside the index, each over what the ones before it make. It is shown as before until they are adopted, and the
    /// volume is as it was.
    ///
    /// `Memory` and `Volume` are the faults.
    pub fn stage<V: Volume>(
        &mut self,
        alloc: Global,
        volume: &mut V,
        changes: &[Change],
    ) -> Result<Staged, AreaFault>
        requires shown { (row : KeyedRow) × Shows (V.state volume.old) self.old row }
        requires changes { AreChanges changes.now }
        ensures staged { (row : KeyedRow) → Shows (V.state volume.old) self.old row
            → AreChangesStaged (V.state volume.old) (V.state volume.new) self.new row (changed_by self.old.geometry.fanout changes.now row) result }
        ensures running { KeepsRunning (V.state volume.old) (V.state volume.new) self.old self.new }
        ensures reads { IsReadOnlyCall (V.state volume.old) (V.state volume.new) result }
        ensures geometry { self.new.geometry ≡ self.old.geometry }
    {
        an_insertion_keeps_what_nodes_are();
        a_removal_keeps_what_nodes_are();
        a_replacement_keeps_what_nodes_are();
        a_range_removal_keeps_what_nodes_are();
        changes_keep_what_stands();
        self.load(alloc, volume)?;
        match &mut self.nodes {
            IndexNodes::OnMedium(_) => Err(AreaFault::Memory),
            IndexNodes::InMemory(index) => {
                index.trees_are_sound();
                let staged = index.stage(alloc, volume, &mut self.cache, changes)?;
                Ok(staged)
            }
        }
    }

    /// Shows changes that were staged. It takes no memory, reads nothing, and can't fail.
    pub fn adopt<V: Volume>(&mut self, volume: &V, staged: Staged)
        requires staged { (row : KeyedRow) × ShowsStaged (V.state volume.now) self.old staged row }
        ensures shown { (row : KeyedRow) → ShowsStaged (V.state volume.now) self.old staged row → Shows (V.state volume.now) self.new row }
        ensures running { (kept given : List ℕ) (begun row made : KeyedRow) → IsCommitRunning (V.state volume.now) kept given begun self.old row → ShowsStaged (V.state volume.now) self.old staged made → KeepsOutside row made
            → IsCommitRunning (V.state volume.now) kept given begun self.new made }
        ensures geometry { self.new.geometry ≡ self.old.geometry }
    {
        let _ = volume;
        match &mut self.nodes {
            IndexNodes::OnMedium(_) => (),
            IndexNodes::InMemory(index) => index.adopt(staged),
        }
    }

    /// Makes changes, all of them or none, each over what the ones before it make. The volume is as it was.
    ///
    /// `Memory` and `Volume` are the faults. After a fault the index is shown as before.
    pub fn change<V: Volume>(
        &mut self,
        alloc: Global,
        volume: &mut V,
        changes: &[Change],
    ) -> Result<(), AreaFault>
        requires shown { (row : KeyedRow) × Shows (V.state volume.old) self.old row }
        requires changes { AreChanges changes.now }
        ensures changed { (row : KeyedRow) → Shows (V.state volume.old) self.old row
            → AreChangesMade (V.state volume.old) (V.state volume.new) self.new row (changed_by self.old.geometry.fanout changes.now row) result }
        ensures running { (kept given : List ℕ) (begun row : KeyedRow) → IsCommitRunning (V.state volume.old) kept given begun self.old row
            → OnOk result (IsCommitRunning (V.state volume.new) kept given begun self.new (changed_by self.old.geometry.fanout changes.now row)) × OnErr result (IsCommitRunning (V.state volume.new) kept given begun self.new row) }
        ensures reads { IsReadOnlyCall (V.state volume.old) (V.state volume.new) result }
        ensures geometry { self.new.geometry ≡ self.old.geometry }
    {
        let staged = self.stage(alloc, volume, changes)?;
        self.adopt(volume, staged);
        Ok(())
    }

    // Takes the index into memory, if it is on the volume alone, with its root not loaded. It is frozen then, since a commit of it may run.
    fn load<V: Volume>(&mut self, alloc: Global, volume: &mut V) -> Result<(), AreaFault>
        requires shown { (row : KeyedRow) × Shows (V.state volume.old) self.old row }
        ensures shown { (row : KeyedRow) → Shows (V.state volume.old) self.old row → Shows (V.state volume.new) self.new row }
        ensures running { KeepsRunning (V.state volume.old) (V.state volume.new) self.old self.new }
        ensures loaded { OnOk result (on_volume_alone self.new ≡ false) }
        ensures reads { IsReadOnlyCall (V.state volume.old) (V.state volume.new) result }
        ensures geometry { self.new.geometry ≡ self.old.geometry }
    {
        kept_nodes_stay();
        places_are_kept();
        match &self.nodes {
            IndexNodes::OnMedium(root) => {
                let mut index = PagedIndex::at_root(alloc, volume, &self.geometry, root)?;
                index.freeze();
                self.nodes = IndexNodes::InMemory(index);
                Ok(())
            }
            IndexNodes::InMemory(_) => Ok(()),
        }
    }
}
