// Laws of the leaves of a tree.

ghost use Rattle.std.specs.Prelude.{◌+◌, ◌-◌, ◌*◌, ◌^◌, ◌<◌, ◌≤◌, length};
ghost use Rattle.ubifs_base.specs.declared.raw_geometry.RawGeometry.{RawGeometry as Raw};
ghost use Rattle.ubifs_base.specs.Geometry.{IsGeometry, leb_reserve};
ghost use Rattle.fs_model.specs.Cover.{tree_bytes};
ghost use Rattle.fs_model.specs.Files.{Tree as FilesTree};
ghost use Rattle.fs_model.specs.Proper.{IsProper};
ghost use Rattle.plain_backing.specs.Covering.{leaf_count};
ghost use Rattle.image_maker.specs.Leaves.{live_leaves};
ghost use Rattle.image_maker.specs.Packed.{packed_leaves};

/// A proper tree has a leaf, and no more leaves than inodes, blocks and entries. Each LEB that they take, but the last, has more
/// bytes of them than it has beside its reserve.
pub fn leaves_of_a_tree_are_few()
    ensures some { (tree : FilesTree) → IsProper tree → 0 < length (live_leaves tree) }
    ensures count { (tree : FilesTree) → IsProper tree → length (live_leaves tree) ≤ leaf_count tree }
    ensures lebs { (geo : Raw) (tree : FilesTree) → IsGeometry geo → IsProper tree → tree_bytes tree ≤ 2 ^ 30
        → length (packed_leaves geo.leb_size 0 (live_leaves tree)) * (geo.leb_size - leb_reserve geo) ≤ tree_bytes tree + (geo.leb_size - leb_reserve geo) }
{}
