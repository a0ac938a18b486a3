// A law of trees that are admitted.

ghost use Rattle.std.specs.Prelude.{◌-◌, ◌*◌, ◌≤◌, length};
ghost use Rattle.ubifs_base.specs.Areas.{main_lebs};
ghost use Rattle.ubifs_base.specs.declared.raw_geometry.RawGeometry.{RawGeometry as Raw};
ghost use Rattle.ubifs_base.specs.Geometry.{IsGeometry, leb_reserve};
ghost use Rattle.fs_model.specs.Cover.{index_lebs, tree_bytes};
ghost use Rattle.fs_model.specs.Files.{Tree as FilesTree};
ghost use Rattle.image_maker.specs.Leaves.{live_leaves};
ghost use Rattle.tree_space.specs.Laid.{IsTreeAdmitted, laid_weight};

/// The leaves of a tree that is admitted have room beside three times the LEBs that the weight of their index asks for, and ten more. That
/// weight has a node for each `fanout` leaves.
pub fn an_admitted_tree_has_room()
    ensures weighed { (geo : Raw) (tree : FilesTree) → IsGeometry geo → length (live_leaves tree) ≤ geo.fanout * laid_weight geo tree }
    ensures fits { (geo : Raw) (tree : FilesTree) → IsTreeAdmitted geo tree
        → tree_bytes tree ≤ (main_lebs geo - 3 * index_lebs geo (laid_weight geo tree) - 10) * (geo.leb_size - leb_reserve geo) }
{}
