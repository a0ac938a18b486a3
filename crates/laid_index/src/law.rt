// Laws of what an index takes.

ghost use Rattle.std.specs.Prelude.{ℕ, ◌+◌, ◌*◌, ◌<◌, ◌≤◌, length};
ghost use Rattle.ubifs_base.specs.declared.raw_geometry.RawGeometry.{RawGeometry as Raw};
ghost use Rattle.ubifs_base.specs.Geometry.{IsGeometry, index_nodes_per_leb};
ghost use Rattle.laid_index.specs.Packing.{index_used};

/// An index takes few LEBs: all but the last have as many nodes as full ones fit, and there are at most twice as many as the
/// lowest level has, which takes `fanout` leaves in each but the last. So its LEBs are no more than those that so many nodes
/// fill, and one.
pub fn an_index_takes_few_lebs()
    ensures { (geo : Raw) (leaves weight : ℕ) → IsGeometry geo → 0 < leaves → leaves ≤ geo.fanout * weight
        → length (index_used geo leaves) * index_nodes_per_leb geo ≤ 2 * weight + index_nodes_per_leb geo }
{}
