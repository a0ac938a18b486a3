// A collection gains.

ghost use Rattle.std.specs.Prelude.{ℕ, ◌+◌, ◌*◌, ◌-◌, ◌<◌, ◌≤◌, IsTrue, List, nat_le, sum};
ghost use Rattle.std.specs.List.{list_all};
ghost use Rattle.ubifs_base.specs.declared.raw_geometry.RawGeometry.{RawGeometry as Raw};
ghost use Rattle.ubifs_base.specs.Geometry.{leb_reserve};
ghost use Rattle.space_sums.specs.Passes.{Copies, collected};

/// A whole collection of a LEB that isn't full gains at least 1,024 bytes, counted over empty LEBs and what the collector's LEB
/// has left. It wastes less than one node, of at most 4,256 bytes, and one unit. So collections end.
pub fn a_collection_gains()
    ensures { (geo : Raw) (at : Copies) (nodes : List ℕ) →
        0 < geo.min_io → leb_reserve geo ≤ geo.leb_size →
        IsTrue (list_all (λ bytes. nat_le bytes 4256) nodes) → sum nodes ≤ geo.leb_size - leb_reserve geo →
        1024 + geo.leb_size * at.empty + at.room ≤ geo.leb_size * (collected geo at nodes).empty + (collected geo at nodes).room }
{}
