// Whole units for a node.

ghost use Rattle.lpt_area.specs.Written.{in_units as units};
ghost use Rattle.std.specs.Prelude.{◌≡◌, ◌+◌, ◌-◌, ◌*◌, ◌/◌, ◌%◌, ◌≤◌, ◌<◌, ◌^◌};

use ubifs_base::Geometry;

/// So many bytes of a LEB, rounded up to whole units.
pub fn in_units(geometry: &Geometry, len: u32) -> u32
    requires { len ≤ geometry.now.leb_size }
    ensures number { result ≡ units geometry.now.min_io len }
    ensures more { len ≤ result }
    ensures fits { result ≤ geometry.now.leb_size }
    ensures whole { result % geometry.now.min_io ≡ 0 }
    ensures words { result % 8 ≡ 0 }
{
    let unit = geometry.min_io;
    (len + (unit - 1)) / unit * unit
}
