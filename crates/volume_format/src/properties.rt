// The properties of a new file system's main LEBs.

ghost use Rattle.std.specs.Prelude.{◌≡◌, ◌≤◌, ◌%◌, IfOk};
ghost use Rattle.ubifs_base.specs.Areas.{main_lebs};
ghost use Rattle.ubifs_base.specs.RawOf.{raw_of};
ghost use Rattle.lpt_area.specs.Written.{AreProps, IsLprop};
ghost use Rattle.laid_main.specs.Props.{prop_behind};
ghost use Rattle.volume_format.specs.Format.{new_props};

use crate::laying::in_units;
use media_lpt::Lprop;
use std::alloc::{AllocError, Global};
use ubifs_base::Geometry;

// The properties of all main LEBs: the root directory's, the index's, and the empty ones.
pub(crate) fn new_properties(alloc: Global, geometry: &Geometry) -> Result<Vec<Lprop>, AllocError>
    requires two { 2 ≤ main_lebs (raw_of geometry.now) }
    ensures props { IfOk result (λ props. props.items ≡ new_props (raw_of geometry.now)) }
    ensures whole { IfOk result (λ props. AreProps (raw_of geometry.now) props.items) }
{
    let empty = Lprop {
        free: geometry.leb_size,
        dirty: 0,
        index: false,
    };
    let mut props = vec![in alloc; empty; geometry.main_lebs() as usize]?;
    props[0] = behind(geometry, 160, false);
    props[1] = behind(geometry, 48, true);
    Ok(props)
}

// What is left of a main LEB behind so many bytes and their units.
fn behind(geometry: &Geometry, len: u32, index: bool) -> Lprop
    requires fits { len ≤ geometry.now.leb_size }
    requires words { len % 8 ≡ 0 }
    ensures prop { result ≡ prop_behind (raw_of geometry.now) len index }
    ensures possible { IsLprop (raw_of geometry.now) result }
{
    let size = in_units(geometry, len);
    Lprop {
        free: geometry.leb_size - size,
        dirty: size - len,
        index,
    }
}
