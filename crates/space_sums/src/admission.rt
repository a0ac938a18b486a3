// The two sides of the admission test.

ghost use Rattle.std.specs.Prelude.{◌≡◌, ◌<◌, ◌^◌};
ghost use Rattle.fs_model.specs.Cover.{needed, room_for, reserve};
ghost use Rattle.ubifs_base.specs.RawOf.{raw_of};
ghost use Rattle.space_sums.specs.Sums.{IsSmall, IsModest};

use crate::sides::Room;
use crate::sums::{index_room, leaf_bytes};
use fs_model::{Class, Need, Space};
use ubifs_base::Geometry;

/// What is needed once this need is granted too, and what there is room for.
pub fn room(geo: &Geometry, space: &Space, need: &Need) -> Room
    requires space { IsSmall space.now }
    requires need { IsModest need.now }
    ensures need { result.need ≡ needed space.now need.now }
    ensures limit { result.limit ≡ room_for (raw_of geo.now) space.now need.now }
{
    let credits = space.credits + need.credits;
    let index = index_room(geo, space.index, space.weight + 2 * credits + need.nodes);
    Room {
        need: space.used + space.held + 4304 * credits + need.bytes,
        limit: leaf_bytes(geo, space.main, index, kept_beside(need.class)),
    }
}

fn kept_beside(class: Class) -> u64
    ensures value { result ≡ reserve class }
    ensures few { result < 16 }
{
    match class {
        Class::Ordinary => 10,
        Class::Removal => 6,
    }
}
