// Why a store may only be read.

ghost use Rattle.std.specs.Prelude.{◌≡◌};
ghost use Rattle.fs_model.specs.Settled as definition;
ghost use Rattle.ubifs_base.specs.RawOf.{raw_of};
ghost use Rattle.space_sums.specs.Sums.{IsSmall};

use crate::sums::{index_lebs, index_room, leaf_bytes};
use fs_model::{Cause, Scarce, Space};
use ubifs_base::Geometry;

/// Why a store with these numbers may only be read, if there is a cause: the first of three tests that fails, with what is
/// needed and what there is room for. They are on the bytes that leaves take, on empty LEBs for the next commit, and on
/// LEBs that are empty or the index's for the commits after it (Hunter 2008, budgeting). Takes no memory.
pub fn settled(geo: &Geometry, space: &Space) -> Option<Cause>
    requires { IsSmall space.now }
    ensures { result ≡ definition.settled (raw_of geo.now) space.now }
{
    let next = index_lebs(geo, space.weight);
    let kept = index_room(geo, space.index, space.weight);
    let limit = leaf_bytes(geo, space.main, kept, 6);
    let empty = space.empty as u64;
    cause_of(Scarce::Space, space.used + space.held, limit)
        .or(cause_of(Scarce::Empty, 1 + next, empty))
        .or(cause_of(Scarce::Index, 1 + 3 * next, empty + space.index as u64))
}

// There is too little of this where the need exceeds the room.
fn cause_of(what: Scarce, need: u64, room: u64) -> Option<Cause>
    ensures { result ≡ definition.cause_of what need room }
{
    if need <= room {
        None
    } else {
        Some(Cause::Tight { what, need, room })
    }
}
