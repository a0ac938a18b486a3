// What LEBs held.

ghost use Rattle.std.specs.Prelude.{◌≡◌};
ghost use Rattle.table_nodes.specs.Beyond.{lebs_held};

use std::marker::Model;
use std::snapshot::Snapshot;
use told_value::{Told, tell_of};
use ubi_volume::Volume;

/// None is ever made: it is what contracts see of one that is told, the bytes of each LEB.
pub struct MediumSeen {
    _none: (),
}

impl Model for MediumSeen {
    ghost use Rattle.std.specs.Prelude.{ℕ, List, []};

    ghost Value = { List (List ℕ) };

    ghost view = { λ _. [] };
}

/// Tells the same once more.
pub fn tell_again(told: &Told<MediumSeen>) -> Told<MediumSeen>
    ensures { result.value ≡ told.now.value }
{
    tell_of(&Snapshot::of(told))
}

/// Tells what the LEBs of a volume hold.
pub fn see_medium<V: Volume>(volume: &V) -> Told<MediumSeen>
    ensures { result.value ≡ lebs_held (V.state volume.now).holds (V.state volume.now).leb_cnt }
{
    tell_of(volume)
}
