// Reading a LEB as a whole.

ghost use Rattle.std.specs.Prelude.{◌≡◌, ◌<◌, length, OnOk};
ghost use Rattle.ubi_volume.specs.Volume.{Keeps, SameShape};
ghost use Rattle.ubi_volume.specs.Faults.{HasCause, StaysSure};

use crate::{VolFault, Volume};

/// Reads all bytes of a LEB.
pub fn read_leb<V: Volume>(volume: &mut V, lnum: u32, out: &mut [u8]) -> Result<(), VolFault>
    requires lnum { lnum < (V.state volume.old).leb_cnt }
    requires whole { length out.old ≡ (V.state volume.old).leb_size }
    ensures read { OnOk result (out.new ≡ (V.state volume.old).holds lnum) }
    ensures keeps { Keeps (V.state volume.old) (V.state volume.new) }
    ensures shape { SameShape (V.state volume.old) (V.state volume.new) }
    ensures cause { HasCause (V.state volume.old).faults (V.state volume.new).faults result }
    ensures sure { StaysSure (V.state volume.old) (V.state volume.new) result }
{
    volume.read(lnum, 0, out)
}
