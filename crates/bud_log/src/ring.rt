// The ring of the log.

ghost use Rattle.std.specs.Prelude.{◌≡◌};
ghost use Rattle.ubifs_base.specs.RawOf.{raw_of};
ghost use Rattle.bud_log.specs.Log.{IsLogLeb, next_leb as next_log_leb};

use ubifs_base::Geometry;

/// The log LEB behind another, round the ring.
pub fn next_leb(geometry: &Geometry, lnum: u32) -> u32
    requires { IsLogLeb (raw_of geometry.now) lnum }
    ensures next { result ≡ next_log_leb (raw_of geometry.now) lnum }
    ensures ring { IsLogLeb (raw_of geometry.now) result }
{
    let past = geometry.lpt_first();
    if lnum + 1 < past { lnum + 1 } else { 3 }
}
