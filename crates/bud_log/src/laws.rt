// What contents can be read as.

ghost use Rattle.std.specs.Prelude.{◌≡◌, List, ℕ};
ghost use Rattle.ubifs_base.specs.NodeLaws.{IsBytes};
ghost use Rattle.ubifs_base.specs.declared.raw_geometry.RawGeometry.{RawGeometry as AGeometry};
ghost use Rattle.bud_log.specs.Log.{IsLogLeb, Log, IsLog};

use leb_scan::one_text;
use media_sys::one_node;

/// Read from a LEB of the log on, contents are at most one log, whatever stands outside the log's LEBs.
pub fn one_log()
    ensures { (contents : ℕ → List ℕ) (geo : AGeometry) (from : ℕ) (a b : Log) → IsLogLeb geo from → ((k : ℕ) → IsLogLeb geo k → IsBytes (contents k)) → IsLog contents geo from a → IsLog contents geo from b → a ≡ b }
{
    one_text();
    one_node();
}
