// Laws: the properties of main LEBs into which nodes were laid add up.

ghost use Rattle.std.specs.Prelude.{◌≡◌, ◌≢◌, ℕ, ◌+◌, ◌-◌, ◌<◌, ◌≤◌, ◌==◌, false, true, IsTrue, List, ◌++◌, Some, drop, filter, get_or, length, slice_get};
ghost use Rattle.ubifs_base.specs.Areas.{main_first, main_lebs};
ghost use Rattle.ubifs_base.specs.Geometry.{IsGeometry};
ghost use Rattle.ubifs_base.specs.declared.raw_geometry.RawGeometry.{RawGeometry};
ghost use Rattle.media_lpt.specs.declared.lprop.Lprop.{Lprop as AnLprop};
ghost use Rattle.media_sys.specs.declared.branch.Branch.{Branch};
ghost use Rattle.index_media.specs.PlacedRow.{bytes_taken};
ghost use Rattle.leb_scan.specs.Text.{is_blank};
ghost use Rattle.lpt_area.specs.Written.{AreProps};
ghost use Rattle.laid_main.specs.Filling.{AreFilled, TakesOfLebs};
ghost use Rattle.laid_main.specs.Props.{AreBytesTaken, laid_props, prop_behind};

/// The properties of main LEBs into which leaves and then an index were laid are possible ones. The free and dirty bytes of each LEB
/// and those that were taken are all its bytes; behind its free bytes nothing is written, unless all are free. LEBs with leaves aren't marked as the index's, and
/// those with index nodes are.
pub fn laid_lebs_have_their_properties()
    ensures possible { (geo : RawGeometry) (leaves index : List ℕ) → IsGeometry geo → AreBytesTaken geo leaves → AreBytesTaken geo index → length leaves + length index ≤ main_lebs geo
        → AreProps geo (laid_props geo leaves index) }
    ensures sums { (geo : RawGeometry) (leaves index : List ℕ) (nodes below : List Branch) → IsGeometry geo → AreBytesTaken geo leaves → AreBytesTaken geo index
        → TakesOfLebs (main_first geo) leaves below → TakesOfLebs (main_first geo + length leaves) index nodes → (i : ℕ) (prop : AnLprop) → slice_get (laid_props geo leaves index) i ≡ Some prop
        → prop.free + prop.dirty + bytes_taken (filter (λ branch. branch.lnum == main_first geo + i) (nodes ++ below)) ≡ geo.leb_size }
    ensures ends { (geo : RawGeometry) (contents : ℕ → List ℕ) (leaves index : List ℕ) → IsGeometry geo → AreFilled geo contents (main_first geo) leaves
        → AreFilled geo contents (main_first geo + length leaves) index → (i : ℕ) (prop : AnLprop) → slice_get (laid_props geo leaves index) i ≡ Some prop
        → prop.free < geo.leb_size → IsTrue (is_blank (drop (geo.leb_size - prop.free) (contents (main_first geo + i)))) }
    ensures leaves { (geo : RawGeometry) (leaves index : List ℕ) (i : ℕ) → i < length leaves → slice_get (laid_props geo leaves index) i ≡ Some (prop_behind geo (get_or leaves i 0) false) }
    ensures index { (geo : RawGeometry) (leaves index : List ℕ) (i : ℕ) → i < length index
        → slice_get (laid_props geo leaves index) (length leaves + i) ≡ Some (prop_behind geo (get_or index i 0) true) }
{}
