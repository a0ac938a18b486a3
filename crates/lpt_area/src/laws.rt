// Laws of trees.

ghost use Rattle.std.specs.Prelude.{◌≡◌, ℕ, List};
ghost use Rattle.ubifs_base.specs.NodeLaws.{IsBytes};
ghost use Rattle.ubifs_base.specs.declared.raw_geometry.RawGeometry.{RawGeometry};
ghost use Rattle.media_lpt.specs.declared.lprop.Lprop.{Lprop};
ghost use Rattle.media_lpt.specs.declared.nnode.LptPlace.{LptPlace};
ghost use Rattle.lpt_area.specs.Tree.{IsTree, IsTreeIn};

use media_lpt::one_node;

/// A tree says one list of properties and no other.
pub fn one_list()
    ensures { (geo : RawGeometry) (holds : ℕ → List ℕ) (root : LptPlace) (a b : List Lprop) → ((lnum : ℕ) → IsBytes (holds lnum))
        → IsTree geo holds root a → IsTree geo holds root b → a ≡ b }
{
    one_node();
}

/// A tree of which each node stands in one LEB stands in all contents of which that LEB is the same.
pub fn still_there()
    ensures { (geo : RawGeometry) (holds : ℕ → List ℕ) (lnum : ℕ) (leb : List ℕ) (root : LptPlace) (props : List Lprop) → holds lnum ≡ leb
        → IsTreeIn geo lnum leb root props → IsTree geo holds root props }
{}
