// Laws: how the parts of the rule are joined.

ghost use Rattle.std.specs.Prelude.{◌⊎◌};
ghost use Rattle.leaf_map.specs.Parts.{Parts};
ghost use Rattle.sound_image.specs.Breaches.{IsWrongNode};
ghost use Rattle.sound_image.specs.Wrong.{Wrong};
ghost use Rattle.shown_leaves.specs.FalseNodes.{IsFalseCopy, IsUnchanging};

/// What is wrong with nodes is a node of the journal that says no change, or one of the collector's that is no copy.
pub fn wrong_nodes_are_of_two_kinds()
    ensures of { (parts : Parts) (at : Wrong) → IsWrongNode parts at → IsUnchanging parts.nodes at ⊎ IsFalseCopy parts at }
    ensures to { (parts : Parts) (at : Wrong) → IsUnchanging parts.nodes at ⊎ IsFalseCopy parts at → IsWrongNode parts at }
{}
