// What holds where nothing is found.

ghost use Rattle.std.specs.Prelude.{ℕ, List, None, IsSome};
ghost use Rattle.leaf_map.specs.Kept.{Kept, shown_by};
ghost use Rattle.leaf_map.specs.Shown.{tree_of};
ghost use Rattle.sound_image.specs.Breaches.{IsWrongLinkOf};
ghost use Rattle.sound_image.specs.Tree.{HasLinks};
ghost use Rattle.image_check.specs.WrongValues.{IsFirstOf};
ghost use Rattle.tree_check.specs.Places.{AreInPlace, IsOutOfPlaceAt};
ghost use Rattle.tree_check.specs.Told.{shown_told};

/// Where no inode's links are wrong, the tree meets the rule on links.
pub fn no_wrong_link_means_right_links()
    ensures { (kept : List Kept) (highest : ℕ) → IsFirstOf (IsWrongLinkOf kept (tree_of kept highest)) None → HasLinks (tree_of kept highest) }
{}

/// Where nothing is out of its place, leaves and their tree are as the rule on the tree says: no two show the same, inode 1 is a
/// directory, and names and directories are in their places.
pub fn nothing_misplaced_means_in_place()
    ensures { (kept : List Kept) (highest : ℕ) (root : ℕ × ℕ) → IsFirstOf (IsOutOfPlaceAt kept (tree_of kept highest) root) None → AreInPlace kept (tree_of kept highest) }
{}

/// What a leaf shows can be told, whatever node it has.
pub fn each_leaf_can_be_told()
    ensures { (x : Kept) → IsSome (shown_told (shown_by x)) }
{}
