// The rule on links.

ghost use Rattle.std.specs.Prelude.{IfErr, IfOk};
ghost use Rattle.leaf_map.specs.Parts.{Parts};
ghost use Rattle.leaf_map.specs.Recovered.{recovered_of, tree_found};
ghost use Rattle.sound_image.specs.Breaches.{IsWrongLink};
ghost use Rattle.sound_image.specs.Tree.{HasLinks};
ghost use Rattle.sound_image.specs.Wrong.{IsFirstWrong};
ghost use Rattle.sound_image.specs.declared.rule.Rule.TheVariants as rules;
ghost use Rattle.image_check.specs.Told.{IsBreachOf, IsNoVolumeFault, TellsBreach};
ghost use Rattle.tree_check.specs.Told.{AreShownBy};

use crate::judged::judge;
use image_check::CheckFault;
use sound_image::Rule;
use std::alloc::Global;
use tree_check::{ShownLeaf, first_wrong_link, no_wrong_link_means_right_links};

/// The rule on links (`HasLinks` of crate sound_image) of the leaves after recovery, of which this is shown: each inode that is no
/// directory has as many links as names, and one at least (`dbg_check_filesystem` of Linux fs/ubifs). `Unsound` tells the first inode
/// that hasn't: the number of its names is wanted, and its links are found. Reads nothing. Takes memory for maps with an entry a name.
pub fn check_links(alloc: Global, shown: &[ShownLeaf]) -> Result<(), CheckFault>
    ensures met { IfOk result (λ _. (parts : Parts) → AreShownBy (recovered_of parts).kept shown.now → HasLinks (tree_found parts)) }
    ensures broken { IfErr result (λ fault. (parts : Parts) → AreShownBy (recovered_of parts).kept shown.now → TellsBreach (IsBreachOf rules.Links (IsFirstWrong (IsWrongLink parts))) fault) }
    ensures no_volume { IsNoVolumeFault result }
{
    no_wrong_link_means_right_links();
    match first_wrong_link(alloc, shown) {
        Ok(found) => judge(Rule::Links, found),
        Err(_fault) => Err(CheckFault::Memory),
    }
}
