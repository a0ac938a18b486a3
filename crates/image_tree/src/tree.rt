// The rule on the tree.

ghost use Rattle.std.specs.Prelude.{◌≡◌, ◌⊎◌, ℕ, List, IfErr, IfNone, IfOk, map};
ghost use Rattle.ubi_volume.specs.Volume.{Keeps, SameShape};
ghost use Rattle.ubi_volume.specs.Faults.{HasAreaCause, StaysSureArea};
ghost use Rattle.leaf_map.specs.Kept.{Kept};
ghost use Rattle.leaf_map.specs.Parts.{Parts};
ghost use Rattle.leaf_map.specs.Recovered.{recovered_of};
ghost use Rattle.leaf_map.specs.Shown.{tree_of};
ghost use Rattle.sound_image.specs.Breaches.{IsCommittedTwice, IsWrongInTree, IsWrongNode};
ghost use Rattle.sound_image.specs.Image.{Image, parts_of};
ghost use Rattle.sound_image.specs.Tree.{HasTree};
ghost use Rattle.sound_image.specs.Wrong.{IsFirstWrong};
ghost use Rattle.sound_image.specs.declared.rule.Rule.TheVariants as rules;
ghost use Rattle.image_check.specs.Told.{HasCheckCause, IsBreachOf, StaysSureCheck, TellsBreach};
ghost use Rattle.image_check.specs.WrongValues.{IsFirstOf};
ghost use Rattle.shown_leaves.specs.Sources.{AreSourced};
ghost use Rattle.tree_check.specs.Told.{AreShownBy};
ghost use Rattle.image_tree.specs.Judged.{IsJudged};
ghost use Rattle.image_tree.specs.Reads.{IsJournalOfImage, IsTreeReadOf};
ghost use Rattle.image_tree.specs.Trees.{AreNodesTold, AreWellPlaced, HasPartNodes, IsNamedIn, IsWrongPlaced};
ghost use Rattle.image_tree.specs.Sources.{sourced_of};

use crate::judged::judge;
use crate::sourced::{first_empty, first_named, sourced};
use crate::tree_found::TreeFound;
use crate::tree_read::TreeRead;
use image_check::{CheckFault, WrongValue, sooner};
use index_tree::Leaf;
use journal_scan::JournalRead;
use leaf_recovery::RecoveredLeaf;
use log_replay::CommittedLeaf;
use media_sys::{Master, RefNode};
use shown_leaves::{
    first_false_copy, first_twice, first_unchanging, read_shown, wrong_nodes_are_of_two_kinds,
};
use sound_image::{Rule, what_was_read_stands};
use std::alloc::Global;
use tree_check::{ShownLeaf, first_out_of_place, nothing_misplaced_means_in_place};
use ubi_volume::{AreaFault, Volume};

/// The rule on the tree (`HasTree` of crate sound_image) of what was read and recovered, as [`crate::check_recovered`] answers it of the
/// same leaves, references and journal; and what the leaves after recovery show (`dbg_check_filesystem` of Linux fs/ubifs). `Unsound`
/// tells the first of: a node that says no change, a node of the collector's that is no copy, a committed leaf that is there twice, a
/// leaf that shows what one before it shows, a leaf that doesn't show what stands at its place or is out of its place, a name of
/// inode number 0, and no inode 1, which is wrong where the master says that the index begins. Reads each leaf's node, and nothing of
/// what was read before. Takes memory for a fixed multiple of the leaves, names included, and for two nodes' bytes.
pub fn check_tree<V: Volume>(
    alloc: Global,
    volume: &mut V,
    master: &Master,
    leaves: &[Leaf],
    references: &[RefNode],
    journal: &JournalRead,
    read: &TreeRead,
) -> Result<Vec<ShownLeaf>, CheckFault>
    ensures met { IfOk result (λ shown. (image : Image) → IsJournalOfImage (V.state volume.old).holds leaves.now references.now journal.now image → IsTreeReadOf (V.state volume.old).holds image read.now → HasTree (V.state volume.old).holds (parts_of image) × AreShownBy (recovered_of (parts_of image)).kept shown.items) }
    ensures broken { IfErr result (λ fault. (image : Image) → IsJournalOfImage (V.state volume.old).holds leaves.now references.now journal.now image → IsTreeReadOf (V.state volume.old).holds image read.now → TellsBreach (IsBreachOf rules.Tree (IsFirstWrong (IsWrongInTree (V.state volume.old).holds master.now (parts_of image)))) fault) }
    ensures keeps { Keeps (V.state volume.old) (V.state volume.new) × SameShape (V.state volume.old) (V.state volume.new) }
    ensures cause { HasCheckCause (V.state volume.old).faults (V.state volume.new).faults result }
    ensures sure { StaysSureCheck (V.state volume.old) (V.state volume.new) result }
{
    match find_wrong(alloc, volume, master, leaves, references, journal, read) {
        Ok(found) => answer(found),
        Err(AreaFault::Memory) => Err(CheckFault::Memory),
        Err(AreaFault::Volume { count }) => Err(CheckFault::Volume { count }),
    }
}

// What is found, as it is answered.
fn answer(found: TreeFound) -> Result<Vec<ShownLeaf>, CheckFault>
    ensures judged { IsJudged rules.Tree found.wrong result }
    ensures same { IfOk result (λ shown. shown ≡ found.shown) }
{
    judge(Rule::Tree, found.wrong)?;
    Ok(found.shown)
}

// What is wrong first in all parts.
fn find_wrong<V: Volume>(
    alloc: Global,
    volume: &mut V,
    master: &Master,
    leaves: &[Leaf],
    references: &[RefNode],
    journal: &JournalRead,
    read: &TreeRead,
) -> Result<TreeFound, AreaFault>
    ensures shown { IfOk result (λ found. (image : Image) → IsJournalOfImage (V.state volume.old).holds leaves.now references.now journal.now image → IsTreeReadOf (V.state volume.old).holds image read.now → AreShownBy (recovered_of (parts_of image)).kept found.shown.items) }
    ensures first { IfOk result (λ found. (image : Image) → IsJournalOfImage (V.state volume.old).holds leaves.now references.now journal.now image → IsTreeReadOf (V.state volume.old).holds image read.now → IsFirstOf (IsWrongInTree (V.state volume.old).holds master.now (parts_of image)) found.wrong) }
    ensures right { IfOk result (λ found. (image : Image) → IsJournalOfImage (V.state volume.old).holds leaves.now references.now journal.now image → IsTreeReadOf (V.state volume.old).holds image read.now → IfNone found.wrong (HasTree (V.state volume.old).holds (parts_of image))) }
    ensures keeps { Keeps (V.state volume.old) (V.state volume.new) × SameShape (V.state volume.old) (V.state volume.new) }
    ensures cause { HasAreaCause (V.state volume.old).faults (V.state volume.new).faults result }
    ensures sure { StaysSureArea (V.state volume.old) (V.state volume.new) result }
{
    what_was_read_stands();
    let nodes = wrong_node(
        alloc,
        volume,
        leaves,
        references,
        read.committed.as_slice(),
        journal,
    )?;
    let repeated = wrong_repeated(alloc, volume, read.recovered.repeated.as_slice())?;
    let root = (master.root_lnum, master.root_offs);
    let kept = wrong_kept(alloc, volume, read.recovered.kept.as_slice(), root)?;
    let empty = first_empty(read.recovered.empty.as_slice());
    let others = sooner(repeated, empty);
    Ok(TreeFound {
        shown: kept.shown,
        wrong: sooner(sooner(nodes, others), kept.wrong),
    })
}

// Of nodes, copies and committed leaves.
fn wrong_node<V: Volume>(
    alloc: Global,
    volume: &mut V,
    leaves: &[Leaf],
    references: &[RefNode],
    committed: &[CommittedLeaf],
    journal: &JournalRead,
) -> Result<Option<WrongValue>, AreaFault>
    ensures first { IfOk result (λ first. (parts : Parts) → AreNodesTold (V.state volume.old).holds parts leaves.now references.now committed.now journal.now → IsFirstOf (λ at. IsWrongNode parts at ⊎ IsCommittedTwice parts at) first) }
    ensures right { IfOk result (λ first. (parts : Parts) → AreNodesTold (V.state volume.old).holds parts leaves.now references.now committed.now journal.now → IfNone first (HasPartNodes parts)) }
    ensures keeps { Keeps (V.state volume.old) (V.state volume.new) × SameShape (V.state volume.old) (V.state volume.new) }
    ensures cause { HasAreaCause (V.state volume.old).faults (V.state volume.new).faults result }
    ensures sure { StaysSureArea (V.state volume.old) (V.state volume.new) result }
{
    wrong_nodes_are_of_two_kinds();
    let unchanging = first_unchanging(journal.nodes.as_slice());
    let copies = first_false_copy(
        alloc,
        volume,
        references,
        committed,
        journal.copies.as_slice(),
    )?;
    let twice = first_twice(alloc, leaves)?;
    Ok(sooner(sooner(unchanging, copies), twice))
}

// Of leaves that show what one before them shows: the first.
fn wrong_repeated<V: Volume>(
    alloc: Global,
    volume: &mut V,
    repeated: &[RecoveredLeaf],
) -> Result<Option<WrongValue>, AreaFault>
    ensures first { IfOk result (λ first. (kept : List Kept) → AreSourced (V.state volume.old).holds kept (map sourced_of repeated.now) → IsFirstOf (IsNamedIn kept) first) }
    ensures keeps { Keeps (V.state volume.old) (V.state volume.new) × SameShape (V.state volume.old) (V.state volume.new) }
    ensures cause { HasAreaCause (V.state volume.old).faults (V.state volume.new).faults result }
    ensures sure { StaysSureArea (V.state volume.old) (V.state volume.new) result }
{
    let leaves = sourced(alloc, repeated)?;
    let shown = read_shown(alloc, volume, leaves.as_slice())?;
    Ok(first_named(shown.leaves.as_slice()))
}

// Of the leaves after recovery.
fn wrong_kept<V: Volume>(
    alloc: Global,
    volume: &mut V,
    kept: &[RecoveredLeaf],
    root: (u32, u32),
) -> Result<TreeFound, AreaFault>
    ensures shown { IfOk result (λ found. (xs : List Kept) → AreSourced (V.state volume.old).holds xs (map sourced_of kept.now) → AreShownBy xs found.shown.items) }
    ensures first { IfOk result (λ found. (xs : List Kept) (highest : ℕ) → AreSourced (V.state volume.old).holds xs (map sourced_of kept.now) → IsFirstOf (IsWrongPlaced (V.state volume.old).holds xs (tree_of xs highest) root) found.wrong) }
    ensures right { IfOk result (λ found. (xs : List Kept) (highest : ℕ) → AreSourced (V.state volume.old).holds xs (map sourced_of kept.now) → IfNone found.wrong (AreWellPlaced (V.state volume.old).holds xs (tree_of xs highest))) }
    ensures keeps { Keeps (V.state volume.old) (V.state volume.new) × SameShape (V.state volume.old) (V.state volume.new) }
    ensures cause { HasAreaCause (V.state volume.old).faults (V.state volume.new).faults result }
    ensures sure { StaysSureArea (V.state volume.old) (V.state volume.new) result }
{
    nothing_misplaced_means_in_place();
    let leaves = sourced(alloc, kept)?;
    let shown = read_shown(alloc, volume, leaves.as_slice())?;
    let misplaced = first_out_of_place(alloc, shown.leaves.as_slice(), root)?;
    Ok(TreeFound {
        shown: shown.leaves,
        wrong: sooner(shown.unlike, misplaced),
    })
}
