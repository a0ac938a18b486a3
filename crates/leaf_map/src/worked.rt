// Leaves and journals worked by hand: what the definitions make of them.

ghost use Rattle.std.specs.Prelude.{◌≡◌, ◌∷◌, []};
ghost use Rattle.fs_model.specs.declared.change.Change.TheVariants.{CutBlocks, DropEntry, DropInode, SetEntry};
ghost use Rattle.group_nodes.specs.Nodes.{node_of};
ghost use Rattle.leaf_map.specs.After.{kept_after};
ghost use Rattle.leaf_map.specs.Kept.{kept_at};
ghost use Rattle.leaf_map.specs.Recovered.{recovered_of, tree_found};
ghost use Rattle.leaf_map.specs.Shown.{blocks_shown_by, entries_of};
ghost use Rattle.leaf_map.specs.SpaceFound.{empty_lebs, space_found};
ghost use Rattle.leaf_map.specs.Worked.{am, another_key, area, at, bb, block_copy, collected_parts, deleted, file, inode_copy, linked_again, name, one_is_gone, place_in_bud, places, replaced_parts, still_orphan, three_blocks, two_heads, two_names, two_opened, two_owners, unknown_kind_inode, unknown_orphan};

/// Of two names of one hash one goes, or is set again at its own place; a truncation to 4,096 bytes leaves the first block.
pub fn leaves_are_told()
    ensures dropped { entries_of (kept_after two_names (at 31 0 9 (DropEntry 1 bb))) ≡ ((1, am), name am 65) ∷ [] }
    ensures set_again { places (kept_after two_names (at 31 0 9 (SetEntry (name am 67)))) ≡ (20, 0) ∷ (31, 0) ∷ (20, 224) ∷ [] }
    ensures cut { blocks_shown_by (kept_after three_blocks (at 31 0 9 (CutBlocks 65 12288 4096))) ≡ ((65, 0), 97 ∷ []) ∷ [] }
{}

/// A listed orphan goes with its blocks, unless it got its link again. One of no known kind stays if its own node has links, and what
/// stands for it stays with it. What was deleted isn't brought back by its copies.
/// Nodes of two heads are applied in order of number, and the highest number is also one of theirs. A place in a bud is no
/// original, and no node of another key is one; and a name whose original is gone stands at its copy, and not at that of another name of its hash.
pub fn recovery_of_leaves_is_told()
    ensures orphan { tree_found still_orphan ≡ record { inodes = []; blocks = []; entries = []; highest = 65 } }
    ensures linked { tree_found linked_again ≡ record { inodes = (65, file 1) ∷ []; blocks = ((65, 0), 97 ∷ []) ∷ []; entries = []; highest = 65 } }
    ensures unknown { (recovered_of (unknown_orphan 1)).kept ≡ record { leaf = (kept_at (unknown_kind_inode 1)).leaf; sqnum = 0; node = node_of (DropInode 65) } ∷ [] }
    ensures unlinked { (recovered_of (unknown_orphan 0)).kept ≡ [] }
    ensures deleted { tree_found deleted ≡ record { inodes = []; blocks = []; entries = []; highest = 65 } }
    ensures heads { tree_found two_heads ≡ record { inodes = (66, file 1) ∷ []; blocks = []; entries = []; highest = 66 } }
    ensures bud { tree_found place_in_bud ≡ record { inodes = []; blocks = []; entries = ((1, am), name am 65) ∷ []; highest = 64 } }
    ensures another { tree_found another_key ≡ record { inodes = (65, file 1) ∷ []; blocks = []; entries = []; highest = 65 } }
    ensures names { entries_of (recovered_of one_is_gone).kept ≡ ((1, am), name am 65) ∷ ((1, bb), name bb 66) ∷ [] }
{}

/// All leaves of a collected LEB stand at their copies if all were copied, and else none does.
pub fn collections_are_told()
    ensures whole { places (recovered_of (collected_parts (inode_copy ∷ block_copy ∷ []))).kept ≡ (30, 0) ∷ (30, 160) ∷ [] }
    ensures half { places (recovered_of (collected_parts (inode_copy ∷ []))).kept ≡ (20, 0) ∷ (20, 160) ∷ [] }
{}

/// A LEB whose leaves were all copied is empty; where one wasn't, the LEB opened for the copies counts instead, and of two such
/// the lower one alone. One whose leaves a bud's nodes replace is empty too, and those nodes count in the weight.
pub fn recovered_space_is_told()
    ensures whole { empty_lebs area (collected_parts (inode_copy ∷ block_copy ∷ [])) ≡ 20 ∷ 21 ∷ 32 ∷ [] }
    ensures half { empty_lebs area (collected_parts (inode_copy ∷ [])) ≡ 21 ∷ 30 ∷ 32 ∷ [] }
    ensures lowest { empty_lebs area two_opened ≡ 21 ∷ 30 ∷ 31 ∷ [] }
    ensures two_heads { empty_lebs area two_owners ≡ 21 ∷ 31 ∷ 32 ∷ [] }
    ensures replaced { empty_lebs area replaced_parts ≡ 20 ∷ 21 ∷ 30 ∷ 32 ∷ [] }
    ensures numbers { space_found area replaced_parts ≡ record { used = 160; held = 0; credits = 0; empty = 4; index = 1; weight = 3; main = 6 } }
{}
