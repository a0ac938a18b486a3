// Laws of the definitions: of leaves, and of the trees that they show.

ghost use Rattle.std.specs.Prelude.{◌≡◌, ◌⊎◌, ◌+◌, ◌++◌, ℕ, IsTrue, List, Some, false, if◌then◌else◌, map, max, true};
ghost use Rattle.std.specs.BTreeMap.{is_at};
ghost use Rattle.std.specs.List.{find, list_any};
ghost use Rattle.std.specs.Map.{lookup};
ghost use Rattle.ubifs_base.specs.declared.key.Key.TheVariants.{Ino};
ghost use Rattle.media_leaf.specs.LeafNode.{IsLeaf, LeafNode};
ghost use Rattle.index_tree.specs.Distinct.{AreDistinct};
ghost use Rattle.index_tree.specs.Order.{key_rank};
ghost use Rattle.index_tree.specs.RangeRemoval.{outside_range};
ghost use Rattle.index_tree.specs.Removal.{holds};
ghost use Rattle.fs_model.specs.declared.change.Change.{Change as AnyChange};
ghost use Rattle.fs_model.specs.declared.change.Change.TheVariants.{CutBlocks, DropEntry, DropInode};
ghost use Rattle.fs_model.specs.Backing.{is_node};
ghost use Rattle.fs_model.specs.Change.{applied, apply, key_number};
ghost use Rattle.fs_model.specs.Files.{Tree, inode_at, name_cmp, pair_cmp};
ghost use Rattle.fs_model.specs.Proper.{IsInOrder};
ghost use Rattle.group_nodes.specs.Nodes.{change_of, node_of};
ghost use Rattle.fs_model.specs.Recovery.{Head, IsRecovered, KeepsSynced, Numbered, recovered, taken};
ghost use Rattle.leaf_map.specs.Allowed.{AreOriginals, FitsLeaves, FitsTree, HasInode, IsNodeCopied, IsNodeOfLeaves, IsOwnNode, IsTouchedIn, LosesNothing};
ghost use Rattle.leaf_map.specs.After.{ShowsChange, come_by, gone_by, is_gone, is_idle, is_set, kept_after, kept_by, used_by};
ghost use Rattle.leaf_map.specs.Follows.{block_key_from, last_block_key, with_leaf, without_old};
ghost use Rattle.leaf_map.specs.InOrder.{Ascends, are_beside, of_number};
ghost use Rattle.leaf_map.specs.Kept.{Kept, Placed, kept_at, shown_by};
ghost use Rattle.leaf_map.specs.LastChange.{last_made, makes_block, makes_entry, makes_inode, there};
ghost use Rattle.leaf_map.specs.LeafMap.{IsLeafMap};
ghost use Rattle.leaf_map.specs.Parts.{Parts, is_shown};
ghost use Rattle.leaf_map.specs.Recovered.{committed_highest, nodes_in_order, is_unlinked, leaves_found, moved_to_its_copy, tree_found, without_orphan};
ghost use Rattle.leaf_map.specs.Shown.{tree_of};

/// The tree of the leaves after a change is the change applied to their tree; they are leaves as an index has them again.
/// The same is so of a node that is read of a journal, and of the change that it carries.
pub fn a_change_of_leaves_is_one_of_the_tree()
    ensures tree { (change : AnyChange) (new : Placed) (kept : List Kept) (highest : ℕ) → IsLeaf new.node → ShowsChange change new.node → IsLeafMap kept
        → tree_of (kept_by change (kept_at new) kept) (max highest (key_number change)) ≡ applied (tree_of kept highest) change }
    ensures kept { (change : AnyChange) (new : Placed) (kept : List Kept) → IsLeaf new.node → ShowsChange change new.node → IsLeafMap kept
        → IsLeafMap (kept_by change (kept_at new) kept) }
    ensures read { (change : AnyChange) (new : Placed) (kept : List Kept) (highest : ℕ) → IsLeaf new.node → change_of new.node ≡ Some change → IsLeafMap kept
        → tree_of (kept_after kept new) (max highest (key_number change)) ≡ applied (tree_of kept highest) change }
    ensures kept_read { (new : Placed) (kept : List Kept) → IsLeaf new.node → IsLeafMap kept → IsLeafMap (kept_after kept new) }
{}

/// Bytes add up: those of the leaves after a change and of the ones that it makes obsolete are those of the leaves before
/// and of the one that comes.
pub fn bytes_of_leaves_add_up()
    ensures { (change : AnyChange) (new : Placed) (kept : List Kept) → IsLeaf new.node → ShowsChange change new.node → IsLeafMap kept
        → used_by (kept_by change (kept_at new) kept) + used_by (gone_by change kept) ≡ used_by kept + used_by (come_by change (kept_at new) kept) }
{}

/// The last change wins: what stands at an inode's number, a block or a name after changes is what the last of them that
/// touches it made, or what stood there before. The tree that leaves show is one of which this is so.
pub fn the_last_change_wins()
    ensures inode { (q : ℕ) (changes : List AnyChange) (tree : Tree) → IsInOrder tree
        → inode_at (apply tree changes) q ≡ there (last_made (makes_inode q) tree changes) (inode_at tree q) }
    ensures block { (q : ℕ × ℕ) (changes : List AnyChange) (tree : Tree) → IsInOrder tree
        → lookup (is_at (pair_cmp q)) (apply tree changes).blocks ≡ there (last_made (makes_block q) tree changes) (lookup (is_at (pair_cmp q)) tree.blocks) }
    ensures entry { (q : ℕ × List ℕ) (changes : List AnyChange) (tree : Tree) → IsInOrder tree
        → lookup (is_at (name_cmp q)) (apply tree changes).entries ≡ there (last_made (makes_entry q) tree changes) (lookup (is_at (name_cmp q)) tree.entries) }
    ensures sorted { (kept : List Kept) (highest : ℕ) → IsLeafMap kept → IsInOrder (tree_of kept highest) }
{}

/// Distinct leaves stay distinct where no leaf stands at the place of the node that is put.
pub fn leaves_stay_distinct()
    ensures { (change : AnyChange) (new : Placed) (kept : List Kept) → holds (kept_at new).leaf (map (λ x. x.leaf) kept) ≡ false → AreDistinct (map (λ x. x.leaf) kept)
        → AreDistinct (map (λ x. x.leaf) (kept_by change (kept_at new) kept)) }
{}

/// Leaves that stand elsewhere show the same tree, if their nodes are the same; so a mount's choice between originals and
/// copies changes no tree.
pub fn a_copy_changes_no_tree()
    ensures places { (move : Kept → Kept) (kept : List Kept) (highest : ℕ) → ((x : Kept) → (move x).node ≡ x.node)
        → tree_of (map move kept) highest ≡ tree_of kept highest }
    ensures moved { (parts : Parts) (kept : List Kept) (highest : ℕ) → tree_of (map (moved_to_its_copy parts kept) kept) highest ≡ tree_of kept highest }
{}

/// A mount finds a tree that a cut may leave: what was read fits a committed tree and the groups that were read, of each head
/// first ones with all that are synced. The leaves that were found may lack, or tell otherwise, what these groups touch.
pub fn a_mount_finds_what_a_cut_may_leave()
    ensures found { (parts : Parts) (committed : Tree) (changes : Numbered) → FitsTree parts committed changes → tree_found parts ≡ recovered committed changes }
    ensures allowed { (parts : Parts) (committed : Tree) (heads : List Head) (counts : List ℕ) → KeepsSynced heads counts → FitsTree parts committed (taken heads counts)
        → IsRecovered committed heads (tree_found parts) }
{}

/// Where each committed leaf has its own node, the leaves that a mount finds are those, whatever copies there are.
pub fn originals_are_found()
    ensures { (parts : Parts) (kept : List Kept) → AreOriginals parts.named kept parts.committed → leaves_found parts ≡ kept }
{}

/// The node that a change makes carries it, also one that sets an inode without links.
pub fn nodes_of_changes_carry_them()
    ensures { (change : AnyChange) → IsTrue (is_node change) → ShowsChange change (node_of change) }
{}

/// An index follows: a leaf that is set takes the place of the one that goes, or goes behind all of no greater key; a name
/// that goes takes its leaf. A truncation is the removal of a range of keys, and so is an inode that goes with its blocks.
/// Of a listed orphan that same range goes if the inode has no links.
pub fn indexes_follow()
    ensures set { (change : AnyChange) (new : Placed) (kept : List Kept) → is_set change ≡ true → is_idle kept change ≡ false → IsLeaf new.node → ShowsChange change new.node
        → IsLeafMap kept → AreDistinct (map (λ x. x.leaf) kept)
        → map (λ x. x.leaf) (kept_by change (kept_at new) kept) ≡ with_leaf (find (is_gone change) kept) (kept_at new).leaf (map (λ x. x.leaf) kept) }
    ensures dropped { (dir : ℕ) (name : List ℕ) (new : Kept) (kept : List Kept) → IsLeafMap kept → AreDistinct (map (λ x. x.leaf) kept)
        → map (λ x. x.leaf) (kept_by (DropEntry dir name) new kept) ≡ without_old (find (is_gone (DropEntry dir name)) kept) (map (λ x. x.leaf) kept) }
    ensures cut { (ino old_size new_size : ℕ) (new : Kept) (kept : List Kept) → IsLeafMap kept
        → map (λ x. x.leaf) (kept_by (CutBlocks ino old_size new_size) new kept) ≡ outside_range (key_rank (block_key_from ino new_size)) (key_rank (last_block_key ino)) (map (λ x. x.leaf) kept) }
    ensures inode { (ino : ℕ) (new : Kept) (kept : List Kept) → IsLeafMap kept
        → map (λ x. x.leaf) (kept_by (DropInode ino) new kept) ≡ outside_range (key_rank (Ino ino)) (key_rank (last_block_key ino)) (map (λ x. x.leaf) kept) }
    ensures orphan { (ino : ℕ) (kept : List Kept) → IsLeafMap kept
        → map (λ x. x.leaf) (without_orphan kept ino) ≡ (if list_any (λ x. is_unlinked ino (shown_by x)) kept
        then outside_range (key_rank (Ino ino)) (key_rank (last_block_key ino)) (map (λ x. x.leaf) kept) else map (λ x. x.leaf) kept) }
    ensures left { (ino : ℕ) (kept : List Kept) → IsLeafMap kept → IsLeafMap (without_orphan kept ino) }
{}

/// Whichever originals are gone, the leaves that a mount finds are those of an index: each has its own key, and no two show
/// one inode, block or name.
pub fn found_leaves_are_of_an_index()
    ensures { (parts : Parts) (kept : List Kept) → FitsLeaves parts kept → IsLeafMap (leaves_found parts) }
{}

/// Whichever originals are gone, each committed node is found that stands at its own place still, or that has a copy.
pub fn copied_leaves_are_found()
    ensures { (parts : Parts) (kept : List Kept) → FitsLeaves parts kept → (node : LeafNode) → IsOwnNode parts.named parts.committed node ⊎ IsNodeCopied parts.copies node
        → IsNodeOfLeaves (leaves_found parts) node }
{}

/// What was read that loses nothing of committed leaves fits the tree that they show, so that a mount finds what a cut may leave of
/// it. A name's copy may be given to another leaf of its hash.
pub fn what_loses_nothing_fits()
    ensures fits { (parts : Parts) (kept : List Kept) (changes : Numbered) → LosesNothing parts kept changes → FitsTree parts (tree_of kept (committed_highest parts)) changes }
    ensures allowed { (parts : Parts) (kept : List Kept) (heads : List Head) (counts : List ℕ) → KeepsSynced heads counts → LosesNothing parts kept (taken heads counts)
        → IsRecovered (tree_of kept (committed_highest parts)) heads (tree_found parts) }
{}

/// A change that makes a leaf obsolete touches what the leaf shows: an inode, a name, or a block whose inode the tree has.
pub fn what_makes_obsolete_touches()
    ensures { (changes : List AnyChange) (tree : Tree) (x : Kept) → IsInOrder tree → HasInode tree (shown_by x) → is_shown (shown_by x) ≡ true → list_any (λ change. is_gone change x) changes ≡ true
        → IsTouchedIn tree changes (shown_by x) }
{}

/// Nodes in order of number depend on nothing but the nodes that each number has, in their order. So lists that have no number
/// in common may be joined either way, and an ascending list that has of each number the nodes of two lists is their merge.
pub fn order_forgets_how_nodes_were_joined()
    ensures same { (xs ys : List Placed) → ((n : ℕ) → of_number n xs ≡ of_number n ys) → nodes_in_order xs ≡ nodes_in_order ys }
    ensures joined { (front xs ys back : List Placed) → are_beside xs ys ≡ true → nodes_in_order (front ++ (xs ++ ys) ++ back) ≡ nodes_in_order (front ++ (ys ++ xs) ++ back) }
    ensures merged { (xs ys zs : List Placed) → Ascends 0 zs → ((n : ℕ) → of_number n zs ≡ of_number n xs ++ of_number n ys) → nodes_in_order (xs ++ ys) ≡ zs }
{}
