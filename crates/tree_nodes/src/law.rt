// Laws: the live nodes of a proper tree show that tree, and what they say of it is the same to every caller.

ghost use Rattle.std.specs.Prelude.{◌≡◌, ℕ, IsTrue, List, map};
ghost use Rattle.std.specs.List.{AllByRecursion, list_all};
ghost use Rattle.fs_model.specs.Directory.{by_hash, entries_in};
ghost use Rattle.fs_model.specs.Files.{Handles, Tree, name_cmp};
ghost use Rattle.fs_model.specs.Proper.{IsProper, ascends};
ghost use Rattle.fs_model.specs.Same.{IsSame};
ghost use Rattle.leaf_map.specs.Kept.{Placed, kept_at, node_key};
ghost use Rattle.leaf_map.specs.LeafMap.{IsLeafMap};
ghost use Rattle.leaf_map.specs.Recovered.{highest_key};
ghost use Rattle.leaf_map.specs.Shown.{tree_of};
ghost use Rattle.tree_nodes.specs.Stored.{AreNodesOfTree, IsLiveLeaf, hash_and_name, is_owned, stored_tree};

/// The live nodes of a proper tree, wherever they stand, are the leaves of an index and show that tree. Each is a node of the grammar, and
/// none has an inode number above the tree's highest. Names of one hash are in order of name.
pub fn live_nodes_show_their_tree()
    ensures kept { (tree : Tree) (nodes : List Placed) → IsProper tree → AreNodesOfTree tree nodes → IsLeafMap (map kept_at nodes) }
    ensures tree { (tree : Tree) (nodes : List Placed) → IsProper tree → AreNodesOfTree tree nodes → tree_of (map kept_at nodes) tree.highest ≡ stored_tree tree }
    ensures highest { (tree : Tree) (nodes : List Placed) → IsProper tree → AreNodesOfTree tree nodes → highest_key tree.highest (map (λ x. node_key x.node) nodes) ≡ tree.highest }
    ensures nodes { (tree : Tree) (nodes : List Placed) → IsProper tree → AreNodesOfTree tree nodes → AllByRecursion (IsLiveLeaf tree) nodes }
    ensures names { (tree : Tree) (dir : ℕ) → IsTrue (ascends name_cmp (map hash_and_name (by_hash (entries_in tree dir)))) }
{}

/// What the nodes of a tree say is the tree itself to every caller, if each block's inode is there: only a directory's links and size, which
/// are reckoned, may be told otherwise.
pub fn a_stored_tree_is_the_same()
    ensures { (tree : Tree) (handles : Handles) → IsTrue (list_all (is_owned tree) tree.blocks)
        → IsSame (record { tree = stored_tree tree; handles = handles }) (record { tree = tree; handles = handles }) }
{}
