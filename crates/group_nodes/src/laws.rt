// Laws of the definitions: of changes and their nodes, and of groups and their bytes.

ghost use Rattle.std.specs.Prelude.{◌≡◌, ◌+◌, ◌%◌, ◌^◌, ◌<◌, ◌≤◌, ◌++◌, ◌∷◌, ℕ, suc, List, Some, IsTrue, take, drop, length, sum_by};
ghost use Rattle.std.specs.List.{list_all};
ghost use Rattle.media_leaf.specs.LeafNode.{IsLeaf};
ghost use Rattle.fs_model.specs.declared.change.Change.{Change as AnyChange};
ghost use Rattle.fs_model.specs.Backing.{is_node};
ghost use Rattle.fs_model.specs.Files.{Tree};
ghost use Rattle.fs_model.specs.Need.{change_bytes};
ghost use Rattle.fs_model.specs.Recovery.{as_replayed};
ghost use Rattle.group_nodes.specs.Nodes.{node_of, change_of};
ghost use Rattle.group_nodes.specs.Texts.{leaf_text, text_bytes};
ghost use Rattle.group_nodes.specs.Groups.{group_text, group_type, texts_from, IsGroupAt};

/// The node of a change is in the grammar, and carries what recovery makes of the change.
pub fn changes_are_carried()
    ensures node { (change : AnyChange) → IsTrue (is_node change) → IsLeaf (node_of change) }
    ensures carried { (change : AnyChange) → IsTrue (is_node change) → change_of (node_of change) ≡ Some (as_replayed change) }
{}

/// A group takes the bytes of its nodes, whatever their sequence numbers, which are a multiple of 8, and no change takes
/// more than admission reckons.
pub fn texts_have_length()
    ensures group { (sqnum : ℕ) (group : List AnyChange) → length (group_text sqnum group) ≡ sum_by text_bytes group }
    ensures even { (sqnum : ℕ) (group : List AnyChange) → length (group_text sqnum group) % 8 ≡ 0 }
    ensures admitted { (tree : Tree) (change : AnyChange) → text_bytes change ≤ change_bytes tree change }
{}

/// Where a LEB has the bytes of a group at a multiple of 8, nodes stand one behind another that carry its changes in order.
pub fn a_group_is_read_back()
    ensures { (leb : List ℕ) (place sqnum : ℕ) (group : List AnyChange) → place % 8 ≡ 0 → sqnum + length group < 2 ^ 64
        → IsTrue (list_all is_node group)
        → take (length (group_text sqnum group)) (drop place leb) ≡ group_text sqnum group → IsGroupAt leb place sqnum group }
{}

/// Where each node of a group stands: behind the nodes of the changes before it, which take the bytes of these, with the number
/// and the group type of its place.
pub fn nodes_have_places()
    ensures place { (n sqnum : ℕ) (before : List AnyChange) → length (texts_from n 0 sqnum before) ≡ sum_by text_bytes before }
    ensures node { (sqnum : ℕ) (before after : List AnyChange) (change : AnyChange) → let n = length (before ++ change ∷ after) in
        group_text sqnum (before ++ change ∷ after) ≡ texts_from n 0 sqnum before
        ++ (leaf_text (sqnum + length before + 1) (group_type n (length before)) (node_of change) ++ texts_from n (suc (length before)) (sqnum + length before + 1) after) }
{}
