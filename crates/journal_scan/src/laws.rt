// Laws of texts: which groups they have, and where their nodes stand.

ghost use Rattle.std.specs.Prelude.{◌≡◌, ℕ, true, List, [], ◌++◌, map, take};
ghost use Rattle.std.specs.List.{AllByRecursion};
ghost use Rattle.media_leaf.specs.LeafNode.{IsLeaf};
ghost use Rattle.leb_scan.specs.Text.{nodes_of};
ghost use Rattle.leb_scan.specs.declared.item.Item.{Item};
ghost use Rattle.leaf_map.specs.Kept.{Placed};
ghost use Rattle.journal_scan.specs.Groups.{AreGaps, IsGroup, groups_within, joined_groups};
ghost use Rattle.journal_scan.specs.Journal.{AreLeaves, BudRead, IsBudRead, copies_in, is_unfinished, journal_nodes_in, whole_groups};
ghost use Rattle.journal_scan.specs.Places.{AreToldOnce, HavePlaces, named_by};
ghost use Rattle.journal_scan.specs.declared.bud_text.BudText.{BudText as AnyBud};

/// Groups with a part of one behind them are the groups. Of the first nodes of groups those groups are whole that have all their
/// nodes among them.
pub fn groups_are_whole()
    ensures part { (groups : List (List Placed)) (part : List Placed) → AllByRecursion IsGroup groups → is_unfinished part ≡ true
        → whole_groups (joined_groups groups ++ part) ≡ joined_groups groups }
    ensures first { (groups : List (List Placed)) (n : ℕ) → AllByRecursion IsGroup groups
        → whole_groups (take n (joined_groups groups)) ≡ joined_groups (take (groups_within n groups) groups) }
{}

/// The leaf nodes of items one behind another are those of the first and then those of the others, and gaps have none.
pub fn leaves_are_joined()
    ensures joined { (bud : AnyBud) (front back : List Item) (xs ys : List Placed) → AreLeaves bud (nodes_of front) xs → AreLeaves bud (nodes_of back) ys
        → AreLeaves bud (nodes_of (front ++ back)) (xs ++ ys) }
    ensures gaps { (bud : AnyBud) (items : List Item) → AreGaps bud items → AreLeaves bud (nodes_of items) [] }
{}

/// Where each LEB is told once, no two nodes of the texts stand at one place, and each stands where the log names it. The nodes
/// are of the grammar.
pub fn nodes_have_places()
    ensures leaves { (reads : List BudRead) → AllByRecursion IsBudRead reads → AllByRecursion (λ x. IsLeaf x.node) (journal_nodes_in reads) }
    ensures places { (buds : List AnyBud) (reads : List BudRead) → AreToldOnce buds → map (λ x. x.bud) reads ≡ buds → AllByRecursion IsBudRead reads
        → HavePlaces (map named_by buds) (copies_in reads) (journal_nodes_in reads) }
{}
