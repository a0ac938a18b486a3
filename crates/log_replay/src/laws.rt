// Laws of what was read.

ghost use Rattle.std.specs.Prelude.{◌≡◌, ℕ, IsTrue, List, length, map, max};
ghost use Rattle.std.specs.List.{AllByRecursion};
ghost use Rattle.index_tree.specs.declared.index.Index.{Index};
ghost use Rattle.index_tree.specs.Distinct.{AreDistinct};
ghost use Rattle.index_tree.specs.Shape.{contents};
ghost use Rattle.index_tree.specs.Tree.{shape};
ghost use Rattle.leaf_map.specs.Allowed.{FitsLeaves};
ghost use Rattle.leaf_map.specs.Kept.{Kept};
ghost use Rattle.leaf_map.specs.LeafMap.{IsLeafMap, are_apart};
ghost use Rattle.leaf_map.specs.Parts.{Parts};
ghost use Rattle.leaf_map.specs.Recovered.{leaves_found, recovered_of};
ghost use Rattle.journal_scan.specs.Journal.{BudRead, IsJournalRead, journal_nodes_in};
ghost use Rattle.journal_scan.specs.Places.{HavePlaces};
ghost use Rattle.journal_scan.specs.declared.bud_text.BudText.{BudText};
ghost use Rattle.journal_scan.specs.declared.journal_read.JournalRead.{JournalRead};
ghost use Rattle.log_replay.specs.declared.committed_leaf.CommittedLeaf.{CommittedLeaf};
ghost use Rattle.log_replay.specs.Changes.{HasBlockKey};
ghost use Rattle.log_replay.specs.Replay.{AreParts, highest_read};
ghost use Rattle.log_replay.specs.Settling.{HasGrammar};
ghost use Rattle.log_replay.specs.Told.{IsOfJournal, IsSetting};

use journal_scan::nodes_have_places;
use leaf_map::found_leaves_are_of_an_index;

/// What is read of a journal can be applied: each block has a number of 29 bits.
pub fn journals_can_be_applied()
    ensures { (buds : List BudText) (read : JournalRead) → IsJournalRead buds read → AllByRecursion HasBlockKey read.nodes.items }
{
    nodes_have_places();
}

/// What fits committed leaves, no two of which are one, is that of a journal: own nodes and copies are nodes of these leaves.
pub fn what_fits_leaves_is_of_a_journal()
    ensures { (parts : Parts) (kept : List Kept) → FitsLeaves parts kept → AreDistinct (map (λ c. c.leaf) parts.committed) → HavePlaces parts.named parts.copies parts.nodes → IsOfJournal parts }
{
    found_leaves_are_of_an_index();
}

/// The leaves that are found are those of an index if no two of them show the same, given the index of the committed leaves, nodes
/// of the grammar at their places, and copies that each set something.
pub fn found_leaves_that_differ_are_of_an_index()
    ensures { (parts : Parts) (index : Index) → contents (shape index.root) ≡ map (λ c. c.leaf) parts.committed → AllByRecursion HasGrammar parts.committed → AllByRecursion (λ c. IsSetting c.node) parts.copies
        → IsTrue (are_apart (leaves_found parts)) → IsLeafMap (leaves_found parts) }
{}

/// The greatest number that was read, or the master's, is the highest one that is recovered; and as many nodes are applied as were
/// read.
pub fn what_was_read_has_the_numbers()
    ensures highest { (parts : Parts) (reads : List BudRead) (index : Index) (committed : List CommittedLeaf) (listed : List ℕ) → AreParts parts reads index committed listed
        → max parts.highest (highest_read committed reads) ≡ (recovered_of parts).highest }
    ensures nodes { (parts : Parts) (reads : List BudRead) (index : Index) (committed : List CommittedLeaf) (listed : List ℕ) → AreParts parts reads index committed listed
        → length (journal_nodes_in reads) ≡ (recovered_of parts).nodes }
{}
