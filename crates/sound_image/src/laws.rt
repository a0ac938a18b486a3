// Laws: what the rules promise, and that what is written meets them.

ghost use Rattle.std.specs.Prelude.{◌≡◌, ◌⊎◌, ◌<◌, ◌≤◌, ◌^◌, ℕ, All, IsFalse, IsTrue, List, None, Some, [], ◌∷◌, drop, length, map, max};
ghost use Rattle.std.specs.List.{AllByRecursion, list_all};
ghost use Rattle.std.specs.Map.{values_of};
ghost use Rattle.ubifs_base.specs.Geometry.{IsGeometry};
ghost use Rattle.ubifs_base.specs.NodeLaws.{IsBytes};
ghost use Rattle.ubifs_base.specs.declared.raw_geometry.RawGeometry.{RawGeometry};
ghost use Rattle.media_leaf.specs.LeafNode.{IsLeaf};
ghost use Rattle.media_lpt.specs.declared.lprop.Lprop.{Lprop};
ghost use Rattle.media_sys.specs.declared.feature.Feature.TheVariants.{KeyHash};
ghost use Rattle.media_sys.specs.declared.super_field.SuperField.TheVariants.{MinIo};
ghost use Rattle.media_sys.specs.declared.master.Master.{Master};
ghost use Rattle.small_areas.specs.Addresses.{addresses_of, first_past};
ghost use Rattle.small_areas.specs.Masters.{IsLatest};
ghost use Rattle.small_areas.specs.Orphans.{IsListLeb, OrphanList, orphan_limit};
ghost use Rattle.small_areas.specs.declared.placed_master.PlacedMaster.{PlacedMaster};
ghost use Rattle.lpt_area.specs.Written.{IsTreeLeb};
ghost use Rattle.lpt_area.specs.declared.lpt_at.LptAt.{LptAt};
ghost use Rattle.leb_scan.specs.Text.{is_blank, nodes_of};
ghost use Rattle.leb_scan.specs.declared.found.Found.{Found};
ghost use Rattle.leb_scan.specs.declared.tail.Tail.TheVariants.{Clean};
ghost use Rattle.bud_log.specs.Buds.{buds_of};
ghost use Rattle.bud_log.specs.declared.head_at.HeadAt.{HeadAt};
ghost use Rattle.bud_log.specs.Log.{IsLog, IsLogLeb, Log, references_of};
ghost use Rattle.bud_log.specs.LogText.{LogText, begins_with, start_of};
ghost use Rattle.bud_log.specs.Writing.{IsAmong, IsOlder};
ghost use Rattle.index_tree.specs.Shape.{contents as leaves_in};
ghost use Rattle.index_tree.specs.Tree.{shape};
ghost use Rattle.index_tree.specs.declared.index.Index.{Index};
ghost use Rattle.index_tree.specs.declared.leaf.Leaf.{Leaf};
ghost use Rattle.index_media.specs.PlacedRow.{PlacedRow};
ghost use Rattle.fs_model.specs.Proper.{IsProper, has_kind, is_sound_entry, is_sound_inode};
ghost use Rattle.fs_model.specs.declared.inode.Kind.TheVariants.{Dir};
ghost use Rattle.journal_scan.specs.Journal.{BudRead, IsBudRead, IsReadable, copies_in, journal_nodes_in};
ghost use Rattle.journal_scan.specs.Places.{HavePlaces, named_by};
ghost use Rattle.leaf_map.specs.Kept.{Placed, shown};
ghost use Rattle.leaf_map.specs.LeafMap.{IsLeafMap};
ghost use Rattle.leaf_map.specs.Parts.{Committed, Parts, in_bud, is_named, is_shown};
ghost use Rattle.leaf_map.specs.Recovered.{leaves_found, recovered_of, tree_found};
ghost use Rattle.log_replay.specs.Replay.{AreParts, told_committed};
ghost use Rattle.log_replay.specs.Settling.{HasGrammar};
ghost use Rattle.log_replay.specs.Standing.{leaves};
ghost use Rattle.log_replay.specs.Told.{IsOfJournal};
ghost use Rattle.log_replay.specs.declared.replayed.Replayed.{Replayed};
ghost use Rattle.sound_image.specs.Breaches.{IsBroken, IsFirstBreach, IsWrongLink, IsWrongSum};
ghost use Rattle.sound_image.specs.Buds.{HasBuds, IsSoundBud, MayStandInBud, bud_text};
ghost use Rattle.sound_image.specs.Frames.{IsKnownAt};
ghost use Rattle.sound_image.specs.Image.{AreOfVolume, Image, parts_of};
ghost use Rattle.sound_image.specs.Index.{HasIndex};
ghost use Rattle.sound_image.specs.Laid.{IsFreshLog, IsPlainLeaf};
ghost use Rattle.sound_image.specs.Leaves.{AreCommitted, IsPlacedIn};
ghost use Rattle.sound_image.specs.Log.{EndWhole, HasLog, NamesMain, ends_in_start};
ghost use Rattle.sound_image.specs.Masters.{HasMasters};
ghost use Rattle.sound_image.specs.Mount.{IsCommittedIndex, IsReplayOf};
ghost use Rattle.sound_image.specs.OrphanLists.{HasOrphanLists, HasOrphanNodes};
ghost use Rattle.sound_image.specs.Properties.{HasProperties};
ghost use Rattle.sound_image.specs.Rules.{MeetsRule};
ghost use Rattle.sound_image.specs.Sound.{SoundImage};
ghost use Rattle.sound_image.specs.Space.{HasSums};
ghost use Rattle.sound_image.specs.Summary.{is_clean, space_of_image, tree_of_image};
ghost use Rattle.sound_image.specs.Tree.{HasLinks};
ghost use Rattle.sound_image.specs.Superblock.{BeginsWithSuper, HasSuperblock};
ghost use Rattle.sound_image.specs.Worked.{BeginsLeast, HasLoneFile, HasRootFile, HasStartForOrphans, HasStartInBud, HasWrittenEnd, IsLeastVolume, IsLeastWith, LacksItsLeaf, LacksItsProperties, dirtier_props, least_image, least_props, least_super, misplaced_latest, unmarked_props};
ghost use Rattle.sound_image.specs.Wrong.{IsFirstWrong, IsOneOf, Wrong, comes_before};
ghost use Rattle.sound_image.specs.declared.breach.Breach.{Breach as ABreach};
ghost use Rattle.sound_image.specs.declared.rule.Rule.{Rule as ARule};

use index_media::{a_root_leads_to_one_index, a_stored_index_is_an_index};
use journal_scan::nodes_have_places;
use leaf_map::{
    a_change_of_leaves_is_one_of_the_tree, a_copy_changes_no_tree, indexes_follow,
    the_last_change_wins,
};
use leb_scan::one_text;
use log_replay::what_was_read_has_the_numbers;
use lpt_area::{one_list, still_there};
use media_leaf::one_node as one_leaf;
use media_lpt::one_node as one_nnode;
use media_sys::one_node;

/// Contents say one geometry, one latest master, one list of properties, one index and one log: the texts that are read of it. Sound ones
/// say one image, but for where its latest master stands, if both copies are it.
pub fn contents_say_one_thing()
    ensures geometry { (contents : ℕ → List ℕ) (a b : RawGeometry) → IsBytes (contents 0) → HasSuperblock contents a → HasSuperblock contents b → a ≡ b }
    ensures master { (contents : ℕ → List ℕ) (geo other : RawGeometry) (a b : PlacedMaster) → ((k : ℕ) → IsBytes (contents k))
        → HasMasters contents geo a → HasMasters contents other b → a.master ≡ b.master }
    ensures properties { (contents : ℕ → List ℕ) (geo : RawGeometry) (master : Master) (a b : List Lprop) → ((k : ℕ) → IsBytes (contents k))
        → HasProperties contents geo master a → HasProperties contents geo master b → a ≡ b }
    ensures log { (contents : ℕ → List ℕ) (geo : RawGeometry) (master : Master) (a b : List LogText) → ((k : ℕ) → IsBytes (contents k))
        → HasLog contents geo master a → HasLog contents geo master b → a ≡ b }
    ensures image { (contents : ℕ → List ℕ) (a b : Image) → ((k : ℕ) → IsBytes (contents k)) → SoundImage contents a → SoundImage contents b
        → (a.latest.master ≡ b.latest.master) × (record b { latest = a.latest } ≡ a) }
    ensures index { (contents : ℕ → List ℕ) (geo : RawGeometry) (master : Master) (props : List Lprop) (a b : PlacedRow) → ((k : ℕ) → IsBytes (contents k))
        → HasIndex contents geo master props a → HasIndex contents geo master props b → a ≡ b }
{
    one_node();
    one_leaf();
    one_nnode();
    one_text();
    one_list();
    still_there();
    a_root_leads_to_one_index();
}

/// A sound image meets each rule, and contents that meet each rule are one. Of its tree, inode 1 is a directory, entries and
/// inodes fit one another, directories hang together, and each other inode has as many links as names.
pub fn the_tree_of_a_sound_image_hangs_together()
    ensures rules { (contents : ℕ → List ℕ) (image : Image) (rule : ARule) → SoundImage contents image → MeetsRule contents image rule }
    ensures all { (contents : ℕ → List ℕ) (image : Image) → ((rule : ARule) → MeetsRule contents image rule) → SoundImage contents image }
    ensures root { (contents : ℕ → List ℕ) (image : Image) → SoundImage contents image → IsTrue (has_kind (tree_found (parts_of image)) 1 Dir) }
    ensures entries { (contents : ℕ → List ℕ) (image : Image) → SoundImage contents image
        → All (λ e. IsTrue (is_sound_entry (tree_found (parts_of image)) e)) (values_of (tree_found (parts_of image)).entries) }
    ensures inodes { (contents : ℕ → List ℕ) (image : Image) → SoundImage contents image
        → IsTrue (list_all (is_sound_inode (tree_found (parts_of image))) (tree_found (parts_of image)).inodes) }
{}

/// What is written meets the rules: as the latest a master whose addresses lie in their areas, a tree of properties at the place
/// that the master names, and in the orphan area a list of orphans, or nothing.
pub fn what_is_written_meets_the_rules()
    ensures master { (contents : ℕ → List ℕ) (geo : RawGeometry) (fresh : Master) (latest : PlacedMaster) → IsLatest (contents 1) (contents 2) latest
        → latest.master ≡ fresh → first_past (addresses_of geo fresh) ≡ None → HasMasters contents geo latest }
    ensures properties { (contents : ℕ → List ℕ) (geo : RawGeometry) (props : List Lprop) (at : LptAt) (master : Master)
        → IsTreeLeb geo at.lnum props (contents at.lnum) at → master.lpt_lnum ≡ at.lnum → master.lpt_offs ≡ at.offs → HasProperties contents geo master props }
    ensures orphans { (geo : RawGeometry) (list : OrphanList) (leb : List ℕ) → IsGeometry geo → list.cmt_no < 2 ^ 63 → list.sqnum < 2 ^ 64
        → AllByRecursion (λ ino. ino < 2 ^ 32) list.inos → length list.inos ≤ orphan_limit geo.leb_size → IsListLeb geo list leb → HasOrphanNodes leb }
    ensures none { (leb : List ℕ) → IsTrue (is_blank leb) → HasOrphanNodes leb }
{}

/// A log that holds the start of the master's commit alone meets the rule on the log, and names no bud.
pub fn a_fresh_log_meets_the_rule()
    ensures { (contents : ℕ → List ℕ) (geo : RawGeometry) (master : Master) (sqnum : ℕ) → 3 ≤ geo.log_lebs → sqnum < 2 ^ 64 → master.cmt_no < 2 ^ 64
        → IsFreshLog contents geo master.log_lnum sqnum master.cmt_no → (texts : List LogText) × (length texts ≡ 1) × (references_of texts ≡ []) × HasLog contents geo master texts }
{}

/// A log as it is read, which begins with the start of the master's commit, meets the rule on the log if its references name
/// main LEBs, no text within has a torn tail, a LEB is spare, and none that isn't read begins with a greater number.
pub fn a_log_that_was_read_meets_the_rule()
    ensures { (contents : ℕ → List ℕ) (geo : RawGeometry) (master : Master) (log : Log) (h : IsLog contents geo master.log_lnum log) → log.commit ≡ Some master.cmt_no
        → AllByRecursion (NamesMain geo) (references_of (h.first ∷ h.more)) → EndWhole (h.first ∷ h.more)
        → (length (h.first ∷ h.more) < geo.log_lebs) ⊎ IsTrue (ends_in_start h.more)
        → ((start lnum : ℕ) → start_of (begins_with h.first.nodes) ≡ Some start → IsLogLeb geo lnum → (IsAmong lnum (h.first ∷ h.more) → ⊥) → IsOlder start lnum (contents lnum))
        → HasLog contents geo master (h.first ∷ h.more) }
{}

/// No unknown feature is needed where nothing is written, nor at a leaf node that says nothing of attributes.
pub fn plain_nodes_need_no_feature()
    ensures blank { (leb : List ℕ) (place : ℕ) → IsTrue (is_blank (drop place leb)) → IsKnownAt leb place }
    ensures plain { (contents : ℕ → List ℕ) (x : Placed) → IsBytes (contents x.lnum) → IsPlacedIn contents x → IsPlainLeaf x.node → IsKnownAt (contents x.lnum) x.offs }
{}

/// What was read of a bud of padding and of leaf nodes without attributes is sound, if nothing is written behind its text.
pub fn a_bud_of_plain_nodes_is_sound()
    ensures { (x : BudRead) (h : IsBudRead x) → IsBytes x.bud.bytes → x.tail ≡ Clean → All (λ (found : Found). MayStandInBud found.kind) (nodes_of h.items)
        → AllByRecursion (λ (p : Placed). IsPlainLeaf p.node) x.nodes → IsSoundBud x }
{}

/// The least image by hand is sound: each rule is met, and all together. It is clean, and its two main LEBs are told: one with the root's
/// 160 bytes, and one of the index.
pub fn the_least_image_is_sound()
    ensures told { (log : List LogText) → references_of log ≡ []
        → IsTrue (is_clean (least_image log)) × (space_of_image (least_image log) ≡ record { used = 160; held = 0; credits = 0; empty = 0; index = 1; weight = 1; main = 2 }) }
    ensures sound { (contents : ℕ → List ℕ) → IsLeastVolume contents → (log : List LogText) × SoundImage contents (least_image log) }
{}

/// What is wrong by a rule breaks it. So sound contents have no first breach, and all others one at most: no two rules, places, values
/// or features are told of the same contents.
pub fn a_first_breach_is_one()
    ensures rule { (contents : ℕ → List ℕ) (image : Image) (rule : ARule) (at : Wrong) → ((k : ℕ) → IsBytes (contents k))
        → IsBroken contents image rule at → MeetsRule contents image rule → ⊥ }
    ensures sound { (contents : ℕ → List ℕ) (image : Image) (a : ABreach) → ((k : ℕ) → IsBytes (contents k)) → SoundImage contents image → IsFirstBreach contents a → ⊥ }
    ensures one { (contents : ℕ → List ℕ) (a b : ABreach) → ((k : ℕ) → IsBytes (contents k)) → IsFirstBreach contents a → IsFirstBreach contents b → a ≡ b }
{
    one_node();
    one_leaf();
    one_nnode();
    one_text();
    one_list();
    still_there();
    a_root_leads_to_one_index();
}

/// What the log of a sound image names can be read. The nodes that a mount takes of it stand at places of their own, which the log
/// names, and are of the grammar.
pub fn a_mount_can_read_a_sound_image()
    ensures readable { (contents : ℕ → List ℕ) (image : Image) → AreOfVolume contents image.geo → SoundImage contents image
        → AllByRecursion IsReadable (map (bud_text contents) (buds_of (references_of image.log))) }
    ensures places { (contents : ℕ → List ℕ) (image : Image) → SoundImage contents image
        → HavePlaces (parts_of image).named (parts_of image).copies (parts_of image).nodes }
{
    nodes_have_places();
}

/// What was read of an image stands there: the nodes and the copies of its buds stand in their LEBs, whole. They are nodes of the
/// grammar, and so is what was found at the places of committed leaves.
pub fn what_was_read_stands()
    ensures nodes { (contents : ℕ → List ℕ) (buds : List HeadAt) (reads : List BudRead) → HasBuds contents buds reads → AllByRecursion (IsPlacedIn contents) (journal_nodes_in reads) }
    ensures copies { (contents : ℕ → List ℕ) (buds : List HeadAt) (reads : List BudRead) → HasBuds contents buds reads → AllByRecursion (IsPlacedIn contents) (copies_in reads) }
    ensures grammar { (contents : ℕ → List ℕ) (nodes : List Placed) → AllByRecursion (IsPlacedIn contents) nodes → AllByRecursion (λ (x : Placed). IsLeaf x.node) nodes }
    ensures committed { (contents : ℕ → List ℕ) (leaves : List Leaf) (committed : List Committed) → AreCommitted contents leaves committed → AllByRecursion HasGrammar committed }
{}

/// What a sound image says is what a replay asks for: each copy is a node that sets something, the leaves that are found are those of
/// an index, and references name the places and the LEBs that buds do. No two committed leaves are one by the rule on the tree.
pub fn what_a_sound_image_says_can_be_replayed()
    ensures copies { (contents : ℕ → List ℕ) (image : Image) → SoundImage contents image → AllByRecursion (λ (x : Placed). IsLeaf x.node × IsTrue (is_shown (shown x.node))) (parts_of image).copies }
    ensures found { (contents : ℕ → List ℕ) (image : Image) → SoundImage contents image → IsLeafMap (leaves_found (parts_of image)) }
    ensures places { (contents : ℕ → List ℕ) (image : Image) (leaf : Leaf) → SoundImage contents image → in_bud (parts_of image).named leaf ≡ in_bud (map (λ x. named_by x.bud) image.buds) leaf }
    ensures lebs { (contents : ℕ → List ℕ) (image : Image) (lnum : ℕ) → SoundImage contents image → is_named (parts_of image).named lnum ≡ is_named (map (λ x. named_by x.bud) image.buds) lnum }
{
    a_stored_index_is_an_index();
}

/// What a sound image says is that of a journal. So, given its committed index in memory, its parts are what was read of it. What is
/// replayed of it has the recovered leaves, the highest number and the count of nodes.
pub fn what_a_sound_image_says_is_of_a_journal()
    ensures journal { (contents : ℕ → List ℕ) (image : Image) → SoundImage contents image → IsOfJournal (parts_of image) }
    ensures parts { (contents : ℕ → List ℕ) (image : Image) (index : Index) → SoundImage contents image → IsCommittedIndex image index
        → AreParts (parts_of image) image.buds index (map told_committed image.committed) image.listed }
    ensures leaves { (contents : ℕ → List ℕ) (image : Image) (index : Index) (made : Replayed) → ((k : ℕ) → IsBytes (contents k)) → SoundImage contents image
        → IsReplayOf contents image index made → leaves_in (shape made.index.root) ≡ leaves (recovered_of (parts_of image)).kept }
    ensures highest { (contents : ℕ → List ℕ) (image : Image) (index : Index) (made : Replayed) → ((k : ℕ) → IsBytes (contents k)) → SoundImage contents image
        → IsReplayOf contents image index made → max image.latest.master.highest_inum made.highest ≡ (recovered_of (parts_of image)).highest }
    ensures nodes { (contents : ℕ → List ℕ) (image : Image) (index : Index) (made : Replayed) → ((k : ℕ) → IsBytes (contents k)) → SoundImage contents image
        → IsReplayOf contents image index made → made.nodes ≡ (recovered_of (parts_of image)).nodes }
{
    nodes_have_places();
    a_stored_index_is_an_index();
    what_was_read_has_the_numbers();
    one_leaf();
    one_text();
}

/// The tree of which a mount makes its files is proper: the recovered one, where each directory has a link.
pub fn the_tree_of_a_mount_is_proper()
    ensures { (contents : ℕ → List ℕ) (image : Image) → ((k : ℕ) → IsBytes (contents k)) → SoundImage contents image → IsProper (tree_of_image image) }
{
    nodes_have_places();
    a_stored_index_is_an_index();
    a_change_of_leaves_is_one_of_the_tree();
    a_copy_changes_no_tree();
    indexes_follow();
    the_last_change_wins();
}

/// Of what is wrong at some places, one is first: places are in order, and what is told before something isn't told behind it.
pub fn of_some_places_one_is_first()
    ensures first { (x : Wrong) (xs : List Wrong) → (first : Wrong) × IsOneOf first (x ∷ xs) × ((other : Wrong) → IsOneOf other (x ∷ xs) → IsFalse (comes_before other first)) }
    ensures later { (a b c : Wrong) → IsFalse (comes_before b a) → IsFalse (comes_before c b) → IsFalse (comes_before c a) }
    ensures one_way { (a b : Wrong) → IsTrue (comes_before a b) → IsFalse (comes_before b a) }
{}

/// The sums of main LEBs are right, or one is wrong first; and so are the links of inodes.
pub fn sums_and_links_are_right_or_one_is_wrong()
    ensures sums { (geo : RawGeometry) (props : List Lprop) (placed : PlacedRow) → HasSums geo props placed ⊎ ((at : Wrong) × IsFirstWrong (IsWrongSum geo props placed) at) }
    ensures links { (parts : Parts) → HasLinks (tree_found parts) ⊎ ((at : Wrong) × IsFirstWrong (IsWrongLink parts) at) }
{}

/// Damaged images by hand, each told exactly: another hash of names, a size of units that is no power of two, no master, a root
/// behind the last LEB, a log of another commit, and too many dirty bytes in both main LEBs, of which the first is told.
pub fn damaged_images_are_told()
    ensures feature { (contents : ℕ → List ℕ) → BeginsWithSuper (contents 0) (record least_super { key_hash = 1 }) → IsFirstBreach contents (ABreach.Feature KeyHash 0 0) }
    ensures field { (contents : ℕ → List ℕ) → BeginsWithSuper (contents 0) (record least_super { min_io_size = 100 }) → IsFirstBreach contents (ABreach.Super MinIo) }
    ensures none { (contents : ℕ → List ℕ) → BeginsWithSuper (contents 0) least_super → IsTrue (is_blank (contents 1)) → IsTrue (is_blank (contents 2))
        → IsFirstBreach contents ABreach.NoMaster }
    ensures root { (contents : ℕ → List ℕ) → BeginsLeast contents least_super misplaced_latest → IsFirstBreach contents (ABreach.Damaged ARule.Masters 1 0 12 13) }
    ensures commit { (contents : ℕ → List ℕ) → IsLeastWith contents least_props 7 → IsFirstBreach contents (ABreach.Damaged ARule.Log 3 0 0 7) }
    ensures sum { (contents : ℕ → List ℕ) → IsLeastWith contents dirtier_props 0 → IsTrue (is_blank (contents 9)) → IsFirstBreach contents (ABreach.Damaged ARule.Sums 10 0 16384 16392) }
{
    one_node();
    one_text();
}

/// And eight more: a tree of properties whose root is erased, the root of the index in a LEB that isn't marked as the index's, a leaf
/// whose LEB is erased, a byte among free ones, the start of a commit where orphans may stand, a file as inode 1, a file without
/// a name, and the start of a commit in a bud.
pub fn lost_nodes_are_told()
    ensures properties { (contents : ℕ → List ℕ) → LacksItsProperties contents → IsFirstBreach contents (ABreach.Damaged ARule.Properties 7 15 32782 65535) }
    ensures index { (contents : ℕ → List ℕ) → IsLeastWith contents unmarked_props 0 → IsFirstBreach contents (ABreach.Damaged ARule.Index 11 0 1 0) }
    ensures leaf { (contents : ℕ → List ℕ) → LacksItsLeaf contents → IsFirstBreach contents (ABreach.Damaged ARule.Leaves 10 0 0 255) }
    ensures end { (contents : ℕ → List ℕ) → HasWrittenEnd contents → IsFirstBreach contents (ABreach.Damaged ARule.Ends 10 200 255 0) }
    ensures tree { (contents : ℕ → List ℕ) → HasRootFile contents → IsFirstBreach contents (ABreach.Damaged ARule.Tree 10 0 1 0) }
    ensures buds { (contents : ℕ → List ℕ) (log : List LogText) → HasStartInBud contents log → IsFirstBreach contents (ABreach.Damaged ARule.Buds 10 0 1 10) }
    ensures links { (contents : ℕ → List ℕ) → HasLoneFile contents → IsFirstBreach contents (ABreach.Damaged ARule.Links 10 160 0 1) }
    ensures orphans { (contents : ℕ → List ℕ) → HasStartForOrphans contents → IsFirstBreach contents (ABreach.Damaged ARule.Orphans 9 0 11 10) }
{
    one_node();
    one_text();
}
