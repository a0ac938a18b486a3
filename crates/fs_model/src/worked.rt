// Runs of operations worked by hand: what the definitions answer on them.

ghost use Rattle.std.specs.Prelude.{◌≡◌, ◌∷◌, [], IsTrue, codes};
ghost use Rattle.fs_model.specs.declared.op.Op.TheVariants.{Create, Link, Unlink};
ghost use Rattle.fs_model.specs.declared.space.Class.TheVariants.{Ordinary, Removal};
ghost use Rattle.fs_model.specs.declared.refusal.Refusal.TheVariants.{Emlink};
ghost use Rattle.fs_model.specs.declared.reply.Reply.TheVariants.{Refused};
ghost use Rattle.fs_model.specs.Legal.{IsLegal, AreSides};
ghost use Rattle.fs_model.specs.Need.{need_of};
ghost use Rattle.fs_model.specs.Operation.{group_of};
ghost use Rattle.fs_model.specs.Proper.{IsProper};
ghost use Rattle.fs_model.specs.Recovery.{recovered, taken};
ghost use Rattle.fs_model.specs.Worked.{new_file_group, one_file_heads, once_used, with_one_file, files_after, fresh, many_links, replies_of, replies_within, one_hash, one_hash_replies, long_names, long_names_replies, refusals, refusals_replies, changes_of_names, changes_of_names_replies, moves, moves_replies, says_reckoned, three_orphans, three_orphans_replies, over_open, over_open_replies, limits, limits_replies, over_a_page, over_a_page_replies, holes, holes_replies, cuts, cuts_replies};
ghost use Rattle.fs_model.specs.WorkedTrace.{tight, first_line, second_line, at_second, then, too_much, too_little};

/// Names: two of one hash, the longest, each refusal, links and targets, directories that move, and full tables.
pub fn names_are_answered()
    ensures one_hash { replies_of fresh one_hash ≡ one_hash_replies }
    ensures long_names { replies_of fresh long_names ≡ long_names_replies }
    ensures refusals { replies_of fresh refusals ≡ refusals_replies }
    ensures changes { replies_of fresh changes_of_names ≡ changes_of_names_replies }
    ensures links { replies_of many_links (Link (codes "/f") (codes "/g") ∷ []) ≡ Refused Emlink ∷ [] }
    ensures orphans { replies_within 2 2 fresh three_orphans ≡ three_orphans_replies }
{}

/// Open files: one that is renamed over, sizes at the limit, bytes on both sides of a page's end, holes, and what a
/// smaller size cuts off.
pub fn open_files_are_answered()
    ensures over_open { replies_of fresh over_open ≡ over_open_replies }
    ensures limits { replies_of fresh limits ≡ limits_replies }
    ensures over_a_page { replies_of fresh over_a_page ≡ over_a_page_replies }
    ensures holes { replies_of fresh holes ≡ holes_replies }
    ensures cuts { replies_of fresh cuts ≡ cuts_replies }
{}

/// Groups, what they ask of admission, and trees that stay proper.
pub fn groups_and_trees_are_told()
    ensures group { group_of fresh 1 0 (Create (codes "/f") 420) ≡ new_file_group }
    ensures need { need_of fresh 1 0 (Create (codes "/f") 420) ≡ record { credits = 0; bytes = 384; nodes = 3; class = Ordinary } }
    ensures removal { need_of (files_after fresh (Create (codes "/f") 420 ∷ [])) 1 0 (Unlink (codes "/f")) ≡ record { credits = 0; bytes = 384; nodes = 3; class = Removal } }
    ensures unlinked { (files_after fresh (Create (codes "/f") 420 ∷ Unlink (codes "/f") ∷ [])).tree ≡ once_used }
    ensures proper { IsProper (files_after fresh changes_of_names).tree }
    ensures orphaned { IsProper (files_after fresh three_orphans).tree }
{}

/// Directories whose entries come, go and move say the links and the size that are reckoned.
pub fn directories_are_counted()
    ensures replies { replies_of fresh moves ≡ moves_replies }
    ensures moves { IsTrue (says_reckoned (files_after fresh moves).tree) }
    ensures changes { IsTrue (says_reckoned (files_after fresh changes_of_names).tree) }
{}

/// What a mount may find of a file that was made, got a byte, and lost its name while it was open: nothing of it; its
/// name and no byte; both; its byte alone, which is nothing without the inode; or again nothing.
pub fn recovery_is_told()
    ensures none { recovered fresh.tree (taken one_file_heads (0 ∷ 0 ∷ 0 ∷ [])) ≡ fresh.tree }
    ensures name { recovered fresh.tree (taken one_file_heads (0 ∷ 1 ∷ 0 ∷ [])) ≡ with_one_file [] }
    ensures byte { recovered fresh.tree (taken one_file_heads (0 ∷ 1 ∷ 1 ∷ [])) ≡ with_one_file (((65, 0), 97 ∷ []) ∷ []) }
    ensures byte_alone { recovered fresh.tree (taken one_file_heads (0 ∷ 0 ∷ 1 ∷ [])) ≡ once_used }
    ensures orphan { recovered fresh.tree (taken one_file_heads (0 ∷ 2 ∷ 1 ∷ [])) ≡ once_used }
{}

/// A trace of two callers: a file is made, and for a second one there is no room. The refusal tells the most that may be needed,
/// and the least room that there may be; a byte more, or a byte less, is no answer of any history.
pub fn a_trace_is_judged()
    ensures legal { IsLegal tight (first_line ∷ second_line ∷ []) then }
    ensures need { AreSides tight at_second second_line too_much → ⊥ }
    ensures room { AreSides tight at_second second_line too_little → ⊥ }
{}
