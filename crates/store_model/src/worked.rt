// Stores worked by hand: what the events make of them, and what a cut leaves.

ghost use Rattle.std.specs.Prelude.{◌≡◌, ◌∷◌, [], ◌++◌, Some, None, map, length, take};
ghost use Rattle.media_lpt.specs.declared.leb_kind.LebKind.TheVariants as kind;
ghost use Rattle.leaf_map.specs.Recovered.{tree_found};
ghost use Rattle.leaf_map.specs.Shown.{tree_of};
ghost use Rattle.leaf_map.specs.Worked.{places};
ghost use Rattle.store_model.specs.Events.{next_list, Offer, run, Sync};
ghost use Rattle.store_model.specs.Fits.{faces};
ghost use Rattle.store_model.specs.Invariant.{IsStanding, IsStore};
ghost use Rattle.store_model.specs.Lebs.{space_of, lent};
ghost use Rattle.store_model.specs.Legal.{AreEventsLegal};
ghost use Rattle.store_model.specs.Worked.{all_copied, allowed_tree, am_tree, bb_tree, bud_rows, closed_in_commit, collected_events, half_collected, left_parts, one_file, places_found, put_am, put_root, roles, root_tree, rooted_store, until_offer, whole_commit};
ghost use Rattle.store_model.specs.WorkedRun.{collection, collection_rows, copying, first_commit, first_rows, found_am, found_bb, found_last, found_root, found_rows, least, most, rows, run_all, second_commit, second_rows, started, uncopied, unlinking_event};

/// A group that is put to a LEB just opened: its leaves stand there and show the tree, and a cut leaves it or not.
pub fn a_put_is_told()
    ensures tree { (run put_am rooted_store).tree ≡ am_tree }
    ensures leaves { tree_of (run put_am rooted_store).live 65 ≡ am_tree }
    ensures at { places (run put_am rooted_store).live ≡ (20, 0) ∷ (22, 0) ∷ (22, 64) ∷ [] }
    ensures space { space_of (run put_am rooted_store) ≡ record { used = 384; held = 0; credits = 1; empty = 9; index = 1; weight = 3; main = 12 } }
    ensures lost { tree_found (left_parts (run put_am rooted_store).now 0 0 []) ≡ root_tree }
    ensures kept { tree_found (left_parts (run put_am rooted_store).now 1 0 []) ≡ am_tree }
{}

/// What an unsynced group made obsolete is held, and its LEB isn't empty; a sync frees it.
pub fn a_sync_is_told()
    ensures held { space_of (run put_root rooted_store) ≡ record { used = 160; held = 160; credits = 1; empty = 9; index = 1; weight = 2; main = 12 } }
    ensures synced { space_of (run (put_root ++ Sync ∷ []) rooted_store) ≡ record { used = 160; held = 0; credits = 1; empty = 10; index = 1; weight = 2; main = 12 } }
    ensures before { roles (run put_root rooted_store) ≡ kind.Leaf ∷ kind.Index ∷ kind.Bud ∷ kind.Free ∷ kind.Free ∷ kind.Free ∷ kind.Free ∷ kind.Free ∷ kind.Free ∷ kind.Free ∷ kind.Free ∷ kind.Free ∷ [] }
    ensures counts { (run (put_am ++ Sync ∷ []) rooted_store).synced ≡ 0 ∷ 1 ∷ 0 ∷ [] }
{}

/// A commit with a put inside: either master may be there before its end, and each leads to what was put since its own start.
pub fn a_commit_is_told()
    ensures taken { roles (run until_offer rooted_store) ≡ kind.Leaf ∷ kind.Index ∷ kind.Bud ∷ kind.Taken ∷ kind.Free ∷ kind.Free ∷ kind.Free ∷ kind.Free ∷ kind.Free ∷ kind.Free ∷ kind.Free ∷ kind.Free ∷ [] }
    ensures ended { roles (run whole_commit rooted_store) ≡ kind.Leaf ∷ kind.Free ∷ kind.Bud ∷ kind.Index ∷ kind.Free ∷ kind.Free ∷ kind.Free ∷ kind.Free ∷ kind.Free ∷ kind.Free ∷ kind.Free ∷ kind.Free ∷ [] }
    ensures buds { bud_rows (run whole_commit rooted_store).now.buds ≡ (1, 22, 224, 1) ∷ [] }
    ensures old { map (λ f. tree_found (left_parts f.view 1 0 [])) (faces (run until_offer rooted_store)) ≡ am_tree ∷ bb_tree ∷ [] }
    ensures new { map (λ f. tree_found (left_parts f.view 0 0 [])) (faces (run until_offer rooted_store)) ≡ root_tree ∷ am_tree ∷ [] }
    ensures after { tree_found (left_parts (run whole_commit rooted_store).now 1 0 []) ≡ bb_tree }
{}

/// A collection: after half of it the leaves stand at their originals, after all copies at these, and its victim is freed.
pub fn a_collection_is_told()
    ensures half { places_found (left_parts (run half_collected one_file).now 0 1 []) ≡ (20, 0) ∷ (20, 160) ∷ (20, 224) ∷ [] }
    ensures whole { places_found (left_parts (run all_copied one_file).now 0 3 []) ≡ (24, 0) ∷ (24, 160) ∷ (24, 224) ∷ [] }
    ensures copies { (run all_copied one_file).synced ≡ 3 ∷ 0 ∷ 0 ∷ [] }
    ensures lent { lent (run half_collected one_file).moving ≡ 1 }
    ensures victim { roles (run all_copied one_file) ≡ kind.Leaf ∷ kind.Index ∷ kind.Free ∷ kind.Free ∷ kind.Bud ∷ kind.Free ∷ kind.Free ∷ kind.Free ∷ kind.Free ∷ kind.Free ∷ kind.Free ∷ kind.Free ∷ [] }
    ensures freed { space_of (run collected_events one_file) ≡ record { used = 384; held = 0; credits = 1; empty = 10; index = 1; weight = 2; main = 12 } }
{}

/// An orphan that is closed while a commit runs is still on the list after its end, and on the next one; so a mount drops it.
pub fn an_orphan_closed_in_a_commit_is_told()
    ensures tree { (run closed_in_commit rooted_store).tree ≡ record root_tree { highest = 65 } }
    ensures listed { (run closed_in_commit rooted_store).listed ≡ 65 ∷ [] }
    ensures closed { (run closed_in_commit rooted_store).closed ≡ 65 ∷ [] }
    ensures next { next_list (run closed_in_commit rooted_store) ≡ 65 ∷ [] }
    ensures found { tree_found (left_parts (run closed_in_commit rooted_store).now 0 0 (run closed_in_commit rooted_store).listed) ≡ record root_tree { highest = 65 } }
{}

/// A long run: a put, a sync, a commit with a put inside, a collection, and a commit in which an orphan is closed. Each state has the
/// numbers that a simulation gave, and a cut between any two events leaves what it found there. A group or a copy that isn't synced
/// may be lost.
pub fn a_long_run_is_told()
    ensures first { rows first_commit started ≡ first_rows }
    ensures collected { rows collection (run_all first_commit started) ≡ collection_rows }
    ensures second { rows second_commit (run_all collection (run_all first_commit started)) ≡ second_rows }
    ensures found { found_rows first_commit started ≡ (found_am ∷ []) ∷ (found_am ∷ []) ∷ (found_am ∷ []) ∷ (found_bb 0 (20, 0) ∷ []) ∷ (found_bb 0 (20, 0) ∷ []) ∷ (found_bb 1 (20, 0) ∷ []) ∷ [] }
    ensures found_last { found_rows (collection ++ second_commit) (run_all first_commit started) ≡ (found_bb 1 (21, 0) ∷ []) ∷ (found_last 1 ∷ []) ∷ (found_last 1 ∷ []) ∷ (found_last 1 ∷ []) ∷ (found_last 1 ∷ []) ∷ (found_last 1 ∷ []) ∷ (found_last 2 ∷ []) ∷ [] }
{}

/// In that run, what a cut leaves where a group or a copy isn't synced, and where either master may be there.
pub fn cuts_of_a_long_run_are_told()
    ensures put { map (least (run_all (take 1 first_commit) started)) (faces (run_all (take 1 first_commit) started)) ≡ found_root ∷ [] }
    ensures inside { map (least (run_all (take 4 first_commit) started)) (faces (run_all (take 4 first_commit) started)) ≡ found_am ∷ [] }
    ensures offered { map (most (run (Offer ∷ []) (run_all (take 5 first_commit) started))) (faces (run (Offer ∷ []) (run_all (take 5 first_commit) started))) ≡ found_bb 0 (20, 0) ∷ found_bb 1 (20, 0) ∷ [] }
    ensures copied { map (uncopied (run copying (run_all first_commit started))) (faces (run copying (run_all first_commit started))) ≡ found_bb 1 (20, 0) ∷ [] }
    ensures unlinked { map (least (run (unlinking_event ∷ []) (run_all (first_commit ++ collection) started))) (faces (run (unlinking_event ∷ []) (run_all (first_commit ++ collection) started))) ≡ found_bb 1 (21, 0) ∷ [] }
{}

/// The events of a put, of a whole commit with a put inside, and of a whole collection meet their conditions.
pub fn worked_runs_are_legal()
    ensures put { AreEventsLegal rooted_store put_am }
    ensures commit { AreEventsLegal rooted_store whole_commit }
    ensures collection { AreEventsLegal one_file collected_events }
{}

/// A store to which nothing was put yet is a store, with the root alone or with a file: each line of the invariant holds of it. So it
/// is with half a collection, where a copy is synced, and with a commit that is offered, after a group that was put while it ran.
pub fn a_worked_store_is_one()
    ensures root { IsStore rooted_store }
    ensures file { IsStore one_file }
    ensures half { IsStore (run half_collected one_file) }
    ensures offered { IsStore (run until_offer rooted_store) }
{}

/// Along the runs nodes stand in the texts of their LEBs, heads end there, the nodes of both indexes stand at their places, and each
/// leaf is a view's or in its buds: after a put, with a commit that is offered, after its end, with half a collection, after it, and
/// after the long run, whose index has two levels.
pub fn worked_states_stand()
    ensures put { IsStanding (run put_am rooted_store) }
    ensures offered { IsStanding (run until_offer rooted_store) }
    ensures ended { IsStanding (run whole_commit rooted_store) }
    ensures half { IsStanding (run half_collected one_file) }
    ensures collected { IsStanding (run collected_events one_file) }
    ensures long { IsStanding (run_all second_commit (run_all collection (run_all first_commit started))) }
{}
