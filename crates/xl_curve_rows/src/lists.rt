//! Rows with one set or a few, whose curves were worked out by two other programs.

ghost use Rattle.std.specs.Prelude.{◌≡◌, [], ◌∷◌, codes, replicate};
ghost use Rattle.xl_curve_model.specs.Curves.{curve_accessed, opening_curve};
ghost use Rattle.xl_curve_model.specs.CurveLines.{curve_line};
ghost use Rattle.xl_curve_rows.specs.CurveRows.{figures, page_1, perm_r__u, perm_rw_u, three_pages_twice_row, three_pages_twice_items, a_removed_leaf_leaves_a_hole_row, a_removed_leaf_leaves_a_hole_items, a_hole_above_the_touched_place_row, a_hole_above_the_touched_place_items, a_hole_below_the_touched_place_row, a_hole_below_the_touched_place_items, a_hole_at_the_touched_place_row, a_hole_at_the_touched_place_items, two_holes_row, two_holes_items, several_sets_row, several_sets_items, large_leaves_row, large_leaves_items, a_purge_by_space_row, a_purge_by_space_items, a_purge_of_all_row, a_purge_of_all_items, a_protect_and_a_move_row, a_protect_and_a_move_items, fences_row, fences_items, refused_commands_row, refused_commands_items, denied_and_absent_row, denied_and_absent_items, a_demand_area_row, a_demand_area_items, a_demand_that_is_refused_row, a_demand_that_is_refused_items};
ghost use Rattle.xl_curve_model.specs.CurveRun.{curve_of_run};

/// Three pages, twice over: below width 3 each has left before it comes again.
#[tactic(auto, unfolding(xl_curve_model::specs::CurveComputing::computing_curves))]
pub fn three_pages_twice()
    ensures { figures (curve_of_run three_pages_twice_row 1 three_pages_twice_items)
        ≡ 6 ∷ 0 ∷ 0 ∷ replicate 62 3 }
{}

/// A removed leaf leaves a hole: where the places after it closed up, width 2 would have two hits.
#[tactic(auto, unfolding(xl_curve_model::specs::CurveComputing::computing_curves))]
pub fn a_removed_leaf_leaves_a_hole()
    ensures { figures (curve_of_run a_removed_leaf_leaves_a_hole_row 1
        a_removed_leaf_leaves_a_hole_items)
        ≡ 5 ∷ 0 ∷ 1 ∷ replicate 62 2 }
{}

/// A hole in front of the touched place is filled, and the place becomes the hole.
#[tactic(auto, unfolding(xl_curve_model::specs::CurveComputing::computing_curves))]
pub fn a_hole_above_the_touched_place()
    ensures { figures (curve_of_run a_hole_above_the_touched_place_row 1
        a_hole_above_the_touched_place_items)
        ≡ 10 ∷ 0 ∷ 0 ∷ 0 ∷ 4 ∷ replicate 60 5 }
{}

/// A hole after the touched place stays where it is.
#[tactic(auto, unfolding(xl_curve_model::specs::CurveComputing::computing_curves))]
pub fn a_hole_below_the_touched_place()
    ensures { figures (curve_of_run a_hole_below_the_touched_place_row 1
        a_hole_below_the_touched_place_items)
        ≡ 10 ∷ 0 ∷ 1 ∷ 2 ∷ 4 ∷ replicate 60 5 }
{}

/// A leaf that was removed and comes again fills its own hole, or an earlier one.
#[tactic(auto, unfolding(xl_curve_model::specs::CurveComputing::computing_curves))]
pub fn a_hole_at_the_touched_place()
    ensures { figures (curve_of_run a_hole_at_the_touched_place_row 1
        a_hole_at_the_touched_place_items)
        ≡ 9 ∷ 0 ∷ 1 ∷ 1 ∷ replicate 61 3 }
{}

/// Two holes: each access takes the first one.
#[tactic(auto, unfolding(xl_curve_model::specs::CurveComputing::computing_curves))]
pub fn two_holes()
    ensures { figures (curve_of_run two_holes_row 1 two_holes_items)
        ≡ 11 ∷ 0 ∷ 0 ∷ 1 ∷ 3 ∷ 4 ∷ replicate 59 5 }
{}

/// Three sets, whose lists don't see one another.
#[tactic(auto, unfolding(xl_curve_model::specs::CurveComputing::computing_curves))]
pub fn several_sets()
    ensures { figures (curve_of_run several_sets_row 3 several_sets_items)
        ≡ 14 ∷ 0 ∷ 5 ∷ replicate 62 6 }
{}

/// Leaves of three sizes: a page of a large leaf looks for the whole leaf, in the set of its block.
#[tactic(auto, unfolding(xl_curve_model::specs::CurveComputing::computing_curves))]
pub fn large_leaves()
    ensures { figures (curve_of_run large_leaves_row 2 large_leaves_items)
        ≡ 7 ∷ 1 ∷ 1 ∷ replicate 62 3 }
{}

/// A purge by space takes the leaves of the space alone.
#[tactic(auto, unfolding(xl_curve_model::specs::CurveComputing::computing_curves))]
pub fn a_purge_by_space()
    ensures { figures (curve_of_run a_purge_by_space_row 1 a_purge_by_space_items)
        ≡ 9 ∷ 0 ∷ 0 ∷ 0 ∷ 2 ∷ replicate 60 3 }
{}

/// A purge of all takes every leaf.
#[tactic(auto, unfolding(xl_curve_model::specs::CurveComputing::computing_curves))]
pub fn a_purge_of_all()
    ensures { figures (curve_of_run a_purge_of_all_row 1 a_purge_of_all_items)
        ≡ 8 ∷ 0 ∷ 0 ∷ replicate 62 2 }
{}

/// A protect and a move purge the leaf as it was.
#[tactic(auto, unfolding(xl_curve_model::specs::CurveComputing::computing_curves))]
pub fn a_protect_and_a_move()
    ensures { figures (curve_of_run a_protect_and_a_move_row 1 a_protect_and_a_move_items)
        ≡ 10 ∷ 0 ∷ 1 ∷ replicate 62 4 }
{}

/// The four fences remove what they reach.
#[tactic(auto, unfolding(xl_curve_model::specs::CurveComputing::computing_curves))]
pub fn fences()
    ensures { figures (curve_of_run fences_row 1 fences_items)
        ≡ 10 ∷ 0 ∷ 0 ∷ 0 ∷ replicate 61 2 }
{}

/// A refused command removes nothing.
#[tactic(auto, unfolding(xl_curve_model::specs::CurveComputing::computing_curves))]
pub fn refused_commands()
    ensures { figures (curve_of_run refused_commands_row 1 refused_commands_items)
        ≡ 4 ∷ 0 ∷ replicate 63 2 }
{}

/// A denied access looks for its leaf, an unmapped one misses at every width, and one that isn't
/// canonical isn't a look-up.
#[tactic(auto, unfolding(xl_curve_model::specs::CurveComputing::computing_curves))]
pub fn denied_and_absent()
    ensures { figures (curve_of_run denied_and_absent_row 1 denied_and_absent_items)
        ≡ 6 ∷ 0 ∷ replicate 63 2 }
{}

/// The first access of a demand misses at every width, and the second looks for the new leaf.
#[tactic(auto, unfolding(xl_curve_model::specs::CurveComputing::computing_curves))]
pub fn a_demand_area()
    ensures { figures (curve_of_run a_demand_area_row 2 a_demand_area_items)
        ≡ 12 ∷ 3 ∷ replicate 63 4 }
{}

/// A leaf that differs in its permission alone is another leaf. It is filled beside the first,
/// which width 1 then no longer has, and each other width still holds. Worked out by hand.
#[tactic(auto, unfolding(xl_curve_model::specs::CurveComputing::computing_curves))]
pub fn a_leaf_of_another_permission()
    ensures { figures (curve_accessed (page_1 perm_r__u)
        (curve_accessed (page_1 perm_rw_u) (curve_accessed (page_1 perm_r__u) (opening_curve 1))))
        ≡ 3 ∷ 0 ∷ replicate 63 1 }
{}

/// A demand whose map is refused has no second access.
#[tactic(auto, unfolding(xl_curve_model::specs::CurveComputing::computing_curves))]
pub fn a_demand_that_is_refused()
    ensures { figures (curve_of_run a_demand_that_is_refused_row 1 a_demand_that_is_refused_items)
        ≡ 4 ∷ replicate 64 1 }
{}

/// The line of a curve: the row's name, the sets, the look-ups, and the hits of each width.
#[tactic(auto, unfolding(xl_curve_model::specs::CurveComputing::computing_curves))]
pub fn the_line_of_a_curve()
    ensures { curve_line (codes "a") 4 3 (1 ∷ 20 ∷ [])
        ≡ codes "a curve sets=4 lookups=3 hits=1,20\n" }
{}
