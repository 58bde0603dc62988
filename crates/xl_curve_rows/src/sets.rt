//! Rows with several sets, whose curves were worked out by another program.

ghost use Rattle.std.specs.Prelude.{◌≡◌, ◌∷◌, replicate};
ghost use Rattle.xl_curve_rows.specs.CurveRows.{figures};
ghost use Rattle.xl_curve_rows.specs.SetRows.{many_sets_row, many_sets_items, large_leaves_of_three_sets_row, large_leaves_of_three_sets_items, fences_in_large_leaves_row, fences_in_large_leaves_items, fences_of_an_address_row, fences_of_an_address_items, a_purge_by_space_in_each_set_row, a_purge_by_space_in_each_set_items, a_purge_of_all_in_each_set_row, a_purge_of_all_in_each_set_items, a_purge_of_a_page_in_its_set_row, a_purge_of_a_page_in_its_set_items, a_move_to_another_set_row, a_move_to_another_set_items, a_demand_that_denies_row, a_demand_that_denies_items};
ghost use Rattle.xl_curve_model.specs.CurveRun.{curve_of_run};

/// 256 sets: pages 256, 512 and 768 share set 0, and page 257 is alone in set 1.
#[tactic(auto, unfolding(xl_curve_model::specs::CurveComputing::computing_curves))]
pub fn many_sets()
    ensures { figures (curve_of_run many_sets_row 256 many_sets_items)
        ≡ 9 ∷ 2 ∷ 2 ∷ replicate 62 5 }
{}

/// Three sets: leaves of 2 MiB of blocks 1 and 4 share set 1. One is unmapped and mapped anew.
#[tactic(auto, unfolding(xl_curve_model::specs::CurveComputing::computing_curves))]
pub fn large_leaves_of_three_sets()
    ensures { figures (curve_of_run large_leaves_of_three_sets_row 3
        large_leaves_of_three_sets_items)
        ≡ 10 ∷ 1 ∷ replicate 63 6 }
{}

/// A fence of a page that is not the first of its leaf removes the leaf, in its space alone.
#[tactic(auto, unfolding(xl_curve_model::specs::CurveComputing::computing_curves))]
pub fn fences_in_large_leaves()
    ensures { figures (curve_of_run fences_in_large_leaves_row 256 fences_in_large_leaves_items)
        ≡ 12 ∷ 0 ∷ 0 ∷ replicate 62 7 }
{}

/// A fence of an address removes the leaves of each space that cover it.
#[tactic(auto, unfolding(xl_curve_model::specs::CurveComputing::computing_curves))]
pub fn fences_of_an_address()
    ensures { figures (curve_of_run fences_of_an_address_row 3 fences_of_an_address_items)
        ≡ 8 ∷ replicate 64 2 }
{}

/// A purge by space takes the leaves of the space from each set.
#[tactic(auto, unfolding(xl_curve_model::specs::CurveComputing::computing_curves))]
pub fn a_purge_by_space_in_each_set()
    ensures { figures (curve_of_run a_purge_by_space_in_each_set_row 3
        a_purge_by_space_in_each_set_items)
        ≡ 10 ∷ 1 ∷ replicate 63 2 }
{}

/// A purge of all takes the leaves of every space from each set.
#[tactic(auto, unfolding(xl_curve_model::specs::CurveComputing::computing_curves))]
pub fn a_purge_of_all_in_each_set()
    ensures { figures (curve_of_run a_purge_of_all_in_each_set_row 256
        a_purge_of_all_in_each_set_items)
        ≡ 9 ∷ replicate 64 1 }
{}

/// A purge of a page takes the leaf of its own space alone.
#[tactic(auto, unfolding(xl_curve_model::specs::CurveComputing::computing_curves))]
pub fn a_purge_of_a_page_in_its_set()
    ensures { figures (curve_of_run a_purge_of_a_page_in_its_set_row 3
        a_purge_of_a_page_in_its_set_items)
        ≡ 11 ∷ 1 ∷ 1 ∷ replicate 62 4 }
{}

/// A moved leaf is filled in the set of its new place, and its old place is absent.
#[tactic(auto, unfolding(xl_curve_model::specs::CurveComputing::computing_curves))]
pub fn a_move_to_another_set()
    ensures { figures (curve_of_run a_move_to_another_set_row 3 a_move_to_another_set_items)
        ≡ 8 ∷ 1 ∷ replicate 63 3 }
{}

/// A store to an area without that permission is absent at first; its page is mapped, and the
/// second access, which is denied, fills the leaf.
#[tactic(auto, unfolding(xl_curve_model::specs::CurveComputing::computing_curves))]
pub fn a_demand_that_denies()
    ensures { figures (curve_of_run a_demand_that_denies_row 1 a_demand_that_denies_items)
        ≡ 7 ∷ replicate 64 3 }
{}
