//! The G cache.

ghost use Rattle.std.specs.Prelude.{◌≡◌};
ghost use Rattle.xl_nested_rows.specs.Row.{counts_of, outcomes_of};
ghost use Rattle.xl_nested_rows.specs.Caches.{unmap_leaves_the_cache_row, mapped_again_under_the_cache_row, a_cache_of_one_row, a_cache_of_two_row, gunmap_alone_drops_its_leaf_row, a_cache_of_one_large_leaf_row, there_and_back};

/// A GUNMAP removes its leaf from the G cache.
#[tactic(auto, unfolding(xl_model::specs::Computing::computing, xl_nested_model::specs::Computing::nested_computing))]
pub fn unmap_leaves_the_cache()
    ensures outcomes { outcomes_of unmap_leaves_the_cache_row
        ≡ unmap_leaves_the_cache_row.outcomes }
    ensures counts { counts_of unmap_leaves_the_cache_row ≡ unmap_leaves_the_cache_row.counts }
{}

/// Pages of the host are unmapped and mapped again while the G cache holds others.
#[tactic(auto, unfolding(xl_model::specs::Computing::computing, xl_nested_model::specs::Computing::nested_computing))]
pub fn mapped_again_under_the_cache()
    ensures outcomes { outcomes_of mapped_again_under_the_cache_row
        ≡ mapped_again_under_the_cache_row.outcomes }
    ensures counts { counts_of mapped_again_under_the_cache_row
        ≡ mapped_again_under_the_cache_row.counts }
{}

/// A G cache of one leaf.
#[tactic(auto, unfolding(xl_model::specs::Computing::computing, xl_nested_model::specs::Computing::nested_computing))]
pub fn a_cache_of_one()
    ensures outcomes { outcomes_of a_cache_of_one_row ≡ a_cache_of_one_row.outcomes }
    ensures counts { counts_of a_cache_of_one_row ≡ a_cache_of_one_row.counts }
{}

/// A G cache of two leaves.
#[tactic(auto, unfolding(xl_model::specs::Computing::computing, xl_nested_model::specs::Computing::nested_computing))]
pub fn a_cache_of_two()
    ensures outcomes { outcomes_of a_cache_of_two_row ≡ a_cache_of_two_row.outcomes }
    ensures counts { counts_of a_cache_of_two_row ≡ a_cache_of_two_row.counts }
{}

/// GUNMAP drops its own leaf from the G cache and no other; the guest's commands drop none.
#[tactic(auto, unfolding(xl_model::specs::Computing::computing, xl_nested_model::specs::Computing::nested_computing))]
pub fn gunmap_alone_drops_its_leaf()
    ensures outcomes { outcomes_of gunmap_alone_drops_its_leaf_row
        ≡ gunmap_alone_drops_its_leaf_row.outcomes }
    ensures counts { counts_of gunmap_alone_drops_its_leaf_row
        ≡ gunmap_alone_drops_its_leaf_row.counts }
{}

/// A G cache of one leaf: one of 2 MiB that has nodes and data is hit, until a page elsewhere takes
/// its place.
#[tactic(auto, unfolding(xl_model::specs::Computing::computing, xl_nested_model::specs::Computing::nested_computing))]
pub fn a_cache_of_one_large_leaf()
    ensures outcomes { outcomes_of a_cache_of_one_large_leaf_row
        ≡ a_cache_of_one_large_leaf_row.outcomes }
    ensures counts { counts_of a_cache_of_one_large_leaf_row
        ≡ a_cache_of_one_large_leaf_row.counts }
{}

/// 6 pages there and back, after the root's, over a G cache of no leaf.
#[tactic(auto, unfolding(xl_model::specs::Computing::computing, xl_nested_model::specs::Computing::nested_computing))]
pub fn width_0()
    ensures outcomes { outcomes_of (there_and_back 0 6 84 0) ≡ (there_and_back 0 6 84 0).outcomes }
    ensures counts { counts_of (there_and_back 0 6 84 0) ≡ (there_and_back 0 6 84 0).counts }
{}

/// 6 pages there and back, after the root's, over a G cache of 2 leaves.
#[tactic(auto, unfolding(xl_model::specs::Computing::computing, xl_nested_model::specs::Computing::nested_computing))]
pub fn width_2()
    ensures outcomes { outcomes_of (there_and_back 2 6 48 12) ≡
        (there_and_back 2 6 48 12).outcomes }
    ensures counts { counts_of (there_and_back 2 6 48 12) ≡ (there_and_back 2 6 48 12).counts }
{}

/// 6 pages there and back, after the root's, over a G cache of 4 leaves.
#[tactic(auto, unfolding(xl_model::specs::Computing::computing, xl_nested_model::specs::Computing::nested_computing))]
pub fn width_4()
    ensures outcomes { outcomes_of (there_and_back 4 6 42 14) ≡
        (there_and_back 4 6 42 14).outcomes }
    ensures counts { counts_of (there_and_back 4 6 42 14) ≡ (there_and_back 4 6 42 14).counts }
{}

/// 14 pages there and back, after the root's, over a G cache of 6 leaves.
#[tactic(auto, unfolding(xl_model::specs::Computing::computing, xl_nested_model::specs::Computing::nested_computing))]
pub fn width_6()
    ensures outcomes { outcomes_of (there_and_back 6 14 100 32) ≡
        (there_and_back 6 14 100 32).outcomes }
    ensures counts { counts_of (there_and_back 6 14 100 32) ≡ (there_and_back 6 14 100 32).counts }
{}

/// 14 pages there and back, after the root's, over a G cache of 8 leaves.
#[tactic(auto, unfolding(xl_model::specs::Computing::computing, xl_nested_model::specs::Computing::nested_computing))]
pub fn width_8()
    ensures outcomes { outcomes_of (there_and_back 8 14 94 34) ≡
        (there_and_back 8 14 94 34).outcomes }
    ensures counts { counts_of (there_and_back 8 14 94 34) ≡ (there_and_back 8 14 94 34).counts }
{}

/// 14 pages there and back, after the root's, over a G cache of 12 leaves.
#[tactic(auto, unfolding(xl_model::specs::Computing::computing, xl_nested_model::specs::Computing::nested_computing))]
pub fn width_12()
    ensures outcomes { outcomes_of (there_and_back 12 14 82 38) ≡
        (there_and_back 12 14 82 38).outcomes }
    ensures counts { counts_of (there_and_back 12 14 82 38) ≡ (there_and_back 12 14 82 38).counts }
{}

/// 18 pages there and back, after the root's, over a G cache of 16 leaves.
#[tactic(auto, unfolding(xl_model::specs::Computing::computing, xl_nested_model::specs::Computing::nested_computing))]
pub fn width_16()
    ensures outcomes { outcomes_of (there_and_back 16 18 102 50) ≡
        (there_and_back 16 18 102 50).outcomes }
    ensures counts { counts_of (there_and_back 16 18 102 50) ≡
        (there_and_back 16 18 102 50).counts }
{}

/// 34 pages there and back, after the root's, over a G cache of 32 leaves.
#[tactic(auto, unfolding(xl_model::specs::Computing::computing, xl_nested_model::specs::Computing::nested_computing))]
pub fn width_32()
    ensures outcomes { outcomes_of (there_and_back 32 34 182 98) ≡
        (there_and_back 32 34 182 98).outcomes }
    ensures counts { counts_of (there_and_back 32 34 182 98) ≡
        (there_and_back 32 34 182 98).counts }
{}

/// 34 pages there and back, after the root's, over a G cache of 64 leaves.
#[tactic(auto, unfolding(xl_model::specs::Computing::computing, xl_nested_model::specs::Computing::nested_computing))]
pub fn width_64()
    ensures outcomes { outcomes_of (there_and_back 64 34 173 101) ≡
        (there_and_back 64 34 173 101).outcomes }
    ensures counts { counts_of (there_and_back 64 34 173 101) ≡
        (there_and_back 64 34 173 101).counts }
{}
