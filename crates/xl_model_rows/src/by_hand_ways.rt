//! Elastic cuckoo tables, each row worked out by hand: slots, displacements, growths and sections.

ghost use Rattle.std.specs.Prelude.{◌≡◌, codes, [], ◌∷◌, true, false};
ghost use Rattle.xl_model.specs.Report.{report};
ghost use Rattle.xl_model_rows.specs.Plain.{rows_alone};
ghost use Rattle.xl_model.specs.Hashes.{way_hash};
ghost use Rattle.xl_model.specs.Items.{run};
ghost use Rattle.xl_model_rows.specs.ByHandWays.{below_the_rehash_pointer_row, below_the_rehash_pointer_rows, below_the_rehash_pointer_items, the_old_slot_is_free_row, the_old_slot_is_free_rows, the_old_slot_is_free_items, which_way_grows_row, which_way_grows_rows, which_way_grows_items, a_forced_growth_of_a_growing_way_row, a_forced_growth_of_a_growing_way_rows, a_forced_growth_of_a_growing_way_items, kicks_in_three_ways_row, kicks_in_three_ways_rows, kicks_in_three_ways_items, kicks_in_four_ways_row, kicks_in_four_ways_rows, kicks_in_four_ways_items, growths_before_a_refusal_stay_row, growths_before_a_refusal_stay_rows, growths_before_a_refusal_stay_items, a_moved_key_still_counts_row, a_moved_key_still_counts_rows, a_moved_key_still_counts_items, the_last_slots_of_a_growth_row, the_last_slots_of_a_growth_rows, the_last_slots_of_a_growth_items, a_growth_ends_and_the_next_begins_row, a_growth_ends_and_the_next_begins_rows, a_growth_ends_and_the_next_begins_items, each_order_has_ways_of_its_own_row, each_order_has_ways_of_its_own_rows, each_order_has_ways_of_its_own_items, a_leaf_displaced_back_to_its_way_rows, a_leaf_displaced_back_to_its_way_items, a_1g_leaf_beside_a_cached_section_rows, a_1g_leaf_beside_a_cached_section_items, a_map_changes_a_cached_section_rows, a_map_changes_a_cached_section_items, sections_that_stay_and_leave_rows, sections_that_stay_and_leave_items, a_touch_of_a_cached_section_rows, a_touch_of_a_cached_section_items, an_unmapped_page_touches_a_section_items, a_protect_leaves_sections_rows, a_protect_leaves_sections_items, a_move_changes_sections_rows, a_move_changes_sections_items, a_large_leaf_known_by_one_section_rows, a_large_leaf_known_by_one_section_items, keys_of_two_spaces_row, keys_of_two_spaces_rows, keys_of_two_spaces_items, k4_ways, way_at, in_slot, ways_after};

/// A key below the rehash pointer whose old and new slot differ, and one that collides with it.
#[tactic(auto, unfolding(xl_model::specs::Computing::computing))]
pub fn below_the_rehash_pointer()
    ensures known { report rows_alone below_the_rehash_pointer_rows below_the_rehash_pointer_items
        ≡ codes "a accesses=2 ok=2 unmapped=0 denied=0 notcanonical=0 accepted=4 refused=0,0,0,0,0,0,0,0,0 walks=2 reads=12 wchits=0 fills=0 kicks=1 undone=0 migrated=2 growths=2 fences=0 invalidated=0 pasum=0000000000000000 tlb=-\n" }
    ensures standing { k4_ways (run below_the_rehash_pointer_row
        below_the_rehash_pointer_items).table.shape ≡ way_at 2 0 false
        (in_slot 1 1 ∷ in_slot 2 18 ∷ []) ∷ way_at 1 0 true (in_slot 1 3 ∷ in_slot 0 14 ∷ []) ∷ [] }
{}

/// The old slot of a migrated key is free.
#[tactic(auto, unfolding(xl_model::specs::Computing::computing))]
pub fn the_old_slot_is_free()
    ensures known { report rows_alone the_old_slot_is_free_rows the_old_slot_is_free_items
        ≡ codes "a accesses=2 ok=2 unmapped=0 denied=0 notcanonical=0 accepted=4 refused=0,0,0,0,0,0,0,0,0 walks=2 reads=12 wchits=0 fills=0 kicks=0 undone=0 migrated=2 growths=1 fences=0 invalidated=0 pasum=0000000000003000 tlb=-\n" }
    ensures standing { k4_ways (run the_old_slot_is_free_row the_old_slot_is_free_items).table.shape
        ≡ way_at 2 0 false (in_slot 1 1 ∷ in_slot 0 6 ∷ in_slot 2 14 ∷ []) ∷ way_at 1 0 false
        (in_slot 1 3 ∷ []) ∷ [] }
{}

/// After a failed attempt the way with the least s grows, of several the lowest.
#[tactic(auto, unfolding(xl_model::specs::Computing::computing))]
pub fn which_way_grows()
    ensures known { report rows_alone which_way_grows_rows which_way_grows_items
        ≡ codes "a accesses=0 ok=0 unmapped=0 denied=0 notcanonical=0 accepted=5 refused=0,0,0,0,0,0,0,0,0 walks=0 reads=0 wchits=0 fills=0 kicks=4 undone=3 migrated=3 growths=3 fences=0 invalidated=0 pasum=0000000000000000 tlb=-\n" }
    ensures standing { k4_ways (run which_way_grows_row which_way_grows_items).table.shape
        ≡ way_at 1 0 false (in_slot 0 2 ∷ []) ∷ way_at 1 0 false (in_slot 1 8 ∷ in_slot 0 10 ∷ [])
        ∷ way_at 1 0 false (in_slot 1 0 ∷ in_slot 0 1 ∷ []) ∷ [] }
{}

/// A forced growth ends one that has begun, and counts none.
#[tactic(auto, unfolding(xl_model::specs::Computing::computing))]
pub fn a_forced_growth_of_a_growing_way()
    ensures known { report rows_alone a_forced_growth_of_a_growing_way_rows
        a_forced_growth_of_a_growing_way_items ≡ codes
        "a accesses=0 ok=0 unmapped=0 denied=0 notcanonical=0 accepted=5 refused=0,0,0,0,0,0,0,0,0 walks=0 reads=0 wchits=0 fills=0 kicks=1 undone=1 migrated=3 growths=2 fences=0 invalidated=0 pasum=0000000000000000 tlb=-\n" }
    ensures standing { k4_ways (run a_forced_growth_of_a_growing_way_row
        a_forced_growth_of_a_growing_way_items).table.shape ≡ way_at 2 0 false
        (in_slot 1 1 ∷ in_slot 0 6 ∷ in_slot 3 7 ∷ []) ∷ way_at 1 1 true (in_slot 0 0 ∷ in_slot 1 3 ∷ []) ∷ [] }
{}

/// Displaced keys continue to the next of three ways.
#[tactic(auto, unfolding(xl_model::specs::Computing::computing))]
pub fn kicks_in_three_ways()
    ensures known { report rows_alone kicks_in_three_ways_rows kicks_in_three_ways_items
        ≡ codes "a accesses=3 ok=3 unmapped=0 denied=0 notcanonical=0 accepted=3 refused=0,0,0,0,0,0,0,0,0 walks=3 reads=27 wchits=0 fills=0 kicks=3 undone=0 migrated=0 growths=0 fences=0 invalidated=0 pasum=0000000000003000 tlb=-\n" }
    ensures standing { k4_ways (run kicks_in_three_ways_row kicks_in_three_ways_items).table.shape
        ≡ way_at 0 0 false (in_slot 0 3 ∷ []) ∷ way_at 0 0 false (in_slot 0 1 ∷ [])
        ∷ way_at 0 0 false (in_slot 0 5 ∷ []) ∷ [] }
{}

/// Displaced keys continue to the next of four ways.
#[tactic(auto, unfolding(xl_model::specs::Computing::computing))]
pub fn kicks_in_four_ways()
    ensures known { report rows_alone kicks_in_four_ways_rows kicks_in_four_ways_items
        ≡ codes "a accesses=1 ok=1 unmapped=0 denied=0 notcanonical=0 accepted=4 refused=0,0,0,0,0,0,0,0,0 walks=1 reads=12 wchits=0 fills=0 kicks=6 undone=0 migrated=0 growths=0 fences=0 invalidated=0 pasum=0000000000000000 tlb=-\n" }
    ensures standing { k4_ways (run kicks_in_four_ways_row kicks_in_four_ways_items).table.shape
        ≡ way_at 0 0 false (in_slot 0 13 ∷ []) ∷ way_at 0 0 false (in_slot 0 6 ∷ [])
        ∷ way_at 0 0 false (in_slot 0 0 ∷ []) ∷ way_at 0 0 false (in_slot 0 14 ∷ []) ∷ [] }
{}

/// Growths, migrations and kicks before a refusal at the cap stay, and nothing else changes.
#[tactic(auto, unfolding(xl_model::specs::Computing::computing))]
pub fn growths_before_a_refusal_stay()
    ensures known { report rows_alone growths_before_a_refusal_stay_rows
        growths_before_a_refusal_stay_items ≡ codes
        "a accesses=5 ok=4 unmapped=1 denied=0 notcanonical=0 accepted=3 refused=0,0,0,0,0,0,0,0,1 walks=5 reads=14 wchits=8 fills=0 kicks=3 undone=3 migrated=2 growths=2 fences=0 invalidated=0 pasum=0000000000003000 tlb=-\n" }
    ensures standing { k4_ways (run growths_before_a_refusal_stay_row
        growths_before_a_refusal_stay_items).table.shape ≡ way_at 1 0 false
        (in_slot 1 1 ∷ in_slot 0 6 ∷ []) ∷ way_at 1 0 false (in_slot 0 0 ∷ []) ∷ [] }
{}

/// A moved leaf's old key counts when a growth is judged.
#[tactic(auto, unfolding(xl_model::specs::Computing::computing))]
pub fn a_moved_key_still_counts()
    ensures known { report rows_alone a_moved_key_still_counts_rows a_moved_key_still_counts_items
        ≡ codes "a accesses=0 ok=0 unmapped=0 denied=0 notcanonical=0 accepted=2 refused=0,0,0,0,0,0,0,0,0 walks=0 reads=0 wchits=0 fills=0 kicks=0 undone=0 migrated=0 growths=1 fences=0 invalidated=0 pasum=0000000000000000 tlb=-\n" }
    ensures standing { k4_ways (run a_moved_key_still_counts_row
        a_moved_key_still_counts_items).table.shape ≡ way_at 1 0 true (in_slot 1 1 ∷ [])
        ∷ way_at 1 0 false ([]) ∷ [] }
{}

/// The last slots of a growth may be fewer than are migrated at once.
#[tactic(auto, unfolding(xl_model::specs::Computing::computing))]
pub fn the_last_slots_of_a_growth()
    ensures known { report rows_alone the_last_slots_of_a_growth_rows
        the_last_slots_of_a_growth_items ≡ codes "a accesses=0 ok=0 unmapped=0 denied=0 notcanonical=0 accepted=4 refused=0,0,0,0,0,0,0,0,0 walks=0 reads=0 wchits=0 fills=0 kicks=0 undone=0 migrated=4 growths=2 fences=0 invalidated=0 pasum=0000000000000000 tlb=-\n" }
    ensures standing { k4_ways (run the_last_slots_of_a_growth_row
        the_last_slots_of_a_growth_items).table.shape ≡ way_at 3 0 false
        (in_slot 1 1 ∷ in_slot 7 7 ∷ []) ∷ way_at 2 0 true (in_slot 2 2 ∷ in_slot 1 3 ∷ []) ∷ [] }
{}

/// A way may end a growth and begin the next at one insertion.
#[tactic(auto, unfolding(xl_model::specs::Computing::computing))]
pub fn a_growth_ends_and_the_next_begins()
    ensures known { report rows_alone a_growth_ends_and_the_next_begins_rows
        a_growth_ends_and_the_next_begins_items ≡ codes
        "a accesses=0 ok=0 unmapped=0 denied=0 notcanonical=0 accepted=2 refused=0,0,0,0,0,0,0,0,0 walks=0 reads=0 wchits=0 fills=0 kicks=0 undone=0 migrated=1 growths=3 fences=0 invalidated=0 pasum=0000000000000000 tlb=-\n" }
    ensures standing { k4_ways (run a_growth_ends_and_the_next_begins_row
        a_growth_ends_and_the_next_begins_items).table.shape ≡ way_at 1 0 true (in_slot 1 1 ∷ [])
        ∷ way_at 0 0 true (in_slot 0 0 ∷ []) ∷ [] }
{}

/// An insertion of another order migrates nothing.
#[tactic(auto, unfolding(xl_model::specs::Computing::computing))]
pub fn each_order_has_ways_of_its_own()
    ensures known { report rows_alone each_order_has_ways_of_its_own_rows
        each_order_has_ways_of_its_own_items ≡ codes
        "a accesses=0 ok=0 unmapped=0 denied=0 notcanonical=0 accepted=3 refused=0,0,0,0,0,0,0,0,0 walks=0 reads=0 wchits=0 fills=0 kicks=0 undone=0 migrated=1 growths=3 fences=0 invalidated=0 pasum=0000000000000000 tlb=-\n" }
    ensures standing { k4_ways (run each_order_has_ways_of_its_own_row
        each_order_has_ways_of_its_own_items).table.shape ≡ way_at 1 1 true (in_slot 1 1 ∷ [])
        ∷ way_at 1 0 true (in_slot 1 3 ∷ []) ∷ [] }
{}

/// A leaf that is displaced twice, back to its own way, keeps its cached section.
#[tactic(auto, unfolding(xl_model::specs::Computing::computing))]
pub fn a_leaf_displaced_back_to_its_way()
    ensures { report rows_alone a_leaf_displaced_back_to_its_way_rows
        a_leaf_displaced_back_to_its_way_items ≡ codes
        "a accesses=6 ok=6 unmapped=0 denied=0 notcanonical=0 accepted=4 refused=0,0,0,0,0,0,0,0,0 walks=6 reads=15 wchits=6 fills=0 kicks=5 undone=0 migrated=0 growths=0 fences=0 invalidated=2 pasum=0000000000c00000 tlb=-\n" }
{}

/// The walk of a 1 GiB leaf fills no 2 MiB section.
#[tactic(auto, unfolding(xl_model::specs::Computing::computing))]
pub fn a_1g_leaf_beside_a_cached_section()
    ensures { report rows_alone a_1g_leaf_beside_a_cached_section_rows
        a_1g_leaf_beside_a_cached_section_items ≡ codes
        "a accesses=4 ok=4 unmapped=0 denied=0 notcanonical=0 accepted=2 refused=0,0,0,0,0,0,0,0,0 walks=4 reads=15 wchits=3 fills=0 kicks=0 undone=0 migrated=0 growths=0 fences=0 invalidated=0 pasum=0000000080005000 tlb=-\n" }
{}

/// A map that changes the bits of a cached 1 GiB section removes it.
#[tactic(auto, unfolding(xl_model::specs::Computing::computing))]
pub fn a_map_changes_a_cached_section()
    ensures { report rows_alone a_map_changes_a_cached_section_rows
        a_map_changes_a_cached_section_items ≡ codes
        "a accesses=4 ok=4 unmapped=0 denied=0 notcanonical=0 accepted=2 refused=0,0,0,0,0,0,0,0,0 walks=4 reads=13 wchits=4 fills=0 kicks=0 undone=0 migrated=0 growths=0 fences=0 invalidated=1 pasum=0000000000400000 tlb=-\n" }
{}

/// Sections stay while their bits are as before, and leave with the last leaf.
#[tactic(auto, unfolding(xl_model::specs::Computing::computing))]
pub fn sections_that_stay_and_leave()
    ensures { report rows_alone sections_that_stay_and_leave_rows sections_that_stay_and_leave_items
        ≡ codes "a accesses=4 ok=2 unmapped=2 denied=0 notcanonical=0 accepted=4 refused=0,0,0,0,0,0,0,0,0 walks=4 reads=20 wchits=2 fills=0 kicks=0 undone=0 migrated=0 growths=0 fences=0 invalidated=2 pasum=0000000000000000 tlb=-\n" }
{}

/// A cached section that hits moves to the front.
#[tactic(auto, unfolding(xl_model::specs::Computing::computing))]
pub fn a_touch_of_a_cached_section()
    ensures { report rows_alone a_touch_of_a_cached_section_rows a_touch_of_a_cached_section_items
        ≡ codes "a accesses=6 ok=6 unmapped=0 denied=0 notcanonical=0 accepted=3 refused=0,0,0,0,0,0,0,0,0 walks=6 reads=28 wchits=2 fills=0 kicks=0 undone=0 migrated=0 growths=0 fences=0 invalidated=0 pasum=0000000000004000 tlb=-\n" }
{}

/// A walk that finds no leaf touches the cached section of its page.
#[tactic(auto, unfolding(xl_model::specs::Computing::computing))]
pub fn an_unmapped_page_touches_a_section()
    ensures { report rows_alone a_touch_of_a_cached_section_rows
        an_unmapped_page_touches_a_section_items
        ≡ codes "a accesses=6 ok=5 unmapped=1 denied=0 notcanonical=0 accepted=3 refused=0,0,0,0,0,0,0,0,0 walks=6 reads=28 wchits=2 fills=0 kicks=0 undone=0 migrated=0 growths=0 fences=0 invalidated=0 pasum=0000000000004000 tlb=-\n" }
{}

/// A protect leaves the leaf's sections.
#[tactic(auto, unfolding(xl_model::specs::Computing::computing))]
pub fn a_protect_leaves_sections()
    ensures { report rows_alone a_protect_leaves_sections_rows a_protect_leaves_sections_items
        ≡ codes "a accesses=2 ok=2 unmapped=0 denied=0 notcanonical=0 accepted=2 refused=0,0,0,0,0,0,0,0,0 walks=2 reads=8 wchits=2 fills=0 kicks=0 undone=0 migrated=0 growths=0 fences=0 invalidated=0 pasum=0000000000000000 tlb=-\n" }
{}

/// A move removes the sections whose bits it changes.
#[tactic(auto, unfolding(xl_model::specs::Computing::computing))]
pub fn a_move_changes_sections()
    ensures { report rows_alone a_move_changes_sections_rows a_move_changes_sections_items
        ≡ codes "a accesses=2 ok=2 unmapped=0 denied=0 notcanonical=0 accepted=2 refused=0,0,0,0,0,0,0,0,0 walks=2 reads=8 wchits=1 fills=0 kicks=0 undone=0 migrated=0 growths=0 fences=0 invalidated=1 pasum=0000000000000000 tlb=-\n" }
{}

/// A cached 2 MiB section alone says the way of its leaf.
#[tactic(auto, unfolding(xl_model::specs::Computing::computing))]
pub fn a_large_leaf_known_by_one_section()
    ensures { report rows_alone a_large_leaf_known_by_one_section_rows
        a_large_leaf_known_by_one_section_items ≡ codes
        "a accesses=2 ok=2 unmapped=0 denied=0 notcanonical=0 accepted=1 refused=0,0,0,0,0,0,0,0,0 walks=2 reads=7 wchits=1 fills=0 kicks=0 undone=0 migrated=0 growths=0 fences=0 invalidated=0 pasum=0000000000001000 tlb=-\n" }
{}

/// The same page of two spaces has two keys.
#[tactic(auto, unfolding(xl_model::specs::Computing::computing))]
pub fn keys_of_two_spaces()
    ensures known { report rows_alone keys_of_two_spaces_rows keys_of_two_spaces_items
        ≡ codes "a accesses=2 ok=2 unmapped=0 denied=0 notcanonical=0 accepted=3 refused=0,0,0,0,0,0,0,0,0 walks=2 reads=12 wchits=0 fills=0 kicks=0 undone=0 migrated=0 growths=0 fences=0 invalidated=0 pasum=0000000000001000 tlb=-\n" }
    ensures standing { k4_ways (run keys_of_two_spaces_row keys_of_two_spaces_items).table.shape
        ≡ way_at 4 0 false (in_slot 1 1 ∷ []) ∷ way_at 4 0 false (in_slot 1 35184372088833 ∷ [])
        ∷ [] }
{}

/// The hashes of the keys 0 and 1234567 in the first three ways.
#[tactic(auto, unfolding(xl_model::specs::Computing::computing))]
pub fn hashes_of_two_keys()
    ensures way_0_of_0 { way_hash 0 0 ≡ 0xe220a8397b1dcdaf }
    ensures way_1_of_0 { way_hash 1 0 ≡ 0x6e789e6aa1b965f4 }
    ensures way_2_of_0 { way_hash 2 0 ≡ 0x06c45d188009454f }
    ensures way_0_of_b { way_hash 0 1234567 ≡ 6457827717110365317 }
    ensures way_1_of_b { way_hash 1 1234567 ≡ 3203168211198807973 }
    ensures way_2_of_b { way_hash 2 1234567 ≡ 9817491932198370423 }
{}

/// The registers and slots of two ways after each step of a growth.
#[tactic(auto, unfolding(xl_model::specs::Computing::computing))]
pub fn a_growth_step_by_step()
    ensures map_first { ways_after 1 ≡ way_at 0 0 false ([]) ∷ way_at 0 0 true (in_slot 0 0 ∷ [])
        ∷ [] }
    ensures map_second { ways_after 2 ≡ way_at 0 0 true (in_slot 0 0 ∷ []) ∷ way_at 1 0 false
        (in_slot 1 1234567 ∷ []) ∷ [] }
    ensures map_again { ways_after 4 ≡ way_at 1 0 false ([]) ∷ way_at 1 0 true
        (in_slot 0 0 ∷ in_slot 1 1234567 ∷ []) ∷ [] }
    ensures one_slot_migrated { ways_after 6 ≡ way_at 1 0 false ([]) ∷ way_at 1 1 true
        (in_slot 0 0 ∷ in_slot 1 1234567 ∷ []) ∷ [] }
    ensures growth_ended { ways_after 8 ≡ way_at 1 0 false ([]) ∷ way_at 2 0 false
        (in_slot 0 0 ∷ in_slot 1 1234567 ∷ []) ∷ [] }
{}
