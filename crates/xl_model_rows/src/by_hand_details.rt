//! Details that no other row shows, each worked out by hand.

ghost use Rattle.std.specs.Prelude.{◌≡◌, codes, [], ◌∷◌};
ghost use Rattle.xl_model.specs.Items.{run};
ghost use Rattle.xl_model.specs.Report.{report};
ghost use Rattle.xl_model_rows.specs.Plain.{rows_alone, with_images};
ghost use Rattle.xl_model_rows.specs.ByHandDetails.{four_sets_rows, four_sets_items, a_page_without_u_rows, a_page_without_u_items, two_arrays_in_one_level_rows, two_arrays_in_one_level_items, a_fence_by_page_inside_a_large_leaf_rows, a_fence_by_page_inside_a_large_leaf_items, a_fence_by_addr_inside_a_large_leaf_rows, a_fence_by_addr_inside_a_large_leaf_items, a_move_between_1_gib_sections_rows, a_move_between_1_gib_sections_items, a_move_that_parts_a_range_rows, a_move_that_parts_a_range_items, a_1_gib_leaf_takes_no_2_mib_section_rows, a_1_gib_leaf_takes_no_2_mib_section_items, an_unmap_beside_a_range_of_another_space_rows, an_unmap_beside_a_range_of_another_space_items, a_fence_of_space_1_over_cached_ranges_rows, a_fence_of_space_1_over_cached_ranges_items, a_displaced_1_gib_leaf_rows, a_displaced_1_gib_leaf_items, ranges_of_space_1_rows, ranges_of_space_1_items, an_unmapped_page_touches_a_node_tag_rows, an_unmapped_page_touches_a_node_tag_items, a_1_gib_leaf_hashed_rows, a_1_gib_leaf_hashed_items, buckets_of_large_tags_rows, buckets_of_large_tags_items, an_array_of_1_gib_leaves_rows, an_array_of_1_gib_leaves_items, a_move_refused_for_room_rows, a_move_refused_for_room_items, fences_in_the_upper_half_rows, fences_in_the_upper_half_items, an_image_of_the_upper_half_rows, an_image_of_the_upper_half_items, a_protected_leaf_has_another_word_row, a_protected_leaf_has_another_word_items, k4_words, a_full_way_above_its_threshold_rows, a_full_way_above_its_threshold_items, two_sections_in_one_rows, two_sections_in_one_items, sections_of_two_spaces_rows, sections_of_two_spaces_items, ranges_are_of_one_permission_rows, ranges_are_of_one_permission_items};

/// Four sets of one leaf each: a set is the page modulo 4.
#[tactic(auto, unfolding(xl_model::specs::Computing::computing))]
pub fn four_sets()
    ensures { report rows_alone four_sets_rows four_sets_items
        ≡ codes "a accesses=8 ok=8 unmapped=0 denied=0 notcanonical=0 accepted=4 refused=0,0,0,0,0,0,0,0,0 walks=6 reads=18 wchits=0 fills=6 kicks=0 undone=0 migrated=0 growths=0 fences=0 invalidated=0 pasum=0000000000007000 tlb=2/6\n" }
{}

/// A page that is not for user accesses denies a load, a store and a fetch.
#[tactic(auto, unfolding(xl_model::specs::Computing::computing))]
pub fn a_page_without_u()
    ensures { report rows_alone a_page_without_u_rows a_page_without_u_items
        ≡ codes "a accesses=3 ok=0 unmapped=0 denied=3 notcanonical=0 accepted=1 refused=0,0,0,0,0,0,0,0,0 walks=3 reads=9 wchits=0 fills=0 kicks=0 undone=0 migrated=0 growths=0 fences=0 invalidated=0 pasum=0000000000000000 tlb=-\n" }
{}

/// Both arrays of a level are looked at, also the one after a hit.
#[tactic(auto, unfolding(xl_model::specs::Computing::computing))]
pub fn two_arrays_in_one_level()
    ensures { report rows_alone two_arrays_in_one_level_rows two_arrays_in_one_level_items
        ≡ codes "a accesses=4 ok=4 unmapped=0 denied=0 notcanonical=0 accepted=2 refused=0,0,0,0,0,0,0,0,0 walks=2 reads=5 wchits=0 fills=2 kicks=0 undone=0 migrated=0 growths=0 fences=0 invalidated=0 pasum=0000000000400000 tlb=1/3,1/3\n" }
{}

/// A fence by a page inside a cached leaf of 2 MiB removes the leaf.
#[tactic(auto, unfolding(xl_model::specs::Computing::computing))]
pub fn a_fence_by_page_inside_a_large_leaf()
    ensures { report rows_alone a_fence_by_page_inside_a_large_leaf_rows
        a_fence_by_page_inside_a_large_leaf_items ≡ codes
        "a accesses=2 ok=2 unmapped=0 denied=0 notcanonical=0 accepted=2 refused=0,0,0,0,0,0,0,0,0 walks=2 reads=4 wchits=0 fills=2 kicks=0 undone=0 migrated=0 growths=0 fences=1 invalidated=1 pasum=0000000000000000 tlb=0/2\n" }
{}

/// A fence by an address inside a cached leaf of 2 MiB removes the leaf.
#[tactic(auto, unfolding(xl_model::specs::Computing::computing))]
pub fn a_fence_by_addr_inside_a_large_leaf()
    ensures { report rows_alone a_fence_by_addr_inside_a_large_leaf_rows
        a_fence_by_addr_inside_a_large_leaf_items ≡ codes
        "a accesses=2 ok=2 unmapped=0 denied=0 notcanonical=0 accepted=2 refused=0,0,0,0,0,0,0,0,0 walks=2 reads=4 wchits=0 fills=2 kicks=0 undone=0 migrated=0 growths=0 fences=1 invalidated=1 pasum=0000000000000000 tlb=0/2\n" }
{}

/// A move asks for the section of its new place while it has that of the old.
#[tactic(auto, unfolding(xl_model::specs::Computing::computing))]
pub fn a_move_between_1_gib_sections()
    ensures { report rows_alone a_move_between_1_gib_sections_rows
        a_move_between_1_gib_sections_items ≡ codes
        "a accesses=1 ok=1 unmapped=0 denied=0 notcanonical=0 accepted=1 refused=0,0,0,0,0,0,0,1,0 walks=1 reads=6 wchits=0 fills=0 kicks=0 undone=0 migrated=0 growths=0 fences=0 invalidated=0 pasum=0000000000000000 tlb=-\n" }
{}

/// A move asks for room for the ranges that are left and the new one.
#[tactic(auto, unfolding(xl_model::specs::Computing::computing))]
pub fn a_move_that_parts_a_range()
    ensures { report rows_alone a_move_that_parts_a_range_rows a_move_that_parts_a_range_items
        ≡ codes "a accesses=1 ok=1 unmapped=0 denied=0 notcanonical=0 accepted=3 refused=0,0,0,0,0,0,0,1,0 walks=1 reads=1 wchits=0 fills=0 kicks=0 undone=0 migrated=0 growths=0 fences=0 invalidated=0 pasum=0000000000001000 tlb=-\n" }
{}

/// A leaf of 1 GiB takes no section of 2 MiB.
#[tactic(auto, unfolding(xl_model::specs::Computing::computing))]
pub fn a_1_gib_leaf_takes_no_2_mib_section()
    ensures { report rows_alone a_1_gib_leaf_takes_no_2_mib_section_rows
        a_1_gib_leaf_takes_no_2_mib_section_items ≡ codes
        "a accesses=2 ok=2 unmapped=0 denied=0 notcanonical=0 accepted=2 refused=0,0,0,0,0,0,0,0,0 walks=2 reads=12 wchits=0 fills=0 kicks=0 undone=0 migrated=0 growths=0 fences=0 invalidated=0 pasum=0000000040000000 tlb=-\n" }
{}

/// An unmap removes the cached ranges of its own space alone.
#[tactic(auto, unfolding(xl_model::specs::Computing::computing))]
pub fn an_unmap_beside_a_range_of_another_space()
    ensures { report rows_alone an_unmap_beside_a_range_of_another_space_rows
        an_unmap_beside_a_range_of_another_space_items
        ≡ codes "a accesses=3 ok=3 unmapped=0 denied=0 notcanonical=0 accepted=4 refused=0,0,0,0,0,0,0,0,0 walks=3 reads=3 wchits=1 fills=0 kicks=0 undone=0 migrated=0 growths=0 fences=0 invalidated=1 pasum=0000000000002000 tlb=-\n" }
{}

/// A fence of a space removes the cached ranges of that space.
#[tactic(auto, unfolding(xl_model::specs::Computing::computing))]
pub fn a_fence_of_space_1_over_cached_ranges()
    ensures { report rows_alone a_fence_of_space_1_over_cached_ranges_rows
        a_fence_of_space_1_over_cached_ranges_items
        ≡ codes "a accesses=3 ok=3 unmapped=0 denied=0 notcanonical=0 accepted=4 refused=0,0,0,0,0,0,0,0,0 walks=3 reads=4 wchits=0 fills=0 kicks=0 undone=0 migrated=0 growths=0 fences=1 invalidated=1 pasum=0000000000002000 tlb=-\n" }
{}

/// A cached section of 1 GiB is removed when its leaf is displaced.
#[tactic(auto, unfolding(xl_model::specs::Computing::computing))]
pub fn a_displaced_1_gib_leaf()
    ensures { report rows_alone a_displaced_1_gib_leaf_rows a_displaced_1_gib_leaf_items
        ≡ codes "a accesses=2 ok=2 unmapped=0 denied=0 notcanonical=0 accepted=2 refused=0,0,0,0,0,0,0,0,0 walks=2 reads=12 wchits=0 fills=0 kicks=1 undone=0 migrated=0 growths=0 fences=0 invalidated=1 pasum=0000000000000000 tlb=-\n" }
{}

/// The key of a range has its space in front of its page.
#[tactic(auto, unfolding(xl_model::specs::Computing::computing))]
pub fn ranges_of_space_1()
    ensures { report rows_alone ranges_of_space_1_rows ranges_of_space_1_items
        ≡ codes "a accesses=4 ok=4 unmapped=0 denied=0 notcanonical=0 accepted=4 refused=0,0,0,0,0,0,0,0,0 walks=4 reads=7 wchits=0 fills=0 kicks=0 undone=0 migrated=0 growths=0 fences=0 invalidated=0 pasum=0000000000003000 tlb=-\n" }
{}

/// A walk that finds no leaf touches the node tag at which it began.
#[tactic(auto, unfolding(xl_model::specs::Computing::computing))]
pub fn an_unmapped_page_touches_a_node_tag()
    ensures { report rows_alone an_unmapped_page_touches_a_node_tag_rows
        an_unmapped_page_touches_a_node_tag_items
        ≡ codes "a accesses=5 ok=4 unmapped=1 denied=0 notcanonical=0 accepted=3 refused=0,0,0,0,0,0,0,0,0 walks=5 reads=11 wchits=2 fills=0 kicks=0 undone=0 migrated=0 growths=0 fences=0 invalidated=0 pasum=0000000000003000 tlb=-\n" }
{}

/// A walk of a 1 GiB leaf tries all three orders.
#[tactic(auto, unfolding(xl_model::specs::Computing::computing))]
pub fn a_1_gib_leaf_hashed()
    ensures { report rows_alone a_1_gib_leaf_hashed_rows a_1_gib_leaf_hashed_items
        ≡ codes "a accesses=1 ok=1 unmapped=0 denied=0 notcanonical=0 accepted=2 refused=0,0,0,0,0,0,0,0,0 walks=1 reads=5 wchits=0 fills=0 kicks=0 undone=0 migrated=0 growths=0 fences=0 invalidated=0 pasum=0000000040000000 tlb=-\n" }
{}

/// The bucket of a large tag is by its order too.
#[tactic(auto, unfolding(xl_model::specs::Computing::computing))]
pub fn buckets_of_large_tags()
    ensures { report rows_alone buckets_of_large_tags_rows buckets_of_large_tags_items
        ≡ codes "a accesses=2 ok=1 unmapped=1 denied=0 notcanonical=0 accepted=2 refused=0,0,0,0,0,0,0,0,0 walks=2 reads=8 wchits=0 fills=0 kicks=0 undone=0 migrated=0 growths=0 fences=0 invalidated=0 pasum=0000000000000000 tlb=-\n" }
{}

/// Two arrays, of which one alone takes leaves of 1 GiB.
#[tactic(auto, unfolding(xl_model::specs::Computing::computing))]
pub fn an_array_of_1_gib_leaves()
    ensures { report rows_alone an_array_of_1_gib_leaves_rows an_array_of_1_gib_leaves_items
        ≡ codes "a accesses=2 ok=2 unmapped=0 denied=0 notcanonical=0 accepted=1 refused=0,0,0,0,0,0,0,0,0 walks=1 reads=1 wchits=0 fills=1 kicks=0 undone=0 migrated=0 growths=0 fences=0 invalidated=0 pasum=0000000000002000 tlb=0/2,1/1\n" }
{}

/// A move that is refused for want of a node purges nothing.
#[tactic(auto, unfolding(xl_model::specs::Computing::computing))]
pub fn a_move_refused_for_room()
    ensures { report rows_alone a_move_refused_for_room_rows a_move_refused_for_room_items
        ≡ codes "a accesses=2 ok=2 unmapped=0 denied=0 notcanonical=0 accepted=2 refused=0,0,0,0,0,0,0,1,0 walks=1 reads=3 wchits=0 fills=1 kicks=0 undone=0 migrated=0 growths=0 fences=0 invalidated=0 pasum=0000000000000000 tlb=1/1\n" }
{}

/// Fences by page and by address in the upper half of the addresses.
#[tactic(auto, unfolding(xl_model::specs::Computing::computing))]
pub fn fences_in_the_upper_half()
    ensures { report rows_alone fences_in_the_upper_half_rows fences_in_the_upper_half_items
        ≡ codes "a accesses=3 ok=3 unmapped=0 denied=0 notcanonical=0 accepted=3 refused=0,0,0,0,0,0,0,0,0 walks=3 reads=9 wchits=0 fills=3 kicks=0 undone=0 migrated=0 growths=0 fences=2 invalidated=2 pasum=0000000000000000 tlb=0/3\n" }
{}

/// The words of a page of the upper half.
#[tactic(auto, unfolding(xl_model::specs::Computing::computing))]
pub fn an_image_of_the_upper_half()
    ensures { report with_images an_image_of_the_upper_half_rows an_image_of_the_upper_half_items
        ≡ codes "a accesses=0 ok=0 unmapped=0 denied=0 notcanonical=0 accepted=1 refused=0,0,0,0,0,0,0,0,0 walks=0 reads=0 wchits=0 fills=0 kicks=0 undone=0 migrated=0 growths=0 fences=0 invalidated=0 pasum=0000000000000000 tlb=-\nimage a 0 256 0000000000000801\nimage a 2 0 0000000000000c01\nimage a 3 1 00000000000000d7\n" }
{}

/// A protect changes the word that a way keeps.
#[tactic(auto, unfolding(xl_model::specs::Computing::computing))]
pub fn a_protected_leaf_has_another_word()
    ensures { k4_words (run a_protected_leaf_has_another_word_row
        a_protected_leaf_has_another_word_items).table.shape ≡ [] ∷ (211 ∷ 1239 ∷ []) ∷ [] }
{}

/// A way of one slot that is full begins to grow where its threshold is 99 hundredths.
#[tactic(auto, unfolding(xl_model::specs::Computing::computing))]
pub fn a_full_way_above_its_threshold()
    ensures { report rows_alone a_full_way_above_its_threshold_rows
        a_full_way_above_its_threshold_items
        ≡ codes "a accesses=0 ok=0 unmapped=0 denied=0 notcanonical=0 accepted=1 refused=0,0,0,0,0,0,0,0,0 walks=0 reads=0 wchits=0 fills=0 kicks=0 undone=0 migrated=0 growths=1 fences=0 invalidated=0 pasum=0000000000000000 tlb=-\n" }
{}

/// Two sections of 2 MiB in one of 1 GiB, where there is room for one of 1 GiB.
#[tactic(auto, unfolding(xl_model::specs::Computing::computing))]
pub fn two_sections_in_one()
    ensures { report rows_alone two_sections_in_one_rows two_sections_in_one_items
        ≡ codes "a accesses=0 ok=0 unmapped=0 denied=0 notcanonical=0 accepted=2 refused=0,0,0,0,0,0,0,0,0 walks=0 reads=0 wchits=0 fills=0 kicks=0 undone=0 migrated=0 growths=0 fences=0 invalidated=0 pasum=0000000000000000 tlb=-\n" }
{}

/// The same page of two spaces is in two sections.
#[tactic(auto, unfolding(xl_model::specs::Computing::computing))]
pub fn sections_of_two_spaces()
    ensures { report rows_alone sections_of_two_spaces_rows sections_of_two_spaces_items
        ≡ codes "a accesses=0 ok=0 unmapped=0 denied=0 notcanonical=0 accepted=1 refused=0,0,0,0,0,0,0,1,0 walks=0 reads=0 wchits=0 fills=0 kicks=0 undone=0 migrated=0 growths=0 fences=0 invalidated=0 pasum=0000000000000000 tlb=-\n" }
{}

/// Pages of different permissions join no range.
#[tactic(auto, unfolding(xl_model::specs::Computing::computing))]
pub fn ranges_are_of_one_permission()
    ensures { report rows_alone ranges_are_of_one_permission_rows ranges_are_of_one_permission_items
        ≡ codes "a accesses=0 ok=0 unmapped=0 denied=0 notcanonical=0 accepted=3 refused=0,0,0,0,0,0,0,1,0 walks=0 reads=0 wchits=0 fills=0 kicks=0 undone=0 migrated=0 growths=0 fences=0 invalidated=0 pasum=0000000000000000 tlb=-\n" }
{}
