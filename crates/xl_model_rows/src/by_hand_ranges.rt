//! Tables of ranges, each row worked out by hand: what is read, cached and removed.

ghost use Rattle.std.specs.Prelude.{◌≡◌, codes};
ghost use Rattle.xl_model.specs.Report.{report};
ghost use Rattle.xl_model_rows.specs.Plain.{rows_alone};
ghost use Rattle.xl_model_rows.specs.ByHandRanges.{reads_on_both_sides_of_a_gap_rows, reads_on_both_sides_of_a_gap_items, reads_inside_a_long_range_rows, reads_inside_a_long_range_items, ranges_of_both_spaces_in_one_treap_rows, ranges_of_both_spaces_in_one_treap_items, the_newest_of_two_cached_ranges_rows, the_newest_of_two_cached_ranges_items, a_touch_of_a_cached_range_rows, a_touch_of_a_cached_range_items, an_unmap_beside_cached_ranges_rows, an_unmap_beside_cached_ranges_items, an_unmap_beside_a_shorter_range_rows, an_unmap_beside_a_shorter_range_items, an_unmap_under_two_cached_ranges_rows, an_unmap_under_two_cached_ranges_items, a_protect_beside_cached_ranges_rows, a_protect_beside_cached_ranges_items, a_move_beside_cached_ranges_rows, a_move_beside_cached_ranges_items, ranges_are_of_one_order_rows, ranges_are_of_one_order_items, ranges_are_of_one_space_rows, ranges_are_of_one_space_items, ranges_are_consecutive_in_frames_rows, ranges_are_consecutive_in_frames_items};

/// The ranges read on both sides of a gap, and of a place that is a range.
#[tactic(auto, unfolding(xl_model::specs::Computing::computing))]
pub fn reads_on_both_sides_of_a_gap()
    ensures { report rows_alone reads_on_both_sides_of_a_gap_rows reads_on_both_sides_of_a_gap_items
        ≡ codes "a accesses=6 ok=2 unmapped=4 denied=0 notcanonical=0 accepted=7 refused=0,0,0,0,0,0,0,0,0 walks=6 reads=17 wchits=0 fills=0 kicks=0 undone=0 migrated=0 growths=0 fences=0 invalidated=0 pasum=0000000000007000 tlb=-\n" }
{}

/// A place inside a range of several pages is that range.
#[tactic(auto, unfolding(xl_model::specs::Computing::computing))]
pub fn reads_inside_a_long_range()
    ensures { report rows_alone reads_inside_a_long_range_rows reads_inside_a_long_range_items
        ≡ codes "a accesses=4 ok=1 unmapped=3 denied=0 notcanonical=0 accepted=5 refused=0,0,0,0,0,0,0,0,0 walks=4 reads=8 wchits=0 fills=0 kicks=0 undone=0 migrated=0 growths=0 fences=0 invalidated=0 pasum=0000000000002000 tlb=-\n" }
{}

/// The ranges of all spaces are in one treap.
#[tactic(auto, unfolding(xl_model::specs::Computing::computing))]
pub fn ranges_of_both_spaces_in_one_treap()
    ensures { report rows_alone ranges_of_both_spaces_in_one_treap_rows
        ranges_of_both_spaces_in_one_treap_items ≡ codes
        "a accesses=5 ok=2 unmapped=3 denied=0 notcanonical=0 accepted=3 refused=0,0,0,0,0,0,0,0,0 walks=5 reads=8 wchits=0 fills=0 kicks=0 undone=0 migrated=0 growths=0 fences=0 invalidated=0 pasum=0000000000001000 tlb=-\n" }
{}

/// Of two overlapping cached ranges the newest hits and is touched.
#[tactic(auto, unfolding(xl_model::specs::Computing::computing))]
pub fn the_newest_of_two_cached_ranges()
    ensures { report rows_alone the_newest_of_two_cached_ranges_rows
        the_newest_of_two_cached_ranges_items ≡ codes
        "a accesses=5 ok=5 unmapped=0 denied=0 notcanonical=0 accepted=3 refused=0,0,0,0,0,0,0,0,0 walks=5 reads=4 wchits=2 fills=0 kicks=0 undone=0 migrated=0 growths=0 fences=0 invalidated=0 pasum=0000000000004000 tlb=-\n" }
{}

/// A cached range that hits moves to the front.
#[tactic(auto, unfolding(xl_model::specs::Computing::computing))]
pub fn a_touch_of_a_cached_range()
    ensures { report rows_alone a_touch_of_a_cached_range_rows a_touch_of_a_cached_range_items
        ≡ codes "a accesses=6 ok=6 unmapped=0 denied=0 notcanonical=0 accepted=3 refused=0,0,0,0,0,0,0,0,0 walks=6 reads=8 wchits=2 fills=0 kicks=0 undone=0 migrated=0 growths=0 fences=0 invalidated=0 pasum=0000000000004000 tlb=-\n" }
{}

/// An unmap removes the cached ranges that hold the page, and no other.
#[tactic(auto, unfolding(xl_model::specs::Computing::computing))]
pub fn an_unmap_beside_cached_ranges()
    ensures { report rows_alone an_unmap_beside_cached_ranges_rows
        an_unmap_beside_cached_ranges_items ≡ codes
        "a accesses=6 ok=6 unmapped=0 denied=0 notcanonical=0 accepted=7 refused=0,0,0,0,0,0,0,0,0 walks=6 reads=8 wchits=2 fills=0 kicks=0 undone=0 migrated=0 growths=0 fences=0 invalidated=1 pasum=000000000000a000 tlb=-\n" }
{}

/// A shorter cached range without the page stays at an unmap.
#[tactic(auto, unfolding(xl_model::specs::Computing::computing))]
pub fn an_unmap_beside_a_shorter_range()
    ensures { report rows_alone an_unmap_beside_a_shorter_range_rows
        an_unmap_beside_a_shorter_range_items ≡ codes
        "a accesses=3 ok=3 unmapped=0 denied=0 notcanonical=0 accepted=3 refused=0,0,0,0,0,0,0,0,0 walks=3 reads=2 wchits=1 fills=0 kicks=0 undone=0 migrated=0 growths=0 fences=0 invalidated=1 pasum=0000000000001000 tlb=-\n" }
{}

/// Every cached range that holds the page leaves at an unmap.
#[tactic(auto, unfolding(xl_model::specs::Computing::computing))]
pub fn an_unmap_under_two_cached_ranges()
    ensures { report rows_alone an_unmap_under_two_cached_ranges_rows
        an_unmap_under_two_cached_ranges_items ≡ codes
        "a accesses=3 ok=3 unmapped=0 denied=0 notcanonical=0 accepted=3 refused=0,0,0,0,0,0,0,0,0 walks=3 reads=3 wchits=0 fills=0 kicks=0 undone=0 migrated=0 growths=0 fences=0 invalidated=2 pasum=0000000000002000 tlb=-\n" }
{}

/// A protect removes the cached range that holds the page, and no other.
#[tactic(auto, unfolding(xl_model::specs::Computing::computing))]
pub fn a_protect_beside_cached_ranges()
    ensures { report rows_alone a_protect_beside_cached_ranges_rows
        a_protect_beside_cached_ranges_items ≡ codes
        "a accesses=5 ok=5 unmapped=0 denied=0 notcanonical=0 accepted=5 refused=0,0,0,0,0,0,0,0,0 walks=5 reads=7 wchits=1 fills=0 kicks=0 undone=0 migrated=0 growths=0 fences=0 invalidated=1 pasum=0000000000009000 tlb=-\n" }
{}

/// A move removes the cached ranges that hold the old page, and no other.
#[tactic(auto, unfolding(xl_model::specs::Computing::computing))]
pub fn a_move_beside_cached_ranges()
    ensures { report rows_alone a_move_beside_cached_ranges_rows a_move_beside_cached_ranges_items
        ≡ codes "a accesses=5 ok=5 unmapped=0 denied=0 notcanonical=0 accepted=4 refused=0,0,0,0,0,0,0,0,0 walks=5 reads=6 wchits=1 fills=0 kicks=0 undone=0 migrated=0 growths=0 fences=0 invalidated=1 pasum=0000000000005000 tlb=-\n" }
{}

/// Two large leaves join where they are consecutive, and a small one after them does not.
#[tactic(auto, unfolding(xl_model::specs::Computing::computing))]
pub fn ranges_are_of_one_order()
    ensures { report rows_alone ranges_are_of_one_order_rows ranges_are_of_one_order_items
        ≡ codes "a accesses=1 ok=1 unmapped=0 denied=0 notcanonical=0 accepted=2 refused=0,0,0,0,0,0,0,1,0 walks=1 reads=1 wchits=0 fills=0 kicks=0 undone=0 migrated=0 growths=0 fences=0 invalidated=0 pasum=0000000000201000 tlb=-\n" }
{}

/// A leaf of another space joins no range.
#[tactic(auto, unfolding(xl_model::specs::Computing::computing))]
pub fn ranges_are_of_one_space()
    ensures { report rows_alone ranges_are_of_one_space_rows ranges_are_of_one_space_items
        ≡ codes "a accesses=1 ok=1 unmapped=0 denied=0 notcanonical=0 accepted=2 refused=0,0,0,0,0,0,0,1,0 walks=1 reads=1 wchits=0 fills=0 kicks=0 undone=0 migrated=0 growths=0 fences=0 invalidated=0 pasum=0000000000001000 tlb=-\n" }
{}

/// Pages that are consecutive, and frames that are not, make two ranges.
#[tactic(auto, unfolding(xl_model::specs::Computing::computing))]
pub fn ranges_are_consecutive_in_frames()
    ensures { report rows_alone ranges_are_consecutive_in_frames_rows
        ranges_are_consecutive_in_frames_items ≡ codes
        "a accesses=1 ok=1 unmapped=0 denied=0 notcanonical=0 accepted=3 refused=0,0,0,0,0,0,0,1,0 walks=1 reads=2 wchits=0 fills=0 kicks=0 undone=0 migrated=0 growths=0 fences=0 invalidated=0 pasum=0000000000002000 tlb=-\n" }
{}
