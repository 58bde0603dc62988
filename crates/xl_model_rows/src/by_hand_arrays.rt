//! TLB arrays, each row worked out by hand: touches, fills of lower levels, sets.

ghost use Rattle.std.specs.Prelude.{◌≡◌, codes};
ghost use Rattle.xl_model.specs.Report.{report};
ghost use Rattle.xl_model_rows.specs.Plain.{rows_alone};
ghost use Rattle.xl_model_rows.specs.ByHandArrays.{a_touch_at_a_full_set_rows, a_touch_at_a_full_set_items, a_touch_in_the_middle_rows, a_touch_in_the_middle_items, a_hit_in_the_third_level_rows, a_hit_in_the_third_level_items, a_hit_in_the_third_level_fills_two_rows, a_hit_in_the_third_level_fills_two_items, a_hit_in_a_later_level_touches_it_rows, a_hit_in_a_later_level_touches_it_items, a_hit_in_the_first_level_touches_it_alone_rows, a_hit_in_the_first_level_touches_it_alone_items, two_sets_rows, two_sets_items, sets_by_the_order_rows, sets_by_the_order_items, three_orders_in_one_array_rows, three_orders_in_one_array_items, a_denied_access_fills_rows, a_denied_access_fills_items, accesses_that_fill_nothing_rows, accesses_that_fill_nothing_items};

/// A touch at a full set: the leaf that was touched stays at the next fill, the oldest leaves.
#[tactic(auto, unfolding(xl_model::specs::Computing::computing))]
pub fn a_touch_at_a_full_set()
    ensures { report rows_alone a_touch_at_a_full_set_rows a_touch_at_a_full_set_items
        ≡ codes "a accesses=6 ok=6 unmapped=0 denied=0 notcanonical=0 accepted=3 refused=0,0,0,0,0,0,0,0,0 walks=4 reads=12 wchits=0 fills=4 kicks=0 undone=0 migrated=0 growths=0 fences=0 invalidated=0 pasum=0000000000004000 tlb=2/4\n" }
{}

/// A touch in the middle of a set keeps the order of the others.
#[tactic(auto, unfolding(xl_model::specs::Computing::computing))]
pub fn a_touch_in_the_middle()
    ensures { report rows_alone a_touch_in_the_middle_rows a_touch_in_the_middle_items
        ≡ codes "a accesses=9 ok=9 unmapped=0 denied=0 notcanonical=0 accepted=5 refused=0,0,0,0,0,0,0,0,0 walks=7 reads=21 wchits=0 fills=7 kicks=0 undone=0 migrated=0 growths=0 fences=0 invalidated=0 pasum=0000000000010000 tlb=2/7\n" }
{}

/// A hit in the third level fills the lower levels that hold the order, and no other.
#[tactic(auto, unfolding(xl_model::specs::Computing::computing))]
pub fn a_hit_in_the_third_level()
    ensures { report rows_alone a_hit_in_the_third_level_rows a_hit_in_the_third_level_items
        ≡ codes "a accesses=6 ok=6 unmapped=0 denied=0 notcanonical=0 accepted=3 refused=0,0,0,0,0,0,0,0,0 walks=3 reads=8 wchits=0 fills=7 kicks=0 undone=0 migrated=0 growths=0 fences=0 invalidated=0 pasum=0000000000401000 tlb=1/5,1/4,1/3\n" }
{}

/// A hit in the third level fills both lower levels where both hold the order.
#[tactic(auto, unfolding(xl_model::specs::Computing::computing))]
pub fn a_hit_in_the_third_level_fills_two()
    ensures { report rows_alone a_hit_in_the_third_level_fills_two_rows
        a_hit_in_the_third_level_fills_two_items ≡ codes
        "a accesses=7 ok=7 unmapped=0 denied=0 notcanonical=0 accepted=3 refused=0,0,0,0,0,0,0,0,0 walks=3 reads=8 wchits=0 fills=11 kicks=0 undone=0 migrated=0 growths=0 fences=0 invalidated=0 pasum=0000000000201000 tlb=2/5,1/4,1/3\n" }
{}

/// A hit in a later level brings the leaf to the front there.
#[tactic(auto, unfolding(xl_model::specs::Computing::computing))]
pub fn a_hit_in_a_later_level_touches_it()
    ensures { report rows_alone a_hit_in_a_later_level_touches_it_rows
        a_hit_in_a_later_level_touches_it_items ≡ codes
        "a accesses=6 ok=6 unmapped=0 denied=0 notcanonical=0 accepted=3 refused=0,0,0,0,0,0,0,0,0 walks=4 reads=12 wchits=0 fills=10 kicks=0 undone=0 migrated=0 growths=0 fences=0 invalidated=0 pasum=0000000000004000 tlb=0/6,2/4\n" }
{}

/// A hit in the first level leaves the second as it is.
#[tactic(auto, unfolding(xl_model::specs::Computing::computing))]
pub fn a_hit_in_the_first_level_touches_it_alone()
    ensures { report rows_alone a_hit_in_the_first_level_touches_it_alone_rows
        a_hit_in_the_first_level_touches_it_alone_items
        ≡ codes "a accesses=6 ok=6 unmapped=0 denied=0 notcanonical=0 accepted=3 refused=0,0,0,0,0,0,0,0,0 walks=3 reads=9 wchits=0 fills=7 kicks=0 undone=0 migrated=0 growths=0 fences=0 invalidated=0 pasum=0000000000004000 tlb=2/4,1/3\n" }
{}

/// Two leaves in different sets, and two that fight for one set.
#[tactic(auto, unfolding(xl_model::specs::Computing::computing))]
pub fn two_sets()
    ensures { report rows_alone two_sets_rows two_sets_items
        ≡ codes "a accesses=6 ok=6 unmapped=0 denied=0 notcanonical=0 accepted=3 refused=0,0,0,0,0,0,0,0,0 walks=3 reads=9 wchits=0 fills=3 kicks=0 undone=0 migrated=0 growths=0 fences=0 invalidated=0 pasum=0000000000005000 tlb=3/3\n" }
{}

/// The set of a leaf is by its number among the blocks of its size.
#[tactic(auto, unfolding(xl_model::specs::Computing::computing))]
pub fn sets_by_the_order()
    ensures { report rows_alone sets_by_the_order_rows sets_by_the_order_items
        ≡ codes "a accesses=6 ok=6 unmapped=0 denied=0 notcanonical=0 accepted=3 refused=0,0,0,0,0,0,0,0,0 walks=4 reads=9 wchits=0 fills=4 kicks=0 undone=0 migrated=0 growths=0 fences=0 invalidated=0 pasum=0000000000801000 tlb=2/4\n" }
{}

/// Leaves of all three sizes in one array, each hit at another of its pages.
#[tactic(auto, unfolding(xl_model::specs::Computing::computing))]
pub fn three_orders_in_one_array()
    ensures { report rows_alone three_orders_in_one_array_rows three_orders_in_one_array_items
        ≡ codes "a accesses=6 ok=6 unmapped=0 denied=0 notcanonical=0 accepted=3 refused=0,0,0,0,0,0,0,0,0 walks=3 reads=6 wchits=0 fills=3 kicks=0 undone=0 migrated=0 growths=0 fences=0 invalidated=0 pasum=0000000080661008 tlb=3/3\n" }
{}

/// A walk whose access is denied fills all the same.
#[tactic(auto, unfolding(xl_model::specs::Computing::computing))]
pub fn a_denied_access_fills()
    ensures { report rows_alone a_denied_access_fills_rows a_denied_access_fills_items
        ≡ codes "a accesses=2 ok=1 unmapped=0 denied=1 notcanonical=0 accepted=1 refused=0,0,0,0,0,0,0,0,0 walks=1 reads=3 wchits=0 fills=1 kicks=0 undone=0 migrated=0 growths=0 fences=0 invalidated=0 pasum=0000000000000000 tlb=1/1\n" }
{}

/// An unmapped access walks and fills nothing; a non-canonical one looks at nothing.
#[tactic(auto, unfolding(xl_model::specs::Computing::computing))]
pub fn accesses_that_fill_nothing()
    ensures { report rows_alone accesses_that_fill_nothing_rows accesses_that_fill_nothing_items
        ≡ codes "a accesses=3 ok=0 unmapped=2 denied=0 notcanonical=1 accepted=0 refused=0,0,0,0,0,0,0,0,0 walks=2 reads=2 wchits=0 fills=0 kicks=0 undone=0 migrated=0 growths=0 fences=0 invalidated=0 pasum=0000000000000000 tlb=0/2\n" }
{}
