//! Tables of ranges.

ghost use Rattle.std.specs.Prelude.{◌≡◌, codes};
ghost use Rattle.xl_model.specs.Report.{report};
ghost use Rattle.xl_model_rows.specs.Plain.{rows_alone};
ghost use Rattle.xl_model_rows.specs.RangeRows.{no_range_left_rows, no_range_left_items, depth_rows, depth_items, three_ranges_rows, three_ranges_items, two_ranges_rows, two_ranges_items, ranges_used_up_rows, ranges_used_up_items};

/// An unmap that would part a range is refused; one at its end is done.
#[tactic(auto, unfolding(xl_model::specs::Computing::computing))]
pub fn no_range_left()
    ensures { report rows_alone no_range_left_rows no_range_left_items
        ≡ codes "a accesses=2 ok=1 unmapped=1 denied=0 notcanonical=0 accepted=4 refused=0,0,0,0,0,0,0,1,0 walks=2 reads=2 wchits=0 fills=0 kicks=0 undone=0 migrated=0 growths=0 fences=0 invalidated=0 pasum=0000000000001000 tlb=-\n" }
{}

/// The range at page 0 is the root, though it comes second: 1, 2, 0 and 2 loads.
#[tactic(auto, unfolding(xl_model::specs::Computing::computing))]
pub fn depth()
    ensures { report rows_alone depth_rows depth_items
        ≡ codes "a accesses=4 ok=3 unmapped=1 denied=0 notcanonical=0 accepted=2 refused=0,0,0,0,0,0,0,0,0 walks=4 reads=5 wchits=1 fills=0 kicks=0 undone=0 migrated=0 growths=0 fences=0 invalidated=0 pasum=0000000000001000 tlb=-\n" }
{}

/// A protect parts a range in three, and another joins them.
#[tactic(auto, unfolding(xl_model::specs::Computing::computing))]
pub fn three_ranges()
    ensures { report rows_alone three_ranges_rows three_ranges_items
        ≡ codes "a accesses=0 ok=0 unmapped=0 denied=0 notcanonical=0 accepted=5 refused=0,0,0,0,0,0,0,0,0 walks=0 reads=0 wchits=0 fills=0 kicks=0 undone=0 migrated=0 growths=0 fences=0 invalidated=0 pasum=0000000000000000 tlb=-\n" }
{}

/// There is no room for three ranges.
#[tactic(auto, unfolding(xl_model::specs::Computing::computing))]
pub fn two_ranges()
    ensures { report rows_alone two_ranges_rows two_ranges_items
        ≡ codes "a accesses=0 ok=0 unmapped=0 denied=0 notcanonical=0 accepted=4 refused=0,0,0,0,0,0,0,1,0 walks=0 reads=0 wchits=0 fills=0 kicks=0 undone=0 migrated=0 growths=0 fences=0 invalidated=0 pasum=0000000000000000 tlb=-\n" }
{}

/// The only range taken: a move and a protect.
#[tactic(auto, unfolding(xl_model::specs::Computing::computing))]
pub fn ranges_used_up()
    ensures { report rows_alone ranges_used_up_rows ranges_used_up_items
        ≡ codes "a accesses=1 ok=1 unmapped=0 denied=0 notcanonical=0 accepted=2 refused=0,0,0,0,0,0,0,2,0 walks=1 reads=1 wchits=0 fills=0 kicks=0 undone=0 migrated=0 growths=0 fences=0 invalidated=0 pasum=0000000000000000 tlb=-\n" }
{}
