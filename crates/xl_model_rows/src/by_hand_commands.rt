//! Refusals in order and demand, each row worked out by hand, with its answer lines.

ghost use Rattle.std.specs.Prelude.{◌≡◌, codes};
ghost use Rattle.xl_model.specs.Report.{report};
ghost use Rattle.xl_model_rows.specs.Plain.{with_answers};
ghost use Rattle.xl_model_rows.specs.ByHandCommands.{refusals_in_order_rows, refusals_in_order_items, moves_refused_in_order_rows, moves_refused_in_order_items, protects_and_unmaps_refused_in_order_rows, protects_and_unmaps_refused_in_order_items, fences_and_spaces_refused_rows, fences_and_spaces_refused_items, no_room_before_the_cap_rows, no_room_before_the_cap_items, an_area_of_another_space_rows, an_area_of_another_space_items, two_areas_over_one_page_rows, two_areas_over_one_page_items, a_demand_of_a_large_page_rows, a_demand_of_a_large_page_items, a_demand_that_is_refused_rows, a_demand_that_is_refused_items, only_an_unmapped_access_demands_rows, only_an_unmapped_access_demands_items, the_edges_of_an_area_rows, the_edges_of_an_area_items, an_area_of_high_addresses_rows, an_area_of_high_addresses_items};

/// Each refusal comes before a later one that holds too.
#[tactic(auto, unfolding(xl_model::specs::Computing::computing))]
pub fn refusals_in_order()
    ensures { report with_answers refusals_in_order_rows refusals_in_order_items
        ≡ codes "a cmd map ok\na cmd map refused 1\na cmd map refused 2\na cmd map refused 3\na cmd unmap refused 3\na cmd move refused 4\na cmd move refused 5\na cmd map refused 6\na cmd map refused 7\na cmd move refused 8\na accesses=0 ok=0 unmapped=0 denied=0 notcanonical=0 accepted=1 refused=1,1,2,1,1,1,1,1,0 walks=0 reads=0 wchits=0 fills=0 kicks=0 undone=0 migrated=0 growths=0 fences=0 invalidated=0 pasum=0000000000000000 tlb=-\n" }
{}

/// Both addresses of a move are tested by each refusal before the next.
#[tactic(auto, unfolding(xl_model::specs::Computing::computing))]
pub fn moves_refused_in_order()
    ensures { report with_answers moves_refused_in_order_rows moves_refused_in_order_items
        ≡ codes "a cmd map ok\na cmd move refused 1\na cmd move refused 2\na cmd move refused 2\na cmd move refused 3\na cmd move refused 3\na cmd move refused 3\na cmd move refused 4\na cmd move ok\na cmd move refused 4\na accesses=0 ok=0 unmapped=0 denied=0 notcanonical=0 accepted=2 refused=1,2,3,2,0,0,0,0,0 walks=0 reads=0 wchits=0 fills=0 kicks=0 undone=0 migrated=0 growths=0 fences=0 invalidated=0 pasum=0000000000000000 tlb=-\n" }
{}

/// Refusals 1 to 5 of a protect and of an unmap.
#[tactic(auto, unfolding(xl_model::specs::Computing::computing))]
pub fn protects_and_unmaps_refused_in_order()
    ensures { report with_answers protects_and_unmaps_refused_in_order_rows
        protects_and_unmaps_refused_in_order_items ≡ codes
        "a cmd map ok\na cmd map ok\na cmd protect refused 1\na cmd protect refused 2\na cmd protect refused 3\na cmd protect refused 4\na cmd protect refused 5\na cmd protect refused 5\na cmd unmap refused 5\na cmd unmap ok\na cmd unmap refused 4\na accesses=0 ok=0 unmapped=0 denied=0 notcanonical=0 accepted=3 refused=1,1,1,2,3,0,0,0,0 walks=0 reads=0 wchits=0 fills=0 kicks=0 undone=0 migrated=0 growths=0 fences=0 invalidated=0 pasum=0000000000000000 tlb=-\n" }
{}

/// Refusals 1 and 2 of a fence, and 1 of a space switch.
#[tactic(auto, unfolding(xl_model::specs::Computing::computing))]
pub fn fences_and_spaces_refused()
    ensures { report with_answers fences_and_spaces_refused_rows fences_and_spaces_refused_items
        ≡ codes "a cmd space refused 1\na cmd fence refused 1\na cmd fence refused 1\na cmd fence refused 2\na cmd fence refused 2\na cmd fence ok\na cmd fence ok\na accesses=0 ok=0 unmapped=0 denied=0 notcanonical=0 accepted=2 refused=3,2,0,0,0,0,0,0,0 walks=0 reads=0 wchits=0 fills=0 kicks=0 undone=0 migrated=0 growths=0 fences=2 invalidated=0 pasum=0000000000000000 tlb=-\n" }
{}

/// A command is refused for want of a section before any attempt is made.
#[tactic(auto, unfolding(xl_model::specs::Computing::computing))]
pub fn no_room_before_the_cap()
    ensures { report with_answers no_room_before_the_cap_rows no_room_before_the_cap_items
        ≡ codes "a cmd map ok\na cmd map ok\na cmd map refused 8\na cmd map refused 9\na accesses=0 ok=0 unmapped=0 denied=0 notcanonical=0 accepted=2 refused=0,0,0,0,0,0,0,1,1 walks=0 reads=0 wchits=0 fills=0 kicks=2 undone=2 migrated=0 growths=0 fences=0 invalidated=0 pasum=0000000000000000 tlb=-\n" }
{}

/// An area of another space is not demanded.
#[tactic(auto, unfolding(xl_model::specs::Computing::computing))]
pub fn an_area_of_another_space()
    ensures { report with_answers an_area_of_another_space_rows an_area_of_another_space_items
        ≡ codes "a 1 L 0 0000000000001000 unmapped 13\na cmd space ok\na 2 L 1 0000000000001000 unmapped 13\na cmd map ok\na 2 L 1 0000000000001000 ok 0000000000000000\na accesses=3 ok=1 unmapped=2 denied=0 notcanonical=0 accepted=2 refused=0,0,0,0,0,0,0,0,0 walks=3 reads=5 wchits=0 fills=0 kicks=0 undone=0 migrated=0 growths=0 fences=0 invalidated=0 pasum=0000000000000000 tlb=-\n" }
{}

/// Of two areas of the space the first counts.
#[tactic(auto, unfolding(xl_model::specs::Computing::computing))]
pub fn two_areas_over_one_page()
    ensures { report with_answers two_areas_over_one_page_rows two_areas_over_one_page_items
        ≡ codes "a 1 S 0 0000000000001000 unmapped 15\na cmd map ok\na 1 S 0 0000000000001000 ok 0000000000000000\na 2 I 0 0000000000001000 denied 12\na accesses=3 ok=1 unmapped=1 denied=1 notcanonical=0 accepted=1 refused=0,0,0,0,0,0,0,0,0 walks=3 reads=7 wchits=0 fills=0 kicks=0 undone=0 migrated=0 growths=0 fences=0 invalidated=0 pasum=0000000000000000 tlb=-\n" }
{}

/// A demand of a 2 MiB area maps the block in which the address lies.
#[tactic(auto, unfolding(xl_model::specs::Computing::computing))]
pub fn a_demand_of_a_large_page()
    ensures { report with_answers a_demand_of_a_large_page_rows a_demand_of_a_large_page_items
        ≡ codes "a 1 L 0 0000000000234567 unmapped 13\na cmd map ok\na 1 L 0 0000000000234567 ok 0000000000034567\na 2 L 0 0000000000200008 ok 0000000000000008\na 3 L 0 0000000000400000 unmapped 13\na cmd map ok\na 3 L 0 0000000000400000 ok 0000000000200000\na accesses=5 ok=3 unmapped=2 denied=0 notcanonical=0 accepted=2 refused=0,0,0,0,0,0,0,0,0 walks=5 reads=9 wchits=0 fills=0 kicks=0 undone=0 migrated=0 growths=0 fences=0 invalidated=0 pasum=000000000023456f tlb=-\n" }
{}

/// A demand whose map is refused has no second access.
#[tactic(auto, unfolding(xl_model::specs::Computing::computing))]
pub fn a_demand_that_is_refused()
    ensures { report with_answers a_demand_that_is_refused_rows a_demand_that_is_refused_items
        ≡ codes "a cmd map ok\na 1 L 0 0000000000202000 unmapped 13\na cmd map refused 6\na 2 L 0 0000000000001000 unmapped 13\na cmd map refused 7\na accesses=2 ok=0 unmapped=2 denied=0 notcanonical=0 accepted=1 refused=0,0,0,0,0,1,1,0,0 walks=2 reads=5 wchits=0 fills=0 kicks=0 undone=0 migrated=0 growths=0 fences=0 invalidated=0 pasum=0000000000000000 tlb=-\n" }
{}

/// Neither a denied nor a non-canonical access demands.
#[tactic(auto, unfolding(xl_model::specs::Computing::computing))]
pub fn only_an_unmapped_access_demands()
    ensures { report with_answers only_an_unmapped_access_demands_rows
        only_an_unmapped_access_demands_items ≡ codes
        "a cmd map ok\na 1 S 0 0000000000001000 denied 15\na 2 L 0 0000004000000000 notcanonical 13\na 3 L 0 0000000000002000 unmapped 13\na cmd map ok\na 3 L 0 0000000000002000 ok 0000000000001000\na accesses=4 ok=1 unmapped=1 denied=1 notcanonical=1 accepted=2 refused=0,0,0,0,0,0,0,0,0 walks=3 reads=9 wchits=0 fills=0 kicks=0 undone=0 migrated=0 growths=0 fences=0 invalidated=0 pasum=0000000000001000 tlb=-\n" }
{}

/// The first and the last page of an area, and those beside it.
#[tactic(auto, unfolding(xl_model::specs::Computing::computing))]
pub fn the_edges_of_an_area()
    ensures { report with_answers the_edges_of_an_area_rows the_edges_of_an_area_items
        ≡ codes "a 1 L 0 0000000000004000 unmapped 13\na 2 L 0 0000000000003000 unmapped 13\na 3 L 0 0000000000004000 unmapped 13\na cmd map ok\na 3 L 0 0000000000004000 ok 0000000000000000\na 4 L 0 0000000000007000 unmapped 13\na cmd map ok\na 4 L 0 0000000000007000 ok 0000000000001000\na 5 L 0 0000000000008000 unmapped 13\na accesses=7 ok=2 unmapped=5 denied=0 notcanonical=0 accepted=2 refused=0,0,0,0,0,0,0,0,0 walks=7 reads=15 wchits=0 fills=0 kicks=0 undone=0 migrated=0 growths=0 fences=0 invalidated=0 pasum=0000000000001000 tlb=-\n" }
{}

/// Areas are of addresses, not of pages of the table.
#[tactic(auto, unfolding(xl_model::specs::Computing::computing))]
pub fn an_area_of_high_addresses()
    ensures { report with_answers an_area_of_high_addresses_rows an_area_of_high_addresses_items
        ≡ codes "a 1 L 0 ffffffc000001008 unmapped 13\na cmd map ok\na 1 L 0 ffffffc000001008 ok 0000000000000008\na accesses=2 ok=1 unmapped=1 denied=0 notcanonical=0 accepted=1 refused=0,0,0,0,0,0,0,0,0 walks=2 reads=4 wchits=0 fills=0 kicks=0 undone=0 migrated=0 growths=0 fences=0 invalidated=0 pasum=0000000000000008 tlb=-\n" }
{}
