//! Accesses of every kind, page sizes and modes.

ghost use Rattle.std.specs.Prelude.{◌≡◌, codes};
ghost use Rattle.xl_model.specs.Report.{report};
ghost use Rattle.xl_model_rows.specs.Plain.{rows_alone, with_answers};
ghost use Rattle.xl_model_rows.specs.Accesses.{a_realistic_run_rows, a_realistic_run_items, nothing_served_rows, nothing_served_items, page_sizes_sv39_rows, page_sizes_sv39_items, page_sizes_sv48_rows, page_sizes_sv48_items, page_sizes_sv57_rows, page_sizes_sv57_items, an_unmapped_load_rows, an_unmapped_load_items, two_modes_rows, two_modes_items, three_modes_rows, three_modes_items, a_modify_over_a_page_boundary_rows, a_modify_over_a_page_boundary_items, the_top_of_the_range_rows, the_top_of_the_range_items, the_top_of_the_range_sv57_rows, the_top_of_the_range_sv57_items, two_unmapped_accesses_rows, two_unmapped_accesses_items, a_first_run_rows, a_first_run_items, demanded_pages_rows, demanded_pages_items};

/// A captured trace with one demand area: six pages fault once each and get frames 0 to 5.
#[tactic(auto, unfolding(xl_model::specs::Computing::computing))]
pub fn a_realistic_run()
    ensures { report rows_alone a_realistic_run_rows a_realistic_run_items
        ≡ codes "a accesses=20 ok=14 unmapped=6 denied=0 notcanonical=0 accepted=6 refused=0,0,0,0,0,0,0,0,0 walks=12 reads=32 wchits=0 fills=6 kicks=0 undone=0 migrated=0 growths=0 fences=0 invalidated=0 pasum=000000000002a064 tlb=8/12\n" }
{}

/// No command and no access.
#[tactic(auto, unfolding(xl_model::specs::Computing::computing))]
pub fn nothing_served()
    ensures { report rows_alone nothing_served_rows nothing_served_items
        ≡ codes "a accesses=0 ok=0 unmapped=0 denied=0 notcanonical=0 accepted=0 refused=0,0,0,0,0,0,0,0,0 walks=0 reads=0 wchits=0 fills=0 kicks=0 undone=0 migrated=0 growths=0 fences=0 invalidated=0 pasum=0000000000000000 tlb=-\n" }
{}

/// Leaves of the three sizes: walks of 3, 2 and 1 loads under Sv39.
#[tactic(auto, unfolding(xl_model::specs::Computing::computing))]
pub fn page_sizes_sv39()
    ensures { report rows_alone page_sizes_sv39_rows page_sizes_sv39_items
        ≡ codes "a accesses=3 ok=3 unmapped=0 denied=0 notcanonical=0 accepted=3 refused=0,0,0,0,0,0,0,0,0 walks=3 reads=6 wchits=0 fills=0 kicks=0 undone=0 migrated=0 growths=0 fences=0 invalidated=0 pasum=0000000040200000 tlb=-\n" }
{}

/// The same under Sv48: 4, 3 and 2 loads.
#[tactic(auto, unfolding(xl_model::specs::Computing::computing))]
pub fn page_sizes_sv48()
    ensures { report rows_alone page_sizes_sv48_rows page_sizes_sv48_items
        ≡ codes "a accesses=3 ok=3 unmapped=0 denied=0 notcanonical=0 accepted=3 refused=0,0,0,0,0,0,0,0,0 walks=3 reads=9 wchits=0 fills=0 kicks=0 undone=0 migrated=0 growths=0 fences=0 invalidated=0 pasum=0000000040200000 tlb=-\n" }
{}

/// The same under Sv57: 5, 4 and 3 loads.
#[tactic(auto, unfolding(xl_model::specs::Computing::computing))]
pub fn page_sizes_sv57()
    ensures { report rows_alone page_sizes_sv57_rows page_sizes_sv57_items
        ≡ codes "a accesses=3 ok=3 unmapped=0 denied=0 notcanonical=0 accepted=3 refused=0,0,0,0,0,0,0,0,0 walks=3 reads=12 wchits=0 fills=0 kicks=0 undone=0 migrated=0 growths=0 fences=0 invalidated=0 pasum=0000000040200000 tlb=-\n" }
{}

/// An answer line of an unmapped load.
#[tactic(auto, unfolding(xl_model::specs::Computing::computing))]
pub fn an_unmapped_load()
    ensures { report with_answers an_unmapped_load_rows an_unmapped_load_items
        ≡ codes "a 1 L 0 0000000000001000 unmapped 13\na accesses=1 ok=0 unmapped=1 denied=0 notcanonical=0 accepted=0 refused=0,0,0,0,0,0,0,0,0 walks=1 reads=1 wchits=0 fills=0 kicks=0 undone=0 migrated=0 growths=0 fences=0 invalidated=0 pasum=0000000000000000 tlb=-\n" }
{}

/// An address that is canonical in one of two rows.
#[tactic(auto, unfolding(xl_model::specs::Computing::computing))]
pub fn two_modes()
    ensures { report with_answers two_modes_rows two_modes_items
        ≡ codes "a 1 L 0 0000004000000000 notcanonical 13\nb 1 L 0 0000004000000000 unmapped 13\na accesses=1 ok=0 unmapped=0 denied=0 notcanonical=1 accepted=0 refused=0,0,0,0,0,0,0,0,0 walks=0 reads=0 wchits=0 fills=0 kicks=0 undone=0 migrated=0 growths=0 fences=0 invalidated=0 pasum=0000000000000000 tlb=-\nb accesses=1 ok=0 unmapped=1 denied=0 notcanonical=0 accepted=0 refused=0,0,0,0,0,0,0,0,0 walks=1 reads=1 wchits=0 fills=0 kicks=0 undone=0 migrated=0 growths=0 fences=0 invalidated=0 pasum=0000000000000000 tlb=-\n" }
{}

/// Addresses at the ends of the three modes.
#[tactic(auto, unfolding(xl_model::specs::Computing::computing))]
pub fn three_modes()
    ensures { report with_answers three_modes_rows three_modes_items
        ≡ codes "a 1 L 0 0080000000000000 notcanonical 13\nb 1 L 0 0080000000000000 notcanonical 13\nc 1 L 0 0080000000000000 unmapped 13\na 2 L 0 0100000000000000 notcanonical 13\nb 2 L 0 0100000000000000 notcanonical 13\nc 2 L 0 0100000000000000 notcanonical 13\na accesses=2 ok=0 unmapped=0 denied=0 notcanonical=2 accepted=0 refused=0,0,0,0,0,0,0,0,0 walks=0 reads=0 wchits=0 fills=0 kicks=0 undone=0 migrated=0 growths=0 fences=0 invalidated=0 pasum=0000000000000000 tlb=-\nb accesses=2 ok=0 unmapped=0 denied=0 notcanonical=2 accepted=0 refused=0,0,0,0,0,0,0,0,0 walks=0 reads=0 wchits=0 fills=0 kicks=0 undone=0 migrated=0 growths=0 fences=0 invalidated=0 pasum=0000000000000000 tlb=-\nc accesses=2 ok=0 unmapped=1 denied=0 notcanonical=1 accepted=0 refused=0,0,0,0,0,0,0,0,0 walks=1 reads=1 wchits=0 fills=0 kicks=0 undone=0 migrated=0 growths=0 fences=0 invalidated=0 pasum=0000000000000000 tlb=-\n" }
{}

/// A modify of two pages: both loads, then both stores.
#[tactic(auto, unfolding(xl_model::specs::Computing::computing))]
pub fn a_modify_over_a_page_boundary()
    ensures { report with_answers a_modify_over_a_page_boundary_rows
        a_modify_over_a_page_boundary_items ≡ codes
        "a cmd map ok\na cmd map ok\na 1 L 0 0000000000001ffe ok 0000000000000ffe\na 1 L 0 0000000000002000 ok 0000000000001000\na 1 S 0 0000000000001ffe ok 0000000000000ffe\na 1 S 0 0000000000002000 ok 0000000000001000\na accesses=4 ok=4 unmapped=0 denied=0 notcanonical=0 accepted=2 refused=0,0,0,0,0,0,0,0,0 walks=4 reads=12 wchits=0 fills=0 kicks=0 undone=0 migrated=0 growths=0 fences=0 invalidated=0 pasum=0000000000003ffc tlb=-\n" }
{}

/// The last byte of the address space, Sv39.
#[tactic(auto, unfolding(xl_model::specs::Computing::computing))]
pub fn the_top_of_the_range()
    ensures { report rows_alone the_top_of_the_range_rows the_top_of_the_range_items
        ≡ codes "a accesses=1 ok=1 unmapped=0 denied=0 notcanonical=0 accepted=1 refused=0,0,0,0,0,0,0,0,0 walks=1 reads=3 wchits=0 fills=0 kicks=0 undone=0 migrated=0 growths=0 fences=0 invalidated=0 pasum=0000000000000fff tlb=-\n" }
{}

/// The last byte of the address space, Sv57.
#[tactic(auto, unfolding(xl_model::specs::Computing::computing))]
pub fn the_top_of_the_range_sv57()
    ensures { report rows_alone the_top_of_the_range_sv57_rows the_top_of_the_range_sv57_items
        ≡ codes "a accesses=1 ok=1 unmapped=0 denied=0 notcanonical=0 accepted=1 refused=0,0,0,0,0,0,0,0,0 walks=1 reads=5 wchits=0 fills=0 kicks=0 undone=0 migrated=0 growths=0 fences=0 invalidated=0 pasum=0000000000000fff tlb=-\n" }
{}

/// Two accesses of nothing: one load each.
#[tactic(auto, unfolding(xl_model::specs::Computing::computing))]
pub fn two_unmapped_accesses()
    ensures { report rows_alone two_unmapped_accesses_rows two_unmapped_accesses_items
        ≡ codes "a accesses=2 ok=0 unmapped=2 denied=0 notcanonical=0 accepted=0 refused=0,0,0,0,0,0,0,0,0 walks=2 reads=2 wchits=0 fills=0 kicks=0 undone=0 migrated=0 growths=0 fences=0 invalidated=0 pasum=0000000000000000 tlb=-\n" }
{}

/// A served load, a denied store and an unmapped load.
#[tactic(auto, unfolding(xl_model::specs::Computing::computing))]
pub fn a_first_run()
    ensures { report rows_alone a_first_run_rows a_first_run_items
        ≡ codes "a accesses=3 ok=1 unmapped=1 denied=1 notcanonical=0 accepted=1 refused=0,0,0,0,0,0,0,0,0 walks=3 reads=9 wchits=0 fills=0 kicks=0 undone=0 migrated=0 growths=0 fences=0 invalidated=0 pasum=0000000000000008 tlb=-\n" }
{}

/// Two pages demanded by a modify and a fetch of one area.
#[tactic(auto, unfolding(xl_model::specs::Computing::computing))]
pub fn demanded_pages()
    ensures { report rows_alone demanded_pages_rows demanded_pages_items
        ≡ codes "a accesses=5 ok=3 unmapped=2 denied=0 notcanonical=0 accepted=2 refused=0,0,0,0,0,0,0,0,0 walks=5 reads=13 wchits=0 fills=0 kicks=0 undone=0 migrated=0 growths=0 fences=0 invalidated=0 pasum=0000000000001ff8 tlb=-\n" }
{}
