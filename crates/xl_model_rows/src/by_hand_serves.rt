//! TLB arrays that serve fetches or data, each row worked out by hand.

ghost use Rattle.std.specs.Prelude.{◌≡◌, codes};
ghost use Rattle.xl_model.specs.Report.{report};
ghost use Rattle.xl_model_rows.specs.Plain.{rows_alone};
ghost use Rattle.xl_model_rows.specs.ByHandServes.{split_first_levels_rows, split_first_levels_items, a_page_fetched_and_loaded_rows, a_page_fetched_and_loaded_items, an_order_for_fetches_alone_rows, an_order_for_fetches_alone_items, a_denied_store_fills_the_data_array_rows, a_denied_store_fills_the_data_array_items, a_purge_of_both_arrays_rows, a_purge_of_both_arrays_items, a_fence_of_both_arrays_rows, a_fence_of_both_arrays_items, six_arrays_rows, six_arrays_items, a_level_for_the_other_kind_rows, a_level_for_the_other_kind_items, a_load_touches_no_fetched_leaf_rows, a_load_touches_no_fetched_leaf_items, one_order_for_each_kind_rows, one_order_for_each_kind_items};

/// First levels for fetches and for data, over one level that both share.
#[tactic(auto, unfolding(xl_model::specs::Computing::computing))]
pub fn split_first_levels()
    ensures { report rows_alone split_first_levels_rows split_first_levels_items
        ≡ codes "a accesses=7 ok=7 unmapped=0 denied=0 notcanonical=0 accepted=2 refused=0,0,0,0,0,0,0,0,0 walks=2 reads=6 wchits=0 fills=7 kicks=0 undone=0 migrated=0 growths=0 fences=0 invalidated=0 pasum=0000000000003000 tlb=1/3,1/2,3/2\n" }
{}

/// A page that is fetched and then loaded: one walk, and a miss in each first-level array.
#[tactic(auto, unfolding(xl_model::specs::Computing::computing))]
pub fn a_page_fetched_and_loaded()
    ensures { report rows_alone a_page_fetched_and_loaded_rows a_page_fetched_and_loaded_items
        ≡ codes "a accesses=4 ok=4 unmapped=0 denied=0 notcanonical=0 accepted=1 refused=0,0,0,0,0,0,0,0,0 walks=1 reads=3 wchits=0 fills=3 kicks=0 undone=0 migrated=0 growths=0 fences=0 invalidated=0 pasum=0000000000000038 tlb=1/1,1/1,1/1\n" }
{}

/// An order that the array for fetches holds and the array for data does not.
#[tactic(auto, unfolding(xl_model::specs::Computing::computing))]
pub fn an_order_for_fetches_alone()
    ensures { report rows_alone an_order_for_fetches_alone_rows an_order_for_fetches_alone_items
        ≡ codes "a accesses=6 ok=6 unmapped=0 denied=0 notcanonical=0 accepted=2 refused=0,0,0,0,0,0,0,0,0 walks=4 reads=9 wchits=0 fills=2 kicks=0 undone=0 migrated=0 growths=0 fences=0 invalidated=0 pasum=0000000000802000 tlb=1/1,1/3\n" }
{}

/// A denied store fills the array for data, and the array for fetches is not looked at.
#[tactic(auto, unfolding(xl_model::specs::Computing::computing))]
pub fn a_denied_store_fills_the_data_array()
    ensures { report rows_alone a_denied_store_fills_the_data_array_rows
        a_denied_store_fills_the_data_array_items ≡ codes
        "a accesses=5 ok=3 unmapped=0 denied=2 notcanonical=0 accepted=1 refused=0,0,0,0,0,0,0,0,0 walks=2 reads=6 wchits=0 fills=2 kicks=0 undone=0 migrated=0 growths=0 fences=0 invalidated=0 pasum=0000000000000038 tlb=1/1,2/1\n" }
{}

/// An unmapped page leaves the array for fetches and the array for data.
#[tactic(auto, unfolding(xl_model::specs::Computing::computing))]
pub fn a_purge_of_both_arrays()
    ensures { report rows_alone a_purge_of_both_arrays_rows a_purge_of_both_arrays_items
        ≡ codes "a accesses=5 ok=4 unmapped=1 denied=0 notcanonical=0 accepted=3 refused=0,0,0,0,0,0,0,0,0 walks=4 reads=12 wchits=0 fills=3 kicks=0 undone=0 migrated=0 growths=0 fences=0 invalidated=2 pasum=0000000000002000 tlb=0/2,1/2\n" }
{}

/// A fence reaches the array for fetches and the array for data.
#[tactic(auto, unfolding(xl_model::specs::Computing::computing))]
pub fn a_fence_of_both_arrays()
    ensures { report rows_alone a_fence_of_both_arrays_rows a_fence_of_both_arrays_items
        ≡ codes "a accesses=7 ok=7 unmapped=0 denied=0 notcanonical=0 accepted=4 refused=0,0,0,0,0,0,0,0,0 walks=6 reads=18 wchits=0 fills=6 kicks=0 undone=0 migrated=0 growths=0 fences=2 invalidated=5 pasum=0000000000002000 tlb=1/3,0/3\n" }
{}

/// Six arrays: two orders apart for fetches and for data, a second level for data, a third for all.
#[tactic(auto, unfolding(xl_model::specs::Computing::computing))]
pub fn six_arrays()
    ensures { report rows_alone six_arrays_rows six_arrays_items
        ≡ codes "a accesses=8 ok=8 unmapped=0 denied=0 notcanonical=0 accepted=3 refused=0,0,0,0,0,0,0,0,0 walks=3 reads=8 wchits=0 fills=12 kicks=0 undone=0 migrated=0 growths=0 fences=0 invalidated=0 pasum=0000000000602000 tlb=1/2,0/3,0/5,1/4,1/3,2/3\n" }
{}

/// A level whose arrays serve only the other kind is passed over.
#[tactic(auto, unfolding(xl_model::specs::Computing::computing))]
pub fn a_level_for_the_other_kind()
    ensures { report rows_alone a_level_for_the_other_kind_rows a_level_for_the_other_kind_items
        ≡ codes "a accesses=6 ok=6 unmapped=0 denied=0 notcanonical=0 accepted=2 refused=0,0,0,0,0,0,0,0,0 walks=2 reads=6 wchits=0 fills=6 kicks=0 undone=0 migrated=0 growths=0 fences=0 invalidated=0 pasum=0000000000002000 tlb=1/2,1/2,2/2\n" }
{}

/// A load changes nothing of the recency of the array for fetches.
#[tactic(auto, unfolding(xl_model::specs::Computing::computing))]
pub fn a_load_touches_no_fetched_leaf()
    ensures { report rows_alone a_load_touches_no_fetched_leaf_rows
        a_load_touches_no_fetched_leaf_items ≡ codes
        "a accesses=8 ok=8 unmapped=0 denied=0 notcanonical=0 accepted=3 refused=0,0,0,0,0,0,0,0,0 walks=6 reads=18 wchits=0 fills=6 kicks=0 undone=0 migrated=0 growths=0 fences=0 invalidated=0 pasum=0000000000006000 tlb=1/5,1/1\n" }
{}

/// Two arrays of one order in one level, one for fetches and one for loads and stores.
#[tactic(auto, unfolding(xl_model::specs::Computing::computing))]
pub fn one_order_for_each_kind()
    ensures { report rows_alone one_order_for_each_kind_rows one_order_for_each_kind_items
        ≡ codes "a accesses=7 ok=7 unmapped=0 denied=0 notcanonical=0 accepted=2 refused=0,0,0,0,0,0,0,0,0 walks=4 reads=12 wchits=0 fills=4 kicks=0 undone=0 migrated=0 growths=0 fences=0 invalidated=0 pasum=0000000000004000 tlb=1/3,2/1\n" }
{}
