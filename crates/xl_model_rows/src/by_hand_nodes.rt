//! Radix tables, each row worked out by hand: which caches a walk fills, and the numbers of nodes.

ghost use Rattle.std.specs.Prelude.{◌≡◌, codes};
ghost use Rattle.xl_model.specs.Report.{report};
ghost use Rattle.xl_model_rows.specs.Plain.{rows_alone, with_images};
ghost use Rattle.xl_model_rows.specs.ByHandNodes.{a_large_leaf_fills_one_cache_rows, a_large_leaf_fills_one_cache_items, the_tags_of_a_large_leaf_rows, the_tags_of_a_large_leaf_items, a_1g_leaf_fills_no_cache_rows, a_1g_leaf_fills_no_cache_items, a_walk_from_the_middle_fills_below_rows, a_walk_from_the_middle_fills_below_items, a_touch_of_a_node_tag_rows, a_touch_of_a_node_tag_items, unmapped_pages_below_cached_nodes_rows, unmapped_pages_below_cached_nodes_items, a_freed_number_taken_again_rows, a_freed_number_taken_again_items, a_move_makes_before_it_frees_rows, a_move_makes_before_it_frees_items, words_of_large_leaves_rows, words_of_large_leaves_items, a_hit_at_level_0_touches_no_other_rows, a_hit_at_level_0_touches_no_other_items, a_protect_leaves_node_tags_rows, a_protect_leaves_node_tags_items, a_move_takes_a_node_tag_rows, a_move_takes_a_node_tag_items};

/// The walk of a 2 MiB leaf fills the cache of level 1 alone.
#[tactic(auto, unfolding(xl_model::specs::Computing::computing))]
pub fn a_large_leaf_fills_one_cache()
    ensures { report rows_alone a_large_leaf_fills_one_cache_rows a_large_leaf_fills_one_cache_items
        ≡ codes "a accesses=4 ok=4 unmapped=0 denied=0 notcanonical=0 accepted=2 refused=0,0,0,0,0,0,0,0,0 walks=4 reads=6 wchits=3 fills=0 kicks=0 undone=0 migrated=0 growths=0 fences=0 invalidated=0 pasum=0000000000401000 tlb=-\n" }
{}

/// At the unmap of a 2 MiB leaf one tag leaves, that of its node of level 1.
#[tactic(auto, unfolding(xl_model::specs::Computing::computing))]
pub fn the_tags_of_a_large_leaf()
    ensures { report rows_alone the_tags_of_a_large_leaf_rows the_tags_of_a_large_leaf_items
        ≡ codes "a accesses=2 ok=1 unmapped=1 denied=0 notcanonical=0 accepted=2 refused=0,0,0,0,0,0,0,0,0 walks=2 reads=3 wchits=0 fills=0 kicks=0 undone=0 migrated=0 growths=0 fences=0 invalidated=1 pasum=0000000000000000 tlb=-\n" }
{}

/// The walk of a 1 GiB leaf fills no cache under Sv39.
#[tactic(auto, unfolding(xl_model::specs::Computing::computing))]
pub fn a_1g_leaf_fills_no_cache()
    ensures { report rows_alone a_1g_leaf_fills_no_cache_rows a_1g_leaf_fills_no_cache_items
        ≡ codes "a accesses=2 ok=2 unmapped=0 denied=0 notcanonical=0 accepted=2 refused=0,0,0,0,0,0,0,0,0 walks=2 reads=2 wchits=0 fills=0 kicks=0 undone=0 migrated=0 growths=0 fences=0 invalidated=0 pasum=0000000000001000 tlb=-\n" }
{}

/// A walk that begins at level 1 fills level 0 alone.
#[tactic(auto, unfolding(xl_model::specs::Computing::computing))]
pub fn a_walk_from_the_middle_fills_below()
    ensures { report rows_alone a_walk_from_the_middle_fills_below_rows
        a_walk_from_the_middle_fills_below_items ≡ codes
        "a accesses=2 ok=2 unmapped=0 denied=0 notcanonical=0 accepted=4 refused=0,0,0,0,0,0,0,0,0 walks=2 reads=6 wchits=1 fills=0 kicks=0 undone=0 migrated=0 growths=0 fences=0 invalidated=4 pasum=0000000000001000 tlb=-\n" }
{}

/// A node tag that hits moves to the front of its cache.
#[tactic(auto, unfolding(xl_model::specs::Computing::computing))]
pub fn a_touch_of_a_node_tag()
    ensures { report rows_alone a_touch_of_a_node_tag_rows a_touch_of_a_node_tag_items
        ≡ codes "a accesses=6 ok=6 unmapped=0 denied=0 notcanonical=0 accepted=3 refused=0,0,0,0,0,0,0,0,0 walks=6 reads=14 wchits=2 fills=0 kicks=0 undone=0 migrated=0 growths=0 fences=0 invalidated=0 pasum=0000000000004000 tlb=-\n" }
{}

/// Unmapped pages begin at cached nodes too, and fill nothing.
#[tactic(auto, unfolding(xl_model::specs::Computing::computing))]
pub fn unmapped_pages_below_cached_nodes()
    ensures { report rows_alone unmapped_pages_below_cached_nodes_rows
        unmapped_pages_below_cached_nodes_items ≡ codes
        "a accesses=4 ok=1 unmapped=3 denied=0 notcanonical=0 accepted=2 refused=0,0,0,0,0,0,0,0,0 walks=4 reads=6 wchits=2 fills=0 kicks=0 undone=0 migrated=0 growths=0 fences=0 invalidated=2 pasum=0000000000000000 tlb=-\n" }
{}

/// The number of a freed node is taken again, with the image.
#[tactic(auto, unfolding(xl_model::specs::Computing::computing))]
pub fn a_freed_number_taken_again()
    ensures { report with_images a_freed_number_taken_again_rows a_freed_number_taken_again_items
        ≡ codes "a accesses=0 ok=0 unmapped=0 denied=0 notcanonical=0 accepted=4 refused=0,0,0,0,0,0,0,0,0 walks=0 reads=0 wchits=0 fills=0 kicks=0 undone=0 migrated=0 growths=0 fences=0 invalidated=0 pasum=0000000000000000 tlb=-\nimage a 0 0 0000000000000801\nimage a 0 1 0000000000000c01\nimage a 2 1 0000000000001001\nimage a 3 0 0000000000001401\nimage a 4 1 00000000000004d3\nimage a 5 1 00000000000000d3\n" }
{}

/// A move makes its nodes before it frees any, with the image.
#[tactic(auto, unfolding(xl_model::specs::Computing::computing))]
pub fn a_move_makes_before_it_frees()
    ensures { report with_images a_move_makes_before_it_frees_rows
        a_move_makes_before_it_frees_items ≡ codes "a accesses=0 ok=0 unmapped=0 denied=0 notcanonical=0 accepted=3 refused=0,0,0,0,0,0,0,0,0 walks=0 reads=0 wchits=0 fills=0 kicks=0 undone=0 migrated=0 growths=0 fences=0 invalidated=0 pasum=0000000000000000 tlb=-\nimage a 0 0 0000000000000801\nimage a 0 1 0000000000001001\nimage a 2 1 0000000000000c01\nimage a 3 1 00000000000004d3\nimage a 4 0 0000000000001401\nimage a 5 1 00000000000000d3\n" }
{}

/// The words of a 2 MiB and of a 1 GiB leaf, in two spaces.
#[tactic(auto, unfolding(xl_model::specs::Computing::computing))]
pub fn words_of_large_leaves()
    ensures { report with_images words_of_large_leaves_rows words_of_large_leaves_items
        ≡ codes "a accesses=0 ok=0 unmapped=0 denied=0 notcanonical=0 accepted=3 refused=0,0,0,0,0,0,0,0,0 walks=0 reads=0 wchits=0 fills=0 kicks=0 undone=0 migrated=0 growths=0 fences=0 invalidated=0 pasum=0000000000000000 tlb=-\nimage a 0 2 00000000100000d3\nimage a 1 0 0000000000000801\nimage a 2 2 00000000000000db\n" }
{}

/// A hit at level 0 leaves the cache of level 1 as it is.
#[tactic(auto, unfolding(xl_model::specs::Computing::computing))]
pub fn a_hit_at_level_0_touches_no_other()
    ensures { report rows_alone a_hit_at_level_0_touches_no_other_rows
        a_hit_at_level_0_touches_no_other_items ≡ codes
        "a accesses=5 ok=5 unmapped=0 denied=0 notcanonical=0 accepted=4 refused=0,0,0,0,0,0,0,0,0 walks=5 reads=13 wchits=1 fills=0 kicks=0 undone=0 migrated=0 growths=0 fences=0 invalidated=0 pasum=0000000000006000 tlb=-\n" }
{}

/// A protect leaves the tags of the leaf's nodes.
#[tactic(auto, unfolding(xl_model::specs::Computing::computing))]
pub fn a_protect_leaves_node_tags()
    ensures { report rows_alone a_protect_leaves_node_tags_rows a_protect_leaves_node_tags_items
        ≡ codes "a accesses=2 ok=2 unmapped=0 denied=0 notcanonical=0 accepted=2 refused=0,0,0,0,0,0,0,0,0 walks=2 reads=4 wchits=1 fills=0 kicks=0 undone=0 migrated=0 growths=0 fences=0 invalidated=0 pasum=0000000000000000 tlb=-\n" }
{}

/// A move takes the tags of the nodes that no leaf needs any more.
#[tactic(auto, unfolding(xl_model::specs::Computing::computing))]
pub fn a_move_takes_a_node_tag()
    ensures { report rows_alone a_move_takes_a_node_tag_rows a_move_takes_a_node_tag_items
        ≡ codes "a accesses=2 ok=2 unmapped=0 denied=0 notcanonical=0 accepted=2 refused=0,0,0,0,0,0,0,0,0 walks=2 reads=5 wchits=1 fills=0 kicks=0 undone=0 migrated=0 growths=0 fences=0 invalidated=1 pasum=0000000000000000 tlb=-\n" }
{}
