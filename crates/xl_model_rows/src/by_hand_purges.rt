//! Purges and fences, each row worked out by hand: what leaves, and what stays beside it.

ghost use Rattle.std.specs.Prelude.{◌≡◌, codes};
ghost use Rattle.xl_model.specs.Report.{report};
ghost use Rattle.xl_model_rows.specs.Plain.{rows_alone};
ghost use Rattle.xl_model_rows.specs.ByHandPurges.{unmap_by_page_rows, unmap_by_page_items, unmap_by_space_rows, unmap_by_space_items, unmap_by_all_rows, unmap_by_all_items, protect_by_page_rows, protect_by_page_items, protect_by_space_rows, protect_by_space_items, protect_by_all_rows, protect_by_all_items, move_by_page_rows, move_by_page_items, move_by_space_rows, move_by_space_items, move_by_all_rows, move_by_all_items, a_map_purges_nothing_rows, a_map_purges_nothing_items, a_refused_command_purges_nothing_rows, a_refused_command_purges_nothing_items, a_purge_in_every_level_rows, a_purge_in_every_level_items, node_tags_at_a_purge_of_all_rows, node_tags_at_a_purge_of_all_items, fence_of_addr_of_both_spaces_rows, fence_of_addr_of_both_spaces_items, fence_of_addr_of_one_space_rows, fence_of_addr_of_one_space_items, fence_of_page_of_space_1_rows, fence_of_page_of_space_1_items, fence_of_page_of_space_0_rows, fence_of_page_of_space_0_items, fence_of_page_of_no_leaf_rows, fence_of_page_of_no_leaf_items, fence_of_space_0_rows, fence_of_space_0_items, fence_of_all_rows, fence_of_all_items, node_tags_at_a_fence_by_addr_rows, node_tags_at_a_fence_by_addr_items, node_tags_at_a_fence_by_page_rows, node_tags_at_a_fence_by_page_items, node_tags_at_a_fence_by_space_rows, node_tags_at_a_fence_by_space_items, node_tags_at_a_fence_of_all_rows, node_tags_at_a_fence_of_all_items, sections_at_a_fence_by_addr_rows, sections_at_a_fence_by_addr_items, sections_at_a_fence_by_page_rows, sections_at_a_fence_by_page_items, sections_at_a_fence_by_space_rows, sections_at_a_fence_by_space_items, sections_at_a_fence_of_all_rows, sections_at_a_fence_of_all_items, a_fence_inside_a_large_leaf_rows, a_fence_inside_a_large_leaf_items};

/// An unmap that purges the leaf, beside other entries.
#[tactic(auto, unfolding(xl_model::specs::Computing::computing))]
pub fn unmap_by_page()
    ensures { report rows_alone unmap_by_page_rows unmap_by_page_items
        ≡ codes "a accesses=5 ok=5 unmapped=0 denied=0 notcanonical=0 accepted=6 refused=0,0,0,0,0,0,0,0,0 walks=3 reads=9 wchits=0 fills=3 kicks=0 undone=0 migrated=0 growths=0 fences=0 invalidated=1 pasum=0000000000006000 tlb=2/3\n" }
{}

/// An unmap that purges the space, beside other entries.
#[tactic(auto, unfolding(xl_model::specs::Computing::computing))]
pub fn unmap_by_space()
    ensures { report rows_alone unmap_by_space_rows unmap_by_space_items
        ≡ codes "a accesses=5 ok=5 unmapped=0 denied=0 notcanonical=0 accepted=6 refused=0,0,0,0,0,0,0,0,0 walks=4 reads=12 wchits=0 fills=4 kicks=0 undone=0 migrated=0 growths=0 fences=0 invalidated=2 pasum=0000000000006000 tlb=1/4\n" }
{}

/// An unmap that purges all, beside other entries.
#[tactic(auto, unfolding(xl_model::specs::Computing::computing))]
pub fn unmap_by_all()
    ensures { report rows_alone unmap_by_all_rows unmap_by_all_items
        ≡ codes "a accesses=5 ok=5 unmapped=0 denied=0 notcanonical=0 accepted=6 refused=0,0,0,0,0,0,0,0,0 walks=5 reads=15 wchits=0 fills=5 kicks=0 undone=0 migrated=0 growths=0 fences=0 invalidated=3 pasum=0000000000006000 tlb=0/5\n" }
{}

/// A protect that purges the leaf, beside other entries.
#[tactic(auto, unfolding(xl_model::specs::Computing::computing))]
pub fn protect_by_page()
    ensures { report rows_alone protect_by_page_rows protect_by_page_items
        ≡ codes "a accesses=5 ok=5 unmapped=0 denied=0 notcanonical=0 accepted=6 refused=0,0,0,0,0,0,0,0,0 walks=3 reads=9 wchits=0 fills=3 kicks=0 undone=0 migrated=0 growths=0 fences=0 invalidated=1 pasum=0000000000006000 tlb=2/3\n" }
{}

/// A protect that purges the space, beside other entries.
#[tactic(auto, unfolding(xl_model::specs::Computing::computing))]
pub fn protect_by_space()
    ensures { report rows_alone protect_by_space_rows protect_by_space_items
        ≡ codes "a accesses=5 ok=5 unmapped=0 denied=0 notcanonical=0 accepted=6 refused=0,0,0,0,0,0,0,0,0 walks=4 reads=12 wchits=0 fills=4 kicks=0 undone=0 migrated=0 growths=0 fences=0 invalidated=2 pasum=0000000000006000 tlb=1/4\n" }
{}

/// A protect that purges all, beside other entries.
#[tactic(auto, unfolding(xl_model::specs::Computing::computing))]
pub fn protect_by_all()
    ensures { report rows_alone protect_by_all_rows protect_by_all_items
        ≡ codes "a accesses=5 ok=5 unmapped=0 denied=0 notcanonical=0 accepted=6 refused=0,0,0,0,0,0,0,0,0 walks=5 reads=15 wchits=0 fills=5 kicks=0 undone=0 migrated=0 growths=0 fences=0 invalidated=3 pasum=0000000000006000 tlb=0/5\n" }
{}

/// A move that purges the leaf, beside other entries.
#[tactic(auto, unfolding(xl_model::specs::Computing::computing))]
pub fn move_by_page()
    ensures { report rows_alone move_by_page_rows move_by_page_items
        ≡ codes "a accesses=5 ok=5 unmapped=0 denied=0 notcanonical=0 accepted=6 refused=0,0,0,0,0,0,0,0,0 walks=3 reads=9 wchits=0 fills=3 kicks=0 undone=0 migrated=0 growths=0 fences=0 invalidated=1 pasum=0000000000006000 tlb=2/3\n" }
{}

/// A move that purges the space, beside other entries.
#[tactic(auto, unfolding(xl_model::specs::Computing::computing))]
pub fn move_by_space()
    ensures { report rows_alone move_by_space_rows move_by_space_items
        ≡ codes "a accesses=5 ok=5 unmapped=0 denied=0 notcanonical=0 accepted=6 refused=0,0,0,0,0,0,0,0,0 walks=4 reads=12 wchits=0 fills=4 kicks=0 undone=0 migrated=0 growths=0 fences=0 invalidated=2 pasum=0000000000006000 tlb=1/4\n" }
{}

/// A move that purges all, beside other entries.
#[tactic(auto, unfolding(xl_model::specs::Computing::computing))]
pub fn move_by_all()
    ensures { report rows_alone move_by_all_rows move_by_all_items
        ≡ codes "a accesses=5 ok=5 unmapped=0 denied=0 notcanonical=0 accepted=6 refused=0,0,0,0,0,0,0,0,0 walks=5 reads=15 wchits=0 fills=5 kicks=0 undone=0 migrated=0 growths=0 fences=0 invalidated=3 pasum=0000000000006000 tlb=0/5\n" }
{}

/// A map purges nothing, whatever the row purges.
#[tactic(auto, unfolding(xl_model::specs::Computing::computing))]
pub fn a_map_purges_nothing()
    ensures { report rows_alone a_map_purges_nothing_rows a_map_purges_nothing_items
        ≡ codes "a accesses=2 ok=2 unmapped=0 denied=0 notcanonical=0 accepted=2 refused=0,0,0,0,0,0,0,0,0 walks=1 reads=3 wchits=0 fills=1 kicks=0 undone=0 migrated=0 growths=0 fences=0 invalidated=0 pasum=0000000000000000 tlb=1/1\n" }
{}

/// A refused command purges nothing.
#[tactic(auto, unfolding(xl_model::specs::Computing::computing))]
pub fn a_refused_command_purges_nothing()
    ensures { report rows_alone a_refused_command_purges_nothing_rows
        a_refused_command_purges_nothing_items ≡ codes
        "a accesses=2 ok=2 unmapped=0 denied=0 notcanonical=0 accepted=1 refused=0,0,0,2,0,0,0,0,0 walks=1 reads=3 wchits=0 fills=1 kicks=0 undone=0 migrated=0 growths=0 fences=0 invalidated=0 pasum=0000000000000000 tlb=1/1\n" }
{}

/// A purge takes the leaf from the arrays of every level, and counts each entry.
#[tactic(auto, unfolding(xl_model::specs::Computing::computing))]
pub fn a_purge_in_every_level()
    ensures { report rows_alone a_purge_in_every_level_rows a_purge_in_every_level_items
        ≡ codes "a accesses=2 ok=1 unmapped=1 denied=0 notcanonical=0 accepted=2 refused=0,0,0,0,0,0,0,0,0 walks=2 reads=4 wchits=0 fills=2 kicks=0 undone=0 migrated=0 growths=0 fences=0 invalidated=2 pasum=0000000000000000 tlb=0/2,0/2\n" }
{}

/// Node tags leave by need alone, also where the arrays are purged of all.
#[tactic(auto, unfolding(xl_model::specs::Computing::computing))]
pub fn node_tags_at_a_purge_of_all()
    ensures { report rows_alone node_tags_at_a_purge_of_all_rows node_tags_at_a_purge_of_all_items
        ≡ codes "a accesses=2 ok=2 unmapped=0 denied=0 notcanonical=0 accepted=3 refused=0,0,0,0,0,0,0,0,0 walks=2 reads=4 wchits=1 fills=2 kicks=0 undone=0 migrated=0 growths=0 fences=0 invalidated=1 pasum=0000000000001000 tlb=0/2\n" }
{}

/// A fence by an address that leaves and ranges of both spaces hold.
#[tactic(auto, unfolding(xl_model::specs::Computing::computing))]
pub fn fence_of_addr_of_both_spaces()
    ensures { report rows_alone fence_of_addr_of_both_spaces_rows fence_of_addr_of_both_spaces_items
        ≡ codes "a accesses=6 ok=6 unmapped=0 denied=0 notcanonical=0 accepted=6 refused=0,0,0,0,0,0,0,0,0 walks=5 reads=6 wchits=1 fills=5 kicks=0 undone=0 migrated=0 growths=0 fences=1 invalidated=4 pasum=0000000000006000 tlb=1/5\n" }
{}

/// A fence by an address that one of two pages of a range holds.
#[tactic(auto, unfolding(xl_model::specs::Computing::computing))]
pub fn fence_of_addr_of_one_space()
    ensures { report rows_alone fence_of_addr_of_one_space_rows fence_of_addr_of_one_space_items
        ≡ codes "a accesses=6 ok=6 unmapped=0 denied=0 notcanonical=0 accepted=6 refused=0,0,0,0,0,0,0,0,0 walks=4 reads=5 wchits=1 fills=4 kicks=0 undone=0 migrated=0 growths=0 fences=1 invalidated=2 pasum=0000000000006000 tlb=2/4\n" }
{}

/// A fence by a page of one space leaves the same page of the other.
#[tactic(auto, unfolding(xl_model::specs::Computing::computing))]
pub fn fence_of_page_of_space_1()
    ensures { report rows_alone fence_of_page_of_space_1_rows fence_of_page_of_space_1_items
        ≡ codes "a accesses=6 ok=6 unmapped=0 denied=0 notcanonical=0 accepted=6 refused=0,0,0,0,0,0,0,0,0 walks=4 reads=4 wchits=1 fills=4 kicks=0 undone=0 migrated=0 growths=0 fences=1 invalidated=2 pasum=0000000000006000 tlb=2/4\n" }
{}

/// A fence by a page of a range of two pages.
#[tactic(auto, unfolding(xl_model::specs::Computing::computing))]
pub fn fence_of_page_of_space_0()
    ensures { report rows_alone fence_of_page_of_space_0_rows fence_of_page_of_space_0_items
        ≡ codes "a accesses=6 ok=6 unmapped=0 denied=0 notcanonical=0 accepted=6 refused=0,0,0,0,0,0,0,0,0 walks=4 reads=5 wchits=1 fills=4 kicks=0 undone=0 migrated=0 growths=0 fences=1 invalidated=2 pasum=0000000000006000 tlb=2/4\n" }
{}

/// A fence by a page that has a leaf in the other space alone.
#[tactic(auto, unfolding(xl_model::specs::Computing::computing))]
pub fn fence_of_page_of_no_leaf()
    ensures { report rows_alone fence_of_page_of_no_leaf_rows fence_of_page_of_no_leaf_items
        ≡ codes "a accesses=6 ok=6 unmapped=0 denied=0 notcanonical=0 accepted=6 refused=0,0,0,0,0,0,0,0,0 walks=3 reads=3 wchits=1 fills=3 kicks=0 undone=0 migrated=0 growths=0 fences=1 invalidated=0 pasum=0000000000006000 tlb=3/3\n" }
{}

/// A fence by space, beside leaves and cached ranges of another.
#[tactic(auto, unfolding(xl_model::specs::Computing::computing))]
pub fn fence_of_space_0()
    ensures { report rows_alone fence_of_space_0_rows fence_of_space_0_items
        ≡ codes "a accesses=6 ok=6 unmapped=0 denied=0 notcanonical=0 accepted=6 refused=0,0,0,0,0,0,0,0,0 walks=5 reads=5 wchits=2 fills=5 kicks=0 undone=0 migrated=0 growths=0 fences=1 invalidated=3 pasum=0000000000006000 tlb=1/5\n" }
{}

/// A fence of all removes every leaf and every cached range.
#[tactic(auto, unfolding(xl_model::specs::Computing::computing))]
pub fn fence_of_all()
    ensures { report rows_alone fence_of_all_rows fence_of_all_items
        ≡ codes "a accesses=6 ok=6 unmapped=0 denied=0 notcanonical=0 accepted=6 refused=0,0,0,0,0,0,0,0,0 walks=6 reads=6 wchits=2 fills=6 kicks=0 undone=0 migrated=0 growths=0 fences=1 invalidated=5 pasum=0000000000006000 tlb=0/6\n" }
{}

/// Node tags at a fence by address.
#[tactic(auto, unfolding(xl_model::specs::Computing::computing))]
pub fn node_tags_at_a_fence_by_addr()
    ensures { report rows_alone node_tags_at_a_fence_by_addr_rows node_tags_at_a_fence_by_addr_items
        ≡ codes "a accesses=4 ok=4 unmapped=0 denied=0 notcanonical=0 accepted=5 refused=0,0,0,0,0,0,0,0,0 walks=4 reads=8 wchits=2 fills=0 kicks=0 undone=0 migrated=0 growths=0 fences=1 invalidated=0 pasum=0000000000002000 tlb=-\n" }
{}

/// Node tags at a fence by page.
#[tactic(auto, unfolding(xl_model::specs::Computing::computing))]
pub fn node_tags_at_a_fence_by_page()
    ensures { report rows_alone node_tags_at_a_fence_by_page_rows node_tags_at_a_fence_by_page_items
        ≡ codes "a accesses=4 ok=4 unmapped=0 denied=0 notcanonical=0 accepted=5 refused=0,0,0,0,0,0,0,0,0 walks=4 reads=8 wchits=2 fills=0 kicks=0 undone=0 migrated=0 growths=0 fences=1 invalidated=0 pasum=0000000000002000 tlb=-\n" }
{}

/// Node tags at a fence by space.
#[tactic(auto, unfolding(xl_model::specs::Computing::computing))]
pub fn node_tags_at_a_fence_by_space()
    ensures { report rows_alone node_tags_at_a_fence_by_space_rows
        node_tags_at_a_fence_by_space_items ≡ codes
        "a accesses=4 ok=3 unmapped=1 denied=0 notcanonical=0 accepted=5 refused=0,0,0,0,0,0,0,0,0 walks=4 reads=10 wchits=1 fills=0 kicks=0 undone=0 migrated=0 growths=0 fences=1 invalidated=2 pasum=0000000000002000 tlb=-\n" }
{}

/// Node tags at a fence of all.
#[tactic(auto, unfolding(xl_model::specs::Computing::computing))]
pub fn node_tags_at_a_fence_of_all()
    ensures { report rows_alone node_tags_at_a_fence_of_all_rows node_tags_at_a_fence_of_all_items
        ≡ codes "a accesses=4 ok=4 unmapped=0 denied=0 notcanonical=0 accepted=5 refused=0,0,0,0,0,0,0,0,0 walks=4 reads=12 wchits=0 fills=0 kicks=0 undone=0 migrated=0 growths=0 fences=1 invalidated=4 pasum=0000000000002000 tlb=-\n" }
{}

/// Cached sections at a fence by address.
#[tactic(auto, unfolding(xl_model::specs::Computing::computing))]
pub fn sections_at_a_fence_by_addr()
    ensures { report rows_alone sections_at_a_fence_by_addr_rows sections_at_a_fence_by_addr_items
        ≡ codes "a accesses=4 ok=4 unmapped=0 denied=0 notcanonical=0 accepted=5 refused=0,0,0,0,0,0,0,0,0 walks=4 reads=16 wchits=4 fills=0 kicks=0 undone=0 migrated=0 growths=0 fences=1 invalidated=0 pasum=0000000000002000 tlb=-\n" }
{}

/// Cached sections at a fence by page.
#[tactic(auto, unfolding(xl_model::specs::Computing::computing))]
pub fn sections_at_a_fence_by_page()
    ensures { report rows_alone sections_at_a_fence_by_page_rows sections_at_a_fence_by_page_items
        ≡ codes "a accesses=4 ok=4 unmapped=0 denied=0 notcanonical=0 accepted=5 refused=0,0,0,0,0,0,0,0,0 walks=4 reads=16 wchits=4 fills=0 kicks=0 undone=0 migrated=0 growths=0 fences=1 invalidated=0 pasum=0000000000002000 tlb=-\n" }
{}

/// Cached sections at a fence by space.
#[tactic(auto, unfolding(xl_model::specs::Computing::computing))]
pub fn sections_at_a_fence_by_space()
    ensures { report rows_alone sections_at_a_fence_by_space_rows sections_at_a_fence_by_space_items
        ≡ codes "a accesses=4 ok=3 unmapped=1 denied=0 notcanonical=0 accepted=5 refused=0,0,0,0,0,0,0,0,0 walks=4 reads=20 wchits=1 fills=0 kicks=0 undone=0 migrated=0 growths=0 fences=1 invalidated=2 pasum=0000000000002000 tlb=-\n" }
{}

/// Cached sections at a fence of all.
#[tactic(auto, unfolding(xl_model::specs::Computing::computing))]
pub fn sections_at_a_fence_of_all()
    ensures { report rows_alone sections_at_a_fence_of_all_rows sections_at_a_fence_of_all_items
        ≡ codes "a accesses=4 ok=4 unmapped=0 denied=0 notcanonical=0 accepted=5 refused=0,0,0,0,0,0,0,0,0 walks=4 reads=24 wchits=0 fills=0 kicks=0 undone=0 migrated=0 growths=0 fences=1 invalidated=4 pasum=0000000000002000 tlb=-\n" }
{}

/// A fence by the address of any page of a large leaf removes it.
#[tactic(auto, unfolding(xl_model::specs::Computing::computing))]
pub fn a_fence_inside_a_large_leaf()
    ensures { report rows_alone a_fence_inside_a_large_leaf_rows a_fence_inside_a_large_leaf_items
        ≡ codes "a accesses=4 ok=4 unmapped=0 denied=0 notcanonical=0 accepted=5 refused=0,0,0,0,0,0,0,0,0 walks=4 reads=10 wchits=0 fills=4 kicks=0 undone=0 migrated=0 growths=0 fences=3 invalidated=2 pasum=0000000000400000 tlb=0/4\n" }
{}
