//! Hashed and clustered tables, each row worked out by hand: the places of tags.

ghost use Rattle.std.specs.Prelude.{◌≡◌, codes};
ghost use Rattle.xl_model.specs.Report.{report};
ghost use Rattle.xl_model_rows.specs.Plain.{rows_alone};
ghost use Rattle.xl_model_rows.specs.ByHandChains.{a_moved_tag_is_in_front_rows, a_moved_tag_is_in_front_items, a_protect_leaves_the_place_rows, a_protect_leaves_the_place_items, a_removal_closes_up_rows, a_removal_closes_up_items, two_buckets_rows, two_buckets_items, empty_slots_of_two_blocks_rows, empty_slots_of_two_blocks_items, a_page_into_a_block_rows, a_page_into_a_block_items, an_empty_block_is_removed_rows, an_empty_block_is_removed_items, a_move_within_a_block_rows, a_move_within_a_block_items, tags_of_two_spaces_rows, tags_of_two_spaces_items};

/// A moved leaf's tag moves to the front of its bucket.
#[tactic(auto, unfolding(xl_model::specs::Computing::computing))]
pub fn a_moved_tag_is_in_front()
    ensures { report rows_alone a_moved_tag_is_in_front_rows a_moved_tag_is_in_front_items
        ≡ codes "a accesses=2 ok=2 unmapped=0 denied=0 notcanonical=0 accepted=4 refused=0,0,0,0,0,0,0,0,0 walks=2 reads=6 wchits=0 fills=0 kicks=0 undone=0 migrated=0 growths=0 fences=0 invalidated=0 pasum=0000000000001000 tlb=-\n" }
{}

/// A protect leaves a tag in its place.
#[tactic(auto, unfolding(xl_model::specs::Computing::computing))]
pub fn a_protect_leaves_the_place()
    ensures { report rows_alone a_protect_leaves_the_place_rows a_protect_leaves_the_place_items
        ≡ codes "a accesses=2 ok=2 unmapped=0 denied=0 notcanonical=0 accepted=4 refused=0,0,0,0,0,0,0,0,0 walks=2 reads=6 wchits=0 fills=0 kicks=0 undone=0 migrated=0 growths=0 fences=0 invalidated=0 pasum=0000000000002000 tlb=-\n" }
{}

/// A removal closes up, and a tag that comes goes in front.
#[tactic(auto, unfolding(xl_model::specs::Computing::computing))]
pub fn a_removal_closes_up()
    ensures { report rows_alone a_removal_closes_up_rows a_removal_closes_up_items
        ≡ codes "a accesses=4 ok=3 unmapped=1 denied=0 notcanonical=0 accepted=5 refused=0,0,0,0,0,0,0,0,0 walks=4 reads=18 wchits=0 fills=0 kicks=0 undone=0 migrated=0 growths=0 fences=0 invalidated=0 pasum=0000000000001000 tlb=-\n" }
{}

/// Each order is looked for in its own bucket.
#[tactic(auto, unfolding(xl_model::specs::Computing::computing))]
pub fn two_buckets()
    ensures { report rows_alone two_buckets_rows two_buckets_items
        ≡ codes "a accesses=3 ok=2 unmapped=1 denied=0 notcanonical=0 accepted=4 refused=0,0,0,0,0,0,0,0,0 walks=3 reads=16 wchits=0 fills=0 kicks=0 undone=0 migrated=0 growths=0 fences=0 invalidated=0 pasum=0000000000003000 tlb=-\n" }
{}

/// An empty slot of a block that is there costs its line, and the next order is tried.
#[tactic(auto, unfolding(xl_model::specs::Computing::computing))]
pub fn empty_slots_of_two_blocks()
    ensures { report rows_alone empty_slots_of_two_blocks_rows empty_slots_of_two_blocks_items
        ≡ codes "a accesses=3 ok=2 unmapped=1 denied=0 notcanonical=0 accepted=2 refused=0,0,0,0,0,0,0,0,0 walks=3 reads=20 wchits=0 fills=0 kicks=0 undone=0 migrated=0 growths=0 fences=0 invalidated=0 pasum=0000000000200000 tlb=-\n" }
{}

/// A page that comes into a block that is there moves nothing.
#[tactic(auto, unfolding(xl_model::specs::Computing::computing))]
pub fn a_page_into_a_block()
    ensures { report rows_alone a_page_into_a_block_rows a_page_into_a_block_items
        ≡ codes "a accesses=3 ok=3 unmapped=0 denied=0 notcanonical=0 accepted=3 refused=0,0,0,0,0,0,0,0,0 walks=3 reads=11 wchits=0 fills=0 kicks=0 undone=0 migrated=0 growths=0 fences=0 invalidated=0 pasum=0000000000005000 tlb=-\n" }
{}

/// A block goes with its last page, and stays in its place until then.
#[tactic(auto, unfolding(xl_model::specs::Computing::computing))]
pub fn an_empty_block_is_removed()
    ensures { report rows_alone an_empty_block_is_removed_rows an_empty_block_is_removed_items
        ≡ codes "a accesses=4 ok=3 unmapped=1 denied=0 notcanonical=0 accepted=6 refused=0,0,0,0,0,0,0,0,0 walks=4 reads=17 wchits=0 fills=0 kicks=0 undone=0 migrated=0 growths=0 fences=0 invalidated=0 pasum=0000000000004000 tlb=-\n" }
{}

/// A move within a block leaves the block in its place.
#[tactic(auto, unfolding(xl_model::specs::Computing::computing))]
pub fn a_move_within_a_block()
    ensures { report rows_alone a_move_within_a_block_rows a_move_within_a_block_items
        ≡ codes "a accesses=2 ok=2 unmapped=0 denied=0 notcanonical=0 accepted=3 refused=0,0,0,0,0,0,0,1,0 walks=2 reads=7 wchits=0 fills=0 kicks=0 undone=0 migrated=0 growths=0 fences=0 invalidated=0 pasum=0000000000001000 tlb=-\n" }
{}

/// The same page of two spaces has two tags.
#[tactic(auto, unfolding(xl_model::specs::Computing::computing))]
pub fn tags_of_two_spaces()
    ensures { report rows_alone tags_of_two_spaces_rows tags_of_two_spaces_items
        ≡ codes "a accesses=2 ok=2 unmapped=0 denied=0 notcanonical=0 accepted=3 refused=0,0,0,0,0,0,0,0,0 walks=2 reads=5 wchits=0 fills=0 kicks=0 undone=0 migrated=0 growths=0 fences=0 invalidated=0 pasum=0000000000001000 tlb=-\n" }
{}
