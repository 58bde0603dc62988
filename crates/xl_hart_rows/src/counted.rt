//! What is counted of harts, each row by another program.

ghost use Rattle.std.specs.Prelude.{◌≡◌};
ghost use Rattle.xl_hart_rows.specs.Rows.{figures};
ghost use Rattle.xl_hart_rows.specs.Counted.{eight_harts_in_turn_spec, eight_harts_in_turn_events, eight_harts_in_turn_figures, eight_harts_in_falling_order_spec, eight_harts_in_falling_order_events, eight_harts_in_falling_order_figures, a_full_queue_spec, a_full_queue_events, a_full_queue_figures, an_empty_queue_spec, an_empty_queue_events, an_empty_queue_figures, no_such_hart_spec, no_such_hart_events, no_such_hart_figures, a_block_of_4k_held_back_spec, a_block_of_4k_held_back_events, a_block_of_4k_held_back_figures, a_block_of_2m_held_back_spec, a_block_of_2m_held_back_events, a_block_of_2m_held_back_figures, a_block_of_1g_held_back_spec, a_block_of_1g_held_back_events, a_block_of_1g_held_back_figures, a_protect_seen_old_and_new_spec, a_protect_seen_old_and_new_events, a_protect_seen_old_and_new_figures, a_move_seen_old_and_new_spec, a_move_seen_old_and_new_events, a_move_seen_old_and_new_figures, denied_in_the_mapping_spec, denied_in_the_mapping_events, denied_in_the_mapping_figures, denied_by_an_older_leaf_spec, denied_by_an_older_leaf_events, denied_by_an_older_leaf_figures, a_space_of_one_hart_spec, a_space_of_one_hart_events, a_space_of_one_hart_figures, another_frame_stays_spec, another_frame_stays_events, another_frame_stays_figures, another_permission_stays_spec, another_permission_stays_events, another_permission_stays_figures, frames_held_of_two_blocks_spec, frames_held_of_two_blocks_events, frames_held_of_two_blocks_figures, eight_harts_in_mixed_order_spec, eight_harts_in_mixed_order_events, eight_harts_in_mixed_order_figures, refusals_in_their_order_spec, refusals_in_their_order_events, refusals_in_their_order_figures, room_comes_before_the_queue_spec, room_comes_before_the_queue_events, room_comes_before_the_queue_figures, nine_leaves_in_eight_ways_spec, nine_leaves_in_eight_ways_events, nine_leaves_in_eight_ways_figures, an_address_that_is_not_canonical_spec, an_address_that_is_not_canonical_events, an_address_that_is_not_canonical_figures};

/// Eight harts read a page that is then unmapped, and take in rising order: each loses its entry,
/// and the last one frees the frame.
#[tactic(auto, unfolding(xl_hart_model::specs::Computing::hart_computing))]
pub fn eight_harts_in_turn()
    ensures { figures eight_harts_in_turn_spec eight_harts_in_turn_events
        ≡ eight_harts_in_turn_figures }
{}

/// The same in falling order, some harts twice in turn.
#[tactic(auto, unfolding(xl_hart_model::specs::Computing::hart_computing))]
pub fn eight_harts_in_falling_order()
    ensures { figures eight_harts_in_falling_order_spec eight_harts_in_falling_order_events
        ≡ eight_harts_in_falling_order_figures }
{}

/// A queue of two is full after two maps; a take of one hart leaves the other's full.
#[tactic(auto, unfolding(xl_hart_model::specs::Computing::hart_computing))]
pub fn a_full_queue()
    ensures { figures a_full_queue_spec a_full_queue_events ≡ a_full_queue_figures }
{}

/// A take of an empty queue is refused, whatever the other hart's queue holds.
#[tactic(auto, unfolding(xl_hart_model::specs::Computing::hart_computing))]
pub fn an_empty_queue()
    ensures { figures an_empty_queue_spec an_empty_queue_events ≡ an_empty_queue_figures }
{}

/// A hart that isn't there is neither chosen nor takes, and the current one stays.
#[tactic(auto, unfolding(xl_hart_model::specs::Computing::hart_computing))]
pub fn no_such_hart()
    ensures { figures no_such_hart_spec no_such_hart_events ≡ no_such_hart_figures }
{}

/// Two harts, and the frames of one block of 4 KiB: the block is held back until the second has
/// taken the unmap.
#[tactic(auto, unfolding(xl_hart_model::specs::Computing::hart_computing))]
pub fn a_block_of_4k_held_back()
    ensures { figures a_block_of_4k_held_back_spec a_block_of_4k_held_back_events
        ≡ a_block_of_4k_held_back_figures }
{}

/// Two harts, and the frames of one block of 2 MiB: the block is held back until the second has
/// taken the unmap.
#[tactic(auto, unfolding(xl_hart_model::specs::Computing::hart_computing))]
pub fn a_block_of_2m_held_back()
    ensures { figures a_block_of_2m_held_back_spec a_block_of_2m_held_back_events
        ≡ a_block_of_2m_held_back_figures }
{}

/// Two harts, and the frames of one block of 1 GiB: the block is held back until the second has
/// taken the unmap.
#[tactic(auto, unfolding(xl_hart_model::specs::Computing::hart_computing))]
pub fn a_block_of_1g_held_back()
    ensures { figures a_block_of_1g_held_back_spec a_block_of_1g_held_back_events
        ≡ a_block_of_1g_held_back_figures }
{}

/// A protect that one hart sees and the other doesn't, until it takes: a store is allowed, denied,
/// then denied.
#[tactic(auto, unfolding(xl_hart_model::specs::Computing::hart_computing))]
pub fn a_protect_seen_old_and_new()
    ensures { figures a_protect_seen_old_and_new_spec a_protect_seen_old_and_new_events
        ≡ a_protect_seen_old_and_new_figures }
{}

/// A move: the hart that read the page still reads it at its old place, the other at its new place
/// alone.
#[tactic(auto, unfolding(xl_hart_model::specs::Computing::hart_computing))]
pub fn a_move_seen_old_and_new()
    ensures { figures a_move_seen_old_and_new_spec a_move_seen_old_and_new_events
        ≡ a_move_seen_old_and_new_figures }
{}

/// A store that an older leaf allows and the mapping denies.
#[tactic(auto, unfolding(xl_hart_model::specs::Computing::hart_computing))]
pub fn denied_in_the_mapping()
    ensures { figures denied_in_the_mapping_spec denied_in_the_mapping_events
        ≡ denied_in_the_mapping_figures }
{}

/// A store that an older leaf denies and the mapping allows.
#[tactic(auto, unfolding(xl_hart_model::specs::Computing::hart_computing))]
pub fn denied_by_an_older_leaf()
    ensures { figures denied_by_an_older_leaf_spec denied_by_an_older_leaf_events
        ≡ denied_by_an_older_leaf_figures }
{}

/// A space is switched for one hart alone, and is no request.
#[tactic(auto, unfolding(xl_hart_model::specs::Computing::hart_computing))]
pub fn a_space_of_one_hart()
    ensures { figures a_space_of_one_hart_spec a_space_of_one_hart_events
        ≡ a_space_of_one_hart_figures }
{}

/// A take of an unmap leaves an entry of the same page in another frame.
#[tactic(auto, unfolding(xl_hart_model::specs::Computing::hart_computing))]
pub fn another_frame_stays()
    ensures { figures another_frame_stays_spec another_frame_stays_events
        ≡ another_frame_stays_figures }
{}

/// A take of a protect leaves an entry of the same page with another permission.
#[tactic(auto, unfolding(xl_hart_model::specs::Computing::hart_computing))]
pub fn another_permission_stays()
    ensures { figures another_permission_stays_spec another_permission_stays_events
        ≡ another_permission_stays_figures }
{}

/// Two blocks of 2 MiB and a page are held back, and given back one after another.
#[tactic(auto, unfolding(xl_hart_model::specs::Computing::hart_computing))]
pub fn frames_held_of_two_blocks()
    ensures { figures frames_held_of_two_blocks_spec frames_held_of_two_blocks_events
        ≡ frames_held_of_two_blocks_figures }
{}

/// The same in mixed order, and a hart that reads the page anew between its two takes.
#[tactic(auto, unfolding(xl_hart_model::specs::Computing::hart_computing))]
pub fn eight_harts_in_mixed_order()
    ensures { figures eight_harts_in_mixed_order_spec eight_harts_in_mixed_order_events
        ≡ eight_harts_in_mixed_order_figures }
{}

/// Each refusal where later ones hold too: 1, 2, 3, 6 and 7 of a map, 4 and 5 of an unmap, 4, 6, 8
/// and 10 of a move.
#[tactic(auto, unfolding(xl_hart_model::specs::Computing::hart_computing))]
pub fn refusals_in_their_order()
    ensures { figures refusals_in_their_order_spec refusals_in_their_order_events
        ≡ refusals_in_their_order_figures }
{}

/// A full queue and a table without room: a map and a move into another root entry are refused for
/// the room.
#[tactic(auto, unfolding(xl_hart_model::specs::Computing::hart_computing))]
pub fn room_comes_before_the_queue()
    ensures { figures room_comes_before_the_queue_spec room_comes_before_the_queue_events
        ≡ room_comes_before_the_queue_figures }
{}

/// A set of eight ways keeps eight leaves, and the ninth takes the oldest one's place. Worked out
/// by hand.
#[tactic(auto, unfolding(xl_hart_model::specs::Computing::hart_computing))]
pub fn nine_leaves_in_eight_ways()
    ensures { figures nine_leaves_in_eight_ways_spec nine_leaves_in_eight_ways_events
        ≡ nine_leaves_in_eight_ways_figures }
{}

/// An address that isn't canonical is looked up nowhere. Worked out by hand.
#[tactic(auto, unfolding(xl_hart_model::specs::Computing::hart_computing))]
pub fn an_address_that_is_not_canonical()
    ensures { figures an_address_that_is_not_canonical_spec an_address_that_is_not_canonical_events
        ≡ an_address_that_is_not_canonical_figures }
{}
