//! Commands, frames and refusals.

ghost use Rattle.std.specs.Prelude.{◌≡◌, codes};
ghost use Rattle.xl_model.specs.Report.{report};
ghost use Rattle.xl_model_rows.specs.Plain.{rows_alone};
ghost use Rattle.xl_model_rows.specs.Commands.{a_move_onto_itself_rows, a_move_onto_itself_items, a_move_onto_itself_again_rows, a_move_onto_itself_again_items, no_block_of_511_frames_rows, no_block_of_511_frames_items, no_block_of_1023_frames_rows, no_block_of_1023_frames_items, a_block_of_1024_frames_rows, a_block_of_1024_frames_items, seven_refusals_rows, seven_refusals_items, a_freed_block_taken_again_rows, a_freed_block_taken_again_items};

/// A move to its own place overlaps the moved leaf; a move elsewhere is done.
#[tactic(auto, unfolding(xl_model::specs::Computing::computing))]
pub fn a_move_onto_itself()
    ensures { report rows_alone a_move_onto_itself_rows a_move_onto_itself_items
        ≡ codes "a accesses=2 ok=1 unmapped=1 denied=0 notcanonical=0 accepted=2 refused=0,0,0,0,0,1,0,0,0 walks=2 reads=6 wchits=0 fills=0 kicks=0 undone=0 migrated=0 growths=0 fences=0 invalidated=0 pasum=0000000000000000 tlb=-\n" }
{}

/// The same on a row of one space.
#[tactic(auto, unfolding(xl_model::specs::Computing::computing))]
pub fn a_move_onto_itself_again()
    ensures { report rows_alone a_move_onto_itself_again_rows a_move_onto_itself_again_items
        ≡ codes "a accesses=2 ok=1 unmapped=1 denied=0 notcanonical=0 accepted=2 refused=0,0,0,0,0,1,0,0,0 walks=2 reads=6 wchits=0 fills=0 kicks=0 undone=0 migrated=0 growths=0 fences=0 invalidated=0 pasum=0000000000000000 tlb=-\n" }
{}

/// A 2 MiB leaf wants 512 frames.
#[tactic(auto, unfolding(xl_model::specs::Computing::computing))]
pub fn no_block_of_511_frames()
    ensures { report rows_alone no_block_of_511_frames_rows no_block_of_511_frames_items
        ≡ codes "a accesses=0 ok=0 unmapped=0 denied=0 notcanonical=0 accepted=0 refused=0,0,0,0,0,0,1,0,0 walks=0 reads=0 wchits=0 fills=0 kicks=0 undone=0 migrated=0 growths=0 fences=0 invalidated=0 pasum=0000000000000000 tlb=-\n" }
{}

/// One frame taken, and no aligned block of 512 is left of 1023.
#[tactic(auto, unfolding(xl_model::specs::Computing::computing))]
pub fn no_block_of_1023_frames()
    ensures { report rows_alone no_block_of_1023_frames_rows no_block_of_1023_frames_items
        ≡ codes "a accesses=0 ok=0 unmapped=0 denied=0 notcanonical=0 accepted=1 refused=0,0,0,0,0,0,1,0,0 walks=0 reads=0 wchits=0 fills=0 kicks=0 undone=0 migrated=0 growths=0 fences=0 invalidated=0 pasum=0000000000000000 tlb=-\n" }
{}

/// One frame taken, and the second block of 512 is free of 1024.
#[tactic(auto, unfolding(xl_model::specs::Computing::computing))]
pub fn a_block_of_1024_frames()
    ensures { report rows_alone a_block_of_1024_frames_rows a_block_of_1024_frames_items
        ≡ codes "a accesses=0 ok=0 unmapped=0 denied=0 notcanonical=0 accepted=2 refused=0,0,0,0,0,0,0,0,0 walks=0 reads=0 wchits=0 fills=0 kicks=0 undone=0 migrated=0 growths=0 fences=0 invalidated=0 pasum=0000000000000000 tlb=-\n" }
{}

/// Refusals 1 to 7, each once.
#[tactic(auto, unfolding(xl_model::specs::Computing::computing))]
pub fn seven_refusals()
    ensures { report rows_alone seven_refusals_rows seven_refusals_items
        ≡ codes "a accesses=0 ok=0 unmapped=0 denied=0 notcanonical=0 accepted=1 refused=1,1,1,1,1,1,1,0,0 walks=0 reads=0 wchits=0 fills=0 kicks=0 undone=0 migrated=0 growths=0 fences=0 invalidated=0 pasum=0000000000000000 tlb=-\n" }
{}

/// Frames 0, 512, and 0 again.
#[tactic(auto, unfolding(xl_model::specs::Computing::computing))]
pub fn a_freed_block_taken_again()
    ensures { report rows_alone a_freed_block_taken_again_rows a_freed_block_taken_again_items
        ≡ codes "a accesses=2 ok=2 unmapped=0 denied=0 notcanonical=0 accepted=4 refused=0,0,0,0,0,0,0,0,0 walks=2 reads=5 wchits=0 fills=0 kicks=0 undone=0 migrated=0 growths=0 fences=0 invalidated=0 pasum=0000000000200123 tlb=-\n" }
{}
