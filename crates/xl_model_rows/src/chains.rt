//! Hashed and clustered tables.

ghost use Rattle.std.specs.Prelude.{◌≡◌, codes};
ghost use Rattle.xl_model.specs.Report.{report};
ghost use Rattle.xl_model_rows.specs.Plain.{rows_alone};
ghost use Rattle.xl_model_rows.specs.ChainRows.{hashed_rows, hashed_items, clustered_rows, clustered_items, hashed_large_rows, hashed_large_items, clustered_large_rows, clustered_large_items, entries_used_up_rows, entries_used_up_items, blocks_used_up_rows, blocks_used_up_items};

/// One bucket with three entries: 4, 3, 2 loads, and 12 for an absent page.
#[tactic(auto, unfolding(xl_model::specs::Computing::computing))]
pub fn hashed()
    ensures { report rows_alone hashed_rows hashed_items
        ≡ codes "a accesses=4 ok=3 unmapped=1 denied=0 notcanonical=0 accepted=3 refused=0,0,0,0,0,0,0,0,0 walks=4 reads=21 wchits=0 fills=0 kicks=0 undone=0 migrated=0 growths=0 fences=0 invalidated=0 pasum=0000000000003000 tlb=-\n" }
{}

/// Two blocks in one bucket: 4, 3 and 10 loads.
#[tactic(auto, unfolding(xl_model::specs::Computing::computing))]
pub fn clustered()
    ensures { report rows_alone clustered_rows clustered_items
        ≡ codes "a accesses=3 ok=2 unmapped=1 denied=0 notcanonical=0 accepted=3 refused=0,0,0,0,0,0,0,0,0 walks=3 reads=17 wchits=0 fills=0 kicks=0 undone=0 migrated=0 growths=0 fences=0 invalidated=0 pasum=0000000000002000 tlb=-\n" }
{}

/// A 2 MiB leaf beside a 4 KiB leaf, hashed.
#[tactic(auto, unfolding(xl_model::specs::Computing::computing))]
pub fn hashed_large()
    ensures { report rows_alone hashed_large_rows hashed_large_items
        ≡ codes "a accesses=2 ok=2 unmapped=0 denied=0 notcanonical=0 accepted=2 refused=0,0,0,0,0,0,0,0,0 walks=2 reads=8 wchits=0 fills=0 kicks=0 undone=0 migrated=0 growths=0 fences=0 invalidated=0 pasum=0000000000200000 tlb=-\n" }
{}

/// A 2 MiB leaf beside a 4 KiB leaf, clustered.
#[tactic(auto, unfolding(xl_model::specs::Computing::computing))]
pub fn clustered_large()
    ensures { report rows_alone clustered_large_rows clustered_large_items
        ≡ codes "a accesses=2 ok=2 unmapped=0 denied=0 notcanonical=0 accepted=2 refused=0,0,0,0,0,0,0,0,0 walks=2 reads=10 wchits=0 fills=0 kicks=0 undone=0 migrated=0 growths=0 fences=0 invalidated=0 pasum=0000000000200000 tlb=-\n" }
{}

/// Every entry taken: a map and a move are refused, and leave nothing.
#[tactic(auto, unfolding(xl_model::specs::Computing::computing))]
pub fn entries_used_up()
    ensures { report rows_alone entries_used_up_rows entries_used_up_items
        ≡ codes "a accesses=2 ok=1 unmapped=1 denied=0 notcanonical=0 accepted=1 refused=0,0,0,0,0,0,0,2,0 walks=2 reads=8 wchits=0 fills=0 kicks=0 undone=0 migrated=0 growths=0 fences=0 invalidated=0 pasum=0000000000000000 tlb=-\n" }
{}

/// Every block taken: a page in a block that is there still has room.
#[tactic(auto, unfolding(xl_model::specs::Computing::computing))]
pub fn blocks_used_up()
    ensures { report rows_alone blocks_used_up_rows blocks_used_up_items
        ≡ codes "a accesses=2 ok=1 unmapped=1 denied=0 notcanonical=0 accepted=16 refused=0,0,0,0,0,0,0,2,0 walks=2 reads=10 wchits=0 fills=0 kicks=0 undone=0 migrated=0 growths=0 fences=0 invalidated=0 pasum=0000000000000000 tlb=-\n" }
{}
