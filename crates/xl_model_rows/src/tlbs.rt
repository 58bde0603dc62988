//! TLB arrays: hits, fills, purges and fences.

ghost use Rattle.std.specs.Prelude.{◌≡◌, codes};
ghost use Rattle.xl_model.specs.Report.{report};
ghost use Rattle.xl_model_rows.specs.Plain.{rows_alone, with_answers};
ghost use Rattle.xl_model_rows.specs.TlbRows.{denied_on_a_hit_rows, denied_on_a_hit_items, denied_on_a_hit_known_rows, denied_on_a_hit_known_items, a_protect_rows, a_protect_items, an_unmap_rows, an_unmap_items, spaces_and_fences_rows, spaces_and_fences_items, two_levels_rows, two_levels_items, purge_all_rows, purge_all_items, purge_page_rows, purge_page_items};

/// A store on a read-only leaf that hits.
#[tactic(auto, unfolding(xl_model::specs::Computing::computing))]
pub fn denied_on_a_hit()
    ensures { report rows_alone denied_on_a_hit_rows denied_on_a_hit_items
        ≡ codes "a accesses=2 ok=1 unmapped=0 denied=1 notcanonical=0 accepted=1 refused=0,0,0,0,0,0,0,0,0 walks=1 reads=3 wchits=0 fills=1 kicks=0 undone=0 migrated=0 growths=0 fences=0 invalidated=0 pasum=0000000000000000 tlb=1/1\n" }
{}

/// The same with its answer lines.
#[tactic(auto, unfolding(xl_model::specs::Computing::computing))]
pub fn denied_on_a_hit_known()
    ensures { report with_answers denied_on_a_hit_known_rows denied_on_a_hit_known_items
        ≡ codes "a cmd map ok\na 1 L 0 0000000000001000 ok 0000000000000000\na 2 S 0 0000000000001000 denied 15\na accesses=2 ok=1 unmapped=0 denied=1 notcanonical=0 accepted=1 refused=0,0,0,0,0,0,0,0,0 walks=1 reads=3 wchits=0 fills=1 kicks=0 undone=0 migrated=0 growths=0 fences=0 invalidated=0 pasum=0000000000000000 tlb=1/1\n" }
{}

/// A protect purges the leaf.
#[tactic(auto, unfolding(xl_model::specs::Computing::computing))]
pub fn a_protect()
    ensures { report rows_alone a_protect_rows a_protect_items
        ≡ codes "a accesses=3 ok=3 unmapped=0 denied=0 notcanonical=0 accepted=2 refused=0,0,0,0,0,0,0,0,0 walks=2 reads=6 wchits=0 fills=2 kicks=0 undone=0 migrated=0 growths=0 fences=0 invalidated=1 pasum=0000000000000000 tlb=1/2\n" }
{}

/// The same frame again, and no stale permission.
#[tactic(auto, unfolding(xl_model::specs::Computing::computing))]
pub fn an_unmap()
    ensures { report rows_alone an_unmap_rows an_unmap_items
        ≡ codes "a accesses=2 ok=1 unmapped=0 denied=1 notcanonical=0 accepted=3 refused=0,0,0,0,0,0,0,0,0 walks=2 reads=6 wchits=0 fills=2 kicks=0 undone=0 migrated=0 growths=0 fences=0 invalidated=1 pasum=0000000000000000 tlb=0/2\n" }
{}

/// Fences by space, by page and by address remove 1, 1 and 2 entries.
#[tactic(auto, unfolding(xl_model::specs::Computing::computing))]
pub fn spaces_and_fences()
    ensures { report rows_alone spaces_and_fences_rows spaces_and_fences_items
        ≡ codes "a accesses=6 ok=6 unmapped=0 denied=0 notcanonical=0 accepted=7 refused=0,0,0,0,0,0,0,0,0 walks=5 reads=15 wchits=0 fills=5 kicks=0 undone=0 migrated=0 growths=0 fences=3 invalidated=4 pasum=0000000000002000 tlb=1/5\n" }
{}

/// A hit in the second level fills the first.
#[tactic(auto, unfolding(xl_model::specs::Computing::computing))]
pub fn two_levels()
    ensures { report rows_alone two_levels_rows two_levels_items
        ≡ codes "a accesses=3 ok=3 unmapped=0 denied=0 notcanonical=0 accepted=2 refused=0,0,0,0,0,0,0,0,0 walks=2 reads=6 wchits=0 fills=5 kicks=0 undone=0 migrated=0 growths=0 fences=0 invalidated=0 pasum=0000000000001000 tlb=0/3,1/2\n" }
{}

/// An unmap that purges everything.
#[tactic(auto, unfolding(xl_model::specs::Computing::computing))]
pub fn purge_all()
    ensures { report rows_alone purge_all_rows purge_all_items
        ≡ codes "a accesses=3 ok=3 unmapped=0 denied=0 notcanonical=0 accepted=3 refused=0,0,0,0,0,0,0,0,0 walks=3 reads=9 wchits=0 fills=3 kicks=0 undone=0 migrated=0 growths=0 fences=0 invalidated=2 pasum=0000000000002000 tlb=0/3\n" }
{}

/// An unmap that purges the leaf alone.
#[tactic(auto, unfolding(xl_model::specs::Computing::computing))]
pub fn purge_page()
    ensures { report rows_alone purge_page_rows purge_page_items
        ≡ codes "a accesses=3 ok=3 unmapped=0 denied=0 notcanonical=0 accepted=3 refused=0,0,0,0,0,0,0,0,0 walks=2 reads=6 wchits=0 fills=2 kicks=0 undone=0 migrated=0 growths=0 fences=0 invalidated=1 pasum=0000000000002000 tlb=1/2\n" }
{}
