//! Elastic cuckoo tables: growth, caps and sections.

ghost use Rattle.std.specs.Prelude.{◌≡◌, codes};
ghost use Rattle.xl_model.specs.Report.{report};
ghost use Rattle.xl_model_rows.specs.Plain.{rows_alone};
ghost use Rattle.xl_model_rows.specs.CuckooRows.{sections_rows, sections_items, growth_rows, growth_items, a_way_at_its_cap_rows, a_way_at_its_cap_items, sections_used_up_rows, sections_used_up_items, a_way_known_rows, a_way_known_items, a_displaced_leaf_rows, a_displaced_leaf_items};

/// Three ways: 9 loads without cached sections, 3 with them.
#[tactic(auto, unfolding(xl_model::specs::Computing::computing))]
pub fn sections()
    ensures { report rows_alone sections_rows sections_items
        ≡ codes "a accesses=3 ok=2 unmapped=1 denied=0 notcanonical=0 accepted=1 refused=0,0,0,0,0,0,0,0,0 walks=3 reads=15 wchits=4 fills=0 kicks=0 undone=0 migrated=0 growths=0 fences=0 invalidated=0 pasum=0000000000000000 tlb=-\n" }
{}

/// Every access falls between two migrated slots of a growing way.
#[tactic(auto, unfolding(xl_model::specs::Computing::computing))]
pub fn growth()
    ensures { report rows_alone growth_rows growth_items
        ≡ codes "a accesses=9 ok=9 unmapped=0 denied=0 notcanonical=0 accepted=8 refused=0,0,0,0,0,0,0,0,0 walks=9 reads=54 wchits=0 fills=0 kicks=1 undone=0 migrated=4 growths=3 fences=0 invalidated=0 pasum=0000000000004000 tlb=-\n" }
{}

/// A third key finds no place in two ways of one slot each.
#[tactic(auto, unfolding(xl_model::specs::Computing::computing))]
pub fn a_way_at_its_cap()
    ensures { report rows_alone a_way_at_its_cap_rows a_way_at_its_cap_items
        ≡ codes "a accesses=3 ok=2 unmapped=1 denied=0 notcanonical=0 accepted=2 refused=0,0,0,0,0,0,0,0,1 walks=3 reads=18 wchits=0 fills=0 kicks=3 undone=2 migrated=0 growths=0 fences=0 invalidated=0 pasum=0000000000001000 tlb=-\n" }
{}

/// Every section taken: a map and a move are refused, and leave nothing.
#[tactic(auto, unfolding(xl_model::specs::Computing::computing))]
pub fn sections_used_up()
    ensures { report rows_alone sections_used_up_rows sections_used_up_items
        ≡ codes "a accesses=1 ok=1 unmapped=0 denied=0 notcanonical=0 accepted=3 refused=0,0,0,0,0,0,0,2,0 walks=1 reads=9 wchits=0 fills=0 kicks=0 undone=0 migrated=0 growths=0 fences=0 invalidated=0 pasum=0000000000000000 tlb=-\n" }
{}

/// A cached section that is a leaf: one load alone.
#[tactic(auto, unfolding(xl_model::specs::Computing::computing))]
pub fn a_way_known()
    ensures { report rows_alone a_way_known_rows a_way_known_items
        ≡ codes "a accesses=3 ok=3 unmapped=0 denied=0 notcanonical=0 accepted=1 refused=0,0,0,0,0,0,0,0,0 walks=3 reads=11 wchits=4 fills=0 kicks=0 undone=0 migrated=0 growths=0 fences=0 invalidated=0 pasum=0000000000000000 tlb=-\n" }
{}

/// A displaced leaf changes its way, and its cached section leaves.
#[tactic(auto, unfolding(xl_model::specs::Computing::computing))]
pub fn a_displaced_leaf()
    ensures { report rows_alone a_displaced_leaf_rows a_displaced_leaf_items
        ≡ codes "a accesses=4 ok=4 unmapped=0 denied=0 notcanonical=0 accepted=2 refused=0,0,0,0,0,0,0,0,0 walks=4 reads=10 wchits=5 fills=0 kicks=1 undone=0 migrated=1 growths=2 fences=0 invalidated=1 pasum=0000000000000000 tlb=-\n" }
{}
