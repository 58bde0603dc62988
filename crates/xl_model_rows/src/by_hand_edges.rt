//! The ends of ranges, each row worked out by hand: addresses, permissions, counts, blocks.

ghost use Rattle.std.specs.Prelude.{◌≡◌, [], ◌∷◌, codes};
ghost use Rattle.xl_model.specs.declared.address.Kind.TheVariants as kind;
ghost use Rattle.xl_model.specs.declared.address.Order.TheVariants as order;
ghost use Rattle.xl_model.specs.declared.event.Event.TheVariants as event;
ghost use Rattle.xl_model.specs.declared.script.Item.TheVariants.{Command};
ghost use Rattle.xl_model.specs.Courses.{events_from};
ghost use Rattle.xl_model.specs.Report.{report};
ghost use Rattle.xl_model.specs.RowRun.{after_event};
ghost use Rattle.xl_model_rows.specs.Plain.{plain_row, perm_r__u, rows_alone};
ghost use Rattle.xl_model_rows.specs.ByHandEdges.{both_halves_of_the_addresses_rows, both_halves_of_the_addresses_items, a_page_to_execute_rows, a_page_to_execute_items, at_the_greatest, at_the_half, map_of_block};

/// Addresses of the upper half have pages of their own.
#[tactic(auto, unfolding(xl_model::specs::Computing::computing))]
pub fn both_halves_of_the_addresses()
    ensures { report rows_alone both_halves_of_the_addresses_rows both_halves_of_the_addresses_items
        ≡ codes "a accesses=2 ok=1 unmapped=1 denied=0 notcanonical=0 accepted=1 refused=0,0,0,0,0,0,0,0,0 walks=2 reads=4 wchits=0 fills=0 kicks=0 undone=0 migrated=0 growths=0 fences=0 invalidated=0 pasum=0000000000000000 tlb=-\n" }
{}

/// A page that may be executed alone.
#[tactic(auto, unfolding(xl_model::specs::Computing::computing))]
pub fn a_page_to_execute()
    ensures { report rows_alone a_page_to_execute_rows a_page_to_execute_items
        ≡ codes "a accesses=3 ok=1 unmapped=0 denied=2 notcanonical=0 accepted=1 refused=0,0,0,0,0,0,0,0,0 walks=3 reads=9 wchits=0 fills=0 kicks=0 undone=0 migrated=0 growths=0 fences=0 invalidated=0 pasum=0000000000000004 tlb=-\n" }
{}

/// A count at its greatest, 2^64 - 1, goes on at 0, and one at 2^63 - 1 at 2^63.
#[tactic(auto, unfolding(xl_model::specs::Computing::computing))]
pub fn counts_go_on_at_0()
    ensures accesses { (after_event plain_row (event.Access 0 kind.Load)
        at_the_greatest).counts.accesses ≡ 0 }
    ensures unmapped { (after_event plain_row (event.Access 0 kind.Load)
        at_the_greatest).counts.unmapped ≡ 0 }
    ensures walks { (after_event plain_row (event.Access 0 kind.Load) at_the_greatest).counts.walks
        ≡ 0 }
    ensures reads { (after_event plain_row (event.Access 0 kind.Load) at_the_greatest).counts.reads
        ≡ 1 }
    ensures half { (after_event plain_row (event.Access 0 kind.Load) at_the_half).counts.accesses
        ≡ 9223372036854775808 }
{}

/// The blocks of a command follow one another by their size.
#[tactic(auto, unfolding(xl_model::specs::Computing::computing))]
pub fn blocks_of_a_command()
    ensures { events_from map_of_block 0 3 ≡
        Command (event.Map 0 2097152 order.M2 perm_r__u) ∷ Command
        (event.Map 0 4194304 order.M2 perm_r__u)
        ∷ Command (event.Map 0 6291456 order.M2 perm_r__u) ∷ [] }
{}
