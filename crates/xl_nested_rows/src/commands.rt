//! Commands, and their refusals in order.

ghost use Rattle.std.specs.Prelude.{◌≡◌, None, Some};
ghost use Rattle.xl_model.specs.declared.address.Kind.TheVariants as kind;
ghost use Rattle.xl_nested_model.specs.declared.nest.NestReply.TheVariants as nest;
ghost use Rattle.xl_nested_model.specs.Stages.{nest_code_of};
ghost use Rattle.xl_nested_rows.specs.Row.{counts_of, outcomes_of};
ghost use Rattle.xl_nested_rows.specs.Commands.{six_refusals_row, the_first_refusal_of_a_gmap_row, the_first_refusal_of_a_vmap_row, the_first_refusal_of_an_unmap_row, four_host_nodes_take_1g_alone_row, nodes_are_given_back_row, high_guest_addresses_row};

/// Each of the six refusals, and the codes of faults.
#[tactic(auto, unfolding(xl_model::specs::Computing::computing, xl_nested_model::specs::Computing::nested_computing))]
pub fn six_refusals()
    ensures outcomes { outcomes_of six_refusals_row ≡ six_refusals_row.outcomes }
    ensures counts { counts_of six_refusals_row ≡ six_refusals_row.counts }
{}

/// GMAP: each refusal is given where those after it hold too.
#[tactic(auto, unfolding(xl_model::specs::Computing::computing, xl_nested_model::specs::Computing::nested_computing))]
pub fn the_first_refusal_of_a_gmap()
    ensures outcomes { outcomes_of the_first_refusal_of_a_gmap_row
        ≡ the_first_refusal_of_a_gmap_row.outcomes }
    ensures counts { counts_of the_first_refusal_of_a_gmap_row
        ≡ the_first_refusal_of_a_gmap_row.counts }
{}

/// VMAP: either address is tested, 1 of both before 2 of both, then the leaves, then the nodes.
#[tactic(auto, unfolding(xl_model::specs::Computing::computing, xl_nested_model::specs::Computing::nested_computing))]
pub fn the_first_refusal_of_a_vmap()
    ensures outcomes { outcomes_of the_first_refusal_of_a_vmap_row
        ≡ the_first_refusal_of_a_vmap_row.outcomes }
    ensures counts { counts_of the_first_refusal_of_a_vmap_row
        ≡ the_first_refusal_of_a_vmap_row.counts }
{}

/// Both unmaps: an address out of range, one not aligned, then no such leaf; a leaf of another size
/// isn't the one named.
#[tactic(auto, unfolding(xl_model::specs::Computing::computing, xl_nested_model::specs::Computing::nested_computing))]
pub fn the_first_refusal_of_an_unmap()
    ensures outcomes { outcomes_of the_first_refusal_of_an_unmap_row
        ≡ the_first_refusal_of_an_unmap_row.outcomes }
    ensures counts { counts_of the_first_refusal_of_an_unmap_row
        ≡ the_first_refusal_of_an_unmap_row.counts }
{}

/// The four roots count among the host's nodes: with four of them only leaves of 1 GiB have room.
#[tactic(auto, unfolding(xl_model::specs::Computing::computing, xl_nested_model::specs::Computing::nested_computing))]
pub fn four_host_nodes_take_1g_alone()
    ensures outcomes { outcomes_of four_host_nodes_take_1g_alone_row
        ≡ four_host_nodes_take_1g_alone_row.outcomes }
    ensures counts { counts_of four_host_nodes_take_1g_alone_row
        ≡ four_host_nodes_take_1g_alone_row.counts }
{}

/// An unmap gives the stage's nodes back, at either stage.
#[tactic(auto, unfolding(xl_model::specs::Computing::computing, xl_nested_model::specs::Computing::nested_computing))]
pub fn nodes_are_given_back()
    ensures outcomes { outcomes_of nodes_are_given_back_row ≡ nodes_are_given_back_row.outcomes }
    ensures counts { counts_of nodes_are_given_back_row ≡ nodes_are_given_back_row.counts }
{}

/// GMAP and GUNMAP at addresses of a root's upper half, and of the last root.
#[tactic(auto, unfolding(xl_model::specs::Computing::computing, xl_nested_model::specs::Computing::nested_computing))]
pub fn high_guest_addresses()
    ensures outcomes { outcomes_of high_guest_addresses_row ≡ high_guest_addresses_row.outcomes }
    ensures counts { counts_of high_guest_addresses_row ≡ high_guest_addresses_row.counts }
{}

/// The codes of the manual: page faults are 12, 13 and 15, guest-page faults 20, 21 and 23.
#[tactic(auto, unfolding(xl_model::specs::Computing::computing, xl_nested_model::specs::Computing::nested_computing))]
pub fn codes_of_faults()
    ensures fetch { (nest_code_of nest.PageFault kind.Fetch ≡ Some 12)
        × (nest_code_of nest.GuestFault kind.Fetch ≡ Some 20) }
    ensures load { (nest_code_of nest.PageFault kind.Load ≡ Some 13)
        × (nest_code_of nest.GuestFault kind.Load ≡ Some 21) }
    ensures store { (nest_code_of nest.PageFault kind.Store ≡ Some 15)
        × (nest_code_of nest.GuestFault kind.Store ≡ Some 23) }
    ensures served { nest_code_of (nest.Frame 0) kind.Load ≡ None }
{}
