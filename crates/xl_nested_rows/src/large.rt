//! Leaves of 2 MiB and of 1 GiB.

ghost use Rattle.std.specs.Prelude.{◌≡◌};
ghost use Rattle.xl_nested_rows.specs.Row.{counts_of, outcomes_of};
ghost use Rattle.xl_nested_rows.specs.Large.{one_2m_leaf_of_the_host_row, a_2m_leaf_of_the_guest_row, leaves_of_1g_at_both_row, a_1g_leaf_of_the_guest_over_many_row, a_1g_leaf_of_the_host_row, a_2m_leaf_of_the_guest_under_a_2m_leaf_of_the_host_row};

/// One host leaf of 2 MiB has nodes and data: all but the first translation are hits.
#[tactic(auto, unfolding(xl_model::specs::Computing::computing, xl_nested_model::specs::Computing::nested_computing))]
pub fn one_2m_leaf_of_the_host()
    ensures outcomes { outcomes_of one_2m_leaf_of_the_host_row
        ≡ one_2m_leaf_of_the_host_row.outcomes }
    ensures counts { counts_of one_2m_leaf_of_the_host_row ≡ one_2m_leaf_of_the_host_row.counts }
{}

/// A guest leaf of 2 MiB over host leaves of 4 KiB.
#[tactic(auto, unfolding(xl_model::specs::Computing::computing, xl_nested_model::specs::Computing::nested_computing))]
pub fn a_2m_leaf_of_the_guest()
    ensures outcomes { outcomes_of a_2m_leaf_of_the_guest_row
        ≡ a_2m_leaf_of_the_guest_row.outcomes }
    ensures counts { counts_of a_2m_leaf_of_the_guest_row ≡ a_2m_leaf_of_the_guest_row.counts }
{}

/// Leaves of 1 GiB at both stages.
#[tactic(auto, unfolding(xl_model::specs::Computing::computing, xl_nested_model::specs::Computing::nested_computing))]
pub fn leaves_of_1g_at_both()
    ensures outcomes { outcomes_of leaves_of_1g_at_both_row ≡ leaves_of_1g_at_both_row.outcomes }
    ensures counts { counts_of leaves_of_1g_at_both_row ≡ leaves_of_1g_at_both_row.counts }
{}

/// A guest leaf of 1 GiB over host leaves of 4 KiB, of 2 MiB, and over pages that the host has no
/// leaf for.
#[tactic(auto, unfolding(xl_model::specs::Computing::computing, xl_nested_model::specs::Computing::nested_computing))]
pub fn a_1g_leaf_of_the_guest_over_many()
    ensures outcomes { outcomes_of a_1g_leaf_of_the_guest_over_many_row
        ≡ a_1g_leaf_of_the_guest_over_many_row.outcomes }
    ensures counts { counts_of a_1g_leaf_of_the_guest_over_many_row
        ≡ a_1g_leaf_of_the_guest_over_many_row.counts }
{}

/// A host leaf of 1 GiB has the guest's nodes and its pages: a translation takes one load, and
/// later a hit.
#[tactic(auto, unfolding(xl_model::specs::Computing::computing, xl_nested_model::specs::Computing::nested_computing))]
pub fn a_1g_leaf_of_the_host()
    ensures outcomes { outcomes_of a_1g_leaf_of_the_host_row ≡ a_1g_leaf_of_the_host_row.outcomes }
    ensures counts { counts_of a_1g_leaf_of_the_host_row ≡ a_1g_leaf_of_the_host_row.counts }
{}

/// A guest leaf of 2 MiB at a host leaf of 2 MiB: two nodes, then one leaf of each stage.
#[tactic(auto, unfolding(xl_model::specs::Computing::computing, xl_nested_model::specs::Computing::nested_computing))]
pub fn a_2m_leaf_of_the_guest_under_a_2m_leaf_of_the_host()
    ensures outcomes { outcomes_of a_2m_leaf_of_the_guest_under_a_2m_leaf_of_the_host_row
        ≡ a_2m_leaf_of_the_guest_under_a_2m_leaf_of_the_host_row.outcomes }
    ensures counts { counts_of a_2m_leaf_of_the_guest_under_a_2m_leaf_of_the_host_row
        ≡ a_2m_leaf_of_the_guest_under_a_2m_leaf_of_the_host_row.counts }
{}
