//! Walks through both stages, and the verdicts.

ghost use Rattle.std.specs.Prelude.{◌≡◌};
ghost use Rattle.xl_nested_rows.specs.Row.{counts_of, outcomes_of};
ghost use Rattle.xl_nested_rows.specs.Walks.{walks_of_both_row, store_denied_by_the_host_row, store_denied_over_a_1g_leaf_row, node_not_loadable_row, no_root_row, a_node_number_again_row, denied_by_the_guest_row, across_two_spaces_row, a_fault_at_each_node_row, a_nodes_page_at_another_frame_row, two_pages_at_one_guest_page_row, all_four_roots_of_the_host_row};

/// Fifteen loads: three nodes, each of them three loads of the host's table and one of the guest's,
/// and three for the page itself.
#[tactic(auto, unfolding(xl_model::specs::Computing::computing, xl_nested_model::specs::Computing::nested_computing))]
pub fn walks_of_both()
    ensures outcomes { outcomes_of walks_of_both_row ≡ walks_of_both_row.outcomes }
    ensures counts { counts_of walks_of_both_row ≡ walks_of_both_row.counts }
{}

/// First the host has no leaf for the last node, then it denies the store of the page: both have
/// the code of a store's guest-page fault.
#[tactic(auto, unfolding(xl_model::specs::Computing::computing, xl_nested_model::specs::Computing::nested_computing))]
pub fn store_denied_by_the_host()
    ensures outcomes { outcomes_of store_denied_by_the_host_row
        ≡ store_denied_by_the_host_row.outcomes }
    ensures counts { counts_of store_denied_by_the_host_row ≡ store_denied_by_the_host_row.counts }
{}

/// A store that the guest allows and the host denies; a fetch that the guest denies.
#[tactic(auto, unfolding(xl_model::specs::Computing::computing, xl_nested_model::specs::Computing::nested_computing))]
pub fn store_denied_over_a_1g_leaf()
    ensures outcomes { outcomes_of store_denied_over_a_1g_leaf_row
        ≡ store_denied_over_a_1g_leaf_row.outcomes }
    ensures counts { counts_of store_denied_over_a_1g_leaf_row
        ≡ store_denied_over_a_1g_leaf_row.counts }
{}

/// A node whose page the host doesn't let be loaded: a guest-page fault with the access's code.
#[tactic(auto, unfolding(xl_model::specs::Computing::computing, xl_nested_model::specs::Computing::nested_computing))]
pub fn node_not_loadable()
    ensures outcomes { outcomes_of node_not_loadable_row ≡ node_not_loadable_row.outcomes }
    ensures counts { counts_of node_not_loadable_row ≡ node_not_loadable_row.counts }
{}

/// The host has no leaf for the guest's root: the walk ends there.
#[tactic(auto, unfolding(xl_model::specs::Computing::computing, xl_nested_model::specs::Computing::nested_computing))]
pub fn no_root()
    ensures outcomes { outcomes_of no_root_row ≡ no_root_row.outcomes }
    ensures counts { counts_of no_root_row ≡ no_root_row.counts }
{}

/// A node's number is taken again, and so its guest page.
#[tactic(auto, unfolding(xl_model::specs::Computing::computing, xl_nested_model::specs::Computing::nested_computing))]
pub fn a_node_number_again()
    ensures outcomes { outcomes_of a_node_number_again_row ≡ a_node_number_again_row.outcomes }
    ensures counts { counts_of a_node_number_again_row ≡ a_node_number_again_row.counts }
{}

/// The guest denies by its permission, and the host isn't asked for the page.
#[tactic(auto, unfolding(xl_model::specs::Computing::computing, xl_nested_model::specs::Computing::nested_computing))]
pub fn denied_by_the_guest()
    ensures outcomes { outcomes_of denied_by_the_guest_row ≡ denied_by_the_guest_row.outcomes }
    ensures counts { counts_of denied_by_the_guest_row ≡ denied_by_the_guest_row.counts }
{}

/// Guest pages on both sides of 2^27, which are pages of two of the host's roots.
#[tactic(auto, unfolding(xl_model::specs::Computing::computing, xl_nested_model::specs::Computing::nested_computing))]
pub fn across_two_spaces()
    ensures outcomes { outcomes_of across_two_spaces_row ≡ across_two_spaces_row.outcomes }
    ensures counts { counts_of across_two_spaces_row ≡ across_two_spaces_row.counts }
{}

/// The host unmaps the guest's root, the node of level 1, that of level 0, and the page itself: the
/// walk ends earlier each time, with the access's code.
#[tactic(auto, unfolding(xl_model::specs::Computing::computing, xl_nested_model::specs::Computing::nested_computing))]
pub fn a_fault_at_each_node()
    ensures outcomes { outcomes_of a_fault_at_each_node_row ≡ a_fault_at_each_node_row.outcomes }
    ensures counts { counts_of a_fault_at_each_node_row ≡ a_fault_at_each_node_row.counts }
{}

/// A node's page is unmapped and then mapped to another frame: the guest's words are as before.
#[tactic(auto, unfolding(xl_model::specs::Computing::computing, xl_nested_model::specs::Computing::nested_computing))]
pub fn a_nodes_page_at_another_frame()
    ensures outcomes { outcomes_of a_nodes_page_at_another_frame_row
        ≡ a_nodes_page_at_another_frame_row.outcomes }
    ensures counts { counts_of a_nodes_page_at_another_frame_row
        ≡ a_nodes_page_at_another_frame_row.counts }
{}

/// Two pages of the guest are mapped to one guest page, with permissions of their own.
#[tactic(auto, unfolding(xl_model::specs::Computing::computing, xl_nested_model::specs::Computing::nested_computing))]
pub fn two_pages_at_one_guest_page()
    ensures outcomes { outcomes_of two_pages_at_one_guest_page_row
        ≡ two_pages_at_one_guest_page_row.outcomes }
    ensures counts { counts_of two_pages_at_one_guest_page_row
        ≡ two_pages_at_one_guest_page_row.counts }
{}

/// A guest page under each of the host's four roots; page 0 of each is another guest page.
#[tactic(auto, unfolding(xl_model::specs::Computing::computing, xl_nested_model::specs::Computing::nested_computing))]
pub fn all_four_roots_of_the_host()
    ensures outcomes { outcomes_of all_four_roots_of_the_host_row
        ≡ all_four_roots_of_the_host_row.outcomes }
    ensures counts { counts_of all_four_roots_of_the_host_row
        ≡ all_four_roots_of_the_host_row.counts }
{}
