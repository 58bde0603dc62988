//! Counts of harts after events, by another program.

ghost use Rattle.std.specs.Prelude.{◌≡◌};
ghost use Rattle.xl_hart_rows.specs.Rows.{figures, an_older_mapping_spec, an_older_mapping_events, an_older_mapping_figures, a_frame_held_back_spec, a_frame_held_back_events, a_frame_held_back_figures};

/// A hart reads by an older mapping; the frame is free again once both have taken the unmap.
#[tactic(auto, unfolding(xl_hart_model::specs::Computing::hart_computing))]
pub fn an_older_mapping()
    ensures { figures an_older_mapping_spec an_older_mapping_events ≡ an_older_mapping_figures }
{}

/// A map is refused while the one frame is held back.
#[tactic(auto, unfolding(xl_hart_model::specs::Computing::hart_computing))]
pub fn a_frame_held_back()
    ensures { figures a_frame_held_back_spec a_frame_held_back_events ≡ a_frame_held_back_figures }
{}
