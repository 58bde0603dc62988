//! The lines of a report of harts: one for an access, one for a hart's counts, one for all harts
//! together.
#![tactic(auto)]

mod answer;
mod counts;

pub use answer::write_hart;
pub use counts::{write_all_counts, write_hart_counts};
