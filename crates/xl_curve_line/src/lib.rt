//! The line of a row's curve.
#![tactic(auto)]

mod line;

pub use line::write_curve;
