//! A curve beside a machine: each event that the machine is served is followed by the curve.
#![tactic(auto)]

mod beside;
mod follow;
mod item;

pub use beside::step_beside;
pub use item::serve_beside;
