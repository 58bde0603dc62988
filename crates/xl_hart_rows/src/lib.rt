//! Worked rows of harts. No function here does anything: each is there for its clause, which says
//! what the definitions count after some events.
#![tactic(auto)]

pub mod counted;
pub mod rows;
