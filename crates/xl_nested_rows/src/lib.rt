//! Worked rows of a guest over a host: outcomes and counts that another program gave or that were
//! worked out by hand, each proved to be what the definitions give. No function here does anything:
//! each is there for its clauses, which are proved by computation.
#![tactic(auto)]

pub mod caches;
pub mod commands;
pub mod large;
pub mod walks;
