//! The lines of a guest over a host: one for each access, and the counts.
#![tactic(auto)]

mod access;
mod counts;

pub use access::write_nest;
pub use counts::write_nest_counts;
