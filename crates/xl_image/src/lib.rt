//! The words of radix tables as lines, as the tables hold them.
#![tactic(auto)]

mod table;

pub use table::write_table;
