//! The row of elastic cuckoo tables (Skarlatos and others, 2020): a table for each order, and
//! cuckoo walk caches of sections.
#![tactic(auto)]

mod cache;
mod coding;
mod fence;
mod fill;
mod insert;
mod look;
mod parts;
mod plan;
mod probe;
mod protect;
mod purge;
mod relocate;
mod remove;
mod row;
mod sole;
mod tables;
mod walk;
mod work;

pub use row::CuckooRow;
