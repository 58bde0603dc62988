//! The walk of a radix table over a bus, and the row of a radix table with its walk caches.
#![tactic(auto)]

mod caches;
mod find;
mod quick;
mod row;
mod step;
mod walk_caches;
mod walker;

pub use find::{find_leaf, find_word};
pub use quick::pointed;
pub use row::RadixRow;
pub use walker::walk;
pub use xl_radix::WalkEnd;
