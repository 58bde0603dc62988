//! A treap of ranges in words (Seidel and Aragon, 1996), with hashes of keys as priorities.
#![tactic(auto)]

mod along;
mod beside;
mod descent;
mod joining;
mod node;
mod own_search;
mod parting;
mod treap;

pub use along::Search;
pub use treap::{Neighbours, Treap};
