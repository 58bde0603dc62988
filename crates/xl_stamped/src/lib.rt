//! A recency list (LRU) that leaves each item in its place and stamps it, under the contracts of
//! the array in `xl_recency`.
#![tactic(auto)]

mod stamped;

pub use stamped::Ways;
