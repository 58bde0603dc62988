//! Reports worked out by hand or by other programs, each proved to be what the definitions give. No
//! function here does anything: each is there for its clause, which is proved by computation.
#![tactic(auto)]

pub mod accesses;
pub mod by_hand_arrays;
pub mod by_hand_chains;
pub mod by_hand_commands;
pub mod by_hand_details;
pub mod by_hand_edges;
pub mod by_hand_nodes;
pub mod by_hand_purges;
pub mod by_hand_ranges;
pub mod by_hand_serves;
pub mod by_hand_ways;
pub mod chains;
pub mod commands;
pub mod cuckoo;
pub mod radix;
pub mod ranges;
pub mod tlbs;
