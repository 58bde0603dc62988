//! Radix tables: nodes of 512 PTE words, 3, 4 or 5 levels (RISC-V Privileged manual, Sv39, Sv48 and
//! Sv57). The table is its own memory: what a walk over its words finds are its leaves.
#![tactic(auto)]

mod lazy;
mod node;
pub mod numbering;
mod radix;
mod store;
mod walk_end;

pub use node::Node;
pub use radix::Radix;
pub use store::{block_of, index_of, leaf_of};
pub use walk_end::WalkEnd;
