//! Memory of 64-bit words that is read by lines of four words, where each load counts.
#![tactic(auto)]

mod bus;
mod memory;

pub use bus::{Bus, line_of, word_of};
pub use memory::PhysMem;
