//! The table of ranges: the maximal runs of its leaves in a treap, with a TLB of ranges.
#![tactic(auto)]

mod changes;
mod neighbours;
mod pieces;
mod range_coding;
mod range_list;
mod range_tlb;
mod ranges;

pub use ranges::Ranges;
