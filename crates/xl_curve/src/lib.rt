//! Hit curves: how often a TLB array is hit at each width from 1 to 64, found in one pass over the
//! accesses (Mattson and others, 1970). One list of places per set represents the lists of all
//! widths.
#![tactic(auto)]

mod curve;
mod kernel;
mod place;
mod purge;
mod sets;
mod stack;

pub use curve::Curve;
