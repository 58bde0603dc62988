//! The clustered table: sixteen consecutive pages of an order under one tag, in chains of words
//! (after Talluri, Hill and Khalidi, 1995).
#![tactic(auto)]

mod block;
mod clustered;
mod slots;

pub use clustered::{Clustered, Sixteens};
