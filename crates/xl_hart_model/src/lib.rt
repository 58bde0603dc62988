//! Several harts over one table: the types that the crates of this form speak of, and the
//! definitions that their contracts cite, in `specs/`.
#![tactic(auto)]

mod hart;
mod tally;

pub use hart::{AllCounts, HartCounts, HartEvent, HartOutcome, HartRefusal, HartSpec, Request};
