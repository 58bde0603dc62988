//! Several harts over one Sv39 radix table. Each has a TLB array of its own, and takes the requests
//! of remote fences (TLB shootdowns) in its own time.
#![tactic(auto)]

mod access;
mod change;
mod hart;
mod harts;
mod queue;
mod refusal;
mod reply;
mod step;
mod take;

pub use harts::Harts;
pub use xl_hart_model::{AllCounts, HartCounts, HartEvent, HartOutcome, HartRefusal, HartSpec};
