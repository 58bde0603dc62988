//! Two-stage translation (RISC-V Privileged manual, hypervisor extension): the types and the
//! definitions of a guest with Sv39 tables, the VS-stage, over a host with Sv39x4 tables, the
//! G-stage.
#![tactic(auto)]

mod code;
mod nest;
mod tally;

pub use code::{guest_code, nest_code};
pub use nest::{Nest, NestCounts, NestEvent, NestOutcome, NestRefusal, NestReply};
