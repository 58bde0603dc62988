//! Two-stage translation: a guest with Sv39 tables, the VS-stage, over a host with Sv39x4 tables,
//! the G-stage (RISC-V Privileged manual, hypervisor extension).
#![tactic(auto)]

mod block;
mod commands;
mod front_cache;
mod g_cache;
mod guest;
mod host;
mod leaf;
mod nested;
mod stage;

pub use nested::Nested;
pub use xl_nested_model::{
    Nest, NestCounts, NestEvent, NestOutcome, NestRefusal, NestReply, nest_code,
};
