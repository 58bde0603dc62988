//! The script of harts: its head, which has the limits, and its commands.
#![tactic(auto)]

mod command;
mod head;
mod lines;
mod reader;
mod script;

pub use command::HartCommand;
pub use script::{HartScript, parse_harts};
