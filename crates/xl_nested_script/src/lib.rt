//! The script of a guest over a host: its head, which has the sizes, and its commands.
#![tactic(auto)]

mod command;
mod head;
mod lines;
mod reader;
mod script;

pub use command::NestCommand;
pub use script::{NestScript, parse_nest};
