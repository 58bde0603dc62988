//! The rows of a configuration, read from TOML.
#![tactic(auto)]

mod arrays;
mod fault;
mod keys;
mod kind;
mod rows;
mod tables;

pub use fault::ConfigFault;
pub use rows::read;
