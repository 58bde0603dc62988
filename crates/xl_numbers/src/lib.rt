//! Numbers of which the lowest free one is handed out, in as many steps whatever their count.
#![tactic(auto)]

mod bits;
mod free;

pub use free::FreeNumbers;
