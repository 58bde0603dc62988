//! The machines of all rows: up to sixteen, each over the table that its row names. An item is
//! served by one after another.
#![tactic(auto)]

mod answer;
mod batch;
mod beside;
mod image;
mod object;
mod rack;
mod rows;
mod slot;
mod work;

pub use rack::Rack;
pub use slot::Slot;
