//! The plain form of the program: rows that are served a script over a trace, and the traces that
//! are read while they are replayed. The rows are whatever is served.
#![tactic(auto)]

mod batch;
mod ending;
mod events;
pub mod laws;
mod made;
mod opening;
mod plain;
mod rows;
mod running;
mod stop;
mod tape;
mod trace;

pub use batch::BatchedEvent;
pub use ending::write_end;
pub use events::{count, nth_event};
pub use made::MadeTape;
pub use opening::open;
pub use plain::{Bench, End, PlainOrders};
pub use rows::Rows;
pub use running::report;
pub use stop::{script_stop, words_stop};
pub use trace::{NoTrace, TraceFile};
