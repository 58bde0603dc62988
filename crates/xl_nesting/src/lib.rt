//! The form of the program for two-stage translation: its script and its trace are served to a
//! guest over a host.
#![tactic(auto)]

mod events;
mod form;
mod orders;
mod reading;
mod running;

pub use form::Nesting;
pub use orders::NestOrders;
pub use running::report;
