//! The form of the program for several harts: its script and its trace are served to harts that
//! share one table.
#![tactic(auto)]

mod ending;
mod events;
mod form;
mod orders;
mod reading;
mod running;

pub use form::Harting;
pub use orders::HartOrders;
pub use running::report;
