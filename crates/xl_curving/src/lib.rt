//! Hit curves as a form of the program: rows that are served a script over a trace, while a curve
//! follows each.
#![tactic(auto)]

mod curving;
mod orders;
mod running;

pub use curving::Curving;
pub use orders::CurveOrders;
pub use running::report;
