//! A script that is served over a trace, in any form of the program: the order in which commands
//! and accesses are served, the end of the report, and how the run ends.
#![tactic(auto)]

mod form;
mod running;
mod serving;
mod source;
mod status;
mod stop;

pub use form::{Form, Orders, Step};
pub use running::{report, report_end};
pub use serving::serve;
pub use source::{Numbered, Source};
pub use status::Status;
pub use stop::Stop;
