//! The workbench: the machines of a run over a script and a trace.
#![tactic(auto)]

mod bench;
mod machines;

pub use bench::run;
pub use machines::Machines;
pub use xl_course::Status;
