//! The made workload: a trace and a script that are made from the words of a generator, for runs
//! that want no file.
#![tactic(auto)]

mod digits;
mod record;
mod script;
mod trace;

pub use script::made_script;
pub use trace::MadeTrace;
