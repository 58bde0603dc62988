//! What the forms of the program share whose words name a script and a trace, each in a file of its
//! own: the script opens what is served, and is served over the trace.
#![tactic(auto)]

mod parser;

pub use parser::{Parser, read_script};
