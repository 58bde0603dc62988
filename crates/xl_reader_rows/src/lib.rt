//! Lines of a trace, lines of a script and keys of a configuration, at, below and above their
//! limits, each worked out by hand and proved to be read so by the definitions. No function here
//! does anything: each is there for its clauses, which are proved by computation.
#![tactic(auto)]

pub mod configs;
pub mod scripts;
pub mod traces;
