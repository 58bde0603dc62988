//! The words of the command line, in four forms: `--config F [--script F] [--trace F] [--make N]
//! [--answers] [--image] [--json]`; `nested --script F --trace F [--answers]`; `harts --script F
//! --trace F [--answers]`; and `curve --sets N --config F [--script F] [--trace F]`.
#![tactic(auto)]

mod commands;
mod words;

pub use words::{CurveWords, Form, Pair, Plain, Words, WordsFault, read};
