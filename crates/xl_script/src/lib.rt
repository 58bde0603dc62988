//! The script of a run: its lines, its words and its commands.
//!
//! A script is a text of lines, each with one command, a comment or nothing. The readers of a line,
//! a word and a number are public, and so is the reader of a whole text, so that other texts of
//! this kind are read by the same rules.
#![tactic(auto)]

mod fault;
mod form;
mod lines;
mod number;
mod plain;
pub mod reading;
mod reason;
mod script;
mod text;
mod words;

pub use fault::ScriptFault;
pub use form::{Form, read_text};
pub use number::{decimal, hexadecimal};
pub use script::{Script, parse};
pub use text::{line, word};
pub use words::{order_word, perm_word};
pub use xl_model::{Area, Command};
