//! Memory traces of Valgrind's tool Lackey (`--trace-mem=yes`), read in pieces of any size.
#![tactic(auto)]

mod access;
mod batch;
mod digits;
mod fault;
mod front;
mod line;
mod near;
mod next;
mod prefixes;
mod reader;
mod reference;
mod scan;
mod skim;

pub use access::{nth_access, sole_access};
pub use batch::Batch;
pub use next::Next;
pub use reader::Reader;
pub use reference::{Letter, Reference};
pub use skim::{Access, has_room, put_accesses};
