//! A plain table: the leaves of a mapping in one `Vec`, in the order of the chains of a hashed
//! table. It serves the calls of every table, and shows how little those need.
#![tactic(auto)]

mod kept;
mod plain;

pub use plain::ListTable;
