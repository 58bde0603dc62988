//! Recency lists (LRU): items with the newest first, of a width that is known when the program is
//! compiled (`Ways`) or when it runs (`Cache`), and in sets (`Sets`).
//!
//! Each keeps its items in order in an array, and moves them; sets of more than 32 items move two
//! bytes of each in its place. Contracts see the list of the items, newest first.
#![tactic(auto)]

mod cache;
mod item;
mod kernel;
mod marked;
mod marks;
mod sets;
mod ways;

pub use cache::Cache;
pub use item::{BLANK, Item};
pub use sets::Sets;
pub use ways::Ways;
