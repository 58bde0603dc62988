//! Leaves under tags in chains: what hashed and clustered tables have in common. A tag is that of
//! consecutive pages of one order (one, or sixteen after Talluri, Hill and Khalidi, 1995), each of
//! which has a slot of its own for its leaf word. The search for a page's leaf goes over slots of
//! either form, and the table over any grouping of pages under tags.
#![tactic(auto)]

mod grouped;
mod grouping;
mod place;
mod search;
mod slots;
mod smaller;
mod steps;

pub use grouped::Grouped;
pub use grouping::Grouping;
pub use place::{full_table, give_perm, leaf_read, slot_of, small_read, tag_of};
pub use search::{look, look_all, look_from, walk_all};
pub use slots::Slots;
pub use smaller::Smaller;
