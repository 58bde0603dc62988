//! One way of an elastic cuckoo table (Skarlatos and others, 2020), in words of memory: a key has
//! one slot, and the way grows slot by slot, after a rehash pointer.
#![tactic(auto)]

mod cells;
mod found;
mod place;
mod places;
mod reading;
mod way;

pub use found::Look;
pub use place::slot;
pub use reading::look;
pub use way::Way;
