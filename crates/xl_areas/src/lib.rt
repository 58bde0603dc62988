//! The areas that a script declared so far, with an index by which the first that has a page is
//! found without looking at all of them.
#![tactic(auto)]

mod areas;
mod bounds;
mod demanded;

pub use areas::Areas;
pub use demanded::map_for;
