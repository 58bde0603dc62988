//! Elastic cuckoo tables (Skarlatos and others, 2020) of two, three or four ways.
#![tactic(auto)]

mod attempt;
mod changing;
mod cuckoo;
mod growing;
mod growth;
mod moved;
mod placing;
mod reading;
mod settling;
mod ways;

pub use cuckoo::Cuckoo;
pub use moved::{Moved, WayAtCap};
