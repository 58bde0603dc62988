//! The types that all parts of `xlate` share: addresses, leaves, commands, rows and counts.
//! The definitions that contracts cite are in `specs/`.
#![tactic(auto)]

mod address;
mod allowed;
mod event;
mod fault;
mod hash;
mod leaf;
mod leaf_word;
mod perm;
mod row;
mod script;
mod structure;
mod tally;
mod way;
mod work;

pub use address::{Kind, Mode, Order, canonical, code, page_of};
pub use allowed::{allows, word_allows};
pub use event::{Event, Outcome, Reach, Refusal, Scope};
pub use fault::InputFault;
pub use hash::{mix, remainder, way_hash};
pub use leaf::{Leaf, Range, Reply};
pub use leaf_word::{perm_code, perm_of};
pub use perm::Perm;
pub use row::{Counts, Purge, Row, Serves, Table, TlbSpec};
pub use script::{Area, Command, Item};
pub use structure::Structure;
pub use way::{Entry, Moves, WayRegs};
pub use work::{Full, NoMemory, NoRoom, NoTable, PageWalk, Refused, Walk, Work};
