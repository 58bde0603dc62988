//! One TLB array.
#![tactic(auto)]

mod any;
mod array;
mod coding;
mod lookup;
mod places;

pub use any::{AnyArray, with_order};
pub use array::{Array, Filled};
pub use coding::{Hit, block_start, hit_of, page_word, word_of};
pub use lookup::Lookup;
