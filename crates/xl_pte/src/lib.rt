//! PTE words (RISC-V Privileged manual): the words of pointers and leaves, and what a word says.
#![tactic(auto)]

mod laws;
mod word;

pub use laws::words_read_back;
pub use word::{Pte, allowed_word, decode, leaf_word, pointer, small_word};
