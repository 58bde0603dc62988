//! A line outside the grammar.

/// The number of a line outside the grammar, and why it is: the reasons 1 to 6.
#[derive(Clone, Copy)]
pub(crate) struct Fault {
    pub(crate) line: u64,
    pub(crate) reason: u8,
}
