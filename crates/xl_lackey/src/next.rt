//! What a reader returns.

use crate::reference::Reference;

/// What a reader has next.
#[derive(Clone, Copy)]
pub enum Next {
    /// The next record.
    Found(Reference),
    /// Nothing before more bytes come.
    More,
    /// The trace has ended.
    End,
    /// The first line outside the grammar, and the first of the reasons 1 to 6 that holds of it.
    /// Every later call returns it again.
    BadLine { line: u64, reason: u8 },
}
