//! What a recency list holds.

/// An item of a recency list: a tag, and a word for whoever keeps the list.
#[derive(Clone, Copy, Default)]
pub struct Item {
    pub tag: u64,
    pub word: u64,
}

/// Fills unused slots.
pub const BLANK: Item = Item { tag: 0, word: 0 };
