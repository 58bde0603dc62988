//! The log of an insertion.

use xl_model::Moves;

/// A displaced key, and the number of the way to which it went.
#[derive(Clone, Copy, Default)]
pub struct Moved {
    pub key: u64,
    pub way: u64,
}

/// An insertion failed, and every way is as large as it may grow. What was done before stays done.
#[derive(Clone, Copy)]
pub struct WayAtCap {
    pub moves: Moves,
}
