//! The result of a look at a way.

/// The result of a look for a key.
#[derive(Clone, Copy)]
pub enum Look {
    /// The word that is kept for the key.
    Found(u64),
    /// The key isn't held.
    Absent,
    /// The line of the key's slot isn't there.
    OutOfBus,
}
