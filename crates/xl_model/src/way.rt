//! The registers and the entries of one way of an elastic cuckoo table (Skarlatos and others,
//! 2020).

/// The registers of a way: it has `2^s` slots, of which those below the rehash pointer `p` are
/// already in their places of `2^(s + 1)` slots while the way is growing.
#[derive(Clone, Copy)]
pub struct WayRegs {
    pub s: u8,
    pub p: u32,
    pub growing: bool,
}

/// A key with the leaf word that is kept for it; a slot whose word is 0 is empty.
#[derive(Clone, Copy)]
pub struct Entry {
    pub key: u64,
    pub word: u64,
}

/// What an insertion into a cuckoo table did: displacements, those that a failed attempt undid,
/// slots migrated, and growths begun.
#[derive(Clone, Copy)]
pub struct Moves {
    pub kicks: u64,
    pub undone: u64,
    pub migrated: u64,
    pub growths: u64,
}
