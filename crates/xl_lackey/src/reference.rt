//! A reference to memory.

ghost use Rattle.std.specs.Prelude.{ℕ, ◌+◌, ◌^◌, ◌≤◌, max};

/// What a line of the trace begins with: an instruction fetch, a load, a store, or a modify, which
/// is a load and then a store at the same place.
#[derive(Clone, Copy)]
pub enum Letter {
    I,
    L,
    S,
    M,
}

/// A reference: `size` bytes from the address `addr` on, and at least one, by the line of this
/// number.
#[derive(Clone, Copy)]
pub struct Reference {
    pub letter: Letter,
    pub addr: u64,
    pub size: u32,
    /// Lines are numbered from 1, modulo 2^64.
    pub line: u64,
    pub ghost small: { size ≤ 65536 },
    pub ghost in_memory: { addr + max size 1 ≤ 2 ^ 64 },
}
