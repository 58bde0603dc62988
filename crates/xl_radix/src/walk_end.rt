//! What a walk over words ends with.

ghost use Rattle.std.specs.Prelude.{◌≡◌};

use xl_model::Perm;

/// The end of the manual's walk, with the level at which it came.
#[derive(Clone, Copy)]
pub enum WalkEnd {
    /// A leaf of this level, from this frame on.
    Leaf {
        level: usize,
        frame: u64,
        perm: Perm,
    },
    /// Nothing is there.
    Invalid {
        level: usize,
    },
    /// A reserved word.
    Reserved {
        level: usize,
    },
    /// A leaf whose frame isn't a multiple of its size.
    Misaligned {
        level: usize,
    },
    /// The word's line isn't all there.
    OutOfBus {
        level: usize,
    },
}

impl WalkEnd {
    ghost use Rattle.xl_radix.specs.Walk.{end_of};

    /// The level at which the walk ended.
    pub fn level(&self) -> usize
        ensures { result ≡ end_of self.now }
    {
        match *self {
            WalkEnd::Leaf { level, .. }
            | WalkEnd::Invalid { level }
            | WalkEnd::Reserved { level }
            | WalkEnd::Misaligned { level }
            | WalkEnd::OutOfBus { level } => level,
        }
    }
}
