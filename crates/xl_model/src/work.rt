//! What a table returns to the machine above it.

ghost use Rattle.std.specs.Prelude.{◌≡◌};
ghost use Rattle.xl_model.specs.Placing.{no_moves};
ghost use Rattle.xl_model.specs.Structures.{work_of};

use crate::leaf::Leaf;
use std::alloc::AllocError;

/// There is no memory.
#[derive(Clone, Copy, Debug)]
pub struct NoMemory;

impl From<AllocError> for NoMemory {
    ghost from_gives = { λ _ _. Unit {0} };

    fn from(_error: AllocError) -> NoMemory {
        NoMemory
    }
}

/// A radix table has no free node.
#[derive(Clone, Copy)]
pub struct NoTable;

/// A table holds as many entries as it can.
#[derive(Clone, Copy)]
pub struct Full;

/// Why a table takes no leaf: it has no room, or every way of a cuckoo table is at its cap.
#[derive(Clone, Copy)]
pub enum NoRoom {
    NoTable,
    WayAtCap,
}

/// What a command cost in the table: displacements, those undone, slots migrated, growths begun
/// (cuckoo tables), and cache entries purged.
#[derive(Clone, Copy)]
pub struct Work {
    pub kicks: u64,
    pub undone: u64,
    pub migrated: u64,
    pub growths: u64,
    pub invalidated: u64,
}

impl Work {
    /// No work at all.
    pub fn none() -> Work
        ensures { result ≡ work_of no_moves 0 }
    {
        Work {
            kicks: 0,
            undone: 0,
            migrated: 0,
            growths: 0,
            invalidated: 0,
        }
    }
}

/// A refused command, with what was done before the refusal.
#[derive(Clone, Copy)]
pub struct Refused {
    pub why: NoRoom,
    pub work: Work,
}

/// What a walk found, and how many walk caches hit.
#[derive(Clone, Copy)]
pub struct Walk {
    pub leaf: Option<Leaf>,
    pub cache_hits: u64,
}

/// What a walk of a page found, where a leaf of 4 KiB may be returned as its word: its frame (times
/// 16) and its permission (four bits: read, write, execute, user).
#[derive(Clone, Copy)]
pub enum PageWalk {
    Small { word: u64, cache_hits: u64 },
    Any { walk: Walk },
}
