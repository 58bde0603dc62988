//! What a change cost.

ghost use Rattle.std.specs.Prelude.{◌≡◌, ◌+◌, ◌≤◌, length};
ghost use Rattle.xl_model.specs.Structures.{work_of};
ghost use Rattle.xl_model.specs.declared.work.NoRoom.TheVariants as why;

use crate::parts::Parts;
use xl_cuckoo::WayAtCap;
use xl_model::{Moves, NoRoom, Refused, Work};

/// What an insertion did, with the number of cached sections that left.
pub(crate) fn work(moves: Moves, invalidated: u64) -> Work
    ensures { result ≡ work_of moves invalidated }
{
    Work {
        kicks: moves.kicks,
        undone: moves.undone,
        migrated: moves.migrated,
        growths: moves.growths,
        invalidated,
    }
}

/// The result for a leaf for which no way may grow.
pub(crate) fn no_place(full: WayAtCap) -> Refused
    ensures { result ≡ record { why = why.WayAtCap; work = work_of full.moves 0 } }
{
    Refused {
        why: NoRoom::WayAtCap,
        work: work(full.moves, 0),
    }
}

/// How many sections are cached.
pub(crate) fn cached<const D: usize>(parts: &Parts<D>) -> u64
    ensures is { result
        ≡ length parts.now.middle.cache.items + length parts.now.large.cache.items }
    ensures few { result ≤ 128 }
{
    (parts.middle_cache.len() + parts.large_cache.len()) as u64
}
