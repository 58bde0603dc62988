//! Fences.

ghost use Rattle.xl_model.specs.Structures.{IsFence};
ghost use Rattle.xl_cuckoo_walk.specs.Parts.{IsRow, row_state};

use crate::parts::Parts;
use xl_model::Reach;

/// Removes what a fence reaches. Returns how many sections it removed.
pub(crate) fn fence_parts<const D: usize>(parts: &mut Parts<D>, reach: Reach) -> u64
    requires whole { IsRow parts.old }
    ensures whole { IsRow parts.new }
    ensures fences { IsFence reach (row_state parts.old) result (row_state parts.new) }
{
    let middle = parts.middle_cache.fence(reach);
    let large = parts.large_cache.fence(reach);
    middle + large
}
