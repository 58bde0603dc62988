//! Leaves that go.

ghost use Rattle.std.specs.Prelude.{◌≡◌};
ghost use Rattle.xl_model.specs.Changes.{Remove, IsNamed};
ghost use Rattle.xl_model.specs.Structures.{IsChange};
ghost use Rattle.xl_cuckoo_walk.specs.Parts.{IsRow, HoldsLeaves, row_state, ways_in, leaves_of_ways};
ghost use Rattle.xl_cuckoo_walk.specs.Changes.{IsLeft};

use crate::parts::Parts;
use crate::purge::refresh_leaf;
use crate::tables::take;
use crate::work::cached;
use xl_model::{Order, Refused, Work};
use xl_pte::words_read_back;
use xl_sections::{drop_leaf, section};

/// Takes a leaf out of the table of its order, and counts it no longer. The caches stay as they
/// are.
pub(crate) fn leave<const D: usize>(parts: &mut Parts<D>, space: u16, first: u64, order: Order)
    requires holds { HoldsLeaves parts.old (leaves_of_ways (ways_in parts.old)) }
    requires named { IsNamed space first order (leaves_of_ways (ways_in parts.old)) }
    ensures { IsLeft space first order parts.old parts.new }
{
    words_read_back();
    take(parts, order, section(space, first, order));
    drop_leaf(&mut parts.middle, Order::M2, space, first, order);
    drop_leaf(&mut parts.large, Order::G1, space, first, order);
}

/// Drops a leaf that is there.
pub(crate) fn remove_leaf<const D: usize>(
    parts: &mut Parts<D>,
    space: u16,
    first: u64,
    order: Order,
) -> Result<Work, Refused>
    requires whole { IsRow parts.old }
    requires named { IsNamed space first order (row_state parts.old).leaves }
    ensures whole { IsRow parts.new }
    ensures changes { IsChange (Remove space first order) (row_state parts.old) result
        (row_state parts.new) }
{
    words_read_back();
    let before = cached(parts);
    leave(parts, space, first, order);
    refresh_leaf(parts, space, first);
    Ok(Work {
        invalidated: before - cached(parts),
        ..Work::none()
    })
}
