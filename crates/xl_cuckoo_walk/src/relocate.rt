//! Leaves that move.

ghost use Rattle.std.specs.Prelude.{◌≡◌, false};
ghost use Rattle.xl_model.specs.Changes.{Relocate, IsNamed};
ghost use Rattle.xl_model.specs.Mapping.{meets_any};
ghost use Rattle.xl_model.specs.Structures.{IsBlock, IsChange};
ghost use Rattle.xl_cuckoo_walk.specs.Parts.{IsRow, row_state};

use crate::insert::enter;
use crate::look::leaf_of_page;
use crate::parts::Parts;
use crate::purge::{refresh_displaced, refresh_leaf};
use crate::remove::leave;
use crate::work::{cached, work};
use xl_model::{Leaf, Order, Refused, Work};
use xl_pte::words_read_back;

/// Moves a leaf to a block that no leaf overlaps: it enters there before it leaves its old place,
/// and then cached sections are compared.
pub(crate) fn relocate_leaf<const D: usize>(
    parts: &mut Parts<D>,
    space: u16,
    first: u64,
    to: u64,
    order: Order,
) -> Result<Work, Refused>
    requires whole { IsRow parts.old }
    requires named { IsNamed space first order (row_state parts.old).leaves }
    requires block { IsBlock (row_state parts.old).shape space to order }
    requires free { meets_any space to order (row_state parts.old).leaves ≡ false }
    ensures whole { IsRow parts.new }
    ensures changes { IsChange (Relocate space first to order) (row_state parts.old) result
        (row_state parts.new) }
{
    words_read_back();
    let before = cached(parts);
    match leaf_of_page(parts, space, first) {
        None => unreachable!(),
        Some(old) => match enter(parts, Leaf { first: to, ..old }) {
            Err(refused) => Err(refused),
            Ok(moves) => {
                leave(parts, space, first, order);
                refresh_displaced(parts, order);
                refresh_leaf(parts, space, to);
                refresh_leaf(parts, space, first);
                Ok(work(moves, before - cached(parts)))
            }
        },
    }
}
