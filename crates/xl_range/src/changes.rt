//! The changes of a table of ranges, on its treap: each is made whole, or leaves the treap as it
//! was.

ghost use Rattle.std.specs.Prelude.{◌≡◌, false};
ghost use Rattle.xl_model.specs.Changes.{Insert, Remove, Protect, Relocate, IsNamed};
ghost use Rattle.xl_model.specs.Mapping.{meets_any};
ghost use Rattle.xl_model.specs.Shapes.{Runs};
ghost use Rattle.xl_model.specs.Structures.{IsBlock, IsLeafFor};
ghost use Rattle.xl_range.specs.HeldRanges.{spread};
ghost use Rattle.xl_range.specs.Rows.{IsTable, IsDone};

use crate::neighbours::put_within;
use crate::pieces::{cut, cut_within, leaf_in, range_with};
use xl_model::{Leaf, Order, Perm};
use xl_treap::Treap;

/// Adds a leaf that overlaps no other.
pub(crate) fn add(treap: &mut Treap, ranges: u32, leaf: Leaf) -> bool
    requires whole { IsTable ranges treap.old.seen }
    requires valid { IsLeafFor (Runs ranges) leaf }
    requires free { meets_any leaf.space leaf.first leaf.order (spread treap.old.seen.kept) ≡
        false }
    ensures { IsDone (Insert leaf) ranges treap.old.seen result treap.new.seen }
{
    put_within(treap, leaf, ranges)
}

/// Takes out a leaf that is there.
pub(crate) fn take_out(treap: &mut Treap, ranges: u32, space: u16, first: u64, order: Order) -> bool
    requires whole { IsTable ranges treap.old.seen }
    requires named { IsNamed space first order (spread treap.old.seen.kept) }
    ensures { IsDone (Remove space first order) ranges treap.old.seen result
        treap.new.seen }
{
    let range = range_with(treap, space, first, order);
    cut_within(treap, &range, first, order, ranges)
}

/// Gives a leaf that is there another permission: it is cut out and put in again, or put back.
pub(crate) fn set_perm(
    treap: &mut Treap,
    ranges: u32,
    space: u16,
    first: u64,
    order: Order,
    perm: Perm,
) -> bool
    requires whole { IsTable ranges treap.old.seen }
    requires named { IsNamed space first order (spread treap.old.seen.kept) }
    ensures { IsDone (Protect space first order perm) ranges treap.old.seen result
        treap.new.seen }
{
    let range = range_with(treap, space, first, order);
    let old = leaf_in(&range, first);
    cut(treap, &range, first, order);
    let made = put_within(treap, Leaf { perm, ..old }, ranges);
    if !made {
        put_within(treap, old, ranges);
    }
    made
}

/// Moves a leaf that is there to the page `to`, where no leaf overlaps it: the new leaf is put in
/// before the old one is cut out. Where there is no room without the old one, the new one is cut
/// out again.
pub(crate) fn move_to(
    treap: &mut Treap,
    ranges: u32,
    space: u16,
    first: u64,
    to: u64,
    order: Order,
) -> bool
    requires whole { IsTable ranges treap.old.seen }
    requires named { IsNamed space first order (spread treap.old.seen.kept) }
    requires block { IsBlock (Runs ranges) space to order }
    requires free { meets_any space to order (spread treap.old.seen.kept) ≡ false }
    ensures { IsDone (Relocate space first to order) ranges treap.old.seen result
        treap.new.seen }
{
    let old = leaf_in(&range_with(treap, space, first, order), first);
    if !put_within(treap, Leaf { first: to, ..old }, ranges) {
        return false;
    }
    let range = range_with(treap, space, first, order);
    let made = cut_within(treap, &range, first, order, ranges);
    if !made {
        let range = range_with(treap, space, to, order);
        cut(treap, &range, to, order);
    }
    made
}
