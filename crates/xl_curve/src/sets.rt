//! The work on the sets' lists.

ghost use Rattle.std.specs.Prelude.{◌≡◌, ◌<◌, ◌≤◌, ◌/◌, ◌%◌, [], false, length, slice_index_or, IfSome};
ghost use Rattle.std.specs.Fn.{FnReturnsAt};
ghost use Rattle.xl_curve.specs.Places.{distance, is_vacant, leaf_in};
ghost use Rattle.xl_curve.specs.Views.{IsCurve, IsRemovedIn, removed, with_front};
ghost use Rattle.xl_curve_model.specs.Curves.{same_leaf};
ghost use Rattle.xl_model.specs.Addresses.{pages_of};
ghost use Rattle.xl_recency.specs.Lists.{IsTest};

use crate::place::Place;
use crate::stack::Stack;
use xl_model::{Leaf, Order, remainder};

/// The set of the leaf of the order that would cover the page.
#[inline(always)]
pub(crate) fn set_of(sets: usize, page: u64, order: Order) -> usize
    requires some { 0 < sets }
    requires most { sets ≤ 256 }
    ensures value { result ≡ page / pages_of order % sets }
    ensures within { result < sets }
{
    let sets = sets as u32;
    match order {
        Order::K4 => remainder(page, sets),
        Order::M2 => remainder(page / 512, sets),
        Order::G1 => remainder(page / 262_144, sets),
    }
}

/// Puts a leaf in front of the list of its set, and gives the distance at which it was.
#[inline(always)]
pub(crate) fn access_in(stacks: &mut [Stack], set: usize, leaf: Place) -> Option<usize>
    requires set { set < length stacks.old }
    requires leaf { is_vacant leaf ≡ false }
    ensures stacks { stacks.new ≡ with_front set (leaf_in leaf) stacks.old }
    ensures distance { result ≡
        distance (same_leaf (leaf_in leaf)) (slice_index_or stacks.old set []) }
    ensures below { IfSome result (λ d. d < 64) }
{
    let stack = &mut stacks[set];
    stack.access(leaf)
}

/// Removes the leaves of one set that pass the test.
pub(crate) fn remove_in<P: Fn(&Leaf) -> bool>(stacks: &mut [Stack], set: usize, test: P)
    requires set { set < length stacks.old }
    requires test { P.IsAlwaysCallable test }
    ensures { (q : _) → IsTest (FnReturnsAt P.Fn test) q →
        IsRemovedIn q set stacks.old stacks.new }
{
    let stack = &mut stacks[set];
    stack.remove_where(&test);
}

/// Removes the leaves of every set that pass the test.
pub(crate) fn remove_from_each<P: Fn(&Leaf) -> bool>(stacks: &mut [Stack], test: &P)
    requires { P.IsAlwaysCallable test.now }
    ensures removed { (q : _) → IsTest (FnReturnsAt P.Fn test.now) q →
        stacks.new ≡ removed q stacks.old }
    ensures kept { IsCurve stacks.old → IsCurve stacks.new }
    ensures sets { length stacks.new ≡ length stacks.old }
{
    for stack in stacks.iter_mut() {
        stack.remove_where(test);
    }
}
