//! What purges and fences take from a curve.

ghost use Rattle.std.specs.Prelude.{◌≡◌, ◌<◌, ℕ, length};
ghost use Rattle.xl_curve.specs.Places.{IsNamed};
ghost use Rattle.xl_curve.specs.Tests.{purges};
ghost use Rattle.xl_curve.specs.Views.{IsCurve, IsRemovedIn, removed};
ghost use Rattle.xl_curve_model.specs.Curves.{curve_without};
ghost use Rattle.xl_model.specs.Mapping.{covers, is_leaf};
ghost use Rattle.xl_model.specs.Tlb.{covers_as, reaches_leaf};
ghost use Rattle.xl_array.specs.Arrays.{covers_anywhere, covers_anywhere_as, is_any, is_of_space};
ghost use Rattle.xl_model.specs.declared.address.Order.{Order as OrderOf};

use crate::curve::Curve;
use crate::place::Place;
use crate::sets::{remove_in, set_of};
use crate::stack::Stack;
use xl_model::{Leaf, Order, Purge, Reach};

/// Whether a leaf is the one of this space, first page and order.
fn is_named(leaf: &Leaf, space: u16, first: u64, order: Order) -> bool
    ensures { result ≡ is_leaf space first order leaf.now }
{
    leaf.space == space && leaf.first == first && leaf.order.level() == order.level()
}

/// Whether a leaf is of this space and order and covers the page.
fn is_covering(leaf: &Leaf, space: u16, page: u64, order: Order) -> bool
    ensures { result ≡ covers_as space page order leaf.now }
{
    leaf.order.level() == order.level()
        && leaf.space == space
        && leaf.first <= page
        && page - leaf.first < leaf.order.pages()
}

/// Removes the leaves of a name from one set.
fn remove_place_in(stacks: &mut [Stack], set: usize, named: Place)
    requires { set < length stacks.old }
    ensures { (space first : ℕ) (o : OrderOf) → IsNamed space first o named →
        IsRemovedIn (is_leaf space first o) set stacks.old stacks.new }
{
    let stack = &mut stacks[set];
    stack.remove_named(named);
}

/// Removes the leaf of this space, first page and order from one set.
fn remove_named_in(stacks: &mut [Stack], set: usize, space: u16, first: u64, order: Order)
    requires { set < length stacks.old }
    ensures { IsRemovedIn (is_leaf space first order) set stacks.old stacks.new }
{
    match Place::named(space, first, order) {
        Some(named) => remove_place_in(stacks, set, named),
        None => remove_in(stacks, set, |leaf| is_named(leaf, space, first, order)),
    }
}

/// Removes the leaf of this space and order that covers the page from one set.
fn remove_covering_in(stacks: &mut [Stack], set: usize, space: u16, page: u64, order: Order)
    requires { set < length stacks.old }
    ensures { IsRemovedIn (covers_as space page order) set stacks.old stacks.new }
{
    remove_in(stacks, set, |leaf| is_covering(leaf, space, page, order));
}

/// Removes the leaves of any space and of this order that cover the page from one set.
fn remove_anywhere_in(stacks: &mut [Stack], set: usize, page: u64, order: Order)
    requires { set < length stacks.old }
    ensures { IsRemovedIn (covers_anywhere_as page order) set stacks.old stacks.new }
{
    remove_in(
        stacks,
        set,
        |leaf| is_covering(leaf, leaf.space, page, order),
    );
}

/// Removes the leaf of this space, first page and order. It looks at one set.
fn remove_named(stacks: &mut [Stack], space: u16, first: u64, order: Order)
    requires { IsCurve stacks.old }
    ensures { stacks.new ≡ removed (is_leaf space first order) stacks.old }
{
    let set = set_of(stacks.len(), first, order);
    remove_named_in(stacks, set, space, first, order);
}

/// Removes the leaf of this space and order that covers the page. It looks at one set.
fn remove_as(stacks: &mut [Stack], space: u16, page: u64, order: Order)
    requires { IsCurve stacks.old }
    ensures removed { stacks.new ≡ removed (covers_as space page order) stacks.old }
    ensures kept { IsCurve stacks.new }
{
    let set = set_of(stacks.len(), page, order);
    remove_covering_in(stacks, set, space, page, order);
}

/// Removes the leaves of any space and of this order that cover the page. It looks at one set.
fn remove_anywhere_as(stacks: &mut [Stack], page: u64, order: Order)
    requires { IsCurve stacks.old }
    ensures removed { stacks.new ≡ removed (covers_anywhere_as page order) stacks.old }
    ensures kept { IsCurve stacks.new }
{
    let set = set_of(stacks.len(), page, order);
    remove_anywhere_in(stacks, set, page, order);
}

/// Removes the leaves of a space that cover the page. It looks at one set for each order.
fn remove_page(stacks: &mut [Stack], space: u16, page: u64)
    requires { IsCurve stacks.old }
    ensures { stacks.new ≡ removed (covers space page) stacks.old }
{
    remove_as(stacks, space, page, Order::K4);
    remove_as(stacks, space, page, Order::M2);
    remove_as(stacks, space, page, Order::G1);
}

/// Removes the leaves of any space that cover the page. It looks at one set for each order.
fn remove_anywhere(stacks: &mut [Stack], page: u64)
    requires { IsCurve stacks.old }
    ensures { stacks.new ≡ removed (covers_anywhere page) stacks.old }
{
    remove_anywhere_as(stacks, page, Order::K4);
    remove_anywhere_as(stacks, page, Order::M2);
    remove_anywhere_as(stacks, page, Order::G1);
}

impl Curve {
    /// Removes the leaf of this space, first page and order. It looks at one set.
    pub fn drop_leaf(&mut self, space: u16, first: u64, order: Order)
        ensures { self.new ≡ curve_without (is_leaf space first order) self.old }
    {
        remove_named(&mut self.stacks, space, first, order);
    }

    /// Removes the leaves of a space that cover the page. It looks at one set for each order.
    pub fn drop_page(&mut self, space: u16, page: u64)
        ensures { self.new ≡ curve_without (covers space page) self.old }
    {
        remove_page(&mut self.stacks, space, page);
    }

    /// Removes the leaves of any space that cover the page. It looks at one set for each order.
    pub fn drop_anywhere(&mut self, page: u64)
        ensures { self.new ≡ curve_without (covers_anywhere page) self.old }
    {
        remove_anywhere(&mut self.stacks, page);
    }

    /// Removes the leaves of a space.
    pub fn drop_space(&mut self, space: u16)
        ensures { self.new ≡ curve_without (is_of_space space) self.old }
    {
        self.drop_where(|leaf| leaf.space == space)
    }

    /// Removes all leaves.
    pub fn drop_all(&mut self)
        ensures { self.new ≡ curve_without is_any self.old }
    {
        self.drop_where(|_| true)
    }

    /// Removes what an accepted unmap, protect or move of the leaf of this name takes from arrays.
    pub fn purge(&mut self, purge: Purge, space: u16, first: u64, order: Order)
        ensures { self.new ≡ curve_without (purges purge space first order) self.old }
    {
        match purge {
            Purge::Page => self.drop_leaf(space, first, order),
            Purge::Space => self.drop_space(space),
            Purge::All => self.drop_all(),
        }
    }

    /// Removes what a fence takes from arrays.
    pub fn fence(&mut self, reach: Reach)
        ensures { self.new ≡ curve_without (reaches_leaf reach) self.old }
    {
        match reach {
            Reach::All => self.drop_all(),
            Reach::Space { space } => self.drop_space(space),
            Reach::Addr { page } => self.drop_anywhere(page),
            Reach::Page { space, page } => self.drop_page(space, page),
        }
    }
}
