//! The commands that change the mapping, where nothing refuses them.

ghost use Rattle.std.specs.Prelude.{◌≡◌, None, Some, true, false};
ghost use Rattle.xl_model.specs.Changes.{Insert, Remove, Protect, Relocate, IsNamed};
ghost use Rattle.xl_model.specs.Mapping.{meets_any};
ghost use Rattle.xl_model.specs.Room.{has_room};
ghost use Rattle.xl_model.specs.Structures.{IsBlock, IsLeafFor, table_after};
ghost use Rattle.xl_model.specs.declared.event.Event.TheVariants as event;
ghost use Rattle.xl_radix_walk.specs.Row.{row_table};
ghost use Rattle.xl_harts.specs.Views.{after_own, leaf_of, refusal_of};

use crate::harts::Harts;
use crate::queue::put;
use xl_hart_model::Request;
use xl_model::{Leaf, Mode, Order, Perm, Structure, page_of};
use xl_radix_walk::RadixRow;

/// Adds a leaf for which there is room.
fn insert(table: &mut RadixRow<3>, leaf: Leaf)
    requires valid { IsLeafFor (row_table 3 table.old).shape leaf }
    requires free { meets_any leaf.space leaf.first leaf.order (row_table 3 table.old).leaves
        ≡ false }
    requires room { has_room (Insert leaf) (row_table 3 table.old).leaves
        (row_table 3 table.old).shape ≡ true }
    ensures { row_table 3 table.new ≡ table_after (Insert leaf) (row_table 3 table.old) }
{
    match table.insert(leaf) {
        Ok(_) => {}
        Err(_) => unreachable!(),
    }
}

/// Drops a leaf.
fn remove(table: &mut RadixRow<3>, space: u16, first: u64, order: Order)
    requires { IsNamed space first order (row_table 3 table.old).leaves }
    ensures { row_table 3 table.new ≡ table_after (Remove space first order)
        (row_table 3 table.old) }
{
    match table.remove(space, first, order) {
        Ok(_) => {}
        Err(_) => unreachable!(),
    }
}

/// Gives a leaf another permission.
fn protect(table: &mut RadixRow<3>, space: u16, first: u64, order: Order, perm: Perm)
    requires { IsNamed space first order (row_table 3 table.old).leaves }
    ensures { row_table 3 table.new ≡ table_after (Protect space first order perm)
        (row_table 3 table.old) }
{
    match table.protect(space, first, order, perm) {
        Ok(_) => {}
        Err(_) => unreachable!(),
    }
}

/// Moves a leaf, for which there is room at its new place.
fn relocate(table: &mut RadixRow<3>, space: u16, first: u64, to: u64, order: Order)
    requires there { IsNamed space first order (row_table 3 table.old).leaves }
    requires valid { IsBlock (row_table 3 table.old).shape space to order }
    requires free { meets_any space to order (row_table 3 table.old).leaves ≡ false }
    requires room { has_room (Relocate space first to order) (row_table 3 table.old).leaves
        (row_table 3 table.old).shape ≡ true }
    ensures { row_table 3 table.new ≡ table_after (Relocate space first to order)
        (row_table 3 table.old) }
{
    match table.relocate(space, first, to, order) {
        Ok(_) => {}
        Err(_) => unreachable!(),
    }
}

impl Harts {
    /// Maps a block to the lowest block of frames that is neither mapped nor held back.
    pub(crate) fn map(&mut self, space: u16, va: u64, order: Order, perm: Perm)
        requires { refusal_of (event.Map space va order perm) self.old ≡ None }
        ensures { self.new ≡ after_own (event.Map space va order perm) self.old }
    {
        let Some(frame) = self.frames.take(order) else {
            unreachable!()
        };
        let leaf = Leaf {
            space,
            first: page_of(Mode::Sv39, va),
            order,
            frame,
            perm,
        };
        insert(&mut self.table, leaf);
        let request = Request {
            before: None,
            after: Some(leaf),
        };
        put(&mut self.requests, &mut self.harts, request);
        self.accepted = self.accepted.wrapping_add(1);
    }

    /// Takes the leaf that is named, which is `old`, out of the mapping. Its frames are held back.
    pub(crate) fn unmap(&mut self, space: u16, va: u64, order: Order, old: Leaf)
        requires ruled { refusal_of (event.Unmap space va order) self.old ≡ None }
        requires found { leaf_of space va self.old ≡ Some old }
        ensures { self.new ≡ after_own (event.Unmap space va order) self.old }
    {
        remove(&mut self.table, space, page_of(Mode::Sv39, va), order);
        let request = Request {
            before: Some(old),
            after: None,
        };
        put(&mut self.requests, &mut self.harts, request);
        self.accepted = self.accepted.wrapping_add(1);
    }

    /// Gives the leaf that is named, which is `old`, another permission.
    pub(crate) fn protect(&mut self, space: u16, va: u64, order: Order, perm: Perm, old: Leaf)
        requires ruled { refusal_of (event.Protect space va order perm) self.old ≡ None }
        requires found { leaf_of space va self.old ≡ Some old }
        ensures { self.new ≡ after_own (event.Protect space va order perm) self.old }
    {
        protect(&mut self.table, space, page_of(Mode::Sv39, va), order, perm);
        let request = Request {
            before: Some(old),
            after: Some(Leaf { perm, ..old }),
        };
        put(&mut self.requests, &mut self.harts, request);
        self.accepted = self.accepted.wrapping_add(1);
    }

    /// Moves the leaf that is named, which is `old`, to another block, with its frames and its
    /// permission.
    pub(crate) fn relocate(&mut self, space: u16, from: u64, to: u64, order: Order, old: Leaf)
        requires ruled { refusal_of (event.Move space from to order) self.old ≡ None }
        requires found { leaf_of space from self.old ≡ Some old }
        ensures { self.new ≡ after_own (event.Move space from to order) self.old }
    {
        let place = page_of(Mode::Sv39, to);
        relocate(
            &mut self.table,
            space,
            page_of(Mode::Sv39, from),
            place,
            order,
        );
        let request = Request {
            before: Some(old),
            after: Some(Leaf {
                first: place,
                ..old
            }),
        };
        put(&mut self.requests, &mut self.harts, request);
        self.accepted = self.accepted.wrapping_add(1);
    }
}
