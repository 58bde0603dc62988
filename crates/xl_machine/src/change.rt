//! The commands that change the mapping, where no rule refuses them.

ghost use Rattle.std.specs.Prelude.{◌≡◌, ◌<◌, ◌^◌, None};
ghost use Rattle.xl_model.specs.RowRun.{outcome_of};
ghost use Rattle.xl_model.specs.declared.event.Event.TheVariants as event;
ghost use Rattle.xl_machine.specs.Rules.{rule_of, leaf_of};
ghost use Rattle.xl_machine.specs.Served.{after_of};

use crate::machine::{Machine, done, refuse};
use xl_model::{Leaf, Order, Outcome, Perm, Structure, page_of};

impl<S: Structure> Machine<S> {
    /// Maps a block to the lowest free block of frames.
    pub(crate) fn map(&mut self, space: u16, va: u64, order: Order, perm: Perm) -> Outcome
        requires { rule_of (event.Map space va order perm) self.old ≡ None }
        ensures answer { result
            ≡ outcome_of self.old.row (event.Map space va order perm) self.old.state }
        ensures after { self.new ≡ after_of (event.Map space va order perm) self.old }
    {
        let first = page_of(self.row.mode, va);
        let Some(frame) = self.frames.take(order) else {
            unreachable!()
        };
        let leaf = Leaf {
            space,
            first,
            order,
            frame,
            perm,
        };
        match self.table.insert(leaf) {
            Ok(work) => {
                done(&mut self.counts, work, 0);
                Outcome::Done
            }
            Err(refused) => {
                self.frames.give(frame, order);
                Outcome::Refused(refuse(&mut self.counts, refused))
            }
        }
    }

    /// Takes the leaf that is named, which is `old`, out of the mapping.
    pub(crate) fn unmap(&mut self, space: u16, va: u64, order: Order, old: Leaf) -> Outcome
        requires ruled { rule_of (event.Unmap space va order) self.old ≡ None }
        requires found { leaf_of space va self.old ≡ Some old }
        ensures answer { result
            ≡ outcome_of self.old.row (event.Unmap space va order) self.old.state }
        ensures after { self.new ≡ after_of (event.Unmap space va order) self.old }
    {
        let first = page_of(self.row.mode, va);
        match self.table.remove(space, first, order) {
            Ok(work) => {
                self.frames.give(old.frame, old.order);
                let left = self.tlb.purge(self.row.purge, old);
                done(&mut self.counts, work, left);
                Outcome::Done
            }
            Err(refused) => Outcome::Refused(refuse(&mut self.counts, refused)),
        }
    }

    /// Gives the leaf that is named, which is `old`, another permission.
    pub(crate) fn protect(
        &mut self,
        space: u16,
        va: u64,
        order: Order,
        perm: Perm,
        old: Leaf,
    ) -> Outcome
        requires ruled { rule_of (event.Protect space va order perm) self.old ≡ None }
        requires found { leaf_of space va self.old ≡ Some old }
        ensures answer { result
            ≡ outcome_of self.old.row (event.Protect space va order perm) self.old.state }
        ensures after { self.new ≡ after_of (event.Protect space va order perm) self.old }
    {
        let first = page_of(self.row.mode, va);
        match self.table.protect(space, first, order, perm) {
            Ok(work) => {
                let left = self.tlb.purge(self.row.purge, old);
                done(&mut self.counts, work, left);
                Outcome::Done
            }
            Err(refused) => Outcome::Refused(refuse(&mut self.counts, refused)),
        }
    }

    /// Moves the leaf that is named, which is `old`, to another block, with its frames and its
    /// permission.
    pub(crate) fn relocate(
        &mut self,
        space: u16,
        from: u64,
        to: u64,
        order: Order,
        old: Leaf,
    ) -> Outcome
        requires ruled { rule_of (event.Move space from to order) self.old ≡ None }
        requires found { leaf_of space from self.old ≡ Some old }
        ensures answer { result
            ≡ outcome_of self.old.row (event.Move space from to order) self.old.state }
        ensures after { self.new ≡ after_of (event.Move space from to order) self.old }
    {
        let first = page_of(self.row.mode, from);
        let place = page_of(self.row.mode, to);
        match self.table.relocate(space, first, place, order) {
            Ok(work) => {
                let left = self.tlb.purge(self.row.purge, old);
                done(&mut self.counts, work, left);
                Outcome::Done
            }
            Err(refused) => Outcome::Refused(refuse(&mut self.counts, refused)),
        }
    }
}
